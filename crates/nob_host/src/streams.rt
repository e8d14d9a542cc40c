//! Streams of frames, and what was answered in bytes.

ghost use Rattle.std.specs.Prelude.{◌≡◌, ◌++◌, [], ◌∷◌, List, Ok, Some, None, length, take, drop};
ghost use Rattle.nob_ids.specs.Names.{IsSpace};
ghost use Rattle.nob_pickle.specs.declared.value.Value.{Value as ValueOf};
ghost use Rattle.nob_pickle.specs.Writing.{pickle_of};
ghost use Rattle.nob_frame.specs.declared.frame.Frame.{Frame as FrameOf};
ghost use Rattle.nob_host_space.specs.Feeds.{feed_at, SameButOf};
ghost use Rattle.nob_host_space.specs.Kept.{Through};
ghost use Rattle.nob_host_space.specs.Numbers.{is_done, is_wanted};
ghost use Rattle.nob_host_space.specs.Asked.{Pickles, SameStreams, SaysEmpty, Unasked};
ghost use Rattle.nob_host_space.specs.Streams.{Pushed, BroughtOrWants};

use nob_host_space::{Handle, KEEPS_NONE, Told};
use std::alloc::Global;

/// The next piece of the stream from a peer: the frames that are whole now wait, each of them from
/// this peer to this space. Where one is of others the status is 64, and none of them waits.
#[unsafe(no_mangle)]
pub extern "C" fn nob_push(
    handle: &mut Handle,
    alloc: Global,
    peer: u16,
    piece: &[u8],
    told: &mut Told,
) -> u32
    ensures pushed { IsSpace peer → Through handle.old.held handle.new.held (λ old new. old.waiting
        ≡ [] → Pushed peer old.space.id (is_done result) (feed_at old.feeds peer) piece.now
        new.waiting (feed_at new.feeds peer) told.new result) }
    ensures others { Through handle.old.held handle.new.held (λ old new. SameButOf peer old.feeds
        new.feeds) }
    ensures space { Through handle.old.held handle.new.held (λ old new. new.space ≡ old.space) }
    ensures value { Through handle.old.held handle.new.held (λ old new. new.value ≡ old.value) }
    ensures answer { Through handle.old.held handle.new.held (λ old new. new.answer ≡ old.answer) }
    ensures waits { IsSpace peer → Through handle.old.held handle.new.held (λ old new. (frame :
        FrameOf) (rest : List FrameOf) → old.waiting ≡ frame ∷ rest
        → Unasked old new told.new result 61) }
    ensures range { (IsSpace peer → ⊥) → Through handle.old.held handle.new.held (λ old new. Unasked
        old new told.new result 60) }
    ensures empty { SaysEmpty handle.old.held handle.new.held told.new result }
{
    let Some(mut host) = handle.take(alloc) else {
        *told = Told::nothing();
        return KEEPS_NONE;
    };
    let status = host.push(peer, piece, told);
    handle.put(host);
    status
}

/// The first frame that waits comes to the space, and its bytes become the answer.
#[unsafe(no_mangle)]
pub extern "C" fn nob_next(handle: &mut Handle, alloc: Global, told: &mut Told) -> u32
    ensures brought { Through handle.old.held handle.new.held (λ old new. (frame : FrameOf) (rest :
        List FrameOf) → old.waiting ≡ frame ∷ rest → BroughtOrWants old frame rest new told.new
        result) }
    ensures none { Through handle.old.held handle.new.held (λ old new. old.waiting ≡ []
        → Unasked old new told.new result 62) }
    ensures empty { SaysEmpty handle.old.held handle.new.held told.new result }
{
    let Some(mut host) = handle.take(alloc) else {
        *told = Told::nothing();
        return KEEPS_NONE;
    };
    let status = host.next(alloc, told);
    handle.put(host);
    status
}

/// A new stream from a peer: what was kept of the one before is forgotten.
#[unsafe(no_mangle)]
pub extern "C" fn nob_restart(handle: &mut Handle, alloc: Global, peer: u16) -> u32
    ensures fresh { IsSpace peer → Through handle.old.held handle.new.held (λ old new. (result ≡ 0)
        × (feed_at new.feeds peer ≡ Ok [])) }
    ensures others { Through handle.old.held handle.new.held (λ old new. SameButOf peer old.feeds
        new.feeds) }
    ensures space { Through handle.old.held handle.new.held (λ old new. new.space ≡ old.space) }
    ensures value { Through handle.old.held handle.new.held (λ old new. new.value ≡ old.value) }
    ensures answer { Through handle.old.held handle.new.held (λ old new. new.answer ≡ old.answer) }
    ensures waiting { Through handle.old.held handle.new.held
        (λ old new. new.waiting ≡ old.waiting) }
    ensures range { (IsSpace peer → ⊥) → Through handle.old.held handle.new.held (λ old new. (result
        ≡ 60) × (new ≡ old)) }
    ensures empty { handle.old.held ≡ None → (handle.new.held ≡ None) × (result ≡ 65) }
{
    let Some(mut host) = handle.take(alloc) else {
        return KEEPS_NONE;
    };
    let status = host.restart(alloc, peer);
    handle.put(host);
    status
}

/// The pickle of the value that is kept becomes the answer.
#[unsafe(no_mangle)]
pub extern "C" fn nob_value(handle: &mut Handle, alloc: Global) -> u32
    ensures pickled { Through handle.old.held handle.new.held (λ old new. (value : ValueOf)
        → old.value ≡ Some value → Pickles (is_wanted result) result old.answer new.answer
        (pickle_of value)) }
    ensures none { Through handle.old.held handle.new.held (λ old new. old.value ≡ None
        → (result ≡ 63) × (new.answer ≡ old.answer)) }
    ensures space { Through handle.old.held handle.new.held (λ old new. new.space ≡ old.space) }
    ensures value { Through handle.old.held handle.new.held (λ old new. new.value ≡ old.value) }
    ensures streams { Through handle.old.held handle.new.held (λ old new. SameStreams old new) }
    ensures empty { handle.old.held ≡ None → (handle.new.held ≡ None) × (result ≡ 65) }
{
    let Some(mut host) = handle.take(alloc) else {
        return KEEPS_NONE;
    };
    let status = host.pickle(alloc);
    handle.put(host);
    status
}

/// Copies as many bytes of the answer as there is room for: how many it has.
#[unsafe(no_mangle)]
pub extern "C" fn nob_answer(handle: &mut Handle, alloc: Global, out: &mut [u8]) -> usize
    ensures length { Through handle.old.held handle.new.held
        (λ old new. result ≡ length old.answer) }
    ensures copied { Through handle.old.held handle.new.held (λ old new. out.new ≡ take (length
        out.old) old.answer ++ drop (length old.answer) out.old) }
    ensures same { Through handle.old.held handle.new.held (λ old new. new ≡ old) }
    ensures empty { handle.old.held ≡ None → (handle.new.held ≡ None) × (out.new ≡ out.old)
        × (result ≡ 0) }
{
    let Some(host) = handle.take(alloc) else {
        return 0;
    };
    let length = host.copy_answer(out);
    handle.put(host);
    length
}
