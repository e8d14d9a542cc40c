//! What can be seen of a space.

ghost use Rattle.std.specs.Prelude.{◌≡◌, ◌≤◌, ◌-◌, ℕ, List, true, false, None, is_some};
ghost use Rattle.std.specs.Int.{bit_at};
ghost use Rattle.nob_ids.specs.Names.{IsSpace};
ghost use Rattle.nob_model_types.specs.declared.entry.Entry.{Entry};
ghost use Rattle.nob_model_types.specs.Deeds.{deeds};
ghost use Rattle.nob_model_types.specs.Sessions.{is_peer};
ghost use Rattle.nob_model_history.specs.Histories.{history};
ghost use Rattle.nob_model_history.specs.Listing.{is_listed};
ghost use Rattle.nob_model.specs.Next as next;
ghost use Rattle.nob_model.specs.Tallies as tallies;
ghost use Rattle.nob_space_state.specs.Dues as dues;
ghost use Rattle.nob_space.specs.Spaces.{StandsFor};
ghost use Rattle.nob_host_space.specs.Bits.{bit_of};
ghost use Rattle.nob_host_space.specs.Kept.{Through};
ghost use Rattle.nob_host_space.specs.Looks as looks;
ghost use Rattle.nob_host_space.specs.Looks.{ShowsWork};

use nob_host_space::{Handle, Tally, Work};
use std::alloc::Global;

/// The number of the space.
#[unsafe(no_mangle)]
pub extern "C" fn nob_id(handle: &mut Handle, alloc: Global) -> u16
    ensures id { Through handle.old.held handle.new.held (λ old new. result ≡ old.space.id) }
    ensures same { Through handle.old.held handle.new.held (λ old new. new ≡ old) }
    ensures empty { handle.old.held ≡ None → (handle.new.held ≡ None) × (result ≡ 0) }
{
    let Some(host) = handle.take(alloc) else {
        return 0;
    };
    let id = host.id();
    handle.put(host);
    id
}

/// How many spaces there are.
#[unsafe(no_mangle)]
pub extern "C" fn nob_n(handle: &mut Handle, alloc: Global) -> u16
    ensures n { Through handle.old.held handle.new.held (λ old new. result ≡ old.space.n) }
    ensures same { Through handle.old.held handle.new.held (λ old new. new ≡ old) }
    ensures empty { handle.old.held ≡ None → (handle.new.held ≡ None) × (result ≡ 0) }
{
    let Some(host) = handle.take(alloc) else {
        return 0;
    };
    let n = host.n();
    handle.put(host);
    n
}

/// Whether a client is listed for the object of an index.
#[unsafe(no_mangle)]
pub extern "C" fn nob_lists(handle: &mut Handle, alloc: Global, index: u64, client: u16) -> bool
    ensures listed { IsSpace client → Through handle.old.held handle.new.held (λ old new. (L : List
        Entry) → StandsFor old.space L → result ≡ is_listed old.space.id index client (deeds L)) }
    ensures range { (IsSpace client → ⊥) → result ≡ false }
    ensures same { Through handle.old.held handle.new.held (λ old new. new ≡ old) }
    ensures empty { handle.old.held ≡ None → (handle.new.held ≡ None) × (result ≡ false) }
{
    let Some(host) = handle.take(alloc) else {
        return false;
    };
    let lists = host.lists(index, client);
    handle.put(host);
    lists
}

/// Whether TakeReply of a call would say anything but that the reply isn't ready.
#[unsafe(no_mangle)]
pub extern "C" fn nob_reply_ready(handle: &mut Handle, alloc: Global, call: u64) -> bool
    ensures ready { Through handle.old.held handle.new.held (λ old new. (L : List Entry)
        → StandsFor old.space L → result ≡ next.reply_ready call (history old.space.id old.space.n
        L)) }
    ensures same { Through handle.old.held handle.new.held (λ old new. new ≡ old) }
    ensures empty { handle.old.held ≡ None → (handle.new.held ≡ None) × (result ≡ false) }
{
    let Some(host) = handle.take(alloc) else {
        return false;
    };
    let ready = host.reply_ready(call);
    handle.put(host);
    ready
}

/// What a Transmit to a peer would give: 0 nothing, 1 an Ack alone, 2 items that were given before,
/// 3 new ones, 4 the Close that is owed.
#[unsafe(no_mangle)]
pub extern "C" fn nob_due(handle: &mut Handle, alloc: Global, peer: u16) -> u32
    ensures due { IsSpace peer → Through handle.old.held handle.new.held (λ old new. (L : List
        Entry) → StandsFor old.space L → result ≡ looks.due_number (dues.due old.space.id
        old.space.n peer old.space.limits.window (history old.space.id old.space.n L))) }
    ensures range { (IsSpace peer → ⊥) → result ≡ 0 }
    ensures same { Through handle.old.held handle.new.held (λ old new. new ≡ old) }
    ensures empty { handle.old.held ≡ None → (handle.new.held ≡ None) × (result ≡ 0) }
{
    let Some(host) = handle.take(alloc) else {
        return 0;
    };
    let due = host.due(peer);
    handle.put(host);
    due
}

/// What the space could do next.
#[unsafe(no_mangle)]
pub extern "C" fn nob_work(handle: &mut Handle, alloc: Global, work: &mut Work)
    ensures work { Through handle.old.held handle.new.held
        (λ old new. ShowsWork old.space work.new) }
    ensures same { Through handle.old.held handle.new.held (λ old new. new ≡ old) }
    ensures empty { handle.old.held ≡ None → (handle.new.held ≡ None)
        × (work.new ≡ looks.no_work) }
{
    let Some(host) = handle.take(alloc) else {
        *work = Work::nothing();
        return;
    };
    *work = host.work();
    handle.put(host);
}

/// What went each way on the present session with a peer, and how it ended: all is 0 where the
/// number is no peer's.
#[unsafe(no_mangle)]
pub extern "C" fn nob_tally(handle: &mut Handle, alloc: Global, peer: u16, tally: &mut Tally)
    ensures tally { IsSpace peer → Through handle.old.held handle.new.held (λ old new. is_peer
        old.space.id old.space.n peer ≡ true → (L : List Entry) → StandsFor old.space L
        → tally.new ≡ looks.tally_in_numbers (tallies.tally peer (looks.past_of old.space L))) }
    ensures none { Through handle.old.held handle.new.held (λ old new. is_peer old.space.id
        old.space.n peer ≡ false → tally.new ≡ looks.tally_of_none) }
    ensures range { (IsSpace peer → ⊥) → tally.new ≡ looks.tally_of_none }
    ensures same { Through handle.old.held handle.new.held (λ old new. new ≡ old) }
    ensures empty { handle.old.held ≡ None → (handle.new.held ≡ None)
        × (tally.new ≡ looks.tally_of_none) }
{
    let Some(host) = handle.take(alloc) else {
        *tally = Tally::of_none();
        return;
    };
    *tally = host.tally(peer);
    handle.put(host);
}

/// How many objects are live.
#[unsafe(no_mangle)]
pub extern "C" fn nob_live(handle: &mut Handle, alloc: Global) -> u64
    ensures live { Through handle.old.held handle.new.held (λ old new. (L : List Entry)
        → StandsFor old.space L → result ≡ tallies.live_count old.space.id
        (looks.past_of old.space L)) }
    ensures same { Through handle.old.held handle.new.held (λ old new. new ≡ old) }
    ensures empty { handle.old.held ≡ None → (handle.new.held ≡ None) × (result ≡ 0) }
{
    let Some(host) = handle.take(alloc) else {
        return 0;
    };
    let live = host.live();
    handle.put(host);
    live
}
