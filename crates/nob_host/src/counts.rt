//! What a space has, and what came from a peer.

ghost use Rattle.std.specs.Prelude.{◌≡◌, List, true, false, None};
ghost use Rattle.nob_ids.specs.Names.{IsSpace};
ghost use Rattle.nob_model_types.specs.declared.entry.Entry.{Entry};
ghost use Rattle.nob_model_types.specs.Sessions.{is_peer};
ghost use Rattle.nob_space.specs.Counts as words;
ghost use Rattle.nob_space.specs.Spaces.{StandsFor};
ghost use Rattle.nob_host_space.specs.Counts as counts;
ghost use Rattle.nob_host_space.specs.Kept.{Through};
ghost use Rattle.nob_host_space.specs.Looks.{or_zero, past_of};

use nob_host_space::{
    Front, Handle, PeerCounts, SpaceCounts, counts_of_no_peer, counts_of_no_space,
};
use std::alloc::Global;

/// The version of these functions: it rises whenever a function, a struct or a status changes. A
/// program that was written for another one makes no space.
#[unsafe(no_mangle)]
pub extern "C" fn nob_version() -> u32
    ensures { result ≡ 4 }
{
    4
}

/// How much the space has: objects, surrogates, calls and messages.
#[unsafe(no_mangle)]
pub extern "C" fn nob_counts(handle: &mut Handle, alloc: Global, counted: &mut SpaceCounts)
    ensures counts { Through handle.old.held handle.new.held (λ old new. (L : List Entry)
        → StandsFor old.space L → counted.new ≡ words.counts old.space.id old.space.n
        (past_of old.space L)) }
    ensures same { Through handle.old.held handle.new.held (λ old new. new ≡ old) }
    ensures empty { handle.old.held ≡ None → (handle.new.held ≡ None)
        × (counted.new ≡ counts.no_space_counts) }
{
    let Some(host) = handle.take(alloc) else {
        *counted = counts_of_no_space();
        return;
    };
    *counted = host.counts();
    handle.put(host);
}

/// How much of what the space has is with a peer: all is 0 where the number is no peer's. It looks
/// for each message of the peer that waits, for each of its ready jobs, and at each surrogate.
#[unsafe(no_mangle)]
pub extern "C" fn nob_peer_counts(
    handle: &mut Handle,
    alloc: Global,
    peer: u16,
    counted: &mut PeerCounts,
)
    ensures counts { IsSpace peer → Through handle.old.held handle.new.held (λ old new. is_peer
        old.space.id old.space.n peer ≡ true → (L : List Entry) → StandsFor old.space L
        → counted.new ≡ words.peer_counts old.space.id old.space.n peer (past_of old.space L)) }
    ensures none { Through handle.old.held handle.new.held (λ old new. is_peer old.space.id
        old.space.n peer ≡ false → counted.new ≡ counts.no_counts) }
    ensures range { (IsSpace peer → ⊥) → counted.new ≡ counts.no_counts }
    ensures same { Through handle.old.held handle.new.held (λ old new. new ≡ old) }
    ensures empty { handle.old.held ≡ None → (handle.new.held ≡ None)
        × (counted.new ≡ counts.no_counts) }
{
    let Some(host) = handle.take(alloc) else {
        *counted = counts_of_no_peer();
        return;
    };
    *counted = host.peer_counts(peer);
    handle.put(host);
}

/// What an Act on a peer would act on: nothing where the number is no peer's, the session with it
/// has closed here, or nothing waits.
#[unsafe(no_mangle)]
pub extern "C" fn nob_front(handle: &mut Handle, alloc: Global, peer: u16, front: &mut Front)
    ensures front { IsSpace peer → Through handle.old.held handle.new.held (λ old new.
        (L : List Entry) → StandsFor old.space L → front.new ≡ counts.shown
        (words.front old.space.id old.space.n peer (past_of old.space L))) }
    ensures range { (IsSpace peer → ⊥) → front.new ≡ counts.no_front }
    ensures same { Through handle.old.held handle.new.held (λ old new. new ≡ old) }
    ensures empty { handle.old.held ≡ None → (handle.new.held ≡ None)
        × (front.new ≡ counts.no_front) }
{
    let Some(host) = handle.take(alloc) else {
        *front = Front::nothing();
        return;
    };
    *front = host.front(peer);
    handle.put(host);
}

/// The number of the call whose reply became ready first, of those that weren't taken, or 0 where
/// none is ready. It says nothing of the calls that a close ended.
#[unsafe(no_mangle)]
pub extern "C" fn nob_next_reply(handle: &mut Handle, alloc: Global) -> u64
    ensures next { Through handle.old.held handle.new.held (λ old new. (L : List Entry)
        → StandsFor old.space L → result ≡ or_zero (words.next_reply (past_of old.space L))) }
    ensures same { Through handle.old.held handle.new.held (λ old new. new ≡ old) }
    ensures empty { handle.old.held ≡ None → (handle.new.held ≡ None) × (result ≡ 0) }
{
    let Some(host) = handle.take(alloc) else {
        return 0;
    };
    let call = host.next_reply();
    handle.put(host);
    call
}
