//! The beginning and the end of a space.

ghost use Rattle.std.specs.Prelude.{◌≡◌, ◌≢◌, IsSome, None, length};
ghost use Rattle.nob_host_space.specs.Kept.{HasSome};
ghost use Rattle.nob_host_space.specs.Asked.{AreNumbers, IsNew};
ghost use Rattle.nob_host_space.specs.Births.{AreBirthNumbers, IsBegun, RefusesBirth, birth_with};

use nob_host_space::{Handle, Host, KEEPS_ONE, OUT_OF_RANGE, WANTED, birth_of};
use std::alloc::Global;

/// Makes a space, which the handle keeps: the status. 60 where a number is outside its range, 14
/// for want of memory; the handle keeps nothing then. 67 where it keeps a space already, which
/// stays.
#[unsafe(no_mangle)]
pub extern "C" fn nob_new(
    handle: &mut Handle,
    alloc: Global,
    id: u16,
    n: u16,
    window: u64,
    retry: u64,
) -> u32
    ensures made { handle.old.held ≡ None → result ≡ 0
        → HasSome handle.new.held (λ host. IsNew host id n window retry) }
    ensures not_made { handle.old.held ≡ None → result ≢ 0 → handle.new.held ≡ None }
    ensures memory { handle.old.held ≡ None → AreNumbers id n window retry → result ≢ 0
        → result ≡ 14 }
    ensures range { handle.old.held ≡ None → (AreNumbers id n window retry → ⊥) → result ≡ 60 }
    ensures full { IsSome handle.old.held → (handle.new.held ≡ handle.old.held) × (result ≡ 67) }
{
    if let Some(host) = handle.take(alloc) {
        handle.put(host);
        return KEEPS_ONE;
    }
    match Host::new(alloc, id, n, window, retry) {
        Ok(host) => match Box::new(alloc, host) {
            Ok(host) => {
                handle.put(host);
                0
            }
            Err(_) => WANTED,
        },
        Err(status) => status,
    }
}

/// Makes a space whose life begins behind so many indexes, calls and jobs, with these numbers of
/// its sessions, that with space p at place p - 1; the handle keeps it: the status. The own place
/// isn't read. Else the first of these, and the handle keeps nothing: 60 where a number is outside
/// its range, or the session numbers aren't as many as the spaces; 71, 72 or 73 where the indexes,
/// the calls or the jobs are above 2^48; 74 where the session with a peer has a number below 2; 75
/// where calls and jobs together are above 2^40 for each earlier session, whichever the peer; 14
/// for want of memory. What a new space begins with (nothing before, each session in number 1) is
/// right, too. Before all these 67 where the handle keeps a space already, which stays.
#[unsafe(no_mangle)]
pub extern "C" fn nob_begin_at(
    handle: &mut Handle,
    alloc: Global,
    id: u16,
    n: u16,
    window: u64,
    retry: u64,
    indexes: u64,
    calls: u64,
    jobs: u64,
    sessions: &[u32],
) -> u32
    ensures made { handle.old.held ≡ None → result ≡ 0
        → HasSome handle.new.held (λ host. IsBegun host id n window retry
        (birth_with indexes calls jobs sessions.now)) }
    ensures not_made { handle.old.held ≡ None → result ≢ 0 → handle.new.held ≡ None }
    ensures refused { handle.old.held ≡ None
        → AreBirthNumbers id n window retry (length sessions.now) → result ≢ 0
        → RefusesBirth id n (birth_with indexes calls jobs sessions.now) result }
    ensures range { handle.old.held ≡ None
        → (AreBirthNumbers id n window retry (length sessions.now) → ⊥) → result ≡ 60 }
    ensures full { IsSome handle.old.held → (handle.new.held ≡ handle.old.held) × (result ≡ 67) }
{
    if let Some(host) = handle.take(alloc) {
        handle.put(host);
        return KEEPS_ONE;
    }
    if n > 32 || sessions.len() != n as usize {
        return OUT_OF_RANGE;
    }
    let birth = birth_of(indexes, calls, jobs, sessions);
    match Host::begin_at(alloc, id, n, window, retry, &birth) {
        Ok(host) => match Box::new(alloc, host) {
            Ok(begun) => {
                handle.put(begun);
                0
            }
            Err(_) => WANTED,
        },
        Err(status) => status,
    }
}

/// Ends the space, if the handle keeps one, and gives its memory back: the handle keeps nothing
/// then.
#[unsafe(no_mangle)]
pub extern "C" fn nob_end(handle: &mut Handle, alloc: Global)
    ensures { handle.new.held ≡ None }
{
    drop(handle.take(alloc));
}
