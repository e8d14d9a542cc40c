//! Parcels that one thread puts and another takes, and what is known of them then.

ghost use Rattle.std.specs.Prelude.{◌≡◌, ◌++◌, [], IfOk};
ghost use Rattle.test_links.specs.Fronts.{BeginsWith};

use nob_link::{LinkError, Parcel, PutEnd, TakeEnd, finish, link};
use std::alloc::Global;
use std::sync::Wait;
use std::thread;
use std::thread::Threads;

/// Puts parcels in one thread and takes so many of them in another: these, and those that are left
/// in the link. It waits for ever where there are fewer, or 1,024 more.
pub fn carry<R: Threads + Wait + Sync>(
    rt: &R,
    alloc: Global,
    parcels: Vec<Parcel>,
    few: usize,
) -> Result<(Vec<Parcel>, Vec<Parcel>), LinkError>
    ensures { IfOk result (λ got. BeginsWith parcels.items (got.0.items ++ got.1.items)) }
{
    let room = Vec::with_capacity(alloc, few)?;
    let (put, take) = link(alloc, 1024)?;
    let (put, (take, taken)) = thread::join(
        rt,
        move ||
            requires { put.put ≡ [] }
            ensures { (result.link ≡ put.link) × BeginsWith parcels.items result.put }
        { put_each(rt, put, parcels) },
        move ||
            requires { (take.taken ≡ []) × (room.items ≡ []) }
            ensures { (result.0.link ≡ take.link) × (result.0.taken ≡ result.1.items) }
        { take_few(rt, take, room) },
    );
    match finish(rt, alloc, put, take) {
        Ok(left) => Ok((taken, left)),
        Err(_) => Err(LinkError::OutOfMemory),
    }
}

// Puts the parcels, as long as the other end is there.
fn put_each<R: Wait>(rt: &R, mut put: PutEnd, parcels: Vec<Parcel>) -> PutEnd
    requires { put.put ≡ [] }
    ensures link { result.link ≡ put.link }
    ensures put { BeginsWith parcels.items result.put }
{
    for parcel in parcels {
        let Ok(()) = put.put_as(rt, parcel) else {
            return put;
        };
    }
    put
}

// Takes as many parcels as there is room for.
fn take_few<R: Wait>(rt: &R, mut take: TakeEnd, mut room: Vec<Parcel>) -> (TakeEnd, Vec<Parcel>)
    requires { (take.taken ≡ []) × (room.items ≡ []) }
    ensures link { result.0.link ≡ take.link }
    ensures taken { result.0.taken ≡ result.1.items }
{
    while room.len() < room.capacity() {
        let Some(parcel) = take.take_as(rt) else {
            return (take, room);
        };
        room.push_reserved(parcel);
    }
    (take, room)
}
