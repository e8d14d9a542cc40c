//! How a link ends: its two ends give what is left.

ghost use Rattle.std.specs.Prelude.{◌≡◌, ◌++◌, [], ◌≤◌, ◌+◌, length, true, vec_len, vec_capacity, MatchResult};
ghost use Rattle.crossbeam_channel.specs.Claims.{IsSeatAt};
ghost use Rattle.crossbeam_channel.specs.Ends.{sends_on, receives_on};
ghost use Rattle.nob_link.specs.Ends.{known_by};

use crate::MOST_PARCELS;
use crate::ends::{PutEnd, TakeEnd};
use crate::parcel::Parcel;
use crate::rule::{InOrder, Known, Rest, Roles};
use crossbeam_channel::{Pass, RuledReceiver};
use std::alloc::Global;
use std::sync::Wait;

/// What was put and not taken, by the two ends of one link: the first first. Both ends come back
/// for want of memory. Linear in what is left.
pub fn finish<R: Wait>(
    rt: &R,
    alloc: Global,
    put_end: PutEnd,
    take_end: TakeEnd,
) -> Result<Vec<Parcel>, (PutEnd, TakeEnd)>
    requires { put_end.link ≡ take_end.link }
    ensures { MatchResult result (λ rest. put_end.put ≡ take_end.taken ++ rest.items)
        (λ ends. (ends.0 ≡ put_end) × (ends.1 ≡ take_end)) }
{
    let Ok(room) = Vec::with_capacity(alloc, MOST_PARCELS) else {
        return Err((put_end, take_end));
    };
    let (sender, mut pass) = put_end.into_parts();
    let (receiver, taker) = take_end.into_parts();
    sender.absorb::<Roles>(&mut pass, taker);
    sender.learn_as::<Rest>(&mut pass);
    Ok(take_rest(rt, &receiver, pass, room))
}

// Takes all that is left into a vector that has room for it. The pass is that of both ends.
fn take_rest<R: Wait>(
    rt: &R,
    receiver: &RuledReceiver<Parcel, Known, InOrder>,
    mut pass: Pass<Parcel, Known>,
    mut rest: Vec<Parcel>,
) -> Vec<Parcel>
    requires channel { IsSeatAt (receives_on receiver.now) pass }
    requires both { ((known_by pass).puts ≡ true) × ((known_by pass).takes ≡ true) }
    requires room { (rest.items ≡ []) × (length (known_by pass).put
        ≤ length (known_by pass).taken + vec_capacity rest) }
    ensures { (known_by pass).put ≡ (known_by pass).taken ++ result.items }
{
    for _ in rt.forever() {
        match receiver.try_recv_as::<Rest, R>(rt, &mut pass) {
            Ok(parcel) => rest.push_reserved(parcel),
            Err(_) => return rest,
        }
    }
    unreachable!()
}
