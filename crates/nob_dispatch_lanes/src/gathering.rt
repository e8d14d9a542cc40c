//! How a lane ends: all its ends give what is left.

ghost use Rattle.std.specs.Prelude.{◌≡◌, ◌≤◌, ◌<◌, ◌+◌, ◌++◌, [], ℕ, length, vec_capacity, MatchResult};
ghost use Rattle.std.specs.List.{AllByRecursion};
ghost use Rattle.crossbeam_channel.specs.Claims.{IsSeatAt};
ghost use Rattle.crossbeam_channel.specs.Ends.{sends_on, receives_on};
ghost use Rattle.nob_dispatch_lanes.specs.Balance.{all_parts, weigh, count};
ghost use Rattle.nob_dispatch_lanes.specs.Ends.{parts_of, given_by, got_by};
ghost use Rattle.nob_dispatch_lanes.specs.Lanes.{AreAllEnds, IsOneLane, all_given, all_got, getting_parts, giving_parts};

use crate::MOST_ERRANDS;
use crate::ends::{LanePut, LaneTake};
use crate::rule::{Cut, Fair, Knowledge, Rest};
use crossbeam_channel::{Pass, RuledReceiver, RuledSender};
use std::alloc::Global;
use std::sync::Wait;

/// What was given and not got, by all ends of one lane: so each errand that was given was got, or is
/// here, as often. All ends come back for want of memory. Linear in the ends and in what is left.
pub fn gather<T: Drop, R: Wait>(
    rt: &R,
    alloc: Global,
    puts: Vec<LanePut<T>>,
    takes: Vec<LaneTake<T>>,
) -> Result<Vec<T>, (Vec<LanePut<T>>, Vec<LaneTake<T>>)>
    requires ends { AreAllEnds puts.items takes.items }
    requires puts { 1 ≤ length puts.items }
    requires takes { 1 ≤ length takes.items }
    ensures answer { MatchResult result
        (λ rest. (weight : T → ℕ) → weigh weight (all_given puts.items)
        ≡ weigh weight (all_got takes.items) + weigh weight rest.items)
        (λ ends. (ends.0 ≡ puts) × (ends.1 ≡ takes)) }
{
    let Ok(room) = Vec::with_capacity(alloc, MOST_ERRANDS) else {
        return Err((puts, takes));
    };
    let mut puts = puts;
    let mut takes = takes;
    let LanePut { sender, pass, .. } = puts.remove(0);
    let pass = join_givers(&sender, pass, puts);
    let LaneTake {
        receiver,
        pass: first,
        ..
    } = takes.remove(0);
    let pass = join(&sender, pass, first);
    let mut pass = join_getters(&sender, pass, takes);
    sender.learn_as::<Rest>(&mut pass);
    Ok(take_rest(rt, &receiver, pass, room))
}

// What two passes of a lane know, in one.
fn join<T: Drop>(
    sender: &RuledSender<T, Knowledge<T>, Fair>,
    mut pass: Pass<T, Knowledge<T>>,
    other: Pass<T, Knowledge<T>>,
) -> Pass<T, Knowledge<T>>
    requires lane { IsSeatAt (sends_on sender.now) pass × IsSeatAt (sends_on sender.now) other }
    requires some { 0 < parts_of pass }
    ensures lane { IsSeatAt (sends_on sender.now) result }
    ensures parts { parts_of result ≡ parts_of pass + parts_of other }
    ensures given { given_by result ≡ given_by pass ++ given_by other }
    ensures got { got_by result ≡ got_by pass ++ got_by other }
{
    sender.absorb::<Cut>(&mut pass, other);
    pass
}

// What a pass and ends that give know, in one.
fn join_givers<T: Drop>(
    sender: &RuledSender<T, Knowledge<T>, Fair>,
    pass: Pass<T, Knowledge<T>>,
    mut ends: Vec<LanePut<T>>,
) -> Pass<T, Knowledge<T>>
    requires lane { IsSeatAt (sends_on sender.now) pass }
    requires lanes { AllByRecursion (λ end. IsSeatAt (sends_on sender.now) end.pass) ends.items }
    requires some { 0 < parts_of pass }
    ensures lane { IsSeatAt (sends_on sender.now) result }
    ensures parts { parts_of result ≡ parts_of pass + giving_parts ends.items }
    ensures given { given_by result ≡ given_by pass ++ all_given ends.items }
    ensures got { got_by result ≡ got_by pass }
{
    if ends.is_empty() {
        return pass;
    }
    let LanePut {
        sender: _sender,
        pass: other,
        ..
    } = ends.remove(0);
    let pass = join(sender, pass, other);
    join_givers(sender, pass, ends)
}

// What a pass and ends that get know, in one.
fn join_getters<T: Drop>(
    sender: &RuledSender<T, Knowledge<T>, Fair>,
    pass: Pass<T, Knowledge<T>>,
    mut ends: Vec<LaneTake<T>>,
) -> Pass<T, Knowledge<T>>
    requires lane { IsSeatAt (sends_on sender.now) pass }
    requires lanes { AllByRecursion (λ end. IsSeatAt (sends_on sender.now) end.pass) ends.items }
    requires some { 0 < parts_of pass }
    ensures lane { IsSeatAt (sends_on sender.now) result }
    ensures parts { parts_of result ≡ parts_of pass + getting_parts ends.items }
    ensures given { given_by result ≡ given_by pass }
    ensures got { got_by result ≡ got_by pass ++ all_got ends.items }
{
    if ends.is_empty() {
        return pass;
    }
    let LaneTake {
        receiver: _receiver,
        pass: other,
        ..
    } = ends.remove(0);
    let pass = join(sender, pass, other);
    join_getters(sender, pass, ends)
}

// Takes all that is left into a vector that has room for it. The pass has all parts.
fn take_rest<T: Drop, R: Wait>(
    rt: &R,
    receiver: &RuledReceiver<T, Knowledge<T>, Fair>,
    mut pass: Pass<T, Knowledge<T>>,
    mut rest: Vec<T>,
) -> Vec<T>
    requires lane { IsSeatAt (receives_on receiver.now) pass }
    requires whole { parts_of pass ≡ all_parts }
    requires room { (rest.items ≡ [])
        × (count (given_by pass) ≤ count (got_by pass) + vec_capacity rest) }
    ensures { (weight : T → ℕ) → weigh weight (given_by pass)
        ≡ weigh weight (got_by pass) + weigh weight result.items }
{
    for _ in rt.forever() {
        match receiver.try_recv_as::<Rest, R>(rt, &mut pass) {
            Ok(errand) => rest.push_reserved(errand),
            Err(_) => return rest,
        }
    }
    unreachable!()
}
