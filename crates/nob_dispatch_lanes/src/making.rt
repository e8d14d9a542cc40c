//! How a lane is made.

ghost use Rattle.std.specs.Prelude.{◌≡◌, ◌≤◌, ◌<◌, ◌+◌, [], false, length, IfOk};
ghost use Rattle.std.specs.List.{AllByRecursion};
ghost use Rattle.crossbeam_channel.specs.Ends.{sends_on, receives_on};
ghost use Rattle.nob_dispatch_lanes.specs.Ends.{parts_of, given_by, got_by};
ghost use Rattle.nob_dispatch_lanes.specs.Lanes.{AreAllEnds, HaveNotHeard, IsCapacity, all_given, all_got, getting_parts, giving_parts};
ghost use Rattle.nob_dispatch_lanes.specs.declared.fault.LaneError.TheVariants as lane_errors;

use crate::MOST_ERRANDS;
use crate::ends::{LanePut, LaneTake};
use crate::fault::LaneError;
use crate::rule::{Cut, Fair, Knowledge};
use crossbeam_channel::{RuledReceiver, bounded_with};
use std::alloc::{AllocError, Global};

/// A new lane that holds at most so many errands, 1 to 1,024: so many ends that give and so many
/// that get, one of each at least, or H2.
pub fn lane<T: Drop>(
    alloc: Global,
    capacity: usize,
    puts: usize,
    takes: usize,
) -> Result<(Vec<LanePut<T>>, Vec<LaneTake<T>>), LaneError>
    requires puts { 1 ≤ puts }
    requires takes { 1 ≤ takes }
    ensures count { IfOk result (λ ends.
        (length ends.0.items ≡ puts) × (length ends.1.items ≡ takes)) }
    ensures ends { IfOk result (λ ends. AreAllEnds ends.0.items ends.1.items) }
    ensures new { IfOk result (λ ends.
        (all_given ends.0.items ≡ []) × (all_got ends.1.items ≡ [])) }
    ensures gone { IfOk result (λ ends. HaveNotHeard ends.0.items) }
    ensures refused { result ≡ Err lane_errors.Capacity → ¬ IsCapacity capacity }
    ensures judged { ¬ IsCapacity capacity → result ≡ Err lane_errors.Capacity }
{
    if capacity == 0 || capacity > MOST_ERRANDS {
        return Err(LaneError::Capacity);
    }
    let (sender, receiver, pass) = bounded_with::<T, Knowledge<T>, Fair, Global>(alloc, capacity)?;
    let mut first = LanePut {
        sender,
        pass,
        has_heard_gone: false,
    };
    let getting = getters(alloc, &mut first, receiver, takes)?;
    let giving = givers(alloc, first, puts)?;
    Ok((giving, getting))
}

// `takes` ends that get from the lane of the first end that gives, which gives up a part for each.
fn getters<T: Drop>(
    alloc: Global,
    first: &mut LanePut<T>,
    receiver: RuledReceiver<T, Knowledge<T>, Fair>,
    takes: usize,
) -> Result<Vec<LaneTake<T>>, AllocError>
    requires lane { receives_on receiver ≡ sends_on first.old.sender }
    requires parts { takes < parts_of first.old.pass }
    requires some { 1 ≤ takes }
    ensures first { (sends_on first.new.sender ≡ sends_on first.old.sender)
        × (given_by first.new.pass ≡ given_by first.old.pass) }
    ensures heard { first.new.has_heard_gone ≡ first.old.has_heard_gone }
    ensures parts { IfOk result (λ ends. (getting_parts ends.items ≡ takes)
        × (parts_of first.new.pass + takes ≡ parts_of first.old.pass)) }
    ensures count { IfOk result (λ ends. length ends.items ≡ takes) }
    ensures new { IfOk result (λ ends. all_got ends.items ≡ []) }
    ensures lane { IfOk result (λ ends.
        AllByRecursion (λ end. sends_on first.old.sender ≡ receives_on end.receiver) ends.items) }
{
    let mut ends = Vec::new(alloc);
    while ends.len() < takes {
        let another = getter(first, &receiver)?;
        ends.push(another)?;
    }
    Ok(ends)
}

// One more end that gets from the lane of an end that gives, which gives up a part for it.
fn getter<T: Drop>(
    first: &mut LanePut<T>,
    receiver: &RuledReceiver<T, Knowledge<T>, Fair>,
) -> Result<LaneTake<T>, AllocError>
    requires lane { receives_on receiver.now ≡ sends_on first.old.sender }
    requires parts { 1 < parts_of first.old.pass }
    ensures first { (sends_on first.new.sender ≡ sends_on first.old.sender)
        × (given_by first.new.pass ≡ given_by first.old.pass) }
    ensures heard { first.new.has_heard_gone ≡ first.old.has_heard_gone }
    ensures parts { IfOk result (λ end. (parts_of end.pass ≡ 1)
        × (parts_of first.new.pass + 1 ≡ parts_of first.old.pass)) }
    ensures new { IfOk result (λ end. got_by end.pass ≡ []) }
    ensures lane { IfOk result (λ end. sends_on first.old.sender ≡ receives_on end.receiver) }
{
    let receiver = receiver.try_clone()?;
    let pass = first.sender.another::<Cut>(&mut first.pass);
    Ok(LaneTake {
        receiver,
        pass,
        has_found_none: false,
    })
}

// `puts` ends that give to the lane of the first: the first and others, for each of which it gives
// up a part.
fn givers<T: Drop>(
    alloc: Global,
    mut first: LanePut<T>,
    puts: usize,
) -> Result<Vec<LanePut<T>>, AllocError>
    requires parts { puts < parts_of first.pass }
    requires some { 1 ≤ puts }
    ensures parts { IfOk result (λ ends. giving_parts ends.items ≡ parts_of first.pass) }
    ensures count { IfOk result (λ ends. length ends.items ≡ puts) }
    ensures new { given_by first.pass ≡ [] → IfOk result (λ ends. all_given ends.items ≡ []) }
    ensures gone { first.has_heard_gone ≡ false → IfOk result (λ ends. HaveNotHeard ends.items) }
    ensures lane { IfOk result (λ ends.
        AllByRecursion (λ end. sends_on end.sender ≡ sends_on first.sender) ends.items) }
{
    let mut ends = Vec::new(alloc);
    while ends.len() + 1 < puts {
        let another = giver(&mut first)?;
        ends.push(another)?;
    }
    ends.push(first)?;
    Ok(ends)
}

// One more end that gives to the lane of another, which gives up a part for it.
fn giver<T: Drop>(first: &mut LanePut<T>) -> Result<LanePut<T>, AllocError>
    requires parts { 1 < parts_of first.old.pass }
    ensures first { (sends_on first.new.sender ≡ sends_on first.old.sender)
        × (given_by first.new.pass ≡ given_by first.old.pass) }
    ensures heard { first.new.has_heard_gone ≡ first.old.has_heard_gone }
    ensures parts { IfOk result (λ end. (parts_of end.pass ≡ 1)
        × (parts_of first.new.pass + 1 ≡ parts_of first.old.pass)) }
    ensures new { IfOk result (λ end. given_by end.pass ≡ []) }
    ensures gone { IfOk result (λ end. end.has_heard_gone ≡ false) }
    ensures lane { IfOk result (λ end. sends_on end.sender ≡ sends_on first.old.sender) }
{
    let sender = first.sender.try_clone()?;
    let pass = first.sender.another::<Cut>(&mut first.pass);
    Ok(LanePut {
        sender,
        pass,
        has_heard_gone: false,
    })
}
