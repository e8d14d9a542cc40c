//! How an application's object is put at an index of a desk.

ghost use Rattle.std.specs.Prelude.{◌≡◌, true, false, IfOk, IfErr, OnOk, OnErr};
ghost use Rattle.nob_dispatch.specs.Assigning as assigning;
ghost use Rattle.nob_dispatch.specs.Shelves as shelves;
ghost use Rattle.nob_dispatch.specs.declared.shelf.Place.TheVariants.{Here, Away};
ghost use Rattle.nob_node_parts.specs.declared.object.Kept.TheVariants as kept;

use crate::Kept;
use nob_dispatch::Desk;
use nob_dispatch_objects::{Agent, Object};
use std::alloc::Global;

/// That an object was put at an index of a desk. It is made where one is put, and nowhere else.
#[derive(Debug, PartialEq, Eq, Drop)]
pub struct Placed {
    index: u64,
}

/// Puts an application's object at an index that has no place yet. Its place is made first: so the
/// object comes back where there is none.
#[tactic(auto, using(crate::proofs::Placing::place_given, crate::proofs::Placing::last_given))]
pub(crate) fn put_own<B: Object>(
    desk: &mut Desk<Kept<B>>,
    alloc: Global,
    index: u64,
    object: B,
) -> Result<Placed, B>
    ensures placed { IfOk result (λ placed. placed.index ≡ index) }
    ensures here { OnOk result (desk.new ≡ assigning.with_shelf
        (shelves.with_place index (Here (kept.Own object)) desk.old.dispatcher.shelf) desk.old) }
    ensures back { IfErr result (λ back. back ≡ object) }
    ensures same { OnErr result (desk.new ≡ desk.old) }
{
    if !make_place(desk, alloc, index) {
        return Err(object);
    }
    let Ok(()) = desk.give_back_lent(index, Kept::Own(object)) else {
        unreachable!();
    };
    Ok(Placed { index })
}

// Makes the place of an index that has none yet, whose object is away: whether there was room. An
// agent, which takes no memory, is put there and let go.
#[tactic(auto, using(crate::proofs::Placing::place_given, crate::proofs::Placing::last_given))]
fn make_place<B: Object>(desk: &mut Desk<Kept<B>>, alloc: Global, index: u64) -> bool
    ensures made { result ≡ true → desk.new ≡ assigning.with_shelf
        (shelves.with_place index Away desk.old.dispatcher.shelf) desk.old }
    ensures none { result ≡ false → desk.new ≡ desk.old }
{
    let Ok(()) = desk.add(index, Kept::Agent(Agent::new(alloc))) else {
        return false;
    };
    let Some(_agent) = desk.lend(index) else {
        unreachable!();
    };
    true
}
