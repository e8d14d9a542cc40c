//! What is left of a node's objects when its threads have ended.

ghost use Rattle.std.specs.Prelude.{◌≡◌, ◌<◌, ◌++◌, [], true, vec_len, vec_capacity};
ghost use Rattle.nob_dispatch_lanes.specs.Ends.{got_by};
ghost use Rattle.nob_node.specs.Leaving as leaving;
ghost use Rattle.nob_node_site.specs.Assigning.{with_return};

use nob_dispatch_lanes::LaneTake;
use nob_dispatch_objects::Object;
use nob_keeper::Seat;
use nob_node_site::{Desk, Errand, Hand, Kept, LeftObject, Place, Remaining, Return, Shelf};
use std::alloc::Global;
use std::sync::Wait;
use std::thread;

// What is left of a desk whose jobs have ended.
#[derive(Drop)]
pub(crate) struct Rest<B: Object> {
    pub(crate) seat: Seat,
    pub(crate) shelf: Shelf<Kept<B>>,
    pub(crate) returns: LaneTake<Return<Kept<B>>>,
}

// What is left of a desk. Nothing more is given to the workers.
pub(crate) fn rest_of<B: Object>(desk: Desk<Kept<B>>) -> Rest<B>
    ensures seat { result.seat ≡ desk.dispatcher.receipts }
    ensures shelf { result.shelf ≡ desk.dispatcher.shelf }
    ensures returns { got_by result.returns.pass ≡ desk.back }
{
    let (left, _unsent, _errands, returns) = desk.end();
    let Remaining { seat, shelf, .. } = left;
    Rest {
        seat,
        shelf,
        returns,
    }
}

// A seat more, for which there is room.
pub(crate) fn keep(seats: &mut Vec<Seat>, seat: Seat) {
    let _ = seats.push(seat);
}

// The ends by which objects come back, once nothing was found there any more.
#[derive(Drop)]
pub(crate) struct Searched<B: Object> {
    // Of each hand.
    pub(crate) errands: Vec<LaneTake<Errand<Kept<B>>>>,
    // Of the desk.
    pub(crate) returns: LaneTake<Return<Kept<B>>>,
}

// Ends the hands and what is left of the desk: the application's objects, and the ends by which the
// last of them came.
pub(crate) fn end_pool<B: Object, R: Wait>(
    rt: &R,
    alloc: Global,
    hands: Vec<Hand<Kept<B>>>,
    rest: Option<Rest<B>>,
    seats: &mut Vec<Seat>,
) -> (Vec<LeftObject<B>>, Option<Searched<B>>)
    ensures { leaving.AreLeftIn rest hands.items result.1 result.0.items }
{
    let Some(rest) = rest else {
        return (Vec::new(alloc), None);
    };
    let Rest {
        seat,
        mut shelf,
        mut returns,
    } = rest;
    keep(seats, seat);
    let mut errands = Vec::new(alloc);
    end_hands(rt, hands, seats, &mut shelf, &mut errands);
    take_returned(rt, &mut returns, &mut shelf);
    let objects = objects_of(rt, alloc, shelf);
    (objects, Some(Searched { errands, returns }))
}

// Ends the hands, one after the other: their ends stand behind those before.
fn end_hands<B: Object, R: Wait>(
    rt: &R,
    mut hands: Vec<Hand<Kept<B>>>,
    seats: &mut Vec<Seat>,
    shelf: &mut Shelf<Kept<B>>,
    ends: &mut Vec<LaneTake<Errand<Kept<B>>>>,
)
    ensures { leaving.HandsCameBack hands.items ends.old.items ends.new.items shelf.old shelf.new }
{
    if hands.is_empty() {
        return;
    }
    let hand = hands.remove(0);
    let end = end_hand(rt, hand, seats, shelf);
    make_room(rt, ends);
    ends.push_reserved(end);
    end_hands(rt, hands, seats, shelf, ends);
}

// Ends a hand: its object comes back, and those of the errands that it left. Its end of their lane
// found none any more.
fn end_hand<B: Object, R: Wait>(
    rt: &R,
    hand: Hand<Kept<B>>,
    seats: &mut Vec<Seat>,
    shelf: &mut Shelf<Kept<B>>,
) -> LaneTake<Errand<Kept<B>>>
    ensures { leaving.HandCameBack hand result shelf.old shelf.new }
{
    let (seat, errand, mut errands, _returns) = hand.end();
    keep(seats, seat);
    if let Some(errand) = errand {
        put_back(errand, shelf);
    }
    take_unserved(rt, &mut errands, shelf);
    errands
}

// The objects of errands that nobody got come back.
fn take_unserved<B: Object, R: Wait>(
    rt: &R,
    errands: &mut LaneTake<Errand<Kept<B>>>,
    shelf: &mut Shelf<Kept<B>>,
)
    ensures back { leaving.AllUnserved (got_by errands.old.pass) (got_by errands.new.pass) shelf.old
        shelf.new }
    ensures none { errands.new.has_found_none ≡ true }
{
    for _ in rt.forever() {
        let Some(errand) = errands.try_get_as(rt) else {
            return;
        };
        put_back(errand, shelf);
    }
}

// The object of an errand comes back.
fn put_back<B: Object>(errand: Errand<Kept<B>>, shelf: &mut Shelf<Kept<B>>)
    ensures { shelf.new ≡ with_return (record {
      job = errand.job.job;
      index = errand.job.target;
      object = errand.object;
    }) shelf.old }
{
    let Errand { job, object } = errand;
    let back = Return {
        job: job.job,
        index: job.target,
        object,
    };
    put_down(back, shelf);
}

// An object comes back to its place. Where its place was taken out it is let go.
fn put_down<B: Object>(back: Return<Kept<B>>, shelf: &mut Shelf<Kept<B>>)
    ensures { shelf.new ≡ with_return back shelf.old }
{
    let Return { index, object, .. } = back;
    let _ = shelf.give_back(index, object);
}

// The objects that were given back come back.
fn take_returned<B: Object, R: Wait>(
    rt: &R,
    returns: &mut LaneTake<Return<Kept<B>>>,
    shelf: &mut Shelf<Kept<B>>,
)
    ensures back { leaving.AllCameBack (got_by returns.old.pass) (got_by returns.new.pass) shelf.old
        shelf.new }
    ensures none { returns.new.has_found_none ≡ true }
{
    for _ in rt.forever() {
        let Some(back) = returns.try_get_as(rt) else {
            return;
        };
        put_down(back, shelf);
    }
}

// The application's objects, by rising index. Where there is no memory for them it waits for some:
// none is lost.
#[tactic(auto, using(crate::proofs::Shelved::left_more, crate::proofs::Shelved::left_all))]
fn objects_of<B: Object, R: Wait>(
    rt: &R,
    alloc: Global,
    mut shelf: Shelf<Kept<B>>,
) -> Vec<LeftObject<B>>
    ensures { result.items ≡ leaving.left_on shelf }
{
    let mut objects = Vec::new(alloc);
    while let Some((index, place)) = shelf.pop_first() {
        keep_left(rt, &mut objects, index, place);
    }
    objects
}

// The object of a place too, where it is the application's and here.
fn keep_left<B: Object, R: Wait>(
    rt: &R,
    objects: &mut Vec<LeftObject<B>>,
    index: u64,
    place: Place<Kept<B>>,
)
    ensures { objects.new.items ≡ objects.old.items ++ leaving.left_at index place [] }
{
    let Place::Here(object) = place else {
        return;
    };
    let Some(object) = object.into_own() else {
        return;
    };
    make_room(rt, objects);
    objects.push_reserved(LeftObject { index, object });
}

// Room for one more, once there is memory for it.
fn make_room<T: Drop, R: Wait>(rt: &R, all: &mut Vec<T>)
    ensures items { all.new.items ≡ all.old.items }
    ensures room { vec_len all.new < vec_capacity all.new }
{
    for _ in rt.forever() {
        if all.reserve(1).is_ok() {
            return;
        }
        thread::yield_now();
    }
    unreachable!()
}
