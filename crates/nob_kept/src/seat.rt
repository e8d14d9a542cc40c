//! Seats.

ghost use Rattle.std.specs.Prelude.{◌≡◌, ◌≢◌, ◌<◌, ◌^◌, ◌++◌, ◌∷◌, [], List, Some, None, Ok, Err, length, reverse, OnOk, OnErr, IfOk, IfErr, IfSome, MatchOption};
ghost use Rattle.nob_kept.specs.declared.keep.Keep.TheVariants as keeps;
ghost use Rattle.nob_kept.specs.declared.receipt.Receipt.{Receipt as ReceiptOf};
ghost use Rattle.nob_model_types.specs.declared.answer.Answer.TheVariants as answers;
ghost use Rattle.nob_kept.specs.Accounts.{fault_of, identity_of};
ghost use Rattle.nob_kept.specs.Kinds as kinds;
ghost use Rattle.nob_kept.specs.declared.error.KeeperError.{KeeperError as KeeperErrorOf};
ghost use Rattle.nob_kept.specs.Seats as seats;

use crate::error::KeeperError;
use crate::keep::Keep;
use crate::kept::Kept;
use crate::kinds::{AnswerKind, reply_in};
use crate::receipt::Receipt;
use nob_model_types::{Answer, Event, Refusal};
use nob_past::Past;
use nob_pickle::Value;
use std::alloc::{AllocError, Global};
use std::marker::Model;

/// The place of one caller at a keeper: all receipts that its calls were given. Contracts see the
/// list, the newest receipt first, those too that aren't kept: a keeper that keeps nothing leaves a
/// seat the newest one alone. A seat that is dropped is missed by `close_with`, and its newest entry
/// stays with a keeper that keeps no others: make one for a thread, not for a call.
#[derive(Drop)]
pub struct Seat {
    // The first first. The newest one is always there.
    receipts: Past<Receipt>,
    // Where its keeper has its newest entry, if it keeps no others.
    spot: usize,
}

impl Model for Seat {
    ghost use Rattle.std.specs.Prelude.{List, reverse};
    ghost use Rattle.nob_kept.specs.declared.receipt.Receipt.{Receipt};
    ghost use Rattle.nob_kept.specs.Seats.{PlacesRise, HasNewest};
    ghost use Rattle.nob_kept.specs.Kinds.{AreOfTheirEvents};

    ghost Value = { List Receipt };

    ghost use Rattle.std.specs.Coded.{codes};
    ghost use Rattle.nob_pickle.specs.Marks.{trees_code};

    ghost coded = { Prim.hlevel (codes, trees_code) };

    ghost view = { λ seat. reverse seat.receipts.items };

    ghost invariant = { λ seat. PlacesRise (reverse seat.receipts.items)
        × HasNewest seat.receipts
        × AreOfTheirEvents (reverse seat.receipts.items) };
}

impl Seat {
    /// A seat without a receipt. It takes no memory.
    pub fn new(alloc: Global) -> Seat
        ensures { result ≡ [] }
    {
        Seat {
            receipts: Past::new(alloc),
            spot: 0,
        }
    }

    /// The receipts that are kept, the first first: the last ones, the newest among them.
    pub fn receipts(&self) -> &[Receipt]
        ensures kept { (earlier : List ReceiptOf) × (reverse self.now ≡ earlier ++ result.now) }
        ensures newest { result.now ≡ [] → self.now ≡ [] }
    {
        self.receipts.kept()
    }

    /// All receipts, the first first, where all were kept.
    pub fn whole(&self) -> Option<&[Receipt]>
        ensures { IfSome result (λ whole. whole.now ≡ reverse self.now) }
    {
        self.receipts.whole()
    }

    // Where its keeper has its newest entry, if it keeps no others.
    pub(crate) fn spot(&self) -> usize {
        self.spot
    }

    /// The newest receipt, if there is one.
    pub fn newest(&self) -> Option<&Receipt>
        ensures { MatchOption result (seats.newest self.now ≡ None)
            (λ receipt. seats.newest self.now ≡ Some receipt.now) }
    {
        self.last()
    }

    // The newest receipt, if there is one. Its result is one of its event.
    fn last(&self) -> Option<&Receipt>
        ensures newest { MatchOption result (seats.newest self.now ≡ None)
            (λ receipt. seats.newest self.now ≡ Some receipt.now) }
        ensures kind { IfSome result (λ receipt.
            kinds.IsResultOf receipt.now.event receipt.now.result) }
    {
        self.receipts.last()
    }

    // What the newest receipt was answered, which is of the kind of its event, or why the space refused
    // it.
    fn newest_answer(&self) -> Result<&Answer, Refusal>
        requires some { seats.newest self.now ≡ None → ⊥ }
        ensures ok { IfOk result (λ answer. kinds.IsNewest self.now (Ok answer.now)) }
        ensures kind { IfOk result (λ answer. kinds.IsToNewest self.now answer.now) }
        ensures err { IfErr result (λ refusal. kinds.IsNewest self.now (Err refusal)) }
    {
        let Some(receipt) = self.last() else {
            unreachable!();
        };
        match &receipt.result {
            Ok(answer) => Ok(answer),
            Err(refusal) => Err(*refusal),
        }
    }

    /// What the newest receipt says, as an answer of the kind that its event has, or why the space
    /// refused it.
    pub fn answer<A: AnswerKind>(&self) -> Result<A, Refusal>
        requires kind { kinds.IsNewestAnsweredBy A.is_one self.now }
        ensures { kinds.IsNewest self.now (kinds.result_as A.as_answer result) }
    {
        let answer = self.newest_answer()?;
        match A::from_answer(answer) {
            Some(read) => Ok(read),
            None => unreachable!(),
        }
    }

    /// What the newest receipt says, which is of a TakeReply: the reply's status and its value, or
    /// nothing where the session closed before it was ready; or why the space refused it.
    pub fn reply(&self) -> Result<Option<(u8, &Value)>, Refusal>
        requires kind { kinds.IsNewestAnsweredBy kinds.is_reply self.now }
        ensures ok { IfOk result (λ read. MatchOption read
            (kinds.IsNewest self.now (Ok answers.Ended))
            (λ reply. kinds.IsNewest self.now (Ok (answers.Replied reply.0 reply.1.now)))) }
        ensures err { IfErr result (λ refusal. kinds.IsNewest self.now (Err refusal)) }
    {
        let answer = self.newest_answer()?;
        match reply_in(answer) {
            Some(read) => Ok(read),
            None => unreachable!(),
        }
    }

    /// A place for the receipt of one call more, made before a lock is taken. Only memory fails it.
    pub fn make_room(&mut self) -> Result<(), AllocError>
        ensures { self.new ≡ self.old }
    {
        self.receipts.reserve()
    }

    /// One call, without a lock: an event of the space, whose receipt is added, at the place that
    /// `make_room` made. K4 where the trace hasn't the newest receipt or its entry isn't kept any more,
    /// else K3 as `Kept::append` has it, else K2 where there is no such place, or where memory is
    /// wanted; then nothing has changed.
    pub fn ask(&mut self, kept: &mut Kept, event: &Event, seen: u64) -> Result<(), KeeperError>
        ensures adds { OnOk result (seats.Adds self.old self.new event.now seen) }
        ensures next { OnOk result
            (seats.AddsNext (identity_of kept.old) self.old self.new event.now seen) }
        ensures entry { OnOk result (seats.AddsTo kept.old kept.new self.old self.new event.now
            seen) }
        // Of a seat that has asked the newest entry stays, and so do those of other seats.
        ensures stays { OnOk result (seats.StaysNewest kept.old kept.new self.old self.new) }
        // K4 comes exactly where it is due, and then K3.
        ensures seats { (seats.Has kept.old.entries self.old → ⊥)
            → result ≡ Err KeeperError.Seats }
        ensures there { (seats.IsThere kept.old self.old → ⊥)
            → result ≡ Err KeeperError.Seats }
        ensures fault { (fault : KeeperErrorOf) → seats.Has kept.old.entries self.old
            → seats.IsThere kept.old self.old
            → fault_of kept.old seen ≡ Some fault → result ≡ Err fault }
        ensures only { IfErr result (λ error. error ≢ KeeperError.OutOfMemory
            → seats.IsFault kept.old self.old seen error) }
        ensures err { OnErr result (self.new ≡ self.old) }
        ensures kept { OnErr result (kept.new ≡ kept.old) }
    {
        let spot = kept.spot_of(self)?;
        kept.admit(seen)?;
        if !self.receipts.has_room() {
            return Err(KeeperError::OutOfMemory);
        }
        let Ok(receipt) = kept.append_at(spot, event, seen) else {
            return Err(KeeperError::OutOfMemory);
        };
        self.spot = spot;
        add(&mut self.receipts, kept.keep(), receipt);
        Ok(())
    }
}

// One receipt more, at the place that there is for it: where nothing is kept the only one.
fn add(receipts: &mut Past<Receipt>, keep: Keep, receipt: Receipt)
    requires room { 0 < receipts.old.room }
    requires few { length receipts.old.items < 2 ^ 63 }
    ensures items { receipts.new.items ≡ receipts.old.items ++ receipt ∷ [] }
    ensures all { keep ≡ keeps.All → receipts.new.gone ≡ receipts.old.gone }
    ensures one { keep ≡ keeps.Nothing → receipts.new.gone ≡ length receipts.old.items }
    ensures newest { seats.HasNewest receipts.old → seats.HasNewest receipts.new }
{
    match keep {
        Keep::All => receipts.push_reserved(receipt),
        Keep::Nothing => receipts.put_reserved(receipt),
    }
}
