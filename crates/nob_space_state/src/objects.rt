//! The events on objects and on what is in the hand: Export, Dup, Release and Withdraw. None sends
//! anything.

ghost use Rattle.std.specs.Prelude.{◌≡◌, List, ◌∷◌, Some, None, Ok, Err, OnOk, OnErr, IfOk, MatchResult};
ghost use Rattle.nob_ids.specs.declared.limits.Limits.{Limits as LimitsOf};
ghost use Rattle.nob_model_types.specs.declared.answer.Answer.TheVariants as answers;
ghost use Rattle.nob_model_types.specs.declared.deed.Deed.{Deed};
ghost use Rattle.nob_model_types.specs.declared.deed.Deed.TheVariants as did;
ghost use Rattle.nob_model.specs.Right as right;
ghost use Rattle.nob_space_state.specs.Parts.{state_of};
ghost use Rattle.nob_space_state.specs.Judging.{dup_refusal, release_refusal, withdraw_refusal};
ghost use Rattle.nob_space_state.specs.Stands.{StandFor, IsState, Keeps, Did, Answers, AnswersOrWants, history_for};

use crate::error::SpaceError;
use crate::parts::Parts;
use nob_ids::{SpaceId, WireRep};
use nob_model::{Refusal, Use};
use nob_table::{ObjectTable, Part, TableError};

impl Parts {
    // Why a Dup of a reference is refused.
    #[tactic(auto, unfolding(crate::specs::Judging::dup_refusal))]
    fn refuse_dup(&self, rep: &WireRep) -> Result<(), Refusal>
        ensures { MatchResult result (λ _. dup_refusal self.now.here.space (state_of self.now) rep.now ≡ None)
            (λ refusal. dup_refusal self.now.here.space (state_of self.now) rep.now ≡ Some refusal) }
    {
        if self.is_gone(rep) {
            return Err(Refusal::NoObject);
        }
        if rep.index == 0 {
            return Err(Refusal::NotHeld);
        }
        if !self.is_held(rep) {
            return Err(Refusal::NotHeld);
        }
        if self.is_cut(rep) {
            return Err(Refusal::Closed);
        }
        if self.hand(rep) == u32::MAX {
            return Err(Refusal::Limit);
        }
        Ok(())
    }

    // Why a Release of a reference is refused.
    #[tactic(auto, unfolding(crate::specs::Judging::release_refusal))]
    fn refuse_release(&self, rep: &WireRep) -> Result<(), Refusal>
        ensures { MatchResult result (λ _. release_refusal self.now.here.space (state_of self.now) rep.now ≡ None)
            (λ refusal. release_refusal self.now.here.space (state_of self.now) rep.now ≡ Some refusal) }
    {
        if self.is_gone(rep) {
            return Err(Refusal::NoObject);
        }
        if rep.index == 0 {
            return Err(Refusal::NotHeld);
        }
        if self.hand(rep) == 0 {
            return Err(Refusal::NotHeld);
        }
        Ok(())
    }

    /// Dup: one more hold in the hand on a reference. It takes no memory. A look-up.
    pub fn dup(&mut self, rep: &WireRep) -> Result<(), Refusal>
        ensures answer { (limits : LimitsOf) (D : List Deed)
            → StandFor limits self.old D
            → Answers (λ _. answers.Done) result
            (right.right_dup self.old.here.space rep.now (history_for self.old D)) }
        ensures stands { OnOk result (Did self.old self.new (did.Dup rep.now)) }
        ensures err { OnErr result (Keeps self.old self.new) }
        ensures here { self.new.here ≡ self.old.here }
    {
        self.refuse_dup(rep)?;
        match self.table.hold(*rep, Part::Hand) {
            Ok(()) => Ok(()),
            Err(_) => unreachable!(),
        }
    }

    /// Release: one hold in the hand on a reference is given back. It takes no memory. A look-up.
    pub fn release(&mut self, rep: &WireRep) -> Result<(), Refusal>
        ensures answer { (limits : LimitsOf) (D : List Deed)
            → StandFor limits self.old D
            → Answers (λ _. answers.Done) result
            (right.right_release self.old.here.space rep.now (history_for self.old D)) }
        ensures stands { OnOk result (Did self.old self.new (did.Release rep.now)) }
        ensures err { OnErr result (Keeps self.old self.new) }
        ensures here { self.new.here ≡ self.old.here }
    {
        self.refuse_release(rep)?;
        match self.table.release(*rep, Part::Hand) {
            Ok(()) => Ok(()),
            Err(_) => unreachable!(),
        }
    }

    // Why a Withdraw of an index is refused.
    #[tactic(auto, unfolding(crate::specs::Judging::withdraw_refusal))]
    pub(crate) fn refuse_withdraw(&self, index: u64) -> Result<(), Refusal>
        ensures { MatchResult result (λ _. withdraw_refusal self.now.here.space (state_of self.now) index ≡ None)
            (λ refusal. withdraw_refusal self.now.here.space (state_of self.now) index ≡ Some refusal) }
    {
        if index == 0 {
            return Err(Refusal::StillUsed(Use::Agent));
        }
        let rep = WireRep {
            owner: self.here.space,
            index,
        };
        if self.is_gone(&rep) {
            return Err(Refusal::NoObject);
        }
        if self.is_held(&rep) {
            return Err(Refusal::StillUsed(Use::Held));
        }
        if self.is_pinned(&rep) {
            return Err(Refusal::StillUsed(Use::InTransit));
        }
        if self.has_clients(index) {
            return Err(Refusal::StillUsed(Use::Listed));
        }
        Ok(())
    }

    /// Withdraw: the object of an index is live no more. It takes no memory. A few look-ups.
    pub fn withdraw(&mut self, index: u64) -> Result<(), Refusal>
        requires { IsState self.old }
        ensures answer { (limits : LimitsOf) (D : List Deed)
            → StandFor limits self.old D
            → Answers (λ _. answers.Withdrawn) result
            (right.right_withdraw self.old.here.space index (history_for self.old D)) }
        ensures stands { OnOk result (Did self.old self.new (did.Withdraw index)) }
        ensures err { OnErr result (Keeps self.old self.new) }
        ensures here { self.new.here ≡ self.old.here }
    {
        self.refuse_withdraw(index)?;
        match self.table.withdraw(index) {
            Ok(()) => Ok(()),
            Err(_) => unreachable!(),
        }
    }

    /// Export: the reference to a new object, once in the hand. Constant time on average.
    pub fn export(&mut self) -> Result<WireRep, SpaceError>
        ensures answer { (limits : LimitsOf) (D : List Deed)
            → StandFor limits self.old D
            → AnswersOrWants (λ rep. answers.Exported rep) result
            (right.right_export self.old.here.space (history_for self.old D)) }
        ensures stands { IfOk result (λ rep.
            Did self.old self.new
            (did.Export rep)) }
        ensures err { OnErr result (Keeps self.old self.new) }
        ensures here { self.new.here ≡ self.old.here }
    {
        prove!(self.table.object_count() <= ObjectTable::MOST_OBJECTS);
        match self.table.export() {
            Ok(rep) => Ok(rep),
            Err(TableError::Fault(_)) => Err(SpaceError::Refused(Refusal::Limit)),
            Err(TableError::OutOfMemory) => Err(SpaceError::OutOfMemory),
        }
    }
}
