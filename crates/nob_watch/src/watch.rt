//! The checker that follows.

ghost use Rattle.std.specs.Prelude.{◌≡◌, ◌≤◌, ℕ, false, length, reverse, replicate, IfOk, IfErr, OnOk, OnErr};
ghost use Rattle.nob_ids.specs.declared.limits.Limits.{Limits as LimitsOf};
ghost use Rattle.nob_model_journal.specs.Runs.{WorldRun};
ghost use Rattle.nob_model_invariant.specs.Safe.{IsSafe};
ghost use Rattle.nob_watch.specs.Members as members;
ghost use Rattle.nob_watch.specs.Reruns as reruns;
ghost use Rattle.nob_recall.specs.Dues as dues;
ghost use Rattle.nob_recall.specs.Orders.{InOrder};
ghost use Rattle.nob_watch.specs.Watches as words;

use crate::rerun::Rerun;
use nob_ids::{Limits, SpaceId};
use nob_recall::{Dated, Heads, WatchError, WatchFault};
use std::alloc::{AllocError, Global};
use std::marker::Model;

/// A checker that follows: it is told the entries of each space in order, and passes the earliest of
/// all while no space may have one as early of which nothing was told. Contracts see all that was
/// passed, and the next entry of each space. It holds spaces, so it can't be let go: `shut` ends it.
pub struct Watch {
    rerun: Rerun,
    heads: Heads,
}

impl Model for Watch {
    ghost use Rattle.nob_watch.specs.Watches.{Watching, IsWatching};

    ghost Value = { Watching };

    ghost use Rattle.std.specs.Coded.{codes};
    ghost use Rattle.nob_pickle.specs.Marks.{trees_code};

    ghost coded = { Prim.hlevel (codes, trees_code) };

    ghost view = { λ watch. record { following = watch.rerun; heads = watch.heads } };

    ghost invariant = { λ watch. IsWatching
        (record { following = watch.rerun; heads = watch.heads }) };
}

impl Watch {
    /// Nothing was told yet of a world of as many spaces as there are limits, each with its own, of
    /// which all is followed that `Rerun::new` says. Only memory fails it. The caller's condition:
    /// there are 1 to 32.
    pub fn new(alloc: Global, span: usize, limits: Vec<Limits>) -> Result<Watch, AllocError>
        requires some { 1 ≤ length limits.items }
        requires few { length limits.items ≤ 32 }
        ensures following { IfOk result (λ watch. watch.following
            ≡ reruns.begun span limits.items) }
        ensures heads { IfOk result (λ watch. watch.heads
            ≡ replicate (length limits.items) dues.no_head) }
    {
        let heads = Heads::new(alloc, limits.len())?;
        Ok(Watch {
            rerun: Rerun::new(alloc, span, limits)?,
            heads,
        })
    }

    /// How many spaces there are: 1 to 32.
    pub fn n(&self) -> u16
        ensures n { result ≡ self.now.following.n }
        ensures few { result ≤ 32 }
    {
        self.rerun.n()
    }

    /// How many entries were passed: they are in order of their stamps, ties by space, a run of a
    /// world, and safe, and each seal in them is right.
    pub fn len(&self) -> u64
        ensures count { result ≡ length self.now.following.passed }
        ensures in_order { InOrder self.now.following.passed }
        ensures run { (limits : ℕ → LimitsOf)
            → members.AreLimits self.now.following.n limits self.now.following.limits
            → WorldRun self.now.following.n limits
            (reruns.journal_of self.now.following.passed) }
        ensures safe { IsSafe self.now.following.n
            (reruns.journal_of self.now.following.passed) }
        ensures sealed { reruns.AreSealed self.now.following.n
            (reverse self.now.following.passed) }
    {
        self.rerun.len()
    }

    /// What stopped it, if something did.
    pub fn fault(&self) -> Option<WatchFault>
        ensures { result ≡ self.now.following.fault }
    {
        self.rerun.fault()
    }

    /// Whether a space has more entries, of which none was told yet. Constant time.
    pub fn wants(&self, space: SpaceId) -> bool
        ensures { result ≡ dues.wants space self.now.heads }
    {
        self.heads.wants(space)
    }

    /// Tells the next entry of its space. It is handed back where there is no such space, where the
    /// space's next one was told already or there are no more, and where its stamp isn't above the
    /// last one. It takes no memory.
    pub fn tell(&mut self, dated: Dated) -> Result<(), Dated>
        ensures ok { OnOk result (words.IsTold self.old self.new dated) }
        ensures back { IfErr result (λ back. back ≡ dated) }
        ensures err { OnErr result (self.new ≡ self.old) }
        ensures only { OnErr result (dues.CannotTell self.old.heads dated) }
    {
        self.heads.tell(dated)
    }

    /// Says that there are no more entries of a space.
    pub fn end(&mut self, space: SpaceId)
        ensures { self.new ≡ words.ended space self.old }
    {
        self.heads.end(space);
    }

    /// Passes the earliest of the next entries, where no space may have one as early of which nothing
    /// was told: whether one was passed. A space may have one where it hasn't ended, none is told of
    /// it, and the stamp of its last one is lower. What is wrong with the entry is said as
    /// `Rerun::pass` says it, and again from then on; or memory is wanted, and then nothing has
    /// changed. Linear in the spaces, and what the entry costs.
    pub fn go_on(&mut self) -> Result<bool, WatchError>
        ensures goes_on { words.GoesOn self.old self.new result }
        ensures cut { IfOk result (λ went. went ≡ false → words.AreUpToLowest self.new.heads) }
    {
        pass_due(&mut self.rerun, &mut self.heads)
    }

    /// Ends the spaces. It takes no memory.
    pub fn shut(self) {
        let Watch {
            rerun,
            heads: _heads,
        } = self;
        rerun.shut();
    }
}

// Passes the entry that is due: whether one was, and what comes of it.
fn pass_due(rerun: &mut Rerun, heads: &mut Heads) -> Result<bool, WatchError>
    requires few { length heads.old ≤ rerun.old.n }
    ensures goes_on { words.GoesOnBy rerun.old rerun.new heads.old heads.new result }
    ensures spaces { dues.AreOfSpaces heads.old }
{
    let Some(dated) = heads.due() else {
        return Ok(false);
    };
    let space = dated.entry.space;
    rerun.pass(dated)?;
    heads.pass(space);
    Ok(true)
}
