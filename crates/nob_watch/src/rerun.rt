//! A run of a world that is followed.

ghost use Rattle.std.specs.Prelude.{◌≡◌, ◌≤◌, ℕ, Some, None, length, reverse, IfOk};
ghost use Rattle.nob_ids.specs.declared.limits.Limits.{Limits as LimitsOf};
ghost use Rattle.nob_model_journal.specs.Runs.{WorldRun};
ghost use Rattle.nob_model_invariant.specs.Safe.{IsSafe};
ghost use Rattle.nob_watch.specs.Members as members;
ghost use Rattle.nob_watch.specs.Reruns as words;

use crate::making::take;
use crate::members::{open_all, shut_all};
use nob_ids::{Limits, SpaceId};
use nob_past::Past;
use nob_recall::{Dated, Recall, WatchError, WatchFault};
use nob_space::Space;
use std::alloc::{AllocError, Global};
use std::marker::Model;

/// A run of a world that is followed, entry by entry: each is passed once its space has answered its
/// event so, the frame that it takes is one of those that are remembered, and the seal behind it is
/// what the space says of itself. Contracts see all entries that were passed, and none has bytes. It holds spaces, so it can't be let go: `shut` ends
/// it.
pub struct Rerun {
    n: u16,
    alloc: Global,
    // Those of space p at place p - 1.
    limits: Vec<Limits>,
    spaces: Vec<Space>,
    places: Vec<u64>,
    recall: Recall,
    passed: Past<Dated>,
    fault: Option<WatchFault>,
}

impl Model for Rerun {
    ghost use Rattle.nob_watch.specs.Reruns.{Following, IsRerun};

    ghost Value = { Following };

    ghost use Rattle.std.specs.Coded.{codes};
    ghost use Rattle.nob_pickle.specs.Marks.{trees_code};

    ghost coded = { Prim.hlevel (codes, trees_code) };

    ghost view = { λ rerun. record {
      n = rerun.n;
      limits = rerun.limits.items;
      span = rerun.recall.span;
      passed = rerun.passed.items;
      fault = rerun.fault;
    } };

    ghost invariant = { λ rerun. IsRerun
        (record {
          n = rerun.n;
          limits = rerun.limits.items;
          span = rerun.recall.span;
          passed = rerun.passed.items;
          fault = rerun.fault;
        })
        rerun.spaces.items rerun.places.items rerun.recall };
}

impl Rerun {
    /// Nothing was passed yet of a world of as many spaces as there are limits, each with its own. A
    /// frame that can bring nothing more is forgotten once `span` frames, and as many again at most,
    /// were transmitted behind it. Only memory fails it. The caller's condition: there are 1 to 32.
    pub fn new(alloc: Global, span: usize, limits: Vec<Limits>) -> Result<Rerun, AllocError>
        requires some { 1 ≤ length limits.items }
        requires few { length limits.items ≤ 32 }
        ensures { IfOk result (λ rerun. rerun ≡ words.begun span limits.items) }
    {
        let n = limits.len() as u16;
        let recall = Recall::new(alloc, span)?;
        let places = vec![in alloc; 1u64; limits.len()]?;
        let spaces = open_all(alloc, n, limits.as_slice())?;
        Ok(Rerun {
            n,
            alloc,
            limits,
            spaces,
            places,
            recall,
            passed: Past::new(alloc),
            fault: None,
        })
    }

    /// How many spaces there are: 1 to 32.
    pub fn n(&self) -> u16
        ensures n { result ≡ self.now.n }
        ensures few { result ≤ 32 }
    {
        self.n
    }

    /// How many entries were passed. They are a run of a world, and safe, and each seal in them is
    /// right.
    pub fn len(&self) -> u64
        ensures count { result ≡ length self.now.passed }
        ensures run { (limits : ℕ → LimitsOf)
            → members.AreLimits self.now.n limits self.now.limits
            → WorldRun self.now.n limits (words.journal_of self.now.passed) }
        ensures safe { IsSafe self.now.n (words.journal_of self.now.passed) }
        ensures sealed { words.AreSealed self.now.n (reverse self.now.passed) }
    {
        self.passed.len()
    }

    /// What stopped it, if something did.
    pub fn fault(&self) -> Option<WatchFault>
        ensures { result ≡ self.now.fault }
    {
        self.fault
    }

    /// The next entry in order. It is passed where its space answers its event so, the frame that it
    /// takes, if it takes one, is remembered, and the seal behind it, if there is one, is right. Else
    /// what is wrong is said, and of each entry behind it: C1 the result isn't the right one; C3 no
    /// entry that was passed transmitted the frame; C6 the frame could bring nothing more, and
    /// whether it was transmitted can't be told any more; C5 the seal isn't what the space says of
    /// itself. Or memory is wanted, and then nothing has changed. It costs what its event costs at
    /// its space, and a look at the frames that were transmitted since the one that it takes. The
    /// caller's condition: the entry is of one of the spaces.
    pub fn pass(&mut self, dated: &Dated) -> Result<(), WatchError>
        requires { dated.now.entry.space ≤ self.old.n }
        ensures { words.Passes self.old self.new dated.now result }
    {
        if let Some(fault) = self.fault {
            return Err(WatchError::Fault(fault));
        }
        let told = take(
            self.alloc,
            &mut self.spaces,
            &mut self.places,
            &mut self.recall,
            &mut self.passed,
            dated,
        );
        match told {
            Ok(()) => return Ok(()),
            Err(WatchError::Fault(fault)) => self.fault = Some(fault),
            Err(WatchError::OutOfMemory) => return Err(WatchError::OutOfMemory),
        }
        stop_of(self.fault)
    }

    /// Ends the spaces. It takes no memory.
    pub fn shut(self) {
        let Rerun {
            n: _,
            alloc: _,
            limits: _limits,
            spaces,
            places: _places,
            recall: _recall,
            passed: _passed,
            fault: _,
        } = self;
        shut_all(spaces);
    }
}

// What is said of a fault that was found before.
fn stop_of(found: Option<WatchFault>) -> Result<(), WatchError>
    ensures { result ≡ words.stop_of found }
{
    match found {
        Some(fault) => Err(WatchError::Fault(fault)),
        None => Ok(()),
    }
}
