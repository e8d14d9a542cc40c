//! The ends of a lane.

ghost use Rattle.std.specs.Prelude.{◌≡◌, ◌≤◌, ◌++◌, ◌∷◌, [], true, false, OnErr, MatchResult, MatchOption};
ghost use Rattle.crossbeam_channel.specs.Claims.{IsSeatAt};
ghost use Rattle.crossbeam_channel.specs.Ends.{sends_on, receives_on, ruled_capacity};
ghost use Rattle.nob_dispatch_lanes.specs.Ends.{stake_of, given_by, got_by, IsGiver, IsGetter};

use crate::fault::Gone;
use crate::rule::{Fair, Get, Give, Knowledge};
use crossbeam_channel::{Pass, RuledReceiver, RuledSender};
use std::sync::Wait;

/// An end of a lane that gives errands. It knows whether it was answered H1.
#[derive(Drop)]
pub struct LanePut<T: Drop> {
    pub(crate) sender: RuledSender<T, Knowledge<T>, Fair>,
    pub(crate) pass: Pass<T, Knowledge<T>>,
    pub(crate) has_heard_gone: bool,
    pub ghost seated: { IsSeatAt (sends_on sender) pass },
    pub ghost gives: { IsGiver pass },
    pub ghost few: { ruled_capacity (sends_on sender) ≤ 1024 },
}

/// An end of a lane that gets errands. It knows whether it found none when it last looked.
#[derive(Drop)]
pub struct LaneTake<T: Drop> {
    pub(crate) receiver: RuledReceiver<T, Knowledge<T>, Fair>,
    pub(crate) pass: Pass<T, Knowledge<T>>,
    pub(crate) has_found_none: bool,
    pub ghost seated: { IsSeatAt (receives_on receiver) pass },
    pub ghost gets: { IsGetter pass },
}

impl<T: Drop> LanePut<T> {
    /// Whether it was answered H1: it has heard that nobody gets from the lane any more.
    pub fn has_heard_gone(&self) -> bool
        ensures { result ≡ self.now.has_heard_gone }
    {
        self.has_heard_gone
    }

    /// Gives an errand, and waits while the lane is full. H1 where nobody gets from it any more: the
    /// errand comes back. It takes no memory.
    pub fn give_as<R: Wait>(&mut self, rt: &R, errand: T) -> Result<(), Gone<T>>
        ensures answer { MatchResult result
            (λ _. given_by self.new.pass ≡ given_by self.old.pass ++ errand ∷ [])
            (λ gone. gone.errand ≡ errand) }
        ensures err { OnErr result (given_by self.new.pass ≡ given_by self.old.pass) }
        ensures gone { MatchResult result (λ _. self.new.has_heard_gone ≡ self.old.has_heard_gone)
            (λ _. self.new.has_heard_gone ≡ true) }
        ensures stake { stake_of self.new.pass ≡ stake_of self.old.pass }
    {
        match self.sender.send_as::<Give, R>(rt, &mut self.pass, errand) {
            Ok(()) => Ok(()),
            Err(error) => {
                self.has_heard_gone = true;
                Err(Gone {
                    errand: error.into_inner(),
                })
            }
        }
    }
}

impl<T: Drop> LaneTake<T> {
    /// Gets the next errand, and waits while there is none. `None` where there is none and nobody
    /// gives any more.
    pub fn get_as<R: Wait>(&mut self, rt: &R) -> Option<T>
        ensures answer { MatchOption result (got_by self.new.pass ≡ got_by self.old.pass)
            (λ errand. got_by self.new.pass ≡ got_by self.old.pass ++ errand ∷ []) }
        ensures found { MatchOption result (self.new.has_found_none ≡ true)
            (λ _. self.new.has_found_none ≡ false) }
        ensures stake { stake_of self.new.pass ≡ stake_of self.old.pass }
    {
        let errand = self.receiver.recv_as::<Get, R>(rt, &mut self.pass).ok();
        self.has_found_none = errand.is_none();
        errand
    }

    /// Gets the next errand if there is one now. It may answer that there is none while another
    /// thread is just giving or getting one.
    pub fn try_get_as<R: Wait>(&mut self, rt: &R) -> Option<T>
        ensures answer { MatchOption result (got_by self.new.pass ≡ got_by self.old.pass)
            (λ errand. got_by self.new.pass ≡ got_by self.old.pass ++ errand ∷ []) }
        ensures found { MatchOption result (self.new.has_found_none ≡ true)
            (λ _. self.new.has_found_none ≡ false) }
        ensures stake { stake_of self.new.pass ≡ stake_of self.old.pass }
    {
        let errand = self.receiver.try_recv_as::<Get, R>(rt, &mut self.pass).ok();
        self.has_found_none = errand.is_none();
        errand
    }
}
