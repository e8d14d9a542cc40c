//! What an application does at one of several nodes.

ghost use Rattle.std.specs.Prelude.{◌≡◌, IfOk};
ghost use Rattle.nob_node.specs.Accounts.{keeps_all};
ghost use Rattle.nob_node.specs.Summaries.{is_chain};
ghost use Rattle.nob_node.specs.Records.{IsRecorded, IsOwn};

use crate::meeting::Company;
use nob_dispatch_objects::Object;
use nob_node::{App, Config, LeftObject, Node, NodeError, Report};
use std::sync::Wait;

/// What an application does at one of several nodes, whose objects are of a type of its own.
pub trait Player<O: Object> {
    /// Runs once the node is there, and not where a thread for it can't be made. When all players
    /// have returned all nodes end: till then each carries out what the others' players call.
    fn run<R: Wait>(&mut self, rt: &R, node: &mut Node<O>, company: &Company);

    /// Comes in the place of `run` where there is no memory for the node, or a thread for it can't
    /// be made.
    fn skip<R: Wait>(&mut self, _rt: &R) {}

    /// Whether its node goes on until all others have returned too, once it has itself. Where it
    /// doesn't the node ends, and what others call there from then on may never be answered.
    fn stays(&self) -> bool {
        true
    }
}

/// A player whose node has ended. Where it left a report, that is of the space that the node's
/// `Config` names, and what that says is kept.
#[derive(Drop)]
pub struct Played<O: Object, A: Drop> {
    /// How the node ran.
    pub config: Config,
    /// The player.
    pub player: A,
    /// What its node leaves, or why it failed and the objects that were left.
    pub left: Result<Report<O>, (NodeError, Vec<LeftObject<O>>)>,
    pub ghost recorded: { ∥ IfOk left (λ report. IsRecorded report.«record») ∥₁ },
    pub ghost own: { ∥ IfOk left (λ report. IsOwn config report.«record») ∥₁ },
    pub ghost kept: { ∥ IfOk left (λ report. is_chain report.«record» ≡ keeps_all config.keep) ∥₁ },
}

/// A player at its node.
#[derive(Drop)]
pub(crate) struct Playing<'m, A: Drop> {
    pub(crate) player: A,
    pub(crate) company: Company<'m>,
    // Whether the player has run, or was skipped.
    pub(crate) has_come: bool,
}

/// Skips a player that hasn't come, since there was no memory for its node: it leaves the meeting.
pub(crate) fn skip_absent<O: Object, R: Wait, A: Player<O> + Drop>(
    rt: &R,
    playing: &mut Playing<'_, A>,
) {
    if !playing.has_come {
        playing.has_come = true;
        playing.player.skip(rt);
        playing.company.leave(rt);
    }
}

impl<'m, O: Object, A: Player<O> + Drop> App<O> for Playing<'m, A> {
    fn run<R: Wait>(&mut self, rt: &R, node: &mut Node<O>) {
        self.has_come = true;
        self.player.run(rt, node, &self.company);
        self.company.leave(rt);
        if self.player.stays() {
            self.company.wait_left(rt);
        }
    }

    fn skip<R: Wait>(&mut self, rt: &R) {
        self.has_come = true;
        self.player.skip(rt);
        self.company.leave(rt);
        self.company.wait_left(rt);
    }
}
