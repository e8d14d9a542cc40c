//! A node, as its application sees it.

ghost use Rattle.std.specs.Prelude.{◌≡◌, ◌≢◌, ◌++◌, List, [], Some, None, Ok, Err, reverse, IfOk, IfErr, IfSome, OnOk, OnErr, MatchResult};
ghost use Rattle.nob_model_types.specs.declared.event.Event.TheVariants as events;
ghost use Rattle.nob_model_types.specs.declared.answer.Answer.TheVariants as answers;
ghost use Rattle.nob_pickle.specs.declared.value.Value.TheVariants as values;
ghost use Rattle.nob_keeper.specs.Receipt.{Receipt as ReceiptOf};
ghost use Rattle.nob_keeper.specs.Kinds as kinds;
ghost use Rattle.nob_keeper.specs.Summaries as summaries;
ghost use Rattle.nob_node.specs.Calls as calls;
ghost use Rattle.nob_node.specs.Holds.{IsPlaced};
ghost use Rattle.nob_node_site.specs.Objects as objects;

use crate::error::NodeError;
use crate::hold::{Hold, Returned, handed_on};
use nob_bytes::Bytes;
use nob_dispatch_objects::{Name, Object};
use nob_ids::{CallNo, SpaceId, WireRep};
use nob_keeper::{
    AnswerKind, Backlog, CallAnswer, CloseAnswer, DoneAnswer, ExportAnswer, KeeperError,
    OpenAnswer, Receipt, Seat, Tally, WithdrawAnswer,
};
use nob_model_types::{Event, Refusal};
use nob_node_site::{Calls, JobCalls, Kept, Site};
use nob_pickle::Value;
use std::alloc::{AllocError, Global};
use std::marker::Model;
use std::sync::Wait;
use std::{mem, thread};

/// A node, as its application sees it. Contracts see the receipts of its calls, the newest first.
#[derive(Drop)]
pub struct Node<'x, B: Object> {
    alloc: Global,
    site: &'x Site<B>,
    seat: Seat,
}

impl<'x, B: Object> Model for Node<'x, B> {
    ghost use Rattle.std.specs.Prelude.{List};
    ghost use Rattle.nob_keeper.specs.Receipt.{Receipt};

    ghost Value = { List Receipt };

    ghost use Rattle.std.specs.Coded.{codes};
    ghost use Rattle.nob_pickle.specs.Marks.{trees_code};

    ghost coded = { Prim.hlevel (codes, trees_code) };

    ghost view = { λ node. node.seat };
}

// What fails a call that wants the agent of a node which has none. It doesn't come while the node
// runs.
const NO_AGENT: NodeError = NodeError::Keeper(KeeperError::Seats);

impl<'x, B: Object> Node<'x, B> {
    // The node of a site.
    pub(crate) fn new(alloc: Global, site: &'x Site<B>, seat: Seat) -> Node<'x, B>
        requires { seat ≡ [] }
        ensures { result ≡ [] }
    {
        Node { alloc, site, seat }
    }

    // Its seat.
    pub(crate) fn into_seat(self) -> Seat {
        let Node {
            alloc: _,
            site: _,
            seat,
        } = self;
        seat
    }

    // One event of the space, and its answer. J2 where the space refuses it.
    fn ask<R: Wait, A: AnswerKind>(&mut self, rt: &R, event: &Event) -> Result<A, NodeError>
        requires kind { kinds.IsAnsweredBy A.is_one event.now }
        ensures answered { IfOk result (λ answer.
            calls.Answered self.old self.new event.now (Ok (A.as_answer answer))) }
        ensures refused { IfErr result (λ error. calls.IsRefusal self.old self.new event.now error) }
        ensures want { IfErr result (λ error. calls.KeepsOnWant self.old self.new error) }
    {
        if let Err(error) = Calls::call(self.site, rt, &mut self.seat, event, 0) {
            return Err(NodeError::Keeper(error));
        }
        match self.seat.answer() {
            Ok(answer) => Ok(answer),
            Err(refusal) => Err(NodeError::Refused(refusal)),
        }
    }

    // One event of the space, once there is memory for its entry: want of memory is waited out.
    #[tactic(auto, using(crate::proofs::Asked::answered_once, crate::proofs::Asked::refused_once))]
    fn ask_surely<R: Wait, A: AnswerKind>(&mut self, rt: &R, event: &Event) -> Result<A, NodeError>
        requires kind { kinds.IsAnsweredBy A.is_one event.now }
        ensures answered { IfOk result (λ answer.
            calls.Answered self.old self.new event.now (Ok (A.as_answer answer))) }
        ensures refused { IfErr result (λ error. calls.IsRefusal self.old self.new event.now error) }
        ensures only { IfErr result (λ error. error ≢ calls.want) }
        ensures asked { calls.IsAskedAtMost self.old self.new event.now }
    {
        for _ in rt.forever() {
            match self.ask(rt, event) {
                Ok(answer) => return Ok(answer),
                Err(NodeError::Keeper(KeeperError::OutOfMemory)) => thread::yield_now(),
                Err(error) => return Err(error),
            }
        }
        unreachable!()
    }

    /// Makes an object known: a hold on a reference to it. The object comes back where that fails:
    /// J2 where the space refuses it (S13), J1 where the keeper does, or memory is wanted.
    pub fn export<R: Wait>(&mut self, rt: &R, object: B) -> Result<Hold, (NodeError, B)>
        ensures made { IfOk result (λ hold. calls.Answered self.old self.new events.Export
            (Ok (answers.Exported hold.rep))) }
        ensures placed { IfOk result IsPlaced }
        ensures refused { IfErr result (λ back.
            calls.IsExportRefusal self.old self.new back.0) }
        ensures back { IfErr result (λ back. back.1 ≡ object) }
    {
        let rep = match self.ask(rt, &Event::Export) {
            Ok(ExportAnswer(rep)) => rep,
            Err(error) => return Err((error, object)),
        };
        match self.site.jobs.add(rt, self.alloc, rep.index, object) {
            Ok(placed) => Ok(Hold {
                rep,
                placed: Some(placed),
            }),
            Err(object) => {
                self.take_back(rt, rep);
                Err((NodeError::Keeper(KeeperError::OutOfMemory), object))
            }
        }
    }

    // Gives up an object that there was no room for. Want of memory is waited out: else it would stay
    // live for good.
    fn take_back<R: Wait>(&mut self, rt: &R, rep: WireRep)
        ensures { calls.IsGivenUp self.old self.new rep }
    {
        let index = rep.index;
        let _ = self.ask_surely::<R, DoneAnswer>(rt, &Event::Release(rep));
        let _ = self.ask_surely::<R, WithdrawAnswer>(rt, &Event::Withdraw(index));
    }

    /// One hold more on the same reference. J1, J2 (S2, S3, S4, S13).
    pub fn dup<R: Wait>(&mut self, rt: &R, hold: &Hold) -> Result<Hold, NodeError>
        ensures made { IfOk result (λ made. (made.rep ≡ hold.now.rep)
            × calls.Answered self.old self.new (events.Dup hold.now.rep) (Ok answers.Done)) }
        ensures refused { IfErr result (λ error.
            calls.IsRefusal self.old self.new (events.Dup hold.now.rep) error) }
    {
        let DoneAnswer = self.ask(rt, &Event::Dup(hold.rep))?;
        Ok(Hold {
            rep: hold.rep,
            placed: None,
        })
    }

    /// Gives a hold back. It comes back where that fails.
    pub fn release<R: Wait>(&mut self, rt: &R, hold: Hold) -> Result<(), (NodeError, Hold)>
        ensures made { OnOk result
            (calls.Answered self.old self.new (events.Release hold.rep) (Ok answers.Done)) }
        ensures refused { IfErr result (λ back.
            calls.IsRefusal self.old self.new (events.Release hold.rep) back.0) }
        ensures back { IfErr result (λ back. back.1 ≡ hold) }
    {
        match self.ask(rt, &Event::Release(hold.rep)) {
            Ok(DoneAnswer) => {
                hold.forget();
                Ok(())
            }
            Err(error) => Err((error, hold)),
        }
    }

    /// Closes the session with a peer. J1, J2 (S1, S2). A hold that the application keeps of an object
    /// of that peer, and a name of this node's agent that stands for one, hinder that the session is
    /// opened anew.
    pub fn close<R: Wait>(&mut self, rt: &R, peer: SpaceId) -> Result<(), NodeError>
        ensures closed { OnOk result (calls.IsClosed self.old self.new peer) }
        ensures refused { IfErr result (λ error.
            calls.IsRefusal self.old self.new (events.Close peer) error) }
    {
        let CloseAnswer(_) = self.ask(rt, &Event::Close(peer))?;
        Ok(())
    }

    /// Opens a session with a peer anew, after a close: its number. What is under way in the old one
    /// stays lost, and nothing is opened unasked. J1, J2: S1, S15 where the session is open here, S16
    /// while something of the peer's objects is left here, such as a hold, or a name of this node's
    /// agent that stands for one, S13 where no number is left.
    pub fn open<R: Wait>(&mut self, rt: &R, peer: SpaceId) -> Result<u32, NodeError>
        ensures opened { IfOk result (λ number. calls.Answered self.old self.new
            (events.Open peer) (Ok (answers.Opened number))) }
        ensures refused { IfErr result (λ error.
            calls.IsRefusal self.old self.new (events.Open peer) error) }
    {
        let OpenAnswer(number) = self.ask(rt, &Event::Open(peer))?;
        Ok(number)
    }

    /// Calls a method of the object that a hold is on, and waits for what it returns. The value comes
    /// back where that fails. Whoever makes an entry after which the reply is ready wakes it, and who
    /// fills the trace.
    pub fn call<R: Wait>(
        &mut self,
        rt: &R,
        hold: &Hold,
        method: u16,
        value: Value,
    ) -> Result<Returned, (NodeError, Value)>
        ensures returned { IfOk result (λ returned.
            calls.IsCall self.old self.new hold.now.rep method value returned) }
        ensures refused { IfErr result (λ back.
            calls.IsCallRefusal self.old self.new hold.now.rep method value back.0) }
        ensures back { IfErr result (λ back. back.1 ≡ value) }
    {
        let event = Event::Call {
            target: hold.rep,
            method,
            value,
        };
        match self.call_by(rt, &event) {
            Ok(returned) => Ok(returned),
            Err(error) => Err((error, value_in(event))),
        }
    }

    /// Asks the agent of a space for the reference that a name stands for: a call of its method 1.
    pub fn lookup<R: Wait>(
        &mut self,
        rt: &R,
        space: SpaceId,
        name: &[u8],
    ) -> Result<Returned, NodeError>
        ensures returned { IfOk result (λ returned. calls.IsCall self.old self.new
            (calls.agent_of space) 1 (values.Bytes name.now) returned) }
        ensures refused { IfErr result (λ error. calls.IsCallRefusal self.old self.new
            (calls.agent_of space) 1 (values.Bytes name.now) error) }
    {
        let Ok(name) = Bytes::from_slice(self.alloc, name) else {
            return Err(NodeError::Keeper(KeeperError::OutOfMemory));
        };
        let agent = WireRep {
            owner: space,
            index: 0,
        };
        let event = Event::Call {
            target: agent,
            method: 1,
            value: Value::Bytes(name),
        };
        self.call_by(rt, &event)
    }

    // Makes the call that an event asks for, and takes its reply.
    fn call_by<R: Wait>(&mut self, rt: &R, event: &Event) -> Result<Returned, NodeError>
        requires kind { kinds.IsAnsweredBy kinds.is_called event.now }
        ensures returned { IfOk result (λ returned.
            calls.IsCallBy self.old self.new event.now returned) }
        ensures refused { IfErr result (λ error.
            calls.IsRefusalBy self.old self.new event.now error) }
    {
        let CallAnswer(call) = self.ask(rt, event)?;
        self.take_reply(rt, call)
    }

    // Takes the reply to a call once it is ready, or can't come any more.
    fn take_reply<R: Wait>(&mut self, rt: &R, call: CallNo) -> Result<Returned, NodeError>
        ensures taken { IfOk result (λ returned.
            calls.TakesReply self.old self.new call returned) }
        ensures refused { IfErr result (λ error.
            calls.IsRefusal self.old self.new (events.TakeReply call) error) }
    {
        self.await_reply(rt, call)?;
        for _ in rt.forever() {
            match returned_in(self.alloc, &self.seat) {
                Ok(returned) => return returned,
                Err(_) => thread::yield_now(),
            }
        }
        unreachable!()
    }

    // The event that takes the reply to a call, once it is ready. Want of memory is waited out: the
    // call is made.
    fn await_reply<R: Wait>(&mut self, rt: &R, call: CallNo) -> Result<(), NodeError>
        ensures asked { OnOk result (calls.IsAsked self.old self.new (events.TakeReply call)) }
        ensures refused { IfErr result (λ error.
            calls.IsRefusal self.old self.new (events.TakeReply call) error) }
    {
        for _ in rt.forever() {
            match JobCalls::wait_reply(self.site, rt, &mut self.seat, call) {
                Ok(()) => return Ok(()),
                Err(KeeperError::OutOfMemory) => thread::yield_now(),
                Err(error) => return Err(NodeError::Keeper(error)),
            }
        }
        unreachable!()
    }

    /// Has a name stand for the reference of a hold at this node's own agent, which keeps a hold of
    /// its own on it. The reference that the name stood for is given back, for which want of memory
    /// is waited out. It waits while the agent runs. J2: S7 where these bytes are no name (1 to 255
    /// bytes), S13 where there are 1,024 names and it is none of them, and as `dup`.
    pub fn bind<R: Wait>(&mut self, rt: &R, name: &[u8], hold: &Hold) -> Result<(), NodeError>
        ensures bound { OnOk result (calls.IsBound self.old self.new hold.now.rep) }
        ensures want { IfErr result (λ error.
            calls.KeepsHoldsOnWant self.old self.new hold.now.rep error) }
    {
        let name = match Name::new(self.alloc, name) {
            Ok(Some(name)) => name,
            Ok(None) => return Err(NodeError::Refused(Refusal::TooBig)),
            Err(_) => return Err(NodeError::Keeper(KeeperError::OutOfMemory)),
        };
        let Some(mut agent) = self.site.borrow_agent(rt) else {
            return Err(NO_AGENT);
        };
        let bound = self.bind_at(rt, &mut agent, name, hold);
        self.site.give_agent_back(rt, agent);
        match bound? {
            Some(before) => self.give_back(rt, before),
            None => Ok(()),
        }
    }

    /// Removes a name at this node's own agent, and gives back the reference that it stood for, if
    /// there is such a name. It waits while the agent runs, and where memory is wanted: else that
    /// hold would be lost. J1, but not for want of memory.
    pub fn unbind<R: Wait>(&mut self, rt: &R, name: &[u8]) -> Result<(), NodeError>
        ensures unbound { OnOk result (calls.IsUnbound self.old self.new) }
        ensures only { IfErr result (λ error. error ≢ calls.want) }
    {
        let Some(mut agent) = self.site.borrow_agent(rt) else {
            return Err(NO_AGENT);
        };
        let before = agent.remove(name);
        self.site.give_agent_back(rt, agent);
        match before {
            Some(before) => self.give_back(rt, before),
            None => Ok(()),
        }
    }

    /// Waits until the object of an index is withdrawn, and let go: until nobody refers to it any
    /// more. It may never return. Whoever withdraws it wakes it, and who finds that the trace is
    /// full.
    pub fn wait_withdrawn<R: Wait>(&self, rt: &R, index: u64) {
        self.site.wait_withdrawn(rt, index);
    }

    // Gives back a hold that the agent had on a reference. Want of memory is waited out: else that
    // hold would be lost.
    fn give_back<R: Wait>(&mut self, rt: &R, rep: WireRep) -> Result<(), NodeError>
        ensures given { OnOk result
            (calls.Answered self.old self.new (events.Release rep) (Ok answers.Done)) }
        ensures only { IfErr result (λ error. error ≢ calls.want) }
    {
        let DoneAnswer = self.ask_surely(rt, &Event::Release(rep))?;
        Ok(())
    }

    // Has a name stand for the reference of a hold at the agent: the reference that it stood for
    // before.
    fn bind_at<R: Wait>(
        &mut self,
        rt: &R,
        agent: &mut Kept<B>,
        name: Name,
        hold: &Hold,
    ) -> Result<Option<WireRep>, NodeError>
        ensures held { OnOk result (calls.Answered self.old self.new (events.Dup hold.now.rep)
            (Ok answers.Done)) }
        ensures before { IfOk result (λ before. before ≡ objects.reference_of name agent.old) }
        ensures agent { MatchResult result
            (λ _. agent.new ≡ objects.with_name name hold.now.rep agent.old)
            (λ _. agent.new ≡ agent.old) }
        ensures want { IfErr result (λ error.
            calls.KeepsHoldsOnWant self.old self.new hold.now.rep error) }
    {
        if agent.is_full_for(&name) {
            return Err(NodeError::Refused(Refusal::Limit));
        }
        let DoneAnswer = self.ask(rt, &Event::Dup(hold.rep))?;
        match agent.put(name, hold.rep) {
            Some(before) => Ok(before),
            None => {
                self.give_back(rt, hold.rep)?;
                Err(NodeError::Keeper(KeeperError::OutOfMemory))
            }
        }
    }

    /// The receipts of its calls that are kept, the first first: all, or where nothing is kept the
    /// newest.
    pub fn receipts(&self) -> &[Receipt]
        ensures kept { (earlier : List ReceiptOf) × (reverse self.now ≡ earlier ++ result.now) }
        ensures newest { result.now ≡ [] → self.now ≡ [] }
    {
        self.seat.receipts()
    }

    /// What went each way on the session with a peer, and how it ended: none where it is no peer.
    pub fn tally<R: Wait>(&self, rt: &R, peer: SpaceId) -> Option<Tally>
        ensures { summaries.IsTally peer result }
    {
        self.site.tally(rt, peer)
    }

    /// How many objects of this node are live.
    pub fn live<R: Wait>(&self, rt: &R) -> u64
        ensures { summaries.IsLive result }
    {
        self.site.live(rt)
    }

    /// How many calls of this node aren't taken, those by which it asks whether a peer is there
    /// among them, how many jobs are ready, and how many run.
    pub fn backlog<R: Wait>(&self, rt: &R) -> Backlog
        ensures { summaries.IsBacklog result }
    {
        self.site.backlog(rt)
    }
}

// The value of a call.
fn value_in(event: Event) -> Value
    ensures { result ≡ calls.value_of event }
{
    let mut event = event;
    match &mut event {
        Event::Call { value, .. } => mem::replace(value, Value::Unit),
        _ => Value::Unit,
    }
}

// What the newest receipt, which is of a TakeReply, hands on: the reply, or that none comes. Only
// memory fails it.
fn returned_in(alloc: Global, seat: &Seat) -> Result<Result<Returned, NodeError>, AllocError>
    requires kind { kinds.IsNewestAnsweredBy kinds.is_reply seat.now }
    ensures { IfOk result (λ told. calls.HandsOn seat.now told) }
{
    match seat.reply() {
        Ok(Some((status, value))) => {
            let returned = handed_on(alloc, status, value)?;
            Ok(Ok(returned))
        }
        Ok(None) => Ok(Ok(Returned::Ended)),
        Err(refusal) => Ok(Err(NodeError::Refused(refusal))),
    }
}
