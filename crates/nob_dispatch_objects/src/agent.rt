//! The agent of a node: an object whose methods put, get and remove names.
//!
//! Method 0, of a list of a name and a reference, has the name stand for the reference; method 1,
//! of a name, answers the reference; method 2, of a name, removes it. A fault's value is a number:
//! 1 the argument is another, 2 there is no room, 3 there is no such name, 4 the reference can't be
//! kept.

ghost use Rattle.std.specs.Prelude.{◌≡◌, ◌⊎◌, [], true, None, Some, Err, pos, MatchOption, IfOk, IfErr, OnOk, OnErr};
ghost use Rattle.nob_pickle.specs.Shape.{tree, forest};
ghost use Rattle.nob_pickle.specs.declared.value.Value.TheVariants as values;
ghost use Rattle.nob_dispatch_objects.specs.Agents as spec;
ghost use Rattle.nob_dispatch_objects.specs.Names as tables;
ghost use Rattle.nob_dispatch_objects.specs.declared.names.NamesError.{NamesError as NamesErrorOf};
ghost use Rattle.nob_dispatch_objects.specs.declared.agent.Waiting.TheVariants as waits;

use crate::names::{Name, NameTable, NamesError, is_name};
use crate::object::{Done, Object, Outcome};
use nob_ids::WireRep;
use nob_pickle::Value;
use std::alloc::Global;

/// Why a call of the agent is a fault: the number that the fault's value is.
#[derive(Clone, Copy, Debug, PartialEq, Eq)]
enum AgentFault {
    // The argument isn't what the method takes.
    Argument,
    // There is no room for the name.
    Full,
    // There is no such name.
    NoName,
    // The space refuses one hold more on the reference.
    NotKept,
}

impl AgentFault {
    // The number.
    fn number(self) -> i64
        ensures { result ≡ pos (spec.number_of self) }
    {
        match self {
            AgentFault::Argument => 1,
            AgentFault::Full => 2,
            AgentFault::NoName => 3,
            AgentFault::NotKept => 4,
        }
    }

    // The fault as what a method comes to.
    fn outcome(self) -> Outcome
        ensures { result ≡ spec.fault (spec.number_of self) }
    {
        Outcome::Fault(Value::Int(self.number()))
    }
}

// What the agent's method waits for.
#[derive(Debug, Drop)]
enum Waiting {
    // Nothing: no method runs.
    Idle,
    // A hold on the reference that the name is to stand for.
    Hold { name: Name, rep: WireRep },
    // The hold on a reference that no name stands for any more is given back; then the method ends
    // with unit.
    Answering,
    // The hold on a reference that there is no room for is given back; then the method ends with
    // the fault.
    Refusing,
}

/// The agent of a node. It keeps each reference in its table by one hold.
#[derive(Debug, Drop)]
pub struct Agent {
    alloc: Global,
    names: NameTable,
    waiting: Waiting,
}

impl Agent {
    /// An agent with no names. It takes no memory.
    pub fn new(alloc: Global) -> Agent
        ensures names { result.names ≡ [] }
        ensures rest { result.waiting ≡ waits.Idle }
    {
        Agent {
            alloc,
            names: NameTable::new(alloc),
            waiting: Waiting::Idle,
        }
    }

    /// Its names.
    pub fn names(&self) -> &NameTable
        ensures { result.now ≡ self.now.names }
    {
        &self.names
    }

    /// Has a name stand for a reference, while no method runs: the reference that it stood for
    /// before.
    pub fn put_name(&mut self, name: Name, rep: WireRep) -> Result<Option<WireRep>, NamesError>
        ensures before { IfOk result (λ before. before
            ≡ tables.reference_of name self.old.names) }
        ensures put { OnOk result (self.new
            ≡ spec.with_names (tables.with_name name rep self.old.names) self.old) }
        ensures full { IfErr result (λ error. error ≡ NamesError.Full
            → tables.is_full_for name self.old.names ≡ true) }
        ensures only { tables.is_full_for name self.old.names ≡ true
            → result ≡ Err NamesErrorOf.Full }
        ensures err { OnErr result (self.new ≡ self.old) }
    {
        self.names.put(name, rep)
    }

    /// Removes a name, while no method runs: the reference that it stood for.
    pub fn remove_name(&mut self, name: &[u8]) -> Option<WireRep>
        ensures before { result ≡ tables.reference_of name.now self.old.names }
        ensures removed { self.new
            ≡ spec.with_names (tables.without_name name.now self.old.names) self.old }
    {
        self.names.remove(name)
    }

    // Begins to have a name stand for a reference.
    fn put(&mut self, args: &Value) -> Outcome
        ensures { ((result, self.new) ≡ spec.put (spec.entry_in (tree args.now)) self.old)
            ⊎ spec.LacksMemory (spec.entry_in (tree args.now)) self.old (result, self.new) }
    {
        let Some((bytes, rep)) = put_arguments(args) else {
            return AgentFault::Argument.outcome();
        };
        if self.names.is_full_for(bytes) {
            return AgentFault::Full.outcome();
        }
        match Name::new(self.alloc, bytes) {
            Ok(Some(name)) => {
                self.waiting = Waiting::Hold { name, rep: *rep };
                Outcome::Dup(*rep)
            }
            Ok(None) => AgentFault::Argument.outcome(),
            Err(_) => AgentFault::Full.outcome(),
        }
    }

    // The reference that a name stands for.
    fn get(&self, args: &Value) -> Outcome
        ensures { (result, self.now) ≡ spec.get (spec.name_in (tree args.now)) self.now }
    {
        let Some(bytes) = name_argument(args) else {
            return AgentFault::Argument.outcome();
        };
        match self.names.get(bytes) {
            Some(rep) => Outcome::Answer(Value::Ref(rep)),
            None => AgentFault::NoName.outcome(),
        }
    }

    // Removes a name, and begins to give its reference back.
    #[tactic(auto, using(crate::proofs::Bytes::without_none))]
    fn remove(&mut self, args: &Value) -> Outcome
        ensures { (result, self.new) ≡ spec.remove (spec.name_in (tree args.now)) self.old }
    {
        let Some(bytes) = name_argument(args) else {
            return AgentFault::Argument.outcome();
        };
        match self.names.remove(bytes) {
            Some(rep) => {
                self.waiting = Waiting::Answering;
                Outcome::Release(rep)
            }
            None => AgentFault::NoName.outcome(),
        }
    }

    // The reference is held: the name stands for it from now on, and the one that it stood for
    // before is given back.
    fn held(&mut self, name: Name, rep: &WireRep) -> Outcome
        ensures { ((result, self.new) ≡ spec.held name rep.now self.old)
            ⊎ spec.LacksRoom name rep.now self.old (result, self.new) }
    {
        match self.names.put(name, *rep) {
            Ok(None) => Outcome::Answer(Value::Unit),
            Ok(Some(before)) => {
                self.waiting = Waiting::Answering;
                Outcome::Release(before)
            }
            Err(_) => {
                self.waiting = Waiting::Refusing;
                Outcome::Release(*rep)
            }
        }
    }
}

impl Object for Agent {
    ghost begins = { λ old method args outcome new. spec.IsBegun method args old outcome new };

    ghost resumes = { λ old done outcome new. spec.IsResumed done old outcome new };

    fn invoke(&mut self, method: u16, args: &Value) -> Outcome {
        match method {
            0 => self.put(args),
            1 => self.get(args),
            2 => self.remove(args),
            _ => Outcome::NoMethod,
        }
    }

    fn resume(&mut self, done: &Done) -> Outcome {
        let waiting = std::mem::replace(&mut self.waiting, Waiting::Idle);
        match waiting {
            Waiting::Hold { name, rep } => match done {
                Done::Made => self.held(name, &rep),
                _ => AgentFault::NotKept.outcome(),
            },
            Waiting::Answering => Outcome::Answer(Value::Unit),
            Waiting::Refusing => AgentFault::Full.outcome(),
            Waiting::Idle => Outcome::NoMethod,
        }
    }
}

// The name that an argument is.
fn name_argument(args: &Value) -> Option<&[u8]>
    ensures { MatchOption result (spec.name_in (tree args.now) ≡ None)
        (λ bytes. spec.name_in (tree args.now) ≡ Some bytes.now) }
{
    match args {
        Value::Bytes(bytes) if is_name(bytes.as_slice()) => Some(bytes.as_slice()),
        _ => None,
    }
}

// The counted reference that an argument is.
fn counted_argument(args: &Value) -> Option<&WireRep>
    ensures { MatchOption result (spec.counted_in (tree args.now) ≡ None)
        (λ rep. spec.counted_in (tree args.now) ≡ Some rep.now) }
{
    match args {
        Value::Ref(rep) if rep.is_counted() => Some(rep),
        _ => None,
    }
}

// The name and the counted reference that an argument is a list of.
#[tactic(auto, using(crate::proofs::Calls::not_two))]
fn put_arguments(args: &Value) -> Option<(&[u8], &WireRep)>
    ensures { MatchOption result (spec.entry_in (tree args.now) ≡ None)
        (λ entry. spec.entry_in (tree args.now) ≡ Some (entry.0.now, entry.1.now)) }
{
    let Value::List(values) = args else {
        return None;
    };
    let pair = values.as_slice();
    if pair.len() != 2 {
        return None;
    }
    Some((name_argument(&pair[0])?, counted_argument(&pair[1])?))
}
