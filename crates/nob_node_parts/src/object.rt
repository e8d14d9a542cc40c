//! The objects of a node.

ghost use Rattle.std.specs.Prelude.{◌≡◌, true, None, IfSome, MatchOption};
ghost use Rattle.nob_node_parts.specs.Objects as objects;

use nob_dispatch_objects::{Agent, Done, Name, Object, Outcome};
use nob_ids::WireRep;
use nob_pickle::Value;

/// What a node keeps at an index: an application's object, or the node's agent.
#[derive(Drop)]
pub enum Kept<B: Object> {
    /// An application's object.
    Own(B),
    /// The agent.
    Agent(Agent),
}

impl<B: Object> Object for Kept<B> {
    ghost begins = { objects.Begins B.begins };

    ghost resumes = { objects.Resumes B.resumes };

    fn invoke(&mut self, method: u16, args: &Value) -> Outcome {
        match self {
            Kept::Own(object) => object.invoke(method, args),
            Kept::Agent(agent) => agent.invoke(method, args),
        }
    }

    fn resume(&mut self, done: &Done) -> Outcome {
        match self {
            Kept::Own(object) => object.resume(done),
            Kept::Agent(agent) => agent.resume(done),
        }
    }
}

impl<B: Object> Kept<B> {
    /// The application's object: `None` for the agent.
    pub fn into_own(self) -> Option<B>
        ensures { result ≡ objects.own_in self }
    {
        match self {
            Kept::Own(object) => Some(object),
            Kept::Agent(_) => None,
        }
    }

    /// Whether it has no room for a name.
    pub fn is_full_for(&self, name: &Name) -> bool
        ensures { result ≡ objects.is_full_for name.now self.now }
    {
        match self {
            Kept::Own(_) => true,
            Kept::Agent(agent) => agent.names().is_full_for(name.as_bytes()),
        }
    }

    /// Takes a name out: the reference that it stood for.
    pub fn remove(&mut self, name: &[u8]) -> Option<WireRep>
        ensures before { result ≡ objects.reference_of name.now self.old }
        ensures removed { self.new ≡ objects.without_name name.now self.old }
    {
        match self {
            Kept::Own(_) => None,
            Kept::Agent(agent) => agent.remove_name(name),
        }
    }

    /// Has a name stand for a reference: the reference that it stood for before. `None` where there is
    /// no room, or no memory.
    pub fn put(&mut self, name: Name, rep: WireRep) -> Option<Option<WireRep>>
        ensures put { MatchOption result (self.new ≡ self.old)
            (λ _. self.new ≡ objects.with_name name rep self.old) }
        ensures before { IfSome result (λ before.
            before ≡ objects.reference_of name self.old) }
        ensures full { objects.is_full_for name self.old ≡ true → result ≡ None }
    {
        match self {
            Kept::Own(_) => None,
            Kept::Agent(agent) => agent.put_name(name, rep).ok(),
        }
    }
}

/// An object that was not withdrawn when its node ended.
#[derive(Drop)]
pub struct LeftObject<B: Object> {
    /// Its index.
    pub index: u64,
    /// The object.
    pub object: B,
}
