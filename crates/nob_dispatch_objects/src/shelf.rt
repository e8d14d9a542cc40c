//! The objects of a node, by their indexes.

ghost use Rattle.std.specs.Prelude.{◌≡◌};
ghost use Rattle.nob_dispatch_objects.specs.Agents.{IsBegun, IsResumed};
ghost use Rattle.nob_dispatch_objects.specs.declared.agent.Agent.{Agent as AgentOf};
ghost use Rattle.nob_dispatch_objects.specs.declared.shelf.Held.TheVariants as helds;

use crate::agent::Agent;
use crate::object::{Done, Object, Outcome};
use nob_pickle::Value;

/// An object of a node: one that an application made, or the node's agent.
#[derive(Drop)]
pub enum Held {
    /// An application's.
    Boxed(Box<dyn Object + Send>),
    /// The agent.
    Agent(Agent),
}

impl Object for Held {
    fn invoke(&mut self, method: u16, args: &Value) -> Outcome
        ensures { (old : AgentOf) → self.old ≡ helds.Agent old
            → (new : AgentOf) × (self.new ≡ helds.Agent new)
            × IsBegun method args.now old result new }
    {
        match self {
            Held::Boxed(object) => object.invoke(method, args),
            Held::Agent(agent) => agent.invoke(method, args),
        }
    }

    fn resume(&mut self, done: &Done) -> Outcome
        ensures { (old : AgentOf) → self.old ≡ helds.Agent old
            → (new : AgentOf) × (self.new ≡ helds.Agent new) × IsResumed done.now old result new }
    {
        match self {
            Held::Boxed(object) => object.resume(done),
            Held::Agent(agent) => agent.resume(done),
        }
    }
}
