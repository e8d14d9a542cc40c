//! Holds on references, and what a call returns.

ghost use Rattle.std.specs.Prelude.{◌≡◌, Ok, IfOk, IfErr};
ghost use Rattle.nob_model_types.specs.declared.answer.Answer.TheVariants as answers;
ghost use Rattle.nob_node.specs.Calls.{IsHandedOn};
ghost use Rattle.nob_node.specs.Holds.{IsOneHold, counted_in, held_by};
ghost use Rattle.nob_node.specs.declared.hold.Hold.{Hold as HoldOf};
ghost use Rattle.nob_node.specs.declared.hold.Returned.TheVariants as returns;

use nob_ids::WireRep;
use nob_node_site::Placed;
use nob_pickle::{Value, counted_ref};
use std::alloc::{AllocError, Global};

/// One hold of a node on a reference. It must be given back: by `Node::release`, or by `forget` once
/// the node has ended.
pub struct Hold {
    pub(crate) rep: WireRep,
    // That the object of a reference that was exported was put at its index.
    pub(crate) placed: Option<Placed>,
}

impl Hold {
    /// The reference.
    pub fn rep(&self) -> WireRep
        ensures { result ≡ self.now.rep }
    {
        self.rep
    }

    /// Lets go of a hold whose node has ended, and with it all that it held.
    pub fn forget(self) {
        let Hold { rep: _, placed: _ } = self;
    }
}

/// What a call returns.
pub enum Returned {
    /// The reply.
    Replied {
        /// 0 answered, 1 a fault, 2 no such method, 3 a reference was lost.
        status: u8,
        /// The value.
        value: Value,
        /// A hold on each counted reference in the value, in reading order.
        holds: Vec<Hold>,
    },
    /// The session closed before the reply came.
    Ended,
}

impl Returned {
    /// The hold of an answer with one counted reference: else what was returned comes back.
    pub fn into_hold(self) -> Result<Hold, Returned>
        ensures hold { IfOk result (λ hold. IsOneHold self hold) }
        ensures only { (hold : HoldOf) → IsOneHold self hold → result ≡ Ok hold }
        ensures back { IfErr result (λ back. back ≡ self) }
    {
        match self {
            Returned::Replied {
                status,
                value,
                holds,
            } => one_hold(status, value, holds),
            Returned::Ended => Err(Returned::Ended),
        }
    }

    /// Lets go of its holds, whose node has ended.
    pub fn forget(self) {
        match self {
            Returned::Replied {
                status: _,
                value: _,
                holds,
            } => forget_all(holds),
            Returned::Ended => {}
        }
    }
}

// The hold of an answer with one counted reference.
fn one_hold(status: u8, value: Value, mut holds: Vec<Hold>) -> Result<Hold, Returned>
    ensures hold { IfOk result (λ hold. IsOneHold (returns.Replied status value holds) hold) }
    ensures only { (hold : HoldOf) → IsOneHold (returns.Replied status value holds) hold
        → result ≡ Ok hold }
    ensures back { IfErr result (λ back. back ≡ returns.Replied status value holds) }
{
    if status == 0
        && holds.len() == 1
        && let Some(hold) = holds.pop()
    {
        forget_all(holds);
        return Ok(hold);
    }
    Err(Returned::Replied {
        status,
        value,
        holds,
    })
}

// A reply as it is handed on: with a hold on each of its counted references. Only memory fails it.
pub(crate) fn handed_on(alloc: Global, status: u8, value: &Value) -> Result<Returned, AllocError>
    ensures { IfOk result (λ returned. IsHandedOn (Ok (answers.Replied status value.now)) returned) }
{
    let value = value.copy()?;
    let holds = holds_in(alloc, &value)?;
    Ok(Returned::Replied {
        status,
        value,
        holds,
    })
}

// A hold on each counted reference in a value, in reading order. Only memory fails it.
fn holds_in(alloc: Global, value: &Value) -> Result<Vec<Hold>, AllocError>
    ensures { IfOk result (λ holds. held_by holds.items ≡ counted_in value.now) }
{
    let mut holds = Vec::new(alloc);
    while let Some(rep) = counted_ref(value, holds.len()) {
        if let Err(failed) = holds.push(Hold { rep, placed: None }) {
            failed.value.forget();
            forget_all(holds);
            return Err(AllocError);
        }
    }
    Ok(holds)
}

// Lets go of holds.
fn forget_all(mut holds: Vec<Hold>) {
    while let Some(hold) = holds.pop() {
        hold.forget();
    }
    holds.destroy_empty();
}
