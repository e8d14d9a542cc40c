//! Objects that run: what a method is asked, and what it asks for while it runs.

ghost use Rattle.std.specs.Prelude.{ℕ};
ghost use Rattle.nob_dispatch_objects.specs.declared.object.Done.{Done as DoneOf};
ghost use Rattle.nob_dispatch_objects.specs.declared.object.Outcome.{Outcome as OutcomeOf};
ghost use Rattle.nob_pickle.specs.declared.value.Value.{Value as ValueOf};

use nob_ids::WireRep;
use nob_model_types::Refusal;
use nob_pickle::Value;

/// What a method that runs comes to: it ends, or asks for something first.
#[derive(Debug, Drop)]
pub enum Outcome {
    /// It ends with this answer.
    Answer(Value),
    /// It ends with a fault, which has this value.
    Fault(Value),
    /// It ends: there is no such method.
    NoMethod,
    /// It calls a method of another object, and waits for the reply.
    Call {
        /// The object.
        target: WireRep,
        /// The number of the method.
        method: u16,
        /// The argument.
        value: Value,
    },
    /// It wants one hold more on a reference that it has, to keep it when it has ended.
    Dup(WireRep),
    /// It gives back one hold on a reference.
    Release(WireRep),
}

/// What came of that which a method asked for.
#[derive(Debug, Drop)]
pub enum Done {
    /// The reply to its call: the status, and the value. Each reference in the value is held once by
    /// the space, for the object to give back.
    Replied {
        /// 0 answered, 1 a fault, 2 no such method, 3 a reference was lost.
        status: u8,
        /// The value.
        value: Value,
    },
    /// The session closed before the reply to its call was ready.
    Ended,
    /// The hold was made, or given back.
    Made,
    /// The space refused it.
    Refused(Refusal),
}

/// An object that others call. It runs one call at a time. What its methods come to is its own: who
/// runs an object of any type knows no more of it than these two say, and so has run just that at
/// it of which it says what it came to.
pub trait Object: Drop {
    /// What it may come to where a method begins: the object before, the number of the method, the
    /// argument, what it comes to, and the object then.
    ghost begins: { Self → ℕ → ValueOf → OutcomeOf → Self → Type 0 } = { λ _ _ _ _ _. Unit {0} };

    /// What it may come to where it is told what came of that which its method asked for.
    ghost resumes: { Self → DoneOf → OutcomeOf → Self → Type 0 } = { λ _ _ _ _. Unit {0} };

    /// Begins a call of a method. The references in the argument are held until it ends: one that is
    /// to be kept longer wants a `Dup`.
    fn invoke(&mut self, method: u16, args: &Value) -> Outcome
        ensures { begins self.old method args.now result self.new };

    /// Goes on with the method that asked for something, once that is done.
    fn resume(&mut self, done: &Done) -> Outcome
        ensures { resumes self.old done.now result self.new };
}
