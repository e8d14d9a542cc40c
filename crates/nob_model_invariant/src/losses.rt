//! Laws over the definitions: each is the contract of a function that does nothing.

ghost use Rattle.nob_model_invariant.specs.LossLaws.{CopiesLaw, DenialsLaw, LeaksLaw, LossesLaw, NumbersLaw, SettledLaw, WaitingLaw};

/// In every run of a world each item that carries counted references and was acted on in the present
/// session is settled, unless its message still waits or the session with its sender closed there.
#[tactic(auto, using(crate::proofs::Points::settled))]
pub fn settled()
    ensures { SettledLaw }
{}

/// In every run of a world each counted reference of a message that waits is the space's own, lost,
/// or has a surrogate: pending, granted or refused.
#[tactic(auto, using(crate::proofs::Points::waiting))]
pub fn waiting()
    ensures { WaitingLaw }
{}

/// In every run of a world, where an owner answered a client by DirtyNo in a session, all that it
/// sent that client in it with a reference to the object is settled by what it acted on in it.
#[tactic(auto, using(crate::proofs::Points::denials))]
pub fn denials()
    ensures { DenialsLaw }
{}

/// In every run of a world the session in which a copy was sent and came isn't above the ones in
/// which its sender and its receiver are, nor the one with the owner in which it was sent above those
/// in which its sender and the owner are. Asked of the run: what each Call and Finish handed on is of
/// its types.
#[tactic(auto, using(crate::proofs::Numbers::numbers))]
pub fn numbers()
    ensures { NumbersLaw }
{}

/// In every run of a world, of the copies of a reference that a space acted on since it last gave
/// it up: without a surrogate there are none; while it is pending each waits in its message, or
/// came in a session that the space has left; where the owner refused it each is excused. Asked of
/// the run: what each Call and Finish handed on is of its types.
#[tactic(auto, using(crate::proofs::Points::copied))]
pub fn copies()
    ensures { CopiesLaw }
{}

/// In every run of a world no reference is lost without a cause: where an owner refuses one, each
/// copy that came was sent by another space, and the session in which it came isn't open any more,
/// or the one with the owner in which it was sent. Asked of the run: what each Call and Finish
/// handed on is of its types.
#[tactic(auto, using(crate::proofs::Excused::losses))]
pub fn losses()
    ensures { LossesLaw }
{}

/// In every run of a world no object leaks: once all is quiet, each live object that no space can
/// use can be withdrawn.
#[tactic(auto, using(crate::proofs::Leaking::leaks))]
pub fn leaks()
    ensures { LeaksLaw }
{}
