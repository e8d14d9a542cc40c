//! Laws over the definitions: each is the contract of a function that does nothing.

ghost use Rattle.nob_model_invariant.specs.SafetyLaws.{ClientsLaw, FrontsLaw, HoldingsLaw, ListingsLaw, LivingLaw, NamesLaw, OwnersLaw, ReadingsLaw, SafeWithdrawLaw, SessionsLaw, SettlementsLaw};

/// In every run of a world, of every two spaces and in each session: each item that one sent the
/// other has a spelling; what came of an item, accepted or kept until its turn, is the one of its
/// number; of these the other accepted a beginning and acted on a beginning, in order; and each
/// frame that was ever given carries what its sender handed on. Asked of the run: what each Call
/// and Finish handed on is of its types.
#[tactic(auto, using(crate::proofs::Order::sessions))]
pub fn sessions()
    ensures { SessionsLaw }
{}

/// In every run of a world what each space acted on from each peer in each session is a beginning of
/// what that peer sent it in it, every item once and in order, and nothing is acted on or sent after
/// the session closed.
/// Asked of the run: what each Call and Finish handed on is of its types.
#[tactic(auto, using(crate::proofs::Fronts::fronts_law))]
pub fn fronts()
    ensures { FrontsLaw }
{}

/// In every run of a world client and owner took turns, for each reference: a Dirty, a Clean, a
/// Dirty and so on, each Dirty but the last answered, and what a Clean gave up granted. The turns
/// that a client is said to have had are what it sent the owner and acted on from it.
#[tactic(auto, using(crate::proofs::SafetyPoints::clients))]
pub fn clients()
    ensures { ClientsLaw }
{}

/// In every run of a world each owner answered each Dirty that it acted on once, never a DirtyOk
/// after a DirtyNo, and DirtyNo only for an object that was withdrawn; and a client is entered for
/// an object exactly where its last Dirty or Clean that the owner acted on is a Dirty that was
/// answered by DirtyOk.
#[tactic(auto, using(crate::proofs::SafetyPoints::owners))]
pub fn owners()
    ensures { OwnersLaw }
{}

/// In every run of a world all that is named in what a space sent was exported by its owner: each
/// counted reference that an item carries, the object that a Call calls, the agent aside, and the
/// one that a Dirty or a Clean is about. Asked of the run: what each Call and Finish handed on is
/// of its types.
#[tactic(auto, using(crate::proofs::Naming::names))]
pub fn names()
    ensures { NamesLaw }
{}

/// In every run of a world a client that is granted a reference is listed for it at its owner, if
/// that is in the client's session and hasn't closed it. Asked of the run: what each Call and Finish
/// handed on is of its types.
#[tactic(auto, using(crate::proofs::Listings::listings))]
pub fn listings()
    ensures { ListingsLaw }
{}

/// In every run of a world what a space holds, and what has pins there, is its own or granted.
#[tactic(auto, using(crate::proofs::SafetyPoints::holdings))]
pub fn holdings()
    ensures { HoldingsLaw }
{}

/// In every run of a world no owner withdraws an object while a space that reaches it can use it,
/// or while a copy of its reference is on its way in sessions that are open, the one with the owner
/// in which it was sent too. Asked of the run: what each Call and Finish handed on is of its types.
#[tactic(auto, using(crate::proofs::Withdrawing::safe_withdraw))]
pub fn withdraws()
    ensures { SafeWithdrawLaw }
{}

/// In every run of a world no session closes for a bad item: what comes to be acted on can be read,
/// and no frame acknowledges what was never transmitted. Asked of the run: what each Call and
/// Finish handed on is of its types.
#[tactic(auto, using(crate::proofs::Bad::readings))]
pub fn readings()
    ensures { ReadingsLaw }
{}

/// In every run of a world no item of a session is settled twice, none that wasn't acted on, none
/// that carries no counted reference, and none whose message waits.
#[tactic(auto, using(crate::proofs::SafetyPoints::settlements))]
pub fn settlements()
    ensures { SettlementsLaw }
{}

/// In every run of a world what an owner holds of its own objects, what has pins there and what any
/// client is listed for is live: exported and not withdrawn.
#[tactic(auto, using(crate::proofs::SafetyPoints::living))]
pub fn living()
    ensures { LivingLaw }
{}
