//! Laws over the definitions: each is the contract of a function that does nothing.

ghost use Rattle.nob_model.specs.Laws.{DeedsLaw, EntriesLaw, NumbersLaw, TurnLaw, SettledLaw, TurnsLaw, ObjectsLaw, ActedLaw, CallsLaw, ListedLaw, PinnedLaw, HoldsLaw, ActLaw, SendLaw, SettleLaw, CleanLaw, ClaimLaw, WithdrawLaw, LeastLaw, ReplyLaw};

/// What a list of right entries did is a list of right deeds, and each list of right deeds is what
/// some right entries did.
#[tactic(auto, using(crate::proofs::Doing::right_deeds, crate::proofs::Doing::right_entries))]
pub fn deeds()
    ensures forth { DeedsLaw }
    ensures back { EntriesLaw }
{}

/// In every list of right deeds the numbers of sessions rise, items were accepted in their turn,
/// each Settle that was acted on was of an item that was sent before, client and owner took turns,
/// and so did Exports and Withdraws: what the laws of the crates below ask of a list.
#[tactic(auto, using(crate::proofs::Reopening::numbers_rise, crate::proofs::Premises::in_turn, crate::proofs::Premises::settles_sent, crate::proofs::Premises::took_turns, crate::proofs::Premises::objects_in_turn))]
pub fn premises()
    ensures numbers { NumbersLaw }
    ensures accepted { TurnLaw }
    ensures settled { SettledLaw }
    ensures turns { TurnsLaw }
    ensures objects { ObjectsLaw }
{}

/// In every list of right deeds the items from each peer that were acted on have the numbers 1, 2,
/// .. in order.
#[tactic(auto, using(crate::proofs::Waiting::acted_law))]
pub fn acted()
    ensures { ActedLaw }
{}

/// In every list of right deeds the calls on the end with each peer are right calls on that end.
/// The law of a pair of ends asks this of both, and that each arriving frame was given by the
/// other.
#[tactic(auto, using(crate::proofs::Calling::calls_law))]
pub fn calls()
    ensures { CallsLaw }
{}

/// After a list of right deeds an object that somebody is listed for is live, and so is one that
/// has pins at its owner.
#[tactic(auto, using(crate::proofs::Guarding::listed_law, crate::proofs::Guarding::pinned_law))]
pub fn guarded()
    ensures listed { ListedLaw }
    ensures pinned { PinnedLaw }
{}

/// After a list of right deeds the holds of a reference, which are defined for every list as what
/// came into the hand or is lent, less what was released, are what is in the hand and what is lent.
#[tactic(auto, using(crate::proofs::Orderly::holds_law))]
pub fn holds()
    ensures { HoldsLaw }
{}

/// What a space could do next is what the right answer doesn't refuse, limits and free numbers
/// aside: Act, Transmit (which then gives a frame), Settle, Clean, Claim and Withdraw; and a reply
/// isn't ready where TakeReply says so.
#[tactic(auto, using(crate::proofs::Possible::act_law, crate::proofs::Possible::send_law, crate::proofs::Possible::settle_law, crate::proofs::Possible::clean_law, crate::proofs::Claiming::claim_law, crate::proofs::Possible::withdraw_law, crate::proofs::Possible::least_law, crate::proofs::Possible::reply_law))]
pub fn possible()
    ensures act { ActLaw }
    ensures send { SendLaw }
    ensures settle { SettleLaw }
    ensures clean { CleanLaw }
    ensures claim { ClaimLaw }
    ensures withdraw { WithdrawLaw }
    ensures least { LeastLaw }
    ensures reply { ReplyLaw }
{}
