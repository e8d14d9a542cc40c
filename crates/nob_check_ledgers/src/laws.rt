//! Laws over the definitions: each is the contract of a function that does nothing.

ghost use Rattle.nob_check_ledgers.specs.Laws.{LedgerLaw};

/// The ledger after a deed is that of one deed more, whatever was done before.
#[tactic(auto, using(crate::proofs::Kept::ledger_law))]
pub fn ledger()
    ensures { LedgerLaw }
{}
