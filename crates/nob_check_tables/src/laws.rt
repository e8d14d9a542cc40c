//! Laws over the definitions: each is the contract of a function that does nothing.

ghost use Rattle.nob_check_tables.specs.Laws.{TablesLaw};

/// The tables of every list of deeds say which sessions have closed, which item a number names, and
/// what was asked of the owner of a reference and answered, as the words of the whole list do.
#[tactic(auto, using(crate::proofs::Turning::tables_law))]
pub fn tables()
    ensures { TablesLaw }
{}
