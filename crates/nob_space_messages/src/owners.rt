//! The lines of each owner.

ghost use Rattle.std.specs.Prelude.{◌≡◌, ℕ, ◌≤◌, length, map, OnOk};
ghost use Rattle.nob_space_messages.specs.Lines.{HaveRoom, lines_of, lists_of, reps_in};

use crate::owner_lines::OwnerLines;
use nob_ids::SpaceId;
use std::alloc::{AllocError, Global};

/// The owners that there are: one for each space, at its number.
pub const OWNERS: usize = SpaceId::MOST as usize + 1;

/// Makes the lines that are missing. Only memory fails it, and then some may be there that weren't.
pub fn make_owners(alloc: Global, owners: &mut Vec<OwnerLines>) -> Result<(), AllocError>
    ensures lines { (room owner : ℕ) → lines_of (lists_of owners.new.items room) owner
        ≡ lines_of (lists_of owners.old.items room) owner }
    ensures reps { reps_in (map (λ owner. owner.lines) owners.new.items)
        ≡ reps_in (map (λ owner. owner.lines) owners.old.items) }
    ensures all { OnOk result (33 ≤ length owners.new.items) }
    ensures same { 33 ≤ length owners.old.items → owners.new.items ≡ owners.old.items }
{
    for _made in owners.len()..OWNERS {
        owners.push(OwnerLines::new(alloc))?;
    }
    Ok(())
}

/// Makes room for so many more places in the lines of each owner. Only memory fails it, or that more
/// places were taken in all than can be counted; what had room before has it still.
pub fn widen(owners: &mut Vec<OwnerLines>, additional: usize) -> Result<(), AllocError>
    ensures lines { (room : ℕ) → lists_of owners.new.items room ≡ lists_of owners.old.items room }
    ensures ok { OnOk result (HaveRoom owners.new.items additional) }
    ensures kept { (room : ℕ) → HaveRoom owners.old.items room → HaveRoom owners.new.items room }
    ensures count { length owners.new.items ≡ length owners.old.items }
{
    for place in 0..owners.len() {
        owners[place].reserve(additional)?;
    }
    Ok(())
}
