//! The tables of a space, from one deed to the next.

ghost use Rattle.std.specs.Prelude.{◌≡◌, [], IfOk};
ghost use Rattle.nob_check_tables.specs.Came.{item_in};
ghost use Rattle.nob_check_tables.specs.Rows.{with_item as with_item_word};
ghost use Rattle.nob_check_tables.specs.Tables as words;

use crate::came::Came;
use crate::closed::Closed;
use crate::numbers::SessionNumbers;
use crate::rows::{TurnRows, rows_with_clean, with_item};
use crate::taken::{Taken, is_present};
use nob_ids::{ItemNo, SpaceId};
use nob_model_types::{Deed, Here};
use std::alloc::{AllocError, Global};

/// What is looked up of what a space did.
#[derive(Drop)]
pub struct Tables {
    /// The space, and among how many.
    pub here: Here,
    /// The number of the session with each peer.
    pub numbers: SessionNumbers,
    /// Which sessions have closed.
    pub closed: Closed,
    /// How many items of each peer were accepted.
    pub taken: Taken,
    /// Which items came.
    pub came: Came,
    /// What was asked of the owner of each reference, and answered.
    pub rows: TurnRows,
}

/// The tables of a space that did nothing.
pub fn new_tables(alloc: Global, here: Here) -> Tables
    ensures { result ≡ words.tables_of here.space here.n [] }
{
    Tables {
        here,
        numbers: SessionNumbers::none(alloc),
        closed: Closed::none(alloc),
        taken: Taken::none(alloc),
        came: Came::none(alloc),
        rows: TurnRows::none(alloc),
    }
}

// The rows once the item of a number was acted on.
fn with_act(
    alloc: Global,
    here: &Here,
    from: SpaceId,
    number: ItemNo,
    came: &Came,
    closed: &Closed,
    rows: TurnRows,
) -> Result<TurnRows, AllocError>
    ensures { IfOk result (λ after. after
        ≡ with_item_word here.now.space here.now.n from
        (item_in from number came.now) closed.now rows) }
{
    match came.item_at(from, number) {
        Some(item) => with_item(alloc, here, from, item, closed, rows),
        None => Ok(rows),
    }
}

/// The tables after a deed. Only memory fails it. It looks up the item that is acted on and each
/// reference in it, the peer whose session closes, and that of a frame. Where a session opens anew,
/// it walks all rows.
pub fn with_deed(alloc: Global, deed: &Deed, tables: Tables) -> Result<Tables, AllocError>
    ensures { IfOk result (λ after. after ≡ words.tables_after deed.now tables) }
{
    let Tables {
        here,
        numbers,
        closed,
        taken,
        came,
        rows,
    } = tables;
    match deed {
        Deed::Act(from, number) => {
            let rows = with_act(alloc, &here, *from, *number, &came, &closed, rows)?;
            Ok(Tables {
                here,
                numbers,
                closed,
                taken,
                came,
                rows,
            })
        }
        Deed::Clean(rep) => {
            let rows = rows_with_clean(rep, rows)?;
            Ok(Tables {
                here,
                numbers,
                closed,
                taken,
                came,
                rows,
            })
        }
        Deed::Arrive(frame, count) => {
            if !is_present(frame, &numbers) {
                return Ok(Tables {
                    here,
                    numbers,
                    closed,
                    taken,
                    came,
                    rows,
                });
            }
            let came = came.with_frame(alloc, frame, taken.count(frame.from))?;
            let taken = taken.with_taken(frame, *count)?;
            Ok(Tables {
                here,
                numbers,
                closed,
                taken,
                came,
                rows,
            })
        }
        Deed::Closing(peer, _, _) => {
            let closed = closed.with_peer(*peer)?;
            Ok(Tables {
                here,
                numbers,
                closed,
                taken,
                came,
                rows,
            })
        }
        Deed::Open(peer, number) => Ok(Tables {
            here,
            numbers: numbers.with_number(*peer, *number)?,
            closed: closed.without_peer(*peer),
            taken: taken.without_count(*peer),
            came: came.without_items(*peer),
            rows: rows.without_rows(*peer),
        }),
        _ => Ok(Tables {
            here,
            numbers,
            closed,
            taken,
            came,
            rows,
        }),
    }
}
