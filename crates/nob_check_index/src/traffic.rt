//! What is known of the items that were acted on.

ghost use Rattle.std.specs.Prelude.{◌≡◌, [], IfOk};
ghost use Rattle.nob_check_index.specs.ActedSessions.{sessions_after as sessions_word};
ghost use Rattle.nob_check_index.specs.Settlements.{settlements_after as settlements_word};
ghost use Rattle.nob_check_index.specs.Sources.{sources_after as sources_word};

use crate::acted::{ActedSessions, sessions_after};
use crate::settlements::{Settlements, settlements_after};
use crate::sources::{SourceRows, sources_after};
use nob_check_tables::Tables;
use nob_model_types::Deed;
use std::alloc::{AllocError, Global};

/// What the items that were acted on settled and carried, and in which sessions.
#[derive(Drop)]
pub struct Traffic {
    /// Which items that were sent were settled.
    pub settlements: Settlements,
    /// Which copies of each reference came.
    pub sources: SourceRows,
    /// The sessions in which items were acted on.
    pub sessions: ActedSessions,
}

impl Traffic {
    /// Nothing was acted on.
    pub fn none(alloc: Global) -> Traffic
        ensures { result ≡ record { settlements = []; sources = []; sessions = [] } }
    {
        Traffic {
            settlements: Settlements::none(alloc),
            sources: SourceRows::none(alloc),
            sessions: ActedSessions::none(alloc),
        }
    }

    /// This after a deed, by the tables before it. Only memory fails it. It looks up the item that
    /// is acted on and each reference in it.
    pub fn after(self, alloc: Global, deed: &Deed, tables: &Tables) -> Result<Traffic, AllocError>
        ensures { IfOk result (λ after. after
            ≡ record {
              settlements = settlements_word deed.now tables.now.came self.settlements;
              sources = sources_word deed.now tables.now self.sources;
              sessions = sessions_word deed.now tables.now self.sessions;
            }) }
    {
        let Traffic {
            settlements,
            sources,
            sessions,
        } = self;
        let settlements = settlements_after(deed, &tables.came, settlements)?;
        let sources = sources_after(alloc, deed, tables, sources)?;
        let sessions = sessions_after(deed, tables, sessions)?;
        Ok(Traffic {
            settlements,
            sources,
            sessions,
        })
    }
}
