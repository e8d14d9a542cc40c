//! The sessions in which items were acted on.

ghost use Rattle.std.specs.Prelude.{◌≡◌, [], IfOk};
ghost use Rattle.nob_check_index.specs.ActedSessions as words;

use indexmap::IndexSet;
use nob_check_tables::Tables;
use nob_ids::SpaceId;
use nob_model_types::Deed;
use std::alloc::{AllocError, Global};
use std::marker::Model;

/// The sessions in which items were acted on, each once: the peer, and the number of the session
/// with it. Contracts see the list, in the order in which they were put in.
pub struct ActedSessions {
    set: IndexSet<(SpaceId, u32)>,
}

// By hand, so that the table is taken apart here alone and not at each end of each caller.
impl Drop for ActedSessions {
    fn drop(self) {
        let ActedSessions { set: _ } = self;
    }
}

impl Model for ActedSessions {
    ghost use Rattle.std.specs.Prelude.{ℕ, List};

    ghost Value = { List (ℕ × ℕ) };

    ghost view = { λ sessions. sessions.set.keys };
}

impl ActedSessions {
    /// None.
    pub fn none(alloc: Global) -> ActedSessions
        ensures { result ≡ [] }
    {
        ActedSessions {
            set: IndexSet::new(alloc),
        }
    }

    /// The sessions.
    pub fn as_slice(&self) -> &[(SpaceId, u32)]
        ensures { result.now ≡ self.now }
    {
        self.set.as_slice()
    }

    // These with one more.
    fn with_one(self, peer: SpaceId, session: u32) -> Result<ActedSessions, AllocError>
        ensures { IfOk result (λ more. more ≡ words.with_one peer session self) }
    {
        let ActedSessions { mut set } = self;
        set.insert((peer, session))?;
        Ok(ActedSessions { set })
    }
}

/// These after a deed, by the tables before it. Only memory fails it. Constant time on average.
pub fn sessions_after(
    deed: &Deed,
    tables: &Tables,
    sessions: ActedSessions,
) -> Result<ActedSessions, AllocError>
    ensures { IfOk result (λ after. after ≡ words.sessions_after deed.now tables.now sessions) }
{
    match deed {
        Deed::Act(from, _) => {
            let more = sessions.with_one(*from, tables.numbers.number(*from))?;
            Ok(more)
        }
        _ => Ok(sessions),
    }
}
