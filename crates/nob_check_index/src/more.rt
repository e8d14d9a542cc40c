//! The tables beside those of nob_check_tables, from one deed to the next.

ghost use Rattle.std.specs.Prelude.{◌≡◌, IfOk};
ghost use Rattle.nob_check_index.specs.More as words;

use crate::counts::HandCounts;
use crate::objects::Objects;
use crate::traffic::Traffic;
use nob_check_tables::Tables;
use nob_model_types::Deed;
use std::alloc::{AllocError, Global};

/// The objects of a space, its hand, and what its acts settled and carried.
#[derive(Drop)]
pub struct MoreTables {
    /// Which objects were exported, and which withdrawn.
    pub objects: Objects,
    /// How often references came into the hand, and how often they were released.
    pub hand: HandCounts,
    /// What the items that were acted on settled and carried, and in which sessions.
    pub traffic: Traffic,
}

impl MoreTables {
    /// Nothing was done.
    pub fn none(alloc: Global) -> MoreTables
        ensures { result ≡ words.no_more }
    {
        MoreTables {
            objects: Objects::none(alloc),
            hand: HandCounts::none(alloc),
            traffic: Traffic::none(alloc),
        }
    }

    /// These after a deed, by the tables before it. Only memory fails it. It looks up what the deed
    /// touches.
    pub fn after(
        self,
        alloc: Global,
        deed: &Deed,
        tables: &Tables,
    ) -> Result<MoreTables, AllocError>
        ensures { IfOk result (λ after. after ≡ words.more_after deed.now tables.now self) }
    {
        let MoreTables {
            objects,
            hand,
            traffic,
        } = self;
        let objects = objects.after(deed)?;
        let hand = hand.after(alloc, deed)?;
        let traffic = traffic.after(alloc, deed, tables)?;
        Ok(MoreTables {
            objects,
            hand,
            traffic,
        })
    }
}
