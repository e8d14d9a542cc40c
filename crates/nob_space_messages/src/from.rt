//! The messages from a space, one after the other.

ghost use Rattle.std.specs.Prelude.{◌≡◌, ◌<◌};
ghost use Rattle.std.specs.Iterator.{YieldsFirstRef, item_count};

use crate::entry::Entry;
use nob_model_types::Message;
use nob_queues::Queues;
use std::marker::Model;

/// The messages from a space in one queue, in order. Contracts see those that are left.
#[derive(Drop)]
pub struct From<'a> {
    pub(crate) queues: &'a Queues<Entry>,
    // The queue: one of those that there are.
    pub(crate) queue: usize,
    // The stamps of those that are left.
    pub(crate) stamps: nob_slots::NumberIter<'a>,
}

impl<'a> Model for From<'a> {
    ghost use Rattle.std.specs.Prelude.{List};
    ghost use Rattle.nob_model_types.specs.declared.message.Message.{Message};

    ghost Value = { List Message };

    ghost use Rattle.std.specs.Coded.{codes};
    ghost use Rattle.nob_pickle.specs.Marks.{trees_code};

    ghost coded = { Prim.hlevel (codes, trees_code) };

    ghost use Rattle.std.specs.Prelude.{◌<◌};
    ghost use Rattle.nob_queues.specs.Queues.{rows_at};
    ghost use Rattle.nob_space_messages.specs.Lines.{AreThere, messages_at};

    ghost view = { λ it. messages_at (rows_at it.queues.now it.queue) it.stamps };

    ghost invariant = { λ it. (it.queue < 3) × AreThere (rows_at it.queues.now it.queue) it.stamps };
}

impl<'a> Iterator for From<'a> {
    type Item = &'a Message;

    ghost next_gives = { YieldsFirstRef (λ rest. rest) };

    ghost remaining = { item_count (λ rest. rest) };

    fn next(&mut self) -> Option<&'a Message> {
        let Some(stamp) = self.stamps.next() else {
            return None;
        };
        let Some(entry) = self.queues.get(self.queue, stamp) else {
            return None;
        };
        Some(&entry.message)
    }
}
