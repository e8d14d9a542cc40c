//! The lines of a text, one after the other.

ghost use Rattle.std.specs.Prelude.{◌≡◌, IfSome, IsSomeAnd, OnErr};
ghost use Rattle.nob_chain.specs.Reading as reading;
ghost use Rattle.nob_lines.specs.declared.first.FirstLine.{FirstLine as FirstOf};
ghost use Rattle.nob_lines.specs.Steps as words;

use crate::first::first_of;
use crate::reached::{LineDue, due_of, start_of};
use crate::taking::{LinesRead, take_entry, take_opening, take_seal};
use nob_chain::{ChainError, ChainFault};
use nob_ids::{Limits, SpaceId};
use nob_recall::Dated;
use std::alloc::Global;
use std::marker::Model;

/// The lines of one chain or trace, which are read one after the other. It keeps one entry, whatever
/// their number is. Contracts see what was read.
#[derive(Debug, Drop)]
pub struct TextLines {
    read: LinesRead,
}

impl Model for TextLines {
    ghost use Rattle.nob_lines.specs.declared.taking.LinesRead.{LinesRead};
    ghost use Rattle.nob_lines.specs.Steps.{IsKept};

    ghost Value = { LinesRead };

    ghost use Rattle.std.specs.Coded.{codes};
    ghost use Rattle.nob_pickle.specs.Marks.{trees_code};

    ghost coded = { Prim.hlevel (codes, trees_code) };

    ghost view = { λ lines. lines.read };

    ghost invariant = { λ lines. IsKept lines.read };
}

impl TextLines {
    /// The lines behind a first line, which stands without its newline: `None` where it begins
    /// neither a chain nor a trace. It takes no memory.
    pub fn begin(line: &[u8]) -> Option<TextLines>
        ensures found { IfSome result (λ lines. (first : FirstOf) × words.IsFirst first
            × (line.now ≡ words.first_text first) × (lines ≡ words.begun first)) }
        ensures only { (first : FirstOf) → words.IsFirst first → line.now ≡ words.first_text first
            → IsSomeAnd result (λ lines. lines ≡ words.begun first) }
    {
        let Some(first) = first_of(line) else {
            return None;
        };
        Some(TextLines {
            read: LinesRead {
                first,
                reached: start_of(&first),
                held: None,
            },
        })
    }

    /// The space whose entries these are.
    pub fn space(&self) -> SpaceId
        ensures { result ≡ words.space_of self.now.first }
    {
        self.read.first.space()
    }

    /// How many spaces there are, named by the last of them.
    pub fn n(&self) -> SpaceId
        ensures { result ≡ words.n_of self.now.first }
    {
        self.read.first.n()
    }

    /// The limits of the space's sessions.
    pub fn limits(&self) -> Limits
        ensures { result ≡ words.limits_of self.now.first }
    {
        self.read.first.limits()
    }

    /// Which line is due.
    pub fn due(&self) -> LineDue
        ensures { result ≡ words.due_of self.now.first self.now.reached }
    {
        due_of(&self.read.first, self.read.reached)
    }

    /// One line more, without its newline: the entry that is whole with it, if one is; or what the
    /// line is refused for, R2, R3, R4 or R6. It costs what the line does.
    pub fn line(&mut self, alloc: Global, line: &[u8]) -> Result<Option<Dated>, ChainError>
        ensures answer { reading.Answers (λ told. words.HasRead self.old self.new line.now told)
            (λ fault. words.IsLineFault self.old line.now fault) result }
        ensures err { OnErr result (self.new ≡ self.old) }
    {
        match due_of(&self.read.first, self.read.reached) {
            LineDue::Segment => take_opening(&mut self.read, line),
            LineDue::Entry => take_entry(alloc, &mut self.read, line),
            LineDue::Seal => take_seal(alloc, &mut self.read, line),
            LineDue::Nothing => Err(ChainError::Fault(ChainFault::Trailing)),
        }
    }

    /// The entry that is held back, where no more lines come.
    pub fn end(&mut self) -> Option<Dated>
        ensures told { result ≡ self.old.held }
        ensures ended { self.new ≡ words.ended self.old }
    {
        self.read.held.take()
    }
}
