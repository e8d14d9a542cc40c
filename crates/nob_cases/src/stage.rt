//! What the lines so far have left.

use crate::case::{Case, RepeatedCase, case_of};
use crate::plain::Plain;
use crate::tables::CountedTable;
use crate::{codecs, ends, plain, sets, shims, tables, transit};
use nob_case_texts::{Answer, Unanswered, text_of};
use nob_dirty::DirtySets;
use nob_session::Session;
use std::alloc::{AllocError, Global};

/// The end, the table and the sets on which the next cases are made.
pub struct Stage {
    alloc: Global,
    end: Option<Session>,
    plain: Option<Plain>,
    table: Option<CountedTable>,
    sets: DirtySets,
}

// By hand, so that it is taken apart here alone and not at each end of each caller.
impl Drop for Stage {
    fn drop(self) {
        let Stage {
            alloc: _,
            end: _,
            plain: _,
            table: _,
            sets: _,
        } = self;
    }
}

impl Stage {
    /// Neither an end nor a table, and sets that list nobody.
    pub fn new(alloc: Global) -> Stage {
        Stage {
            alloc,
            end: None,
            plain: None,
            table: None,
            sets: DirtySets::new(alloc),
        }
    }

    /// The line with its answer: `memory` where memory ran out in it, and then nothing has changed.
    /// Memory for the text of the answer fails it.
    pub fn answered(&mut self, line: &str) -> Result<String, AllocError> {
        let alloc = self.alloc;
        if line.is_empty() || line.starts_with('#') {
            return String::from_str(alloc, line);
        }
        match case_of(alloc, line) {
            Ok(repeated) => self.answered_case(line, &repeated),
            Err(Unanswered::NoCase) => format!(in alloc; "{line} = no case"),
            Err(Unanswered::Memory) => format!(in alloc; "{line} = memory"),
        }
    }

    // A case that is made several times answers what it answers the last time, and memory fails it.
    fn answered_case(&mut self, line: &str, repeated: &RepeatedCase) -> Result<String, AllocError> {
        let alloc = self.alloc;
        for _ in 1..repeated.count {
            let _ = self.make(&repeated.case)?;
        }
        match self.make(&repeated.case) {
            Ok(answer) => {
                let answer = text_of(alloc, &answer)?;
                format!(in alloc; "{line} = {answer}")
            }
            Err(AllocError) if repeated.count == 1 => format!(in alloc; "{line} = memory"),
            Err(AllocError) => Err(AllocError),
        }
    }

    fn make(&mut self, case: &Case) -> Result<Answer, AllocError> {
        match case {
            Case::Codec(case) => codecs::answer(self.alloc, case),
            Case::End(case) => ends::make(self.alloc, &mut self.end, case),
            Case::Plain(case) => plain::make(self.alloc, &mut self.plain, case),
            Case::Table(case) => tables::make(self.alloc, &mut self.table, case),
            Case::Pins(cases) => transit::answer(self.alloc, cases),
            Case::Shim(case) => shims::answer(self.alloc, case),
            Case::Set(case) => sets::make(self.alloc, &mut self.sets, case),
        }
    }
}
