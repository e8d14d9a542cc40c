//! The entries of a journal, judged.

ghost use Rattle.std.specs.Prelude.{◌≡◌, [], Some, IfOk, IfSome};
ghost use Rattle.nob_ids.specs.Names.{IsSpace};
ghost use Rattle.nob_model_types.specs.declared.entry.Entry.{Entry as EntryOf};
ghost use Rattle.nob_model_text.specs.Lines.{lines_of};
ghost use Rattle.test_definitions.specs.Journals as spec;

use nob_check::judge;
use nob_frame::Version;
use nob_model::Entry;
use nob_model_reading::opening_of;
use nob_model_text::{Unread, first_line, space_of};
use nob_script_text::verdict_line;
use nob_trace::{Stamped, entry_of};
use std::alloc::{AllocError, Global};

/// The verdict on the journal that these lines are, behind a first line as a script has it; or
/// `line N: bad entry` with the first line that is none. It is judged as one of 32 spaces, however
/// many the first line states. Only memory fails it. It costs what the judge does.
pub fn verdict_of(alloc: Global, input: &[u8]) -> Result<Vec<u8>, AllocError>
    ensures { IfOk result (λ text. spec.FromJournal (lines_of input.now) text.items) }
{
    let Some((line, lines)) = first_line(input) else {
        return bad_entry(alloc, 1);
    };
    let Some(_) = opening_of(alloc, line)? else {
        return bad_entry(alloc, 1);
    };
    verdict_on_lines(alloc, lines)
}

// The verdict on the entries of these lines, of which the first is line 2.
fn verdict_on_lines(alloc: Global, lines: &[u8]) -> Result<Vec<u8>, AllocError>
    ensures { IfOk result (λ text. spec.FromEntries 2 [] (lines_of lines.now) text.items) }
{
    let mut journal = Vec::new(alloc);
    let mut left = lines;
    let mut number: u64 = 2;
    while let Some((line, rest)) = first_line(left) {
        let Some(entry) = journal_entry_of(alloc, line)? else {
            return bad_entry(alloc, number);
        };
        journal.push(entry)?;
        left = rest;
        number += 1;
    }
    let mut text = Vec::new(alloc);
    let verdict = judge(alloc, journal.as_slice())?;
    text.extend_from_slice(verdict_line(verdict))?;
    Ok(text)
}

// The entry that a line spells: that of a trace of either version, with the space where the stamp
// stands there.
fn journal_entry_of(alloc: Global, line: &[u8]) -> Result<Option<Entry>, AllocError>
    ensures found { IfOk result (λ r. IfSome r (λ entry. spec.Spells line.now entry)) }
    ensures only { IfOk result (λ r. (entry : EntryOf) → spec.Spells line.now entry
        → r ≡ Some entry) }
{
    match spelt_entry(alloc, Version::Two, line)? {
        Some(entry) => Ok(Some(entry)),
        None => spelt_entry(alloc, Version::One, line),
    }
}

// The entry that a line spells in a version.
fn spelt_entry(alloc: Global, version: Version, line: &[u8]) -> Result<Option<Entry>, AllocError>
    ensures found { IfOk result (λ r. IfSome r
        (λ entry. spec.IsEntry version entry × (line.now ≡ spec.entry_line version entry))) }
    ensures only { IfOk result (λ r. (entry : EntryOf) → spec.IsEntry version entry
        → line.now ≡ spec.entry_line version entry → r ≡ Some entry) }
{
    match entry_of(alloc, version, line) {
        Ok(stamped) => Ok(at_space(stamped)),
        Err(Unread::NoText) => Ok(None),
        Err(Unread::OutOfMemory) => Err(AllocError),
    }
}

// The entry of the space whose number stands for the stamp, if there is such a space.
fn at_space(stamped: Stamped) -> Option<Entry>
    ensures found { IfSome result (λ entry. IsSpace entry.space
        × (spec.stamped_of entry ≡ stamped)) }
    ensures only { (entry : EntryOf) → IsSpace entry.space → stamped ≡ spec.stamped_of entry
        → result ≡ Some entry }
{
    let Stamped {
        stamp,
        event,
        result,
    } = stamped;
    let space = space_of(stamp)?;
    Some(Entry {
        space,
        event,
        result,
    })
}

// What is written where the line of this number isn't what it should be.
fn bad_entry(alloc: Global, number: u64) -> Result<Vec<u8>, AllocError>
    ensures { IfOk result (λ text. text.items ≡ spec.bad_entry_text number) }
{
    let mut text = Vec::new(alloc);
    let line = format!(in alloc; "line {number}: bad entry\n")?;
    text.extend_from_slice(line.as_bytes())?;
    Ok(text)
}
