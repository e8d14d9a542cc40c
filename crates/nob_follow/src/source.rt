//! Files, line by line.

use crate::outcome::{Followed, Spot, unread};
use nob_chain::{ChainError, ChainFault};
use nob_lines::{LineDue, TextLines};
use nob_recall::{Dated, WatchFault};
use std::alloc::Global;
use std::fs::File;
use std::io;
use std::io::{BufRead, BufReader};

/// A file that is followed.
#[derive(Drop)]
pub struct Tracked {
    /// Its place among the names.
    pub file: usize,
    /// What was read of it.
    pub lines: TextLines,
    reader: BufReader<File>,
    // How many lines were read, and those of the entry that is held back, of the one that was given
    // last, and of the last seal.
    count: u64,
    held: u64,
    given: u64,
    sealed: u64,
    // Whether its end was seen.
    ended: bool,
}

/// What comes next in a file.
#[derive(Drop)]
pub enum Next {
    /// An entry.
    Entry(Dated),
    /// No more: it is whole.
    Whole,
    /// No more: it breaks off.
    Broken,
}

/// The next line of a reader, without its newline: whether one is whole. What stands behind the last
/// newline is no line, and is given all the same.
pub fn next_line<R: BufRead>(reader: &mut R, line: &mut Vec<u8>) -> io::Result<bool> {
    line.clear();
    reader.read_until(b'\n', line)?;
    if !is_whole(line.as_slice()) {
        return Ok(false);
    }
    let _ = line.pop();
    Ok(true)
}

// Whether a line ends with its newline.
fn is_whole(line: &[u8]) -> bool {
    match line.last() {
        Some(byte) => *byte == b'\n',
        None => false,
    }
}

/// Opens the files of these names, and reads the first line of each.
pub fn open_all(
    rt: &HostRuntime,
    alloc: Global,
    names: &[String],
    sources: &mut Vec<Tracked>,
) -> Result<(), Followed> {
    let mut line: Vec<u8> = Vec::new(alloc);
    for (file, name) in names.iter().enumerate() {
        let source = match open_one(rt, alloc, file, name.as_str(), &mut line) {
            Ok(source) => source,
            Err(outcome) => return Err(outcome),
        };
        if sources.push(source).is_err() {
            return Err(Followed::OutOfMemory);
        }
    }
    Ok(())
}

// Opens the file of this name, and reads its first line.
fn open_one(
    rt: &HostRuntime,
    alloc: Global,
    file: usize,
    name: &str,
    line: &mut Vec<u8>,
) -> Result<Tracked, Followed> {
    let opened = match File::open(rt, name) {
        Ok(opened) => opened,
        Err(error) => return Err(unread(file, error)),
    };
    let mut reader = match BufReader::new(alloc, opened) {
        Ok(reader) => reader,
        Err(error) => return Err(unread(file, error)),
    };
    let lines = match first_line(file, &mut reader, line) {
        Ok(lines) => lines,
        Err(outcome) => return Err(outcome),
    };
    Ok(Tracked {
        file,
        lines,
        reader,
        count: 1,
        held: 1,
        given: 1,
        sealed: 1,
        ended: false,
    })
}

// The first line of a file.
fn first_line(
    file: usize,
    reader: &mut BufReader<File>,
    line: &mut Vec<u8>,
) -> Result<TextLines, Followed> {
    let spot = Spot { file, line: 1 };
    match next_line(reader, line) {
        Ok(true) => match TextLines::begin(line.as_slice()) {
            Some(lines) => Ok(lines),
            None => Err(Followed::Refused(spot, ChainFault::Entry)),
        },
        Ok(false) => Err(Followed::Refused(spot, ChainFault::Short)),
        Err(error) => Err(unread(file, error)),
    }
}

impl Tracked {
    /// What comes next in the file, whose lines are read into this buffer.
    pub fn next(&mut self, alloc: Global, line: &mut Vec<u8>) -> Result<Next, Followed> {
        for _ in 0..u64::MAX {
            if self.ended {
                return Ok(self.last());
            }
            match next_line(&mut self.reader, line) {
                Ok(true) => {}
                Ok(false) => {
                    self.ended = true;
                    if self.lines.due() == LineDue::Nothing && !line.is_empty() {
                        return Err(self.refused(ChainFault::Trailing));
                    }
                    return Ok(self.last());
                }
                Err(error) => return Err(unread(self.file, error)),
            }
            match self.take(alloc, line.as_slice()) {
                Ok(Some(dated)) => return Ok(Next::Entry(dated)),
                Ok(None) => {}
                Err(outcome) => return Err(outcome),
            }
        }
        Ok(Next::Broken)
    }

    // What is left behind the last line.
    fn last(&mut self) -> Next {
        if let Some(dated) = self.lines.end() {
            self.given = self.held;
            return Next::Entry(dated);
        }
        if self.lines.due() == LineDue::Nothing {
            return Next::Whole;
        }
        Next::Broken
    }

    // One line more: the entry that is whole with it, if one is.
    fn take(&mut self, alloc: Global, line: &[u8]) -> Result<Option<Dated>, Followed> {
        let due = self.lines.due();
        match self.lines.line(alloc, line) {
            Ok(told) => {
                self.count_line(due);
                Ok(told)
            }
            Err(ChainError::Fault(fault)) => Err(self.refused(fault)),
            Err(ChainError::OutOfMemory) => Err(Followed::OutOfMemory),
        }
    }

    // Counts a line that was due.
    fn count_line(&mut self, due: LineDue) {
        self.count = self.count.saturating_add(1);
        match due {
            LineDue::Entry => {
                self.given = self.held;
                self.held = self.count;
            }
            LineDue::Seal => {
                self.given = self.held;
                self.sealed = self.count;
            }
            LineDue::Segment | LineDue::Nothing => {}
        }
    }

    /// The line behind those that were read is refused for this.
    pub fn refused(&self, fault: ChainFault) -> Followed {
        Followed::Refused(
            Spot {
                file: self.file,
                line: self.count.saturating_add(1),
            },
            fault,
        )
    }

    /// The entry that was given last is wrong, or the seal behind it.
    pub fn wrong(&self, fault: &WatchFault) -> Followed {
        let line = match fault {
            WatchFault::Seal(_, _) => self.sealed,
            _ => self.given,
        };
        Followed::Wrong(
            Spot {
                file: self.file,
                line,
            },
            *fault,
        )
    }
}
