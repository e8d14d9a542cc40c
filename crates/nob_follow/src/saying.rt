//! What is said of files that were followed.

use crate::outcome::{Followed, Spot};
use nob_chain::ChainFault;
use nob_recall::WatchFault;
use std::alloc::Global;
use std::io;

/// The status with which the program ends: 0 where all was passed, 1 where something is wrong, 2
/// where a file can't be read or memory ran out.
pub fn status_of(outcome: &Followed) -> u8 {
    match outcome {
        Followed::Accepted(_) => 0,
        Followed::Cut(_) => 0,
        Followed::Refused(_, _) => 1,
        Followed::Wrong(_, _) => 1,
        Followed::NotOneEach => 1,
        Followed::Unread(_, _) => 2,
        Followed::OutOfMemory => 2,
    }
}

// The name of the file at this place.
fn name_at(names: &[String], file: usize) -> &str {
    match names.get(file) {
        Some(name) => name.as_str(),
        None => "",
    }
}

/// Writes what is said.
pub fn write_outcome(
    alloc: Global,
    names: &[String],
    outcome: &Followed,
    text: &mut Vec<u8>,
) -> io::Result<()> {
    let line = match outcome {
        Followed::Accepted(count) => format!(in alloc; "merged {count}\nverdict yes\n")?,
        Followed::Cut(count) => format!(in alloc; "passed {count}\nverdict yes\n")?,
        Followed::Refused(spot, fault) => refused_line(alloc, names, *spot, *fault)?,
        Followed::Wrong(spot, fault) => wrong_line(alloc, names, *spot, *fault)?,
        Followed::NotOneEach => { format!(in alloc; "C4: the files aren't one of each space\n")? }
        Followed::Unread(file, error) => unread_line(alloc, name_at(names, *file), error)?,
        Followed::OutOfMemory => format!(in alloc; "memory\n")?,
    };
    text.extend_from_slice(line.as_bytes())?;
    Ok(())
}

// What a line is refused for.
fn refused_line(
    alloc: Global,
    names: &[String],
    spot: Spot,
    fault: ChainFault,
) -> io::Result<String> {
    let name = name_at(names, spot.file);
    let line = spot.line;
    Ok(format!(in alloc; "{name}, line {line}: {fault}\n")?)
}

// What is wrong with an entry or a seal.
fn wrong_line(
    alloc: Global,
    names: &[String],
    spot: Spot,
    fault: WatchFault,
) -> io::Result<String> {
    let name = name_at(names, spot.file);
    let line = spot.line;
    Ok(format!(in alloc; "{name}, line {line}: {fault}\n")?)
}

// Why a file can't be read.
fn unread_line(alloc: Global, name: &str, error: &io::Error) -> io::Result<String> {
    Ok(format!(in alloc; "{name} can't be read: {error}\n")?)
}
