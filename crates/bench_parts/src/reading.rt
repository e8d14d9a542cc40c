//! The words of tasks.

use std::alloc::Global;
use std::{env, io};

/// The words of the command line behind the program's name, in one line.
pub(crate) fn words_of(rt: &HostRuntime, alloc: Global) -> io::Result<String> {
    let mut words = env::args(rt)?;
    let _program = words.next();
    let words: Vec<String> = words.collect(alloc)?;
    Ok(words.as_slice().join(alloc, " ")?)
}

/// The first word of a line, and what stands behind it.
pub(crate) fn first_word(line: &str) -> (&str, &str) {
    match line.split_once(' ') {
        Some(parts) => parts,
        None => (line, ""),
    }
}

/// The number that a word spells, if it does.
pub(crate) fn number_of(word: Option<&str>) -> Option<u64> {
    word?.parse::<u64>().ok()
}

/// The same as a size.
pub(crate) fn size_of(word: Option<&str>) -> Option<usize> {
    usize::try_from(number_of(word)?).ok()
}
