//! The words of the command line.

use crate::round::Wish;
use std::{env, io};

// What the words ask for: `None` where there are too few, or one is no number.
pub(crate) fn read_wish(rt: &HostRuntime) -> io::Result<Option<Wish>> {
    let mut words = env::args(rt)?;
    let _program = words.next();
    let mut numbers = [0u64; 6];
    for (place, number) in numbers.iter_mut().enumerate() {
        match words.next() {
            Some(word) => match word.as_str().parse::<u64>() {
                Ok(found) => *number = found,
                Err(_) => return Ok(None),
            },
            None if place < 3 => return Ok(None),
            None => {}
        }
    }
    let [seed, rounds, steps, spaces, workers, seconds] = numbers;
    Ok(Some(Wish {
        seed,
        rounds,
        steps,
        spaces,
        workers,
        seconds,
    }))
}
