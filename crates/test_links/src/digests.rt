//! What shims with the words of the program's running spaces give for 10,010 frames and the end:
//! ten frames meet no word any more.

use crate::parcels::{number_of, parcel, space};
use nob_fault::{Shim, words_between};
use nob_link::Parcel;
use std::alloc::{AllocError, Global};
use std::io;

// How many frames pass each shim.
const FRAMES: u64 = 10_010;

// What a digest begins with, and by what it is multiplied.
const BASIS: u64 = 14_695_981_039_346_656_037;

const PRIME: u64 = 1_099_511_628_211;

// A link of running spaces.
#[derive(Clone, Copy)]
struct Way {
    seed: u64,
    from: u16,
    to: u16,
    loss: u64,
}

// What passed a shim: how many parcels came out, and the digest of their numbers.
#[derive(Drop)]
struct Passed {
    words: u64,
    count: u64,
    digest: u64,
}

/// Prints the digests of four links.
pub fn print<R: Print>(rt: &R, alloc: Global) -> io::Result<()> {
    for way in [
        Way {
            seed: 1,
            from: 1,
            to: 2,
            loss: 0,
        },
        Way {
            seed: 1,
            from: 2,
            to: 1,
            loss: 3,
        },
        Way {
            seed: 2026,
            from: 3,
            to: 8,
            loss: 5,
        },
        Way {
            seed: u64::MAX,
            from: 32,
            to: 31,
            loss: 9,
        },
    ] {
        let Way {
            seed,
            from,
            to,
            loss,
        } = way;
        let Passed {
            words,
            count,
            digest,
        } = pass_all(alloc, &way)?;
        println!(rt;
            "seed {seed}, {from} to {to}, loss {loss}: words {words}, {count} parcels, digest {digest}"
        )?;
    }
    Ok(())
}

// Passes all frames and the end through a new shim with the words of a link.
fn pass_all(alloc: Global, way: &Way) -> Result<Passed, AllocError> {
    let words = words_between(alloc, way.seed, space(way.from), space(way.to), way.loss)?;
    let mut passed = Passed {
        words: digest_of(words.as_slice()),
        count: 0,
        digest: BASIS,
    };
    let mut shim = Shim::new(words);
    for number in 1..=FRAMES {
        pass(&mut shim, &mut passed, parcel(alloc, number)?)?;
    }
    pass(&mut shim, &mut passed, Parcel::End)?;
    Ok(passed)
}

// Passes a parcel, and adds what comes out.
fn pass(shim: &mut Shim, passed: &mut Passed, parcel: Parcel) -> Result<(), AllocError> {
    let Ok(given) = shim.pass(parcel) else {
        return Err(AllocError);
    };
    for parcel in &given {
        passed.count = passed.count.wrapping_add(1);
        passed.digest = step(passed.digest, number_of(parcel));
    }
    Ok(())
}

// The digest of numbers.
fn digest_of(numbers: &[u64]) -> u64 {
    numbers
        .iter()
        .fold(BASIS, |digest, number| step(digest, *number))
}

// The digest after one number more.
fn step(digest: u64, number: u64) -> u64 {
    (digest ^ number).wrapping_mul(PRIME)
}
