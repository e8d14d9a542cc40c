//! The words that the links of the program's running spaces have.

ghost use Rattle.std.specs.Prelude.{◌≡◌, IfOk};
ghost use Rattle.nob_fault.specs.Words.{start_of, next_draw, word_of, words_between};

use nob_ids::SpaceId;
use std::alloc::{AllocError, Global};

/// How many words a link of the program's running spaces has.
pub const WORDS: usize = 10_000;

/// The words of the link from one space to another: they depend on the seed, and about so many of
/// ten frames are lost, 0 to 9. Only memory fails it.
pub fn words_between(
    alloc: Global,
    seed: u64,
    from: SpaceId,
    to: SpaceId,
    loss: u64,
) -> Result<Vec<u64>, AllocError>
    ensures { IfOk result (λ words. words.items ≡ words_between seed from to loss) }
{
    let mut drawn = start_between(seed, from, to);
    let mut words = Vec::with_capacity(alloc, WORDS)?;
    for _ in 0..WORDS {
        drawn = draw_after(drawn);
        words.push(word_for(loss, drawn))?;
    }
    Ok(words)
}

// The number before the first draw.
fn start_between(seed: u64, from: SpaceId, to: SpaceId) -> u64
    ensures { result ≡ start_of seed from to }
{
    seed.wrapping_add(64 * u64::from(from.get()) + u64::from(to.get()))
}

// The number that is drawn after a number.
fn draw_after(number: u64) -> u64
    ensures { result ≡ next_draw number }
{
    number
        .wrapping_mul(6364136223846793005)
        .wrapping_add(1442695040888963407)
}

// The word of a drawn number.
fn word_for(loss: u64, number: u64) -> u64
    ensures { result ≡ word_of loss number }
{
    let high = number / (1 << 33);
    if high % 10 < loss { 0 } else { 1 + high % 3 }
}
