//! Numbers in front of bytes, the highest byte first.

ghost use Rattle.std.specs.Prelude.{◌≡◌};
ghost use Rattle.nob_bytes.specs.Numbers.{number_at, Sees};

use crate::placed::{u16_at, u32_at, u64_at};

/// The number in the first two bytes, and the bytes after it: or this fault where they aren't all
/// there.
pub fn take_u16<E: Drop>(bytes: &[u8], short: E) -> Result<(u16, &[u8]), E>
    ensures { Sees (λ x. (x.0, x.1.now)) result (number_at short 2 bytes.now) }
{
    if bytes.len() < 2 {
        return Err(short);
    }
    Ok((u16_at(bytes, 0), bytes.split_at(2).1))
}

/// The number in the first four bytes, and the bytes after it: or this fault where they aren't all
/// there.
pub fn take_u32<E: Drop>(bytes: &[u8], short: E) -> Result<(u32, &[u8]), E>
    ensures { Sees (λ x. (x.0, x.1.now)) result (number_at short 4 bytes.now) }
{
    if bytes.len() < 4 {
        return Err(short);
    }
    Ok((u32_at(bytes, 0), bytes.split_at(4).1))
}

/// The number in the first eight bytes, and the bytes after it: or this fault where they aren't all
/// there.
pub fn take_u64<E: Drop>(bytes: &[u8], short: E) -> Result<(u64, &[u8]), E>
    ensures { Sees (λ x. (x.0, x.1.now)) result (number_at short 8 bytes.now) }
{
    if bytes.len() < 8 {
        return Err(short);
    }
    Ok((u64_at(bytes, 0), bytes.split_at(8).1))
}
