//! Numbers at a place in bytes, the highest byte first. The caller has judged how many bytes there
//! are.

ghost use Rattle.std.specs.Prelude.{◌≡◌, ◌≤◌, ◌+◌, length};
ghost use Rattle.nob_bytes.specs.Numbers.{field};

use byteorder::{BigEndian, ByteOrder};

/// The number in the two bytes from a place on. Constant time.
pub fn u16_at(bytes: &[u8], place: usize) -> u16
    requires { place + 2 ≤ length bytes.now }
    ensures { result ≡ field place 2 bytes.now }
{
    BigEndian::read_u16(bytes.split_at(place).1)
}

/// The number in the four bytes from a place on. Constant time.
pub fn u32_at(bytes: &[u8], place: usize) -> u32
    requires { place + 4 ≤ length bytes.now }
    ensures { result ≡ field place 4 bytes.now }
{
    BigEndian::read_u32(bytes.split_at(place).1)
}

/// The number in the eight bytes from a place on. Constant time.
pub fn u64_at(bytes: &[u8], place: usize) -> u64
    requires { place + 8 ≤ length bytes.now }
    ensures { result ≡ field place 8 bytes.now }
{
    BigEndian::read_u64(bytes.split_at(place).1)
}
