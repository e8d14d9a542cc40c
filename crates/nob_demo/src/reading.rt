//! The whole input.

ghost use Rattle.std.specs.Prelude.{◌≡◌, ◌≤◌, ◌<◌, ◌+◌, ℕ, List, Option, Some, true, false, not, length, IfOk, OnOk, IfErr, IfSome};
ghost use Rattle.std.specs.Io.KnownBytes.{Consumes};
ghost use Rattle.nob_demo.specs.Program.{IsWhole, IsReadingFault, most_bytes, most_reads};

use crate::streams::{CountedReader, MOST_READS};
use nob_demo_spaces::Fault;
use std::alloc::Global;
use std::io::Read;

/// The maximum size of the input, in bytes.
const MOST_BYTES: usize = 1 << 26;

/// The bytes that one read asks for.
const PIECE: usize = 4096;

/// The whole input, by at most 2^20 reads and at most 2^26 bytes: a read that fails, or more than
/// that, is a read fault.
pub fn read_all<R: Read>(alloc: Global, source: &mut CountedReader<R>) -> Result<Vec<u8>, Fault>
    requires { (source.old.reads ≡ 0) × (source.old.bytes ≡ 0) × (source.old.failed ≡ false)
        × (source.old.ended ≡ false) }
    ensures whole { IfOk result (λ input.
        IfSome (R.remaining source.old.reader) (λ bytes. input.items ≡ bytes)) }
    ensures count { IfOk result (λ input. length input.items ≡ source.new.bytes) }
    ensures right { OnOk result (IsWhole (record {
      input = R.remaining source.old.reader;
      rest = R.remaining source.new.reader;
      reads = source.new.reads;
      bytes = source.new.bytes;
      failed = source.new.failed;
      ended = source.new.ended;
    })) }
    ensures fault { IfErr result (λ fault. IsReadingFault fault (record {
      input = R.remaining source.old.reader;
      rest = R.remaining source.new.reader;
      reads = source.new.reads;
      bytes = source.new.bytes;
      failed = source.new.failed;
      ended = source.new.ended;
    })) }
{
    let mut input = Vec::new(alloc);
    for _ in 0..MOST_READS {
        if !read_some(source, &mut input)? {
            return Ok(input);
        }
    }
    Err(Fault::Read)
}

// Reads some bytes onto the input: whether there were any.
fn read_some<R: Read>(source: &mut CountedReader<R>, input: &mut Vec<u8>) -> Result<bool, Fault>
    requires reads { source.old.reads < most_reads }
    requires going { (source.old.failed ≡ false) × (source.old.ended ≡ false) }
    requires count { length input.old.items ≡ source.old.bytes }
    requires few { source.old.bytes ≤ most_bytes }
    ensures more { IfOk result (λ more. more ≡ true → (all : Option (List ℕ))
        → Consumes all (R.remaining source.old.reader) input.old.items
        → Consumes all (R.remaining source.new.reader) input.new.items) }
    ensures end { IfOk result (λ more. more ≡ false → (all : Option (List ℕ))
        → Consumes all (R.remaining source.old.reader) input.old.items
        → IfSome all (λ bytes. input.new.items ≡ bytes)) }
    ensures ended { IfOk result (λ more. source.new.ended ≡ not more) }
    ensures right { OnOk result (source.new.failed ≡ false) }
    ensures count { OnOk result (length input.new.items ≡ source.new.bytes) }
    ensures few { OnOk result (source.new.bytes ≤ most_bytes) }
    ensures reads { source.new.reads ≡ source.old.reads + 1 }
    ensures fault { IfErr result (λ fault. (all : Option (List ℕ))
        → Consumes all (R.remaining source.old.reader) input.old.items
        → IsReadingFault fault (record {
          input = all;
          rest = R.remaining source.new.reader;
          reads = source.new.reads;
          bytes = source.new.bytes;
          failed = source.new.failed;
          ended = source.new.ended;
        })) }
{
    let mut piece = [0u8; PIECE];
    let Ok(count) = source.read(piece.as_mut_slice()) else {
        return Err(Fault::Read);
    };
    if count == 0 {
        return Ok(false);
    }
    if count > MOST_BYTES - input.len() {
        return Err(Fault::Read);
    }
    if !source.may_read() {
        return Err(Fault::Read);
    }
    input.extend_from_slice(piece.as_slice().split_at(count).0)?;
    Ok(true)
}
