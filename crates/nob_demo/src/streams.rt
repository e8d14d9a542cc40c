//! The program's reader and writers, which keep whether one of their calls failed.

ghost use Rattle.std.specs.Prelude.{◌≡◌, ◌+◌, ◌<◌, ◌≤◌, ℕ, true, false, IfOk, OnOk, OnErr, IsOk, List, [], length, take};
ghost use Rattle.std.specs.Io.{ReadsAtMost};
ghost use Rattle.std.specs.Io.KnownBytes.{Appends, Consumes, IsAtEnd};
ghost use Rattle.nob_demo.specs.Program.{most_bytes, most_reads, least_room};

use std::io::{Read, Write};

/// The maximum number of reads.
pub const MOST_READS: u32 = 1 << 20;

/// A read failed.
#[derive(Clone, Copy, Debug, PartialEq, Eq)]
pub struct ReadFailed;

/// A write failed.
#[derive(Clone, Copy, Debug, PartialEq, Eq)]
pub struct WriteFailed;

/// A reader, how often it was read, how many bytes that gave, whether a read failed, and whether
/// one told the end.
#[derive(Drop)]
pub struct CountedReader<R> {
    reader: R,
    reads: u32,
    bytes: u64,
    failed: bool,
    ended: bool,
}

impl<R: Read> CountedReader<R> {
    /// This reader, from which nothing was read.
    pub fn new(reader: R) -> CountedReader<R>
        ensures reader { result.reader ≡ reader }
        ensures new { (result.reads ≡ 0) × (result.bytes ≡ 0) × (result.failed ≡ false)
            × (result.ended ≡ false) }
    {
        CountedReader {
            reader,
            reads: 0,
            bytes: 0,
            failed: false,
            ended: false,
        }
    }

    /// Whether a read is left to make.
    pub fn may_read(&self) -> bool
        ensures left { result ≡ true → self.now.reads < most_reads }
        ensures none { result ≡ false → most_reads ≤ self.now.reads }
    {
        self.reads < MOST_READS
    }

    /// Reads some bytes into a piece with room for 4,096; none only at the end. A reader that
    /// failed, told its end or gave more than 2^26 bytes is read no more.
    pub fn read(&mut self, piece: &mut [u8]) -> Result<usize, ReadFailed>
        requires reads { self.old.reads < most_reads }
        requires going { (self.old.failed ≡ false) × (self.old.ended ≡ false) }
        requires few { self.old.bytes ≤ most_bytes }
        requires room { least_room ≤ length piece.old }
        ensures bound { ReadsAtMost result piece.new }
        ensures bytes { IfOk result (λ n.
            Consumes (R.remaining self.old.reader) (R.remaining self.new.reader)
            (take n piece.new)) }
        ensures end { IfOk result (λ n. n ≡ 0 → IsAtEnd (R.remaining self.new.reader)
            × (self.new.ended ≡ true)) }
        ensures more { IfOk result (λ n. 0 < n → self.new.ended ≡ false) }
        ensures reads { self.new.reads ≡ self.old.reads + 1 }
        ensures count { IfOk result (λ n. self.new.bytes ≡ self.old.bytes + n) }
        ensures ok { OnOk result (self.new.failed ≡ false) }
        ensures err { OnErr result ((self.new.failed ≡ true) × (self.new.ended ≡ false)
            × (self.new.bytes ≡ self.old.bytes)) }
    {
        self.reads += 1;
        match self.reader.read(piece) {
            Ok(count) => {
                self.ended = count == 0;
                self.bytes += count as u64;
                Ok(count)
            }
            Err(_) => {
                self.failed = true;
                Err(ReadFailed)
            }
        }
    }
}

/// A writer, and whether a write to it failed.
#[derive(Drop)]
pub struct Sink<W> {
    writer: W,
    failed: bool,
}

impl<W: Write> Sink<W> {
    /// This writer, to which nothing was written.
    pub fn new(writer: W) -> Sink<W>
        ensures writer { result.writer ≡ writer }
        ensures new { result.failed ≡ false }
    {
        Sink {
            writer,
            failed: false,
        }
    }

    /// Writes all these bytes, by no call where there are none. To a writer that failed nothing
    /// more is written.
    #[tactic(auto, using(crate::proofs::Known::appends_none))]
    pub fn write_all(&mut self, bytes: &[u8]) -> Result<(), WriteFailed>
        requires { self.old.failed ≡ false }
        ensures ok { OnOk result (self.new.failed ≡ false) }
        ensures bytes { OnOk result (Appends (W.contents self.old.writer)
            (W.contents self.new.writer) bytes.now) }
        ensures err { OnErr result (self.new.failed ≡ true) }
        ensures none { bytes.now ≡ [] → IsOk result }
    {
        if bytes.is_empty() {
            return Ok(());
        }
        match self.writer.write_all(bytes) {
            Ok(()) => Ok(()),
            Err(_) => {
                self.failed = true;
                Err(WriteFailed)
            }
        }
    }
}
