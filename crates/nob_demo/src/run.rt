//! What the program does.

ghost use Rattle.std.specs.Prelude.{◌≡◌, ◌++◌, [], ℕ, true, false, map, not, IsOk, IsErr, IfOk, IfErr};
ghost use Rattle.std.specs.Io.KnownBytes.{Appends};
ghost use Rattle.nob_demo_spaces.specs.Words.{subcommand_in, word_faults, takes_words};
ghost use Rattle.nob_demo.specs.Program.{Ended, Does, Goes, IsInput, IsReadingFault, part_of, reads_input, status_of, world_status_of, check_status_of, draw_status_of, scene_status_of};

use crate::checking::CheckEnding;
use crate::drawing::{Choice, DrawEnding, Part};
use crate::reading::read_all;
use crate::streams::{CountedReader, Sink};
use nob_demo_scripts::pair_script::PairEnding;
use nob_demo_spaces::{Excerpt, Fault, SceneEnding, Subcommand, judge};
use nob_model_journal::Verdict;
use nob_script_text::Ending;
use std::alloc::Global;
use std::convert::AsStr;
use std::io::{Read, Write};
use std::sync::Wait;
use std::thread::Threads;

/// Runs the program on the words of its command line, the first of which is its name: the exit
/// status. All is written to `out` but clap's text and the line `read fault`, which go to `err`.
/// Status 0: the last line says yes, or a scene's traces are printed or it kept none, or traces
/// that `check` accepts are drawn; 1: none of these, or a read, a write or memory failed; 2: the
/// words are refused. A scene reads nothing, and its spaces run in threads.
pub fn run<H: Threads + Wait + Sync, S: AsStr, R: Read, W: Write, E: Write>(
    rt: &H,
    alloc: Global,
    words: &[S],
    reader: &mut CountedReader<R>,
    out: &mut Sink<W>,
    err: &mut Sink<E>,
) -> u8
    requires reader { (reader.old.reads ≡ 0) × (reader.old.bytes ≡ 0) × (reader.old.failed ≡ false)
        × (reader.old.ended ≡ false) }
    requires out { out.old.failed ≡ false }
    requires err { err.old.failed ≡ false }
    ensures goes { Goes (record {
      attempt = record {
        taken = takes_words (word_faults (map S.text words.now));
        subcommand = subcommand_in (map S.text words.now);
        reading = record {
          input = R.remaining reader.old.reader;
          rest = R.remaining reader.new.reader;
          reads = reader.new.reads;
          bytes = reader.new.bytes;
          failed = reader.new.failed;
          ended = reader.new.ended;
        };
        out_before = W.contents out.old.writer;
        out_after = W.contents out.new.writer;
        out_failed = out.new.failed;
      };
      err_before = E.contents err.old.writer;
      err_after = E.contents err.new.writer;
      err_failed = err.new.failed;
      status = result;
    }) }
{
    match attempt(rt, alloc, words, reader, out) {
        Ok(status) => status,
        Err(Fault::Words(text)) => said(err, text.as_bytes(), 2),
        Err(Fault::Read) => said(err, b"read fault\n", 1),
        Err(Fault::Memory) => said(out, b"memory\n", 1),
        Err(Fault::Write) => 1,
    }
}

// Runs as far as no fault comes.
fn attempt<H: Threads + Wait + Sync, S: AsStr, R: Read, W: Write>(
    rt: &H,
    alloc: Global,
    words: &[S],
    reader: &mut CountedReader<R>,
    out: &mut Sink<W>,
) -> Result<u8, Fault>
    requires reader { (reader.old.reads ≡ 0) × (reader.old.bytes ≡ 0) × (reader.old.failed ≡ false)
        × (reader.old.ended ≡ false) }
    requires out { out.old.failed ≡ false }
    ensures ended { Ended result (record {
      taken = takes_words (word_faults (map S.text words.now));
      subcommand = subcommand_in (map S.text words.now);
      reading = record {
        input = R.remaining reader.old.reader;
        rest = R.remaining reader.new.reader;
        reads = reader.new.reads;
        bytes = reader.new.bytes;
        failed = reader.new.failed;
        ended = reader.new.ended;
      };
      out_before = W.contents out.old.writer;
      out_after = W.contents out.new.writer;
      out_failed = out.new.failed;
    }) }
{
    let subcommand = judge(alloc, words)?;
    let input = input_of(alloc, &subcommand, reader)?;
    let mut text = Vec::new(alloc);
    let (last_line, status) = play(rt, alloc, subcommand, &input, &mut text);
    let Ok(()) = out.write_all(&text) else {
        return Err(Fault::Write);
    };
    let Ok(()) = out.write_all(last_line) else {
        return Err(Fault::Write);
    };
    Ok(status)
}

// The input of a subcommand: the whole of it, or nothing where the subcommand reads none.
fn input_of<R: Read>(
    alloc: Global,
    subcommand: &Subcommand,
    source: &mut CountedReader<R>,
) -> Result<Vec<u8>, Fault>
    requires { (source.old.reads ≡ 0) × (source.old.bytes ≡ 0) × (source.old.failed ≡ false)
        × (source.old.ended ≡ false) }
    ensures input { IfOk result (λ input. IsInput (reads_input subcommand.now) (record {
      input = R.remaining source.old.reader;
      rest = R.remaining source.new.reader;
      reads = source.new.reads;
      bytes = source.new.bytes;
      failed = source.new.failed;
      ended = source.new.ended;
    }) input.items) }
    ensures fault { IfErr result (λ fault. (reads_input subcommand.now ≡ true)
        × IsReadingFault fault (record {
          input = R.remaining source.old.reader;
          rest = R.remaining source.new.reader;
          reads = source.new.reads;
          bytes = source.new.bytes;
          failed = source.new.failed;
          ended = source.new.ended;
        })) }
{
    match subcommand {
        Subcommand::Pair => read_all(alloc, source),
        Subcommand::Script => read_all(alloc, source),
        Subcommand::Check => read_all(alloc, source),
        Subcommand::Draw(_) => read_all(alloc, source),
        Subcommand::Spaces(_) => Ok(Vec::new(alloc)),
    }
}

// Writes what a subcommand gives for an input onto an empty text, save its last line: that line,
// and the status that the run ends with.
fn play<H: Threads + Wait + Sync>(
    rt: &H,
    alloc: Global,
    subcommand: Subcommand,
    input: &[u8],
    text: &mut Vec<u8>,
) -> (&'static [u8], u8)
    requires { text.old.items ≡ [] }
    ensures { Does subcommand input.now (text.new.items ++ result.0.now) result.1 }
{
    match subcommand {
        Subcommand::Pair => {
            let outcome = nob_demo_scripts::pair_script::play(alloc, input, text);
            (outcome.last_line(), status_of(outcome))
        }
        Subcommand::Script => {
            let ending = nob_demo_scripts::world_script::play(alloc, input, text);
            (ending.last_line(), world_status_of(ending))
        }
        Subcommand::Check => {
            let ending = crate::checking::play(alloc, input, text);
            (ending.last_line(), check_status_of(ending))
        }
        Subcommand::Draw(excerpt) => {
            let ending = crate::drawing::play(alloc, input, part_of(excerpt), text);
            (ending.last_line(), draw_status_of(ending))
        }
        Subcommand::Spaces(scene) => {
            let ending = nob_demo_spaces::play(rt, alloc, scene, text);
            (ending.last_line(), scene_status_of(ending))
        }
    }
}

// What is drawn, as the words say it.
fn part_of(excerpt: Excerpt) -> Part
    ensures { result ≡ part_of excerpt }
{
    Part {
        from: excerpt.from,
        to: excerpt.to,
        choice: Choice {
            owner: excerpt.owner,
            index: excerpt.index,
            space: excerpt.space,
            brief: excerpt.brief,
        },
    }
}

// The status that the play of a scene ends with.
fn scene_status_of(ending: SceneEnding) -> u8
    ensures { result ≡ scene_status_of ending }
{
    match ending {
        SceneEnding::Accepted => 0,
        SceneEnding::Refused => 1,
        SceneEnding::Printed => 0,
        SceneEnding::Unchecked => 0,
        SceneEnding::Full => 1,
        SceneEnding::OutOfMemory => 1,
    }
}

// The status that a drawing of traces ends with.
fn draw_status_of(ending: DrawEnding) -> u8
    ensures { result ≡ draw_status_of ending }
{
    match ending {
        DrawEnding::Drawn => 0,
        DrawEnding::Refused => 1,
        DrawEnding::OutOfMemory => 1,
    }
}

// The status that a check of traces ends with.
fn check_status_of(ending: CheckEnding) -> u8
    ensures { result ≡ check_status_of ending }
{
    match ending {
        CheckEnding::Accepted => 0,
        CheckEnding::Refused => 1,
        CheckEnding::OutOfMemory => 1,
    }
}

// The status that the run of a world's script ends with.
fn world_status_of(ending: Ending) -> u8
    ensures { result ≡ world_status_of ending }
{
    match ending {
        Ending::Judged(Verdict::Yes) => 0,
        Ending::Judged(Verdict::No(_)) => 1,
        Ending::BadStep => 1,
        Ending::OutOfMemory => 1,
    }
}

// The status that the run of a pair's script ends with.
fn status_of(outcome: PairEnding) -> u8
    ensures { result ≡ status_of outcome }
{
    match outcome {
        PairEnding::Fronts => 0,
        PairEnding::BadStep => 1,
        PairEnding::OutOfMemory => 1,
    }
}

/// Writes what is left to be said, and gives the status that the run ends with: this one, or 1
/// where the write fails.
pub fn said<W: Write>(sink: &mut Sink<W>, text: &[u8], status: u8) -> u8
    requires { sink.old.failed ≡ false }
    ensures written { sink.new.failed ≡ false
        → Appends (W.contents sink.old.writer) (W.contents sink.new.writer) text.now
        × (result ≡ status) }
    ensures failed { sink.new.failed ≡ true → result ≡ 1 }
{
    match sink.write_all(text) {
        Ok(()) => status,
        Err(_) => 1,
    }
}
