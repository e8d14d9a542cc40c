//! The words of the command line.

ghost use Rattle.std.specs.Prelude.{◌≡◌, ℕ, true, false, codes, List, map, IfOk, IfErr, OnOk, Option, Some};
ghost use Rattle.clap.specs.Words.{app_of, found_of, rows_of, subcommand_rows_of, FailsBy, Row};
ghost use Rattle.nob_demo_spaces.specs.Options.{AreWithin};
ghost use Rattle.nob_demo_spaces.specs.Words.{nobj, nobj_with_check, nobj_with_draw, nobj_with_pair, nobj_with_script, subcommand_by, subcommand_in, subcommand_named, word_faults, takes_words, IsWordsFault};

use crate::excerpt::Excerpt;
use crate::fault::Fault;
use crate::keeping::keep_in;
use crate::options::{excerpt_in, scene_in, with_excerpt, with_scene};
use crate::scene::Scene;
use clap::error::ErrorKind;
use clap::{ArgMatches, Command, Error};
use nob_nodes::Keep;
use std::alloc::{AllocError, Global};
use std::convert::AsStr;

const PAIR_EXAMPLE: &str = "Example: nobj pair < examples/first-frame-lost.pair";

// What `nobj pair --help` says of a script: a step a line, and a whole one.
const PAIR_HELP: &str = "\
The first line is `pair window W retry R` (W 1 to 64, R 1 to 255). Then a step a
line, where S is 1 or 2, the end that is asked:

  S put HEX   an item is handed to the end      item N, or N1, N2, N3
  S send      the end transmits                 frames K .., or frames none
  deliver K   the K-th frame arrives            took N, closed R, or X2
  S get       the next item is taken            item N HEX, none, or N1
  S tick      a tick of the end's clock         ok, closed 3, or N1
  S close     the end closes                    closed 1, or N1
  S open      it begins the next session        opened H, or N5

N1: the end is closed. N2: too many items are unacknowledged. N3: the numbers
are used up. N5: the end is open. X2: no such frame was transmitted. `memory`:
there was none for this step, which changed nothing. H is the session's number:
its frames bring nothing to an end that isn't in that session.

A line that is none of these ends the run: `line N: bad step`. What commonly is
one: lines that end with CR LF, a byte-order mark, upper-case digits, a number
with a leading zero, a space too many or at the end, an empty line.

A script, and what it prints:

  pair window 2 retry 4    pair window 2 retry 4
  1 put aa                 1 put aa = item 1
  1 send                   1 send = frames 1
  deliver 1                deliver 1 = took 1
  2 get                    2 get = item 1 aa
                           fronts yes

Example: nobj pair < examples/first-frame-lost.pair";

const SCRIPT_HELP: &str = "\
The first line is `spaces N` (1 to 32), or `spaces N window W retry R` (W 1 to 64,
R 1 to 255; else 8 and 16). Then a step a line: the number of a space and what it
is asked, or `deliver K`: the K-th frame that was ever sent arrives.

  export                 an object is made            exported O.X
  dup O.X  release O.X   a hold more, or less         ok
  call O.X METHOD VALUE  an object is called          call C
  take C                 the reply to call C          reply STATUS VALUE, or ended
  claim                  a call to be carried out     job J from P call C on ..
  finish J answer VALUE  its answer (or fault VALUE,  finished, or dropped
                         or nomethod)
  act P                  the next item from P         acted N, or closed R
  settle  clean          what is to be settled, or    settled P N; cleaned O.X
                         given up
  withdraw X             an object is taken back      withdrawn
  send P  tick P  close P                             frames ..; ok; closed R
  open P                 a new session with P         opened H, its number
  deliver K              a frame arrives              took N, or closed R

A value is u (unit), i7, b0a (bytes), r1.2 (a reference), or [u,i7] (a list).
S1 to S13, S15, S16: the space refuses the step. X1: there is no such space. X2:
no such frame was sent. S14: there was no memory for this step, which changed
nothing.
The last line is the verdict on all that was done: `verdict yes`, or `verdict no`
and what failed. A line that is no step ends the run: `line N: bad step`.

A script, and what it prints:

  spaces 2                 spaces 2
  1 export                 1 export = exported 1.1
  1 withdraw 1             1 withdraw 1 = S11(1)
  1 release 1.1            1 release 1.1 = ok
  1 withdraw 1             1 withdraw 1 = withdrawn
                           verdict yes

Example: nobj script < examples/spaces/world/whole-life.in";

const CHECK_HELP: &str = "\
What is read are traces or chains, one after the other, one of each space. A
trace says what its space was asked and what it answered. Its first line is

  trace2 S of N window W retry R entries K

(space S of N; W 1 to 64, R 1 to 255), and K lines `STAMP EVENT = RESULT` follow,
whose stamps rise. Events and results are those of a script (nobj script --help)
but for two: `arrive HEX` has the bytes of the frame that arrives, and `send P`
is answered by `frames` and the bytes of each frame, or `frames none`. (`trace`
in place of `trace2` has frames of version 1.)

A chain has the same lines in K segments, with what the space then says of itself
behind each (nobj spaces --traces writes chains):

  chain S of N window W retry R segments K
  segment I entries E                       I from 1 on; E lines follow, and then
  seal STAMP live L peer P session M sent A acted B open peer ..

What is written: `merged K` and `verdict yes`, where together they are what N
spaces did with the K entries in order of stamp: then all is true of them that is
proved of such runs. Else the one fault:

  R1           a trace or a chain isn't all there
  R2           a line is no line of one that is due there
  R3           a stamp doesn't rise
  R6           a segment is out of turn, or has no entries
  C4           they aren't one of each space
  C1 S PLACE   the space's entry there isn't the one right answer
  C5 S I       the seal of its segment I isn't what the space says of itself
  C2 S PLACE   the frame that arrives there was sent by no space
  C3 S PLACE   it was sent by none before
  memory       there was none

Traces, and what is written for them:

  trace2 1 of 2 window 8 retry 16 entries 1     merged 1
  1 export = exported 1.1                       verdict yes
  trace2 2 of 2 window 8 retry 16 entries 0

Example: nobj check < examples/spaces/check/three-traces-accepted.traces";

const DRAW_HELP: &str = "\
What is read are traces and chains, as `nobj check` reads them. What is written
is one SVG, which a browser shows: a lifeline for each space; a row for each entry, in order
of stamp, with what the space was asked and what it answered; an arrow for each
frame that arrives, and a cross where one is lost; and bars where an object is
live (green), a client is listed (blue) and a reference is pinned (orange).

Rows count from 1. With --from and --to only those from K to L are drawn, as far
as there are any: none where K is greater than L. With --owner and --index, of them
the life of that object alone: where it is named, and where a bar of it begins or
ends. With --space, that space's entries, and those by which a frame goes to it or
comes from it. With --brief, none that is refused, and no Acks that go alone. They
go together, and the picture says how many rows it leaves out.

An entry that `nobj check` finds wrong is red, of a wrong seal the last entry
before it, and the status is 1. Where the input isn't traces and chains, or they
aren't one of each space, there is no drawing but the line that `nobj check`
writes (R1, R2, R3, R6 or C4), or `memory`.

Example: nobj draw < examples/spaces/check/whole-life.traces > whole-life.svg";

const SPACES_HELP: &str = "\
N spaces run in threads of this process, each with W workers. Space 1 exports a
counter under the name `counter`. Every other space looks it up at space 1 and
calls it in turn, K calls in all, over links that lose L frames of ten; X is
where their chances start.

What is written:

  calls K      so many calls were answered
  total T      the greatest total that the counter answered
  check yes    the chains of all spaces are together a run of a world, and the
               numbers above are what they say

or one line: `full`, where a trace was full, or `memory`, where there was none.
With --traces the chains are written in place of these lines, for nobj check: what
each space did, in segments with seals. It says `merged ..` and `verdict yes`.

With `--keep nothing` (just so, or `--keep=nothing`) the spaces keep no chains,
so N may be up to 32 and K up to 1000000000, and there is no --traces. What is
written then:

  calls K      as above
  total T      as above
  unchecked    there are no chains to check
  summary S entries E stamp T live L peer P session H sent M acted A open peer ..

a summary for each space S: it made E entries, of which the last has stamp T; L
of its objects are live; and of each peer P: in session H, M items were handed to
it, A of its items were acted on, and it is open, or `closed R` for reason R.

Example: nobj spaces --spaces 4 --loss 3 --traces | nobj check";

/// What the words run.
#[derive(Clone, Copy, Debug, PartialEq, Eq)]
pub enum Subcommand {
    /// A script of two session ends is run.
    Pair,
    /// A script of a world of spaces is run.
    Script,
    /// Traces and chains of spaces are checked.
    Check,
    /// Traces and chains of spaces are drawn.
    Draw(Excerpt),
    /// A scene of spaces is played.
    Spaces(Scene),
}

/// Judges the words, of which the first is the program's name: `script` runs a script of a world,
/// `check` checks traces, `draw` draws the rows of traces that its options say, `spaces` plays the
/// scene that its options say, `pair`, or no further word, runs a script of a pair. Anything else
/// is refused with clap's text, and so is the number of an option that is none, or out of its
/// range. Where `--keep nothing` stands among the words `spaces` takes that option in place of
/// `--traces`, and more calls.
pub fn judge<S: AsStr>(alloc: Global, words: &[S]) -> Result<Subcommand, Fault>
    ensures taken { OnOk result (takes_words (word_faults (map S.text words.now)) ≡ true) }
    ensures subcommand { IfOk result (λ subcommand.
        subcommand ≡ subcommand_in (map S.text words.now)) }
    ensures fault { IfErr result (λ fault.
        IsWordsFault fault (takes_words (word_faults (map S.text words.now)))) }
{
    match matched(alloc, words) {
        Ok(subcommand) => Ok(subcommand),
        Err(error) => match error.kind() {
            ErrorKind::OutOfMemory => Err(Fault::Memory),
            _ => Err(Fault::Words(error.to_string(alloc)?)),
        },
    }
}

fn matched<S: AsStr>(alloc: Global, words: &[S]) -> Result<Subcommand, Error>
    ensures kinds { FailsBy (word_faults (map S.text words.now)) result }
    ensures subcommand { IfOk result (λ subcommand.
        subcommand ≡ subcommand_in (map S.text words.now)) }
{
    let keep = keep_in(words);
    let command = command(alloc, keep)?;
    let matches = command.try_get_matches_from(words)?;
    Ok(met_in(keep, &matches))
}

// What the subcommand runs that was met, by what the nodes of a scene keep.
fn met_in<'a>(keep: Keep, matches: &ArgMatches<'a>) -> Subcommand
    requires { (name : List ℕ) (rows : List Row)
        → subcommand_rows_of matches.now ≡ Some (name, rows) → AreWithin keep name rows }
    ensures { result ≡ subcommand_by keep (subcommand_rows_of matches.now) }
{
    match matches.subcommand() {
        None => Subcommand::Pair,
        Some((name, options)) => named(keep, name, options),
    }
}

// What the subcommand of this name runs, with its options, by what the nodes of a scene keep.
fn named<'a>(keep: Keep, name: &str, options: &ArgMatches<'a>) -> Subcommand
    requires { AreWithin keep name.now (rows_of (found_of options.now)) }
    ensures { result ≡ subcommand_named keep name.now (rows_of (found_of options.now)) }
{
    if name == "script" {
        Subcommand::Script
    } else if name == "check" {
        Subcommand::Check
    } else if name == "draw" {
        Subcommand::Draw(excerpt_in(options))
    } else if name == "spaces" {
        Subcommand::Spaces(scene_in(keep, options))
    } else {
        Subcommand::Pair
    }
}

// The command with all subcommands, by what the nodes of a scene keep.
fn command<'a>(alloc: Global, keep: Keep) -> Result<Command<'a>, AllocError>
    ensures { IfOk result (λ command. app_of command ≡ nobj keep) }
{
    let spaces = Command::new(alloc, "spaces")
        .about("Plays a scene of spaces in threads, and checks what they did")
        .after_help(SPACES_HELP);
    let spaces = with_scene(alloc, spaces, keep)?;
    let command = command_with_draw(alloc)?;
    command.subcommand(spaces)
}

// The command with the subcommands `pair`, `script`, `check` and `draw`.
fn command_with_draw<'a>(alloc: Global) -> Result<Command<'a>, AllocError>
    ensures { IfOk result (λ command. app_of command ≡ nobj_with_draw) }
{
    let draw = Command::new(alloc, "draw")
        .about("Draws traces of spaces, read from standard input, as an SVG")
        .after_help(DRAW_HELP);
    let draw = with_excerpt(alloc, draw)?;
    let command = command_with_check(alloc)?;
    command.subcommand(draw)
}

// The command with the subcommands `pair`, `script` and `check`.
fn command_with_check<'a>(alloc: Global) -> Result<Command<'a>, AllocError>
    ensures { IfOk result (λ command. app_of command ≡ nobj_with_check) }
{
    let check = Command::new(alloc, "check")
        .about("Checks traces of spaces, read from standard input")
        .after_help(CHECK_HELP);
    let command = command_with_script(alloc)?;
    command.subcommand(check)
}

// The command with the subcommands `pair` and `script`.
fn command_with_script<'a>(alloc: Global) -> Result<Command<'a>, AllocError>
    ensures { IfOk result (λ command. app_of command ≡ nobj_with_script) }
{
    let script = Command::new(alloc, "script")
        .about("Runs a script of a world of spaces, read from standard input")
        .after_help(SCRIPT_HELP);
    let command = command_with_pair(alloc)?;
    command.subcommand(script)
}

// The command with the subcommand `pair` alone.
fn command_with_pair<'a>(alloc: Global) -> Result<Command<'a>, AllocError>
    ensures { IfOk result (λ command. app_of command ≡ nobj_with_pair) }
{
    let pair = Command::new(alloc, "pair")
        .about("Runs a script of two session ends, read from standard input")
        .after_help(PAIR_HELP);
    Command::new(alloc, "nobj")
        .about("Network Objects, proved: `nobj` alone is `nobj pair`")
        .version("0.2.0")
        .after_help(PAIR_EXAMPLE)
        .bin_name("nobj")?
        .subcommand(pair)
}
