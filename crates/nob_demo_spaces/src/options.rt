//! The options of the subcommands `spaces` and `draw`.

ghost use Rattle.std.specs.Prelude.{◌≡◌, ◌≤◌, codes, false, IfOk};
ghost use Rattle.clap.specs.Words.{app_of, found_of, new_app, one_of, rows_of, rule_of, shape_of};
ghost use Rattle.clap.specs.declared.builder.command.Command.TheViews.{out-Command as fields_of};
ghost use Rattle.nob_demo_spaces.specs.Options.{draw_shape, excerpt_in, flag_rule, is_said, last_rule, number_rule, setting_in, spaces_shape, text_rule, DrawIsWithin, SceneIsWithin};
ghost use Rattle.nob_demo_spaces.specs.Scenes.{most_calls, most_spaces};

use crate::excerpt::Excerpt;
use crate::scene::Scene;
use clap::builder::ValueParser;
use clap::{Arg, ArgAction, ArgMatches, Command};
use nob_nodes::Keep;
use std::alloc::{AllocError, Global};

/// The subcommand `spaces` with its options, by what the nodes keep.
pub fn with_scene<'a>(
    alloc: Global,
    spaces: Command<'a>,
    keep: Keep,
) -> Result<Command<'a>, AllocError>
    requires new { app_of spaces ≡ new_app (codes "spaces") }
    requires local { (fields_of spaces).has_globals ≡ false }
    ensures shape { IfOk result (λ command. shape_of command ≡ spaces_shape keep) }
    ensures local { IfOk result (λ command. (fields_of command).has_globals ≡ false) }
{
    spaces
        .arg(how_many(alloc, keep))?
        .arg(number(alloc, "workers", "W", 1, 16).help("Workers of each space: 1 to 16, else 2"))?
        .arg(calls(alloc, keep))?
        .arg(number(alloc, "loss", "L", 0, 9).help("Frames of ten that are lost: 0 to 9, else 0"))?
        .arg(number(alloc, "seed", "X", 0, u64::MAX).help("Where chances start: a u64, else 1"))?
        .arg(last(alloc, keep))
}

// The option that says how many spaces there are, by what the nodes keep.
fn how_many<'a>(alloc: Global, keep: Keep) -> Arg<'a>
    ensures rule { rule_of result ≡ number_rule (codes "spaces") 2 (most_spaces keep) }
    ensures local { result.global ≡ false }
{
    match keep {
        Keep::All => number(alloc, "spaces", "N", 2, 8).help("How many spaces: 2 to 8, else 3"),
        Keep::Nothing => {
            number(alloc, "spaces", "N", 2, 32).help("How many spaces: 2 to 32, else 3")
        }
    }
}

// The option that says how many calls are made, by what the nodes keep.
fn calls<'a>(alloc: Global, keep: Keep) -> Arg<'a>
    ensures rule { rule_of result ≡ number_rule (codes "calls") 0 (most_calls keep) }
    ensures local { result.global ≡ false }
{
    match keep {
        Keep::All => {
            let calls = number(alloc, "calls", "K", 0, 10_000);
            calls.help("Calls in all: 0 to 10000, else 50")
        }
        Keep::Nothing => {
            let calls = number(alloc, "calls", "K", 0, 1_000_000_000);
            calls.help("Calls in all: 0 to 1000000000, else 50")
        }
    }
}

// The last option of `spaces`, by what the nodes keep.
fn last<'a>(alloc: Global, keep: Keep) -> Arg<'a>
    ensures rule { rule_of result ≡ last_rule keep }
    ensures local { result.global ≡ false }
{
    match keep {
        Keep::All => flag(alloc, "traces").help("Writes the traces"),
        Keep::Nothing => {
            text(alloc, "keep", "WHAT").help("What nodes keep of their entries: nothing")
        }
    }
}

/// The subcommand `draw` with its options.
pub fn with_excerpt<'a>(alloc: Global, draw: Command<'a>) -> Result<Command<'a>, AllocError>
    requires new { app_of draw ≡ new_app (codes "draw") }
    requires local { (fields_of draw).has_globals ≡ false }
    ensures shape { IfOk result (λ command. shape_of command ≡ draw_shape) }
    ensures local { IfOk result (λ command. (fields_of command).has_globals ≡ false) }
{
    draw.arg(number(alloc, "from", "K", 1, u64::MAX).help("The first row: 1 or more, else 1"))?
        .arg(number(alloc, "to", "L", 1, u64::MAX).help("The last row: 1 or more, else the last"))?
        .arg(number(alloc, "owner", "O", 1, 32).help("The owner of an object whose life is drawn"))?
        .arg(number(alloc, "index", "X", 0, u64::MAX).help("The index of that object"))?
        .arg(number(alloc, "space", "S", 1, 32).help("The space whose part is drawn"))?
        .arg(flag(alloc, "brief").help("Leaves out what is refused, and Acks alone"))
}

// The option `--NAME N`, where N is a number from the lowest to the highest.
fn number<'a>(
    alloc: Global,
    name: &'a str,
    value_name: &'a str,
    lowest: u64,
    highest: u64,
) -> Arg<'a>
    ensures rule { rule_of result ≡ number_rule name.entry.now lowest highest }
    ensures local { result.global ≡ false }
{
    Arg::new(alloc, name)
        .long(name)
        .value_name(value_name)
        .value_parser(ValueParser::unsigned(lowest, highest))
}

// The option `--NAME TEXT`.
fn text<'a>(alloc: Global, name: &'a str, value_name: &'a str) -> Arg<'a>
    ensures rule { rule_of result ≡ text_rule name.entry.now }
    ensures local { result.global ≡ false }
{
    Arg::new(alloc, name).long(name).value_name(value_name)
}

// The flag `--NAME`.
fn flag<'a>(alloc: Global, name: &'a str) -> Arg<'a>
    ensures rule { rule_of result ≡ flag_rule name.entry.now }
    ensures local { result.global ≡ false }
{
    Arg::new(alloc, name).long(name).action(ArgAction::SetTrue)
}

/// The scene that the options say, whose nodes keep this.
pub fn scene_in<'a>(keep: Keep, options: &ArgMatches<'a>) -> Scene
    requires { SceneIsWithin keep (rows_of (found_of options.now)) }
    ensures { result ≡ setting_in keep (rows_of (found_of options.now)) }
{
    let spaces = options.get_one::<u8>("spaces").unwrap_or(3);
    let workers = options.get_one::<u8>("workers").unwrap_or(2);
    let calls = options.get_one::<u32>("calls").unwrap_or(50);
    let loss = options.get_one::<u8>("loss").unwrap_or(0);
    let seed = options.get_one::<u64>("seed").unwrap_or(1);
    let traces = is_set(options, "traces");
    Scene::new(spaces, workers, calls, loss, seed, traces, keep)
}

/// What of a run the options say.
pub fn excerpt_in<'a>(options: &ArgMatches<'a>) -> Excerpt
    requires { DrawIsWithin (rows_of (found_of options.now)) }
    ensures { result ≡ excerpt_in (rows_of (found_of options.now)) }
{
    let from = options.get_one::<usize>("from").unwrap_or(1);
    let to = options.get_one::<usize>("to").unwrap_or(usize::MAX);
    let owner = options.get_one::<u16>("owner");
    let index = options.get_one::<u64>("index");
    let space = options.get_one::<u16>("space");
    let brief = is_set(options, "brief");
    Excerpt {
        from,
        to,
        owner,
        index,
        space,
        brief,
    }
}

// Whether a flag is set.
fn is_set<'a>(options: &ArgMatches<'a>, name: &str) -> bool
    ensures { result ≡ is_said (one_of name.now (rows_of (found_of options.now))) }
{
    options.get_one::<bool>(name).unwrap_or(false)
}
