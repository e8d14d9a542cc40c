//! The program `test_nodes`: scenes of two or three nodes in threads. No clause says that a call
//! returns or that a node ends: these runs show it. After each scene whose nodes keep all of their
//! entries, their chains are checked.
#![tactic(auto)]

mod calling;
mod carrier;
mod lasting;
mod player;
mod reopening;
mod running;
mod saying;
mod shared;
mod thing;
mod unbinding;
mod verdict;

use crate::lasting::play_lasting;
use crate::player::Part;
use crate::reopening::play_reopening;
use crate::running::{play, play_alone, play_closing, play_cut};
use crate::saying::{say, say_lasting, say_reopening, say_unbinding};
use crate::unbinding::play_unbinding;
use std::alloc::Global;
use std::io;
use std::process::ExitCode;
use std::sync::Wait;
use std::thread::Threads;

fn main(rt: HostRuntime) -> ExitCode {
    match run(&rt, rt.alloc()) {
        Ok(()) => ExitCode::from(0),
        Err(_) => ExitCode::from(1),
    }
}

// Plays all scenes, and prints what they came to.
fn run<R: Threads + Wait + Sync + Print>(rt: &R, alloc: Global) -> io::Result<()> {
    run_held(rt, alloc)?;
    let nested = play(rt, alloc, &[Part::Owns, Part::CallsBack]);
    say(
        rt,
        &nested,
        &[("an object that calls its caller's, twice", 1)],
    )?;
    let alone = play_alone(rt, alloc);
    say(
        rt,
        &alone,
        &[(
            "a call over a link whose other end is let go, and one in a new session",
            1,
        )],
    )?;
    let cut = play_cut(rt, alloc);
    say(
        rt,
        &cut,
        &[(
            "a call whose links are let go while its method is held up",
            1,
        )],
    )?;
    run_closing(rt, alloc)?;
    say_lasting(rt, play_lasting(rt, alloc))?;
    say_reopening(rt, play_reopening(rt, alloc))?;
    say_unbinding(rt, play_unbinding(rt, alloc))
}

// Plays the scenes in which a method is held up.
fn run_held<R: Threads + Wait + Sync + Print>(rt: &R, alloc: Global) -> io::Result<()> {
    let gate = play(rt, alloc, &[Part::Owns, Part::CallsHeld, Part::CallsOther]);
    say(
        rt,
        &gate,
        &[
            ("another object, while a method is held up", 2),
            ("the method that was held up", 1),
        ],
    )?;
    let stop = play(
        rt,
        alloc,
        &[Part::OwnsAndLeaves, Part::CallsHeld, Part::LetsGoOn],
    );
    say(
        rt,
        &stop,
        &[
            ("methods that run when the application leaves", 0),
            ("the method of a node whose application left", 1),
        ],
    )
}

// Plays the scenes in which a session is closed by a Close that is lost.
fn run_closing<R: Threads + Wait + Sync + Print>(rt: &R, alloc: Global) -> io::Result<()> {
    let closing = play_closing(rt, alloc, [Part::OwnsAndCloses, Part::CallsHeld]);
    say(
        rt,
        &closing,
        &[("a call whose session is closed by a Close that is lost", 1)],
    )?;
    let reopening = play_closing(rt, alloc, [Part::OwnsAndReopens, Part::CallsHeld]);
    say(
        rt,
        &reopening,
        &[("the same where the session is opened anew at once", 1)],
    )?;
    let holding = play_closing(rt, alloc, [Part::OwnsUntilWithdrawn, Part::HoldsAndCloses]);
    say(
        rt,
        &holding,
        &[
            ("an object whose holder closes by a Close that is lost", 1),
            ("live objects once it is withdrawn", 0),
        ],
    )
}
