//! The program `example_spaces`: the life of one reference among three spaces in one thread.
#![tactic(auto)]

use nob_exchange::{agent_of, exchange, with_three};
use nob_ids::Limits;
use nob_model_types::{Outcome, Refusal};
use nob_pickle::Value;
use nob_space::{Space, SpaceError};
use std::process::ExitCode;

type Tries = [Result<(), Refusal>; 4];

fn main(rt: HostRuntime) -> ExitCode {
    let said = match with_three(rt.alloc(), Limits::default(), play) {
        Ok(tries) => say(&rt, &tries),
        Err(error) => println!(&rt; "it failed: {error}"),
    };
    ExitCode::from(u8::from(said.is_err()))
}

fn say(rt: &HostRuntime, tries: &Tries) -> std::io::Result<()> {
    match tries {
        [Err(sent), Err(held), Err(passed), Ok(())] => println!(rt;
            "{sent}\n{held}\n{passed}\nwithdrawn"
        ),
        _ => println!(rt; "not as it should be"),
    }
}

// What space 1 is answered each time that it tries to withdraw the object.
fn play(one: &mut Space, two: &mut Space, three: &mut Space) -> Result<Tries, SpaceError> {
    // Space 1 makes an object, hands a reference to it to space 2, and keeps none itself.
    let object = one.export()?;
    let call = one.call(&agent_of(two), 1, &Value::Ref(object))?;
    one.release(&object)?;
    let sent = one.withdraw(object.index);

    // Space 2 keeps the reference beyond the call, and answers: it is listed for the object now.
    exchange(one, two)?;
    two.dup(&object)?;
    let job = two.claim()?;
    two.finish(job.job, &Outcome::Answer(Value::Unit))?;
    exchange(one, two)?;
    one.take_reply(call)?;
    let held = one.withdraw(object.index);

    // Space 2 passes it on to space 3 and drops its own; that drops it where its call ends.
    two.call(&agent_of(three), 1, &Value::Ref(object))?;
    two.release(&object)?;
    exchange(two, three)?;
    exchange(one, three)?;
    exchange(two, three)?;
    exchange(one, two)?;
    let passed = one.withdraw(object.index);
    let job = three.claim()?;
    three.finish(job.job, &Outcome::Answer(Value::Unit))?;
    exchange(one, three)?;
    Ok([sent, held, passed, one.withdraw(object.index)])
}
