//! What the two ends of a link, and a shim, give for a few parcels, in one thread. Where memory is
//! refused a call is made once more: it must answer as if it had not been refused.

ghost use Rattle.std.specs.Prelude.{◌≡◌, IfSome};

use crate::parcels::{name, names, parcel};
use nob_fault::Shim;
use nob_link::{Parcel, PutEnd, TakeEnd, TryPutError, TryTakeError, finish, link};
use std::alloc::{AllocError, Global};
use std::io;
use std::sync::Wait;

/// Prints what they give.
pub fn print<R: Wait + Print>(rt: &R, alloc: Global) -> io::Result<()> {
    for capacity in [0, 1025] {
        if let Err(error) = link(alloc, capacity) {
            println!(rt; "link of {capacity}: {error}")?;
        }
    }
    let text = link_row(rt, alloc)?;
    println!(rt; "{text}")?;
    let text = full_row(rt, alloc)?;
    println!(rt; "{text}")?;
    let text = no_taker_row(rt, alloc)?;
    println!(rt; "{text}")?;
    let text = no_putter_row(rt, alloc)?;
    println!(rt; "{text}")?;
    let text = shim_row(alloc)?;
    println!(rt; "{text}")
}

// A link of 2: A and B are put, one is taken, C is put, and the two ends give the rest.
fn link_row<R: Wait>(rt: &R, alloc: Global) -> Result<String, AllocError> {
    let (one, two, three) = three(alloc)?;
    let (taken, rest) = put_and_take(rt, alloc, one, two, three)?;
    let rest = names(alloc, rest.as_slice())?;
    format!(in alloc; "link of 2: put A, put B, take {taken}, put C, finish{rest}")
}

// The parcels A, B and C.
fn three(alloc: Global) -> Result<(Parcel, Parcel, Parcel), AllocError> {
    let one = parcel(alloc, 1)?;
    let two = parcel(alloc, 2)?;
    let three = parcel(alloc, 3)?;
    Ok((one, two, three))
}

// Puts two parcels, takes one and puts the third: what was taken, and what was left.
fn put_and_take<R: Wait>(
    rt: &R,
    alloc: Global,
    one: Parcel,
    two: Parcel,
    three: Parcel,
) -> Result<(&'static str, Vec<Parcel>), AllocError> {
    let Some((mut put, mut take)) = ends(alloc, 2) else {
        return Err(AllocError);
    };
    let _ = put.put_as(rt, one);
    let _ = put.put_as(rt, two);
    let taken = take.take_as(rt);
    let _ = put.put_as(rt, three);
    let rest = finished(rt, alloc, put, take)?;
    Ok((name_of(taken), rest))
}

// A link of 1 that is full, and then empty.
fn full_row<R: Wait>(rt: &R, alloc: Global) -> Result<String, AllocError> {
    let (one, two, _) = three(alloc)?;
    let Some((mut put, mut take)) = ends(alloc, 1) else {
        return Err(AllocError);
    };
    let first = put.try_put_as(rt, one);
    let second = put.try_put_as(rt, two);
    let taken = take.try_take_as(rt);
    let nothing = take.try_take_as(rt);
    drop(put);
    drop(take);
    let first = put_text(alloc, first)?;
    let second = put_text(alloc, second)?;
    let taken = take_text(alloc, taken)?;
    let nothing = take_text(alloc, nothing)?;
    format!(in alloc; "link of 1: put A: {first}, put B: {second}, take: {taken}, take: {nothing}")
}

// A link whose taker is gone.
fn no_taker_row<R: Wait>(rt: &R, alloc: Global) -> Result<String, AllocError> {
    let (one, two, _) = three(alloc)?;
    let Some((mut put, take)) = ends(alloc, 2) else {
        return Err(AllocError);
    };
    drop(take);
    let tried = put.try_put_as(rt, one);
    let refused = put.put_as(rt, two);
    drop(put);
    let tried = put_text(alloc, tried)?;
    let refused = put_text(alloc, refused.map_err(TryPutError::Gone))?;
    format!(in alloc; "no taker: put A: {tried}, put B: {refused}")
}

// A link whose putter is gone.
fn no_putter_row<R: Wait>(rt: &R, alloc: Global) -> Result<String, AllocError> {
    let (one, _, _) = three(alloc)?;
    let Some((mut put, mut take)) = ends(alloc, 2) else {
        return Err(AllocError);
    };
    let _ = put.put_as(rt, one);
    let _ = put.put_as(rt, Parcel::End);
    drop(put);
    let first = take.take_as(rt);
    let second = take.take_as(rt);
    let none = take.take_as(rt);
    let gone = take.try_take_as(rt);
    drop(take);
    let gone = take_text(alloc, gone)?;
    let first = name_of(first);
    let second = name_of(second);
    let none = name_of(none);
    format!(in alloc; "no putter: take: {first}, {second}, {none}, {gone}")
}

// The text of a put that doesn't wait, with the parcel that came back.
fn put_text(alloc: Global, put: Result<(), TryPutError>) -> Result<String, AllocError> {
    match put {
        Ok(()) => String::from_str(alloc, "put"),
        Err(error) => {
            let why = format!(in alloc; "{error}")?;
            let back = name(&error.into_parcel());
            format!(in alloc; "{why} ({back} is back)")
        }
    }
}

// The text of a take that doesn't wait.
fn take_text(alloc: Global, take: Result<Parcel, TryTakeError>) -> Result<String, AllocError> {
    match take {
        Ok(parcel) => String::from_str(alloc, name(&parcel)),
        Err(error) => format!(in alloc; "{error}"),
    }
}

// The name of what was taken.
fn name_of(taken: Option<Parcel>) -> &'static str {
    match taken {
        Some(parcel) => name(&parcel),
        None => "none",
    }
}

// The two ends of a new link.
fn ends(alloc: Global, capacity: usize) -> Option<(PutEnd, TakeEnd)>
    ensures { IfSome result (λ ends. ends.0.link ≡ ends.1.link) }
{
    match link(alloc, capacity) {
        Ok(ends) => Some(ends),
        Err(_) => link(alloc, capacity).ok(),
    }
}

// What is left in a link.
fn finished<R: Wait>(
    rt: &R,
    alloc: Global,
    put: PutEnd,
    take: TakeEnd,
) -> Result<Vec<Parcel>, AllocError>
    requires { put.link ≡ take.link }
{
    match finish(rt, alloc, put, take) {
        Ok(rest) => Ok(rest),
        Err((put, take)) => match finish(rt, alloc, put, take) {
            Ok(rest) => Ok(rest),
            Err(_) => Err(AllocError),
        },
    }
}

// A shim with the words 3, 2, 0: what it gives for A, B, C, D and the end.
fn shim_row(alloc: Global) -> Result<String, AllocError> {
    let mut shim = Shim::new(Vec::from_array(alloc, [3, 2, 0])?);
    let mut text = String::from_str(alloc, "shim 3 2 0:")?;
    for number in 1..=4 {
        let given = passed(&mut shim, parcel(alloc, number)?)?;
        push_given(&mut text, alloc, given.as_slice())?;
    }
    let given = passed(&mut shim, Parcel::End)?;
    push_given(&mut text, alloc, given.as_slice())?;
    Ok(text)
}

// What a shim gives for a parcel.
fn passed(shim: &mut Shim, parcel: Parcel) -> Result<Vec<Parcel>, AllocError> {
    match shim.pass(parcel) {
        Ok(given) => Ok(given),
        Err(parcel) => shim.pass(parcel).map_err(|_| AllocError),
    }
}

// Adds the names of what was given at a parcel.
fn push_given(text: &mut String, alloc: Global, given: &[Parcel]) -> Result<(), AllocError> {
    if given.is_empty() {
        text.push_str(" nothing")?;
    }
    text.push_str(names(alloc, given)?.as_str())?;
    text.push_str(";")
}
