//! The texts of answers.

ghost use Rattle.std.specs.Prelude.{◌≡◌, ◌++◌, ◌∷◌, ◌+◌, ◌<◌, ◌^◌, IfOk};
ghost use Rattle.std.specs.Fmt.{decimal};
ghost use Rattle.std.specs.String.{string_bytes};
ghost use Rattle.nob_demo_scripts.specs.Run.{answer_text, refusal_text, numbers_text, sent_text};

use crate::answer::{Answer, Sent};
use nob_bytes::Bytes;
use nob_ids::{ItemNo, Reason};
use nob_session::EndRefusal;
use std::alloc::{AllocError, Global};

/// The text of an answer. Only memory fails it.
pub fn text_of(alloc: Global, answer: &Answer) -> Result<String, AllocError>
    ensures { IfOk result (λ text. string_bytes text ≡ answer_text answer.now) }
{
    match answer {
        Answer::Item(number) => item_text(alloc, *number),
        Answer::Sent(sent) => frames_text(alloc, *sent),
        Answer::SentNothing => String::from_str(alloc, "frames none"),
        Answer::Got(number, item) => item_bytes_text(alloc, *number, item),
        Answer::Nothing => String::from_str(alloc, "none"),
        Answer::Done => String::from_str(alloc, "ok"),
        Answer::Took(count) => took_text(alloc, *count),
        Answer::Closed(reason) => closed_text(alloc, *reason),
        Answer::Opened(number) => opened_text(alloc, *number),
        Answer::Refused(refusal) => refused_text(alloc, *refusal),
        Answer::NoFrame => String::from_str(alloc, "X2"),
    }
}

fn item_text(alloc: Global, number: ItemNo) -> Result<String, AllocError>
    ensures { IfOk result (λ text. string_bytes text ≡ answer_text (Answer.Item number)) }
{
    let number = number.get();
    format!(in alloc; "item {number}")
}

fn item_bytes_text(alloc: Global, number: ItemNo, item: &Bytes) -> Result<String, AllocError>
    ensures { IfOk result (λ text. string_bytes text ≡ answer_text (Answer.Got number item.now)) }
{
    let number = number.get();
    let bytes = hex::encode(alloc, item.as_slice())?;
    format!(in alloc; "item {number} {bytes}")
}

fn took_text(alloc: Global, count: u64) -> Result<String, AllocError>
    ensures { IfOk result (λ text. string_bytes text ≡ answer_text (Answer.Took count)) }
{
    format!(in alloc; "took {count}")
}

fn closed_text(alloc: Global, reason: Reason) -> Result<String, AllocError>
    ensures { IfOk result (λ text. string_bytes text ≡ answer_text (Answer.Closed reason)) }
{
    let number = reason.number();
    format!(in alloc; "closed {number}")
}

fn opened_text(alloc: Global, number: u32) -> Result<String, AllocError>
    ensures { IfOk result (λ text. string_bytes text ≡ answer_text (Answer.Opened number)) }
{
    format!(in alloc; "opened {number}")
}

fn refused_text(alloc: Global, refusal: EndRefusal) -> Result<String, AllocError>
    ensures { IfOk result (λ text. string_bytes text ≡ refusal_text refusal) }
{
    match refusal {
        EndRefusal::Closed => String::from_str(alloc, "N1"),
        EndRefusal::QueueFull => String::from_str(alloc, "N2"),
        EndRefusal::SeqEnd => String::from_str(alloc, "N3"),
        EndRefusal::Strange => String::from_str(alloc, "N4"),
        EndRefusal::StillOpen => String::from_str(alloc, "N5"),
        EndRefusal::Number => String::from_str(alloc, "N6"),
    }
}

fn frames_text(alloc: Global, sent: Sent) -> Result<String, AllocError>
    ensures { IfOk result (λ text. string_bytes text ≡ sent_text sent.before sent.count) }
{
    let Sent { before, count } = sent;
    let mut text = String::from_str(alloc, "frames")?;
    for i in 0..count {
        let number = number_text(alloc, before, i)?;
        text.push_str(number.as_str())?;
    }
    Ok(text)
}

// A space and the number of the frame at this place after so many frames before.
fn number_text(alloc: Global, before: u64, place: u64) -> Result<String, AllocError>
    requires { before + place + 1 < 2 ^ 64 }
    ensures { IfOk result (λ text. string_bytes text ≡ 32 ∷ decimal (before + place + 1)) }
{
    let number = before + place + 1;
    format!(in alloc; " {number}")
}
