//! What a method that runs is told, and what is next for it.

ghost use Rattle.std.specs.Prelude.{◌≡◌, IfOk, IfErr};
ghost use Rattle.nob_dispatch.specs.KeeperError.TheVariants as errors;
ghost use Rattle.nob_dispatch.specs.Telling as telling;

use crate::stage::Stage;
use nob_dispatch_objects::Done;
use nob_keeper::{KeeperError, Seat};
use nob_model_types::{Answer, Refusal};

// What is next after the request of the newest receipt.
pub(crate) fn stage_after(seat: &Seat) -> Stage
    ensures { result ≡ telling.stage_after seat.now }
{
    match seat.newest() {
        Some(receipt) => match &receipt.result {
            Ok(Answer::Called(call)) => Stage::Await(*call),
            _ => Stage::Tell,
        },
        None => Stage::Tell,
    }
}

// Whether the newest receipt says that a reply isn't ready.
pub(crate) fn is_not_ready(seat: &Seat) -> bool
    ensures { result ≡ telling.is_not_ready seat.now }
{
    match seat.newest() {
        Some(receipt) => match &receipt.result {
            Err(Refusal::NotReady) => true,
            _ => false,
        },
        None => false,
    }
}

// What a method is told of the newest receipt. Only memory fails it.
pub(crate) fn done_of(seat: &Seat) -> Result<Done, KeeperError>
    ensures done { IfOk result (λ done. done ≡ telling.told seat.now) }
    ensures memory { IfErr result (λ error. error ≡ errors.OutOfMemory) }
{
    let Some(receipt) = seat.newest() else {
        return Ok(Done::Made);
    };
    match &receipt.result {
        Ok(Answer::Replied(status, value)) => match value.copy() {
            Ok(value) => Ok(Done::Replied {
                status: *status,
                value,
            }),
            Err(_) => Err(KeeperError::OutOfMemory),
        },
        Ok(Answer::Ended) => Ok(Done::Ended),
        Ok(_) => Ok(Done::Made),
        Err(refusal) => Ok(Done::Refused(*refusal)),
    }
}
