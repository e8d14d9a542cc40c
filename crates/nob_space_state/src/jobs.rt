//! The jobs of a space: Claim.

ghost use Rattle.std.specs.Prelude.{◌≡◌, ◌+◌, ◌<◌, List, OnOk, OnErr, IfOk, find};
ghost use Rattle.nob_ids.specs.declared.limits.Limits.{Limits as LimitsOf};
ghost use Rattle.nob_model_types.specs.declared.answer.Answer.TheVariants as answers;
ghost use Rattle.nob_model_types.specs.declared.deed.Deed.{Deed};
ghost use Rattle.nob_model_types.specs.declared.deed.Deed.TheVariants as did;
ghost use Rattle.nob_model_acting.specs.Candidates as candidates;
ghost use Rattle.nob_model.specs.Right as right;
ghost use Rattle.nob_space_state.specs.Parts.{state_of};
ghost use Rattle.nob_space_state.specs.Stands.{StandFor, IsState, Keeps, Did, AnswersOrWants, history_for};

use crate::error::SpaceError;
use crate::parts::Parts;
use nob_ids::{JobNo, SpaceId};
use nob_item::Item;
use nob_model::right::LAST_NUMBER;
use nob_model::{Job, Refusal};

impl Parts {
    // The ready job that Claim takes; its value is copied.
    #[tactic(auto, unfolding(nob_model::specs::Right::claim_of))]
    fn next_job(&self) -> Result<Job, SpaceError>
        ensures low { OnOk result (self.now.jobs_made < right.last_number) }
        ensures answer { AnswersOrWants (λ job. answers.Job job) result
            (right.claim_of self.now.jobs_made
            (find (candidates.is_free (state_of self.now).work) self.now.messages.jobs.ready)) }
    {
        let Some(message) = self.messages.first_free() else {
            return Err(SpaceError::Refused(Refusal::Nothing));
        };
        if self.jobs_made >= LAST_NUMBER {
            return Err(SpaceError::Refused(Refusal::Limit));
        }
        let number = JobNo::new(self.jobs_made + 1);
        job_of(number, message.from, &message.item)
    }

    /// The job that Claim would give now; its value is copied. It is refused, or wants memory, as
    /// Claim. A few words of bits, and linear in the value.
    pub fn job_to_claim(&self) -> Result<Job, SpaceError>
        ensures { (limits : LimitsOf) (D : List Deed)
            → StandFor limits self.now D
            → AnswersOrWants (λ job. answers.Job job) result
            (right.right_claim (history_for self.now D)) }
    {
        self.next_job()
    }

    /// Claim: the first ready job, in order of becoming ready, whose target isn't running; its
    /// value is copied. A few words of bits, and linear in the value.
    pub fn claim(&mut self) -> Result<Job, SpaceError>
        requires { IsState self.old }
        ensures answer { (limits : LimitsOf) (D : List Deed)
            → StandFor limits self.old D
            → AnswersOrWants (λ job. answers.Job job) result
            (right.right_claim (history_for self.old D)) }
        ensures stands { IfOk result (λ job.
            Did self.old self.new (did.Claim job)) }
        ensures err { OnErr result (Keeps self.old self.new) }
        ensures here { self.new.here ≡ self.old.here }
    {
        let job = self.next_job()?;
        self.messages.reserve_running(1)?;
        self.messages.claim(job.job);
        self.jobs_made += 1;
        Ok(job)
    }
}

// The job of a number that an item is.
#[tactic(auto, unfolding(nob_model::specs::Right::job_of))]
fn job_of(job: JobNo, client: SpaceId, item: &Item) -> Result<Job, SpaceError>
    ensures { AnswersOrWants (λ job. answers.Job job) result (right.job_of job client item.now) }
{
    match item {
        Item::Call {
            call,
            target,
            method,
            value,
        } => Ok(Job {
            job,
            client,
            call: *call,
            target: *target,
            method: *method,
            value: value.copy()?,
        }),
        _ => Err(SpaceError::Refused(Refusal::Nothing)),
    }
}
