#![tactic(auto)]
// The join of a lent list of run records: one fold over the join of two, which keeps the last power of x and uses it again while the count
// is the same.
ghost use Rattle.std.specs.Prelude.{◌≡◌};
ghost use Rattle.mode.specs.Mode.{in_words};
ghost use Rattle.mode.specs.Calls.{join_list, record_of_answer};
ghost use Rattle.mode.specs.Powers.{Keeps};
ghost use Rattle.record_list.specs.Onto.{started, unless_beyond, unjoined as unjoined_of, onto_of};
ghost use Rattle.record_list.specs.Counted.{Counted};

use mode::power::LastPower;
use mode::{KeptAnswer, Refusal, RunRecord};

// The answer, or 4 where this record is beyond the limit.
fn unless_beyond(next: RunRecord, answer: Result<RunRecord, Refusal>) -> Result<RunRecord, Refusal>
    ensures { result ≡ unless_beyond next answer }
{
    let end = next.first as u64 + next.count as u64;
    if mode::LIMIT < end {
        return Err(Refusal::BeyondLimit);
    }
    answer
}

// One record more where there is none to join it to: after 9 it is the first, after 8 an earlier pair did not adjoin. Row 4 of this record
// beats both. Any other refusal stands as it is.
fn unjoined(refusal: Refusal, next: RunRecord) -> Result<RunRecord, Refusal>
    ensures { result ≡ unjoined_of refusal next }
{
    match refusal {
        Refusal::NotNeighbours => unless_beyond(next, Err(Refusal::NotNeighbours)),
        Refusal::NotWhole => unless_beyond(next, Ok(next)),
        _ => Err(refusal),
    }
}

// Before the first record: refusal 9, and no power is kept.
pub fn start() -> KeptAnswer
    ensures { result ≡ started }
{
    KeptAnswer {
        answer: Err(Refusal::NotWhole),
        last: LastPower::none(),
    }
}

// One record more: `so_far` is the answer to the records before it.
pub fn onto(so_far: KeptAnswer, next: RunRecord) -> KeptAnswer
    requires { Keeps so_far.last }
    ensures { result ≡ onto_of so_far next }
{
    match so_far.answer {
        Ok(run) => run.join_keeping(next, so_far.last),
        Err(refusal) => KeptAnswer {
            answer: unjoined(refusal, next),
            last: so_far.last,
        },
    }
}

// The list joined, in message order, and the powers of x that were worked out for it.
fn join_counted(records: &[RunRecord]) -> KeptAnswer
    ensures { Counted records.now result }
{
    let mut so_far = start();
    for next in records {
        so_far = onto(so_far, *next);
    }
    so_far
}

// THE CALL: a lent list joined, in message order.
pub fn join_list(records: &[RunRecord]) -> Result<RunRecord, Refusal>
    ensures { result ≡ record_of_answer (join_list in_words records.now) }
{
    join_counted(records).answer
}
