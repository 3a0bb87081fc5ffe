// Joins of run records.
ghost use Rattle.std.specs.Prelude.{◌≡◌};
ghost use Rattle.mode.specs.Mode.{in_words};
ghost use Rattle.mode.specs.Calls.{join_two, join_list, record_of_answer};

use mode::{Refusal, RunRecord};

pub fn join(left: RunRecord, right: RunRecord) -> Result<RunRecord, Refusal>
    ensures { result ≡ record_of_answer (join_two in_words left right) }
{
    left.join(right)
}

pub fn join_list(records: &[RunRecord]) -> Result<RunRecord, Refusal>
    ensures { result ≡ record_of_answer (join_list in_words records.now) }
{
    record_list::join_list(records)
}
