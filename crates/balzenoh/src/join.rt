// Join two run records, join a list.
ghost use Rattle.std.specs.Prelude.{◌≡◌, ◌+◌, ◌*◌, ◌≤◌, length, take, drop};
ghost use Rattle.record_list.specs.Counted.{Counted};
ghost use Rattle.record_bytes.specs.Encoding.{decoded, records_of};
ghost use Rattle.balzenoh.specs.Exports.{Returned, lent_record, join_bytes, join_list_bytes};

use mode::{KeptAnswer, Refusal, RunRecord};

fn join_two(left: &[u8], right: &[u8]) -> Result<RunRecord, Refusal>
    ensures { result ≡ join_bytes left.now right.now }
{
    if left.len() != 24 {
        return Err(Refusal::RecordLength);
    }
    if right.len() != 24 {
        return Err(Refusal::RecordLength);
    }
    record_bytes::decode(left).join(record_bytes::decode(right))
}

// JOIN two records.
pub fn balzenoh_join(left: &[u8], right: &[u8], run: &mut [u8]) -> u8
    ensures { Returned (lent_record (join_bytes left.now right.now) (length run.old)) result run.new }
{
    crate::record::give(join_two(left, right), run)
}

// Record i of a list.
fn record_at(records: &[u8], i: usize) -> RunRecord
    requires { i * 24 + 24 ≤ length records.now }
    ensures { result ≡ decoded (take 24 (drop (i * 24) records.now)) }
{
    let at = i * 24;
    record_bytes::decode(&records[at..at + 24])
}

// The records one after the other, by the step of which the join of a list is the fold.
fn join_records(records: &[u8]) -> KeptAnswer
    ensures { Counted (records_of records.now) result }
{
    let mut so_far = record_list::start();
    for i in 0..records.len() / 24 {
        so_far = record_list::onto(so_far, record_at(records, i));
    }
    so_far
}

fn join_bytes(records: &[u8]) -> Result<RunRecord, Refusal>
    ensures { result ≡ join_list_bytes records.now }
{
    if records.len() % 24 != 0 {
        return Err(Refusal::RecordLength);
    }
    join_records(records).answer
}

// JOIN A LIST.
pub fn balzenoh_join_list(records: &[u8], run: &mut [u8]) -> u8
    ensures { Returned (lent_record (join_list_bytes records.now) (length run.old)) result run.new }
{
    crate::record::give(join_bytes(records), run)
}
