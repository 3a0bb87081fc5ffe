// Seal a run, check a run.
ghost use Rattle.std.specs.Prelude.{◌≡◌, cond, length as length_of};
ghost use Rattle.blocks.specs.Bytes.{zeros};
ghost use Rattle.mode.specs.Table.{too_short};
ghost use Rattle.balzenoh.specs.Exports.{Returned, ReportedRun, lent_record, length_in, run_in, check_run_bytes, seal_run_bytes};

use mode::{Refusal, RunRecord, SealedRun};

// Where its record has no room, a run's ciphertext is not kept.
fn keep(length: usize, room: usize, out: &mut [u8]) -> usize
    ensures written { result ≡ cond (too_short room 24) 0 length }
    ensures output { out.new ≡ cond (too_short room 24) (zeros (length_of out.old)) out.old }
{
    if room < 24 {
        blocks::block::clear(out);
        return 0;
    }
    length
}

// A sealed run in its two parts: the number of bytes that were written, and the record.
fn parts(answer: Result<SealedRun, Refusal>) -> (usize, Result<RunRecord, Refusal>)
    ensures written { result.0 ≡ length_in answer }
    ensures record_part { result.1 ≡ run_in answer }
{
    match answer {
        Ok(sealed) => (sealed.length, Ok(sealed.run)),
        Err(refusal) => (0, Err(refusal)),
    }
}

// SEAL A RUN. It is the last one unless `last` is 0.
pub fn balzenoh_seal_run(
    key: &[u8],
    iv: &[u8],
    first: u32,
    last: u8,
    bytes: &[u8],
    out: &mut [u8],
    length: &mut usize,
    run: &mut [u8],
) -> u8
    ensures { ReportedRun (seal_run_bytes key.now iv.now first last bytes.now (length_of out.old) (length_of run.old)) result length.new out.new run.new }
{
    let answer = calls::run::seal_run(key, iv, first, last != 0, bytes, out);
    let (written, sealed) = parts(answer);
    *length = keep(written, run.len(), out);
    crate::record::give(sealed, run)
}

// CHECK A RUN of ciphertext.
pub fn balzenoh_check_run(key: &[u8], iv: &[u8], first: u32, bytes: &[u8], run: &mut [u8]) -> u8
    ensures { Returned (lent_record (check_run_bytes key.now iv.now first bytes.now) (length_of run.old)) result run.new }
{
    crate::record::give(calls::run::check_run(key, iv, first, bytes), run)
}
