// Seal a run, check a run.
ghost use Rattle.std.specs.Prelude.{◌≡◌, ◌++◌, ◌+◌, ◌-◌, ◌%◌, ◌/◌, ◌≤◌, length};
ghost use Rattle.blocks.specs.Bytes.{zeros, Fresh};
ghost use Rattle.mode.specs.Mode.{plaintext, ciphertext, blocks_of, in_words};
ghost use Rattle.fips197.specs.Aes.{KeyLength};
ghost use Rattle.mode.specs.Aes.{aes};
ghost use Rattle.mode.specs.Table.{first_row, limit};
ghost use Rattle.mode.specs.Refusals.{passed};
ghost use Rattle.mode.specs.Calls.{seal_run_rows, blocks_of_run, pass_from, run_record, seal_run, check_run, sealed_run_of, record_of_answer};
ghost use Rattle.calls.specs.Layout.{kind_of, laid_out_length};
ghost use Rattle.calls.specs.Work.{run_rows};

use mode::{Refusal, RunRecord, SealedRun};
use runs::run::Task;

// The first of the rows that sealing and checking a run share. The run has `size` bytes as it is laid out.
fn run_refusal(key: &[u8], iv: &[u8], first: u32, size: usize) -> Result<(), Refusal>
    ensures { result ≡ passed (first_row (run_rows key.now iv.now first size)) }
{
    tags::lengths::key_and_iv(key, iv)?;
    if size % 16 != 0 {
        return Err(Refusal::Length);
    }
    if mode::LIMIT < first as u64 + (size / 16) as u64 {
        return Err(Refusal::BeyondLimit);
    }
    if tags::prepare::zero_mask(key, iv) {
        return Err(Refusal::ZeroMask);
    }
    Ok(())
}

// ---- seal

// The first row of the table that holds.
fn seal_run_refusal(
    key: &[u8],
    iv: &[u8],
    first: u32,
    last: bool,
    bytes: &[u8],
    room: usize,
) -> Result<(), Refusal>
    ensures { result ≡ passed (first_row (seal_run_rows aes key.now iv.now first (kind_of last) bytes.now room)) }
{
    let size = crate::text::laid_out_length(bytes, last);
    run_refusal(key, iv, first, size)?;
    if room < size {
        return Err(Refusal::OutputTooShort);
    }
    Ok(())
}

// The record, once the ciphertext is written.
fn seal_run_into(
    key: &[u8],
    iv: &[u8],
    first: u32,
    last: bool,
    bytes: &[u8],
    out: &mut [u8],
) -> RunRecord
    requires key_length { KeyLength key.now }
    requires iv_len { length iv.now ≡ 16 }
    requires fresh { Fresh out.old }
    requires bytes_in_bounds { laid_out_length last (length bytes.now) ≤ length out.old }
    requires bytes_value { laid_out_length last (length bytes.now) % 16 ≡ 0 }
    requires bytes_bound { laid_out_length last (length bytes.now) / 16 ≤ limit }
    ensures answer { result ≡ run_record in_words aes plaintext key.now iv.now first (blocks_of_run (kind_of last) bytes.now) }
    ensures output { out.new ≡ (pass_from aes plaintext key.now iv.now first (blocks_of_run (kind_of last) bytes.now)).output ++ zeros (length out.old - laid_out_length last (length bytes.now)) }
{
    let count = (crate::text::laid_out_length(bytes, last) / 16) as u32;
    let p = tags::prepare::prepare(key, iv);
    let first_mask = gf128::jump(p.start, first);
    let chain = crate::text::seal_text(bytes, last, first_mask, &p.keys, out);
    RunRecord {
        first,
        count,
        preauthenticator: chain.preauthenticator,
    }
}

// SEAL A RUN that starts at block `first`: a middle run of whole blocks, or a last one, which gets the padding. The ciphertext is
// written to the front of the output.
pub fn seal_run(
    key: &[u8],
    iv: &[u8],
    first: u32,
    last: bool,
    bytes: &[u8],
    out: &mut [u8],
) -> Result<SealedRun, Refusal>
    ensures answer { result ≡ sealed_run_of (seal_run in_words aes key.now iv.now first (kind_of last) bytes.now (length out.old)) }
    ensures output { out.new ≡ (seal_run in_words aes key.now iv.now first (kind_of last) bytes.now (length out.old)).output }
{
    let room = out.len();
    blocks::block::clear(out);
    seal_run_refusal(key, iv, first, last, bytes, room)?;
    Ok(SealedRun {
        length: crate::text::laid_out_length(bytes, last),
        run: seal_run_into(key, iv, first, last, bytes, out),
    })
}

// ---- check

fn check_run_record(key: &[u8], iv: &[u8], first: u32, bytes: &[u8]) -> RunRecord
    requires key_length { KeyLength key.now }
    requires iv_len { length iv.now ≡ 16 }
    requires bytes_len_bound { length bytes.now / 16 ≤ limit }
    ensures { result ≡ run_record in_words aes ciphertext key.now iv.now first (blocks_of bytes.now) }
{
    let p = tags::prepare::prepare(key, iv);
    let mask = gf128::jump(p.start, first);
    let count = bytes.len() / 16;
    let chain = runs::run::run(Task::Check, mask, &p.keys, bytes, count, &mut []);
    RunRecord {
        first,
        count: count as u32,
        preauthenticator: chain.preauthenticator,
    }
}

// CHECK A RUN of ciphertext: the record that sealing would give.
pub fn check_run(key: &[u8], iv: &[u8], first: u32, bytes: &[u8]) -> Result<RunRecord, Refusal>
    ensures { result ≡ record_of_answer (check_run in_words aes key.now iv.now first bytes.now) }
{
    run_refusal(key, iv, first, bytes.len())?;
    Ok(check_run_record(key, iv, first, bytes))
}
