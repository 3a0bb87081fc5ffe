// Close a record, test a tag.
ghost use Rattle.std.specs.Prelude.{◌≡◌, length};
ghost use Rattle.fips197.specs.Aes.{KeyLength};
ghost use Rattle.mode.specs.Mode.{in_words, finish_named};
ghost use Rattle.mode.specs.Aes.{aes};
ghost use Rattle.mode.specs.Table.{first_row};
ghost use Rattle.mode.specs.Calls.{close_rows, closing_tag, held_tag, close as close_of, test as test_of, tag_of_answer, test_of_answer};
ghost use Rattle.mode.specs.Refusals.{passed};
ghost use Rattle.tags.specs.Work.{record_rows, test_first_rows};

use mode::finish::Finish;
use mode::{Refusal, RunRecord};

// The first of the rows 4, 9 and 10 that holds of a record that is to be closed.
fn record_refusal(key: &[u8], iv: &[u8], run: RunRecord) -> Result<(), Refusal>
    requires key_length { KeyLength key.now }
    requires iv_len { length iv.now ≡ 16 }
    ensures { result ≡ passed (first_row (record_rows key.now iv.now run)) }
{
    if mode::LIMIT < run.first as u64 + run.count as u64 {
        return Err(Refusal::BeyondLimit);
    }
    if run.first != 0 {
        return Err(Refusal::NotWhole);
    }
    if run.count == 0 {
        return Err(Refusal::NotWhole);
    }
    if crate::prepare::zero_mask(key, iv) {
        return Err(Refusal::ZeroMask);
    }
    Ok(())
}

// The first row of the table that holds.
fn close_refusal(key: &[u8], iv: &[u8], run: RunRecord) -> Result<(), Refusal>
    ensures { result ≡ passed (first_row (close_rows in_words aes key.now iv.now run)) }
{
    crate::lengths::key_and_iv(key, iv)?;
    record_refusal(key, iv, run)
}

// The first of the rows that stand before 6.
fn test_refusal(
    finish: Finish,
    key: &[u8],
    iv: &[u8],
    run: RunRecord,
    tag: &[u8],
) -> Result<(), Refusal>
    ensures { result ≡ passed (first_row (test_first_rows (finish_named finish) key.now iv.now run tag.now)) }
{
    crate::lengths::key_and_iv(key, iv)?;
    if tag.len() != mode::finish::tag_length(finish) {
        return Err(Refusal::Length);
    }
    record_refusal(key, iv, run)
}

// The tag of a whole record: the start mask is jumped by the count.
fn closing_tag(
    finish: Finish,
    key: &[u8],
    iv: &[u8],
    run: RunRecord,
) -> [u8; mode::finish::LONGEST_TAG]
    requires key_length { KeyLength key.now }
    requires iv_len { length iv.now ≡ 16 }
    ensures { result ≡ held_tag (closing_tag in_words (finish_named finish) aes key.now iv.now run) }
{
    let p = crate::prepare::prepare(key, iv);
    let mask = gf128::jump(p.start, run.count);
    crate::tag::tag(finish, key, run.preauthenticator, mask, &p.keys)
}

// CLOSE a record into its tag.
pub fn close(
    finish: Finish,
    key: &[u8],
    iv: &[u8],
    run: RunRecord,
) -> Result<[u8; mode::finish::LONGEST_TAG], Refusal>
    ensures { result ≡ tag_of_answer (close_of in_words (finish_named finish) aes key.now iv.now run) }
{
    close_refusal(key, iv, run)?;
    Ok(closing_tag(finish, key, iv, run))
}

// TEST a tag against a record: it passes where closing gives that tag.
pub fn test(
    finish: Finish,
    key: &[u8],
    iv: &[u8],
    run: RunRecord,
    tag: &[u8],
) -> Result<(), Refusal>
    ensures { result ≡ test_of_answer (test_of in_words (finish_named finish) aes key.now iv.now run tag.now) }
{
    test_refusal(finish, key, iv, run, tag)?;
    let closed = closing_tag(finish, key, iv, run);
    if crate::tag::is_tag(closed, tag) {
        Ok(())
    } else {
        Err(Refusal::TagDiffers)
    }
}
