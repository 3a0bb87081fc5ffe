// Close a record, test a tag.
ghost use Rattle.std.specs.Prelude.{◌≡◌, length};
ghost use Rattle.mode.specs.Mode.{by_cipher, by_sha1, finish_named};
ghost use Rattle.balzenoh.specs.Exports.{Returned, lent_tag, close_bytes, test_bytes};

use mode::Refusal;
use mode::finish::Finish;

// A tag that a call answers, written to a lent output.
fn give(
    finish: Finish,
    answer: Result<[u8; mode::finish::LONGEST_TAG], Refusal>,
    out: &mut [u8],
) -> u8
    ensures { Returned (lent_tag (finish_named finish) answer (length out.old)) result out.new }
{
    let room = out.len();
    blocks::block::clear(out);
    let size = mode::finish::tag_length(finish);
    match crate::room::with_room(answer, room, size) {
        Ok(tag) => {
            tags::tag::put(finish, tag, out, 0);
            0
        }
        Err(refusal) => refusal.number(),
    }
}

fn close_record(
    finish: Finish,
    key: &[u8],
    iv: &[u8],
    run: &[u8],
) -> Result<[u8; mode::finish::LONGEST_TAG], Refusal>
    ensures { result ≡ close_bytes (finish_named finish) key.now iv.now run.now }
{
    if run.len() != 24 {
        return Err(Refusal::RecordLength);
    }
    tags::record::close(finish, key, iv, record_bytes::decode(run))
}

// CLOSE a record into its tag, with either finish.
fn close_with(finish: Finish, key: &[u8], iv: &[u8], run: &[u8], tag: &mut [u8]) -> u8
    ensures { Returned (lent_tag (finish_named finish) (close_bytes (finish_named finish) key.now iv.now run.now) (length tag.old)) result tag.new }
{
    give(finish, close_record(finish, key, iv, run), tag)
}

// By the cipher.
pub fn balzenoh_close(key: &[u8], iv: &[u8], run: &[u8], tag: &mut [u8]) -> u8
    ensures { Returned (lent_tag by_cipher (close_bytes by_cipher key.now iv.now run.now) (length tag.old)) result tag.new }
{
    close_with(Finish::Cipher, key, iv, run, tag)
}

// By SHA-1.
pub fn balzenoh_close_sha1(key: &[u8], iv: &[u8], run: &[u8], tag: &mut [u8]) -> u8
    ensures { Returned (lent_tag by_sha1 (close_bytes by_sha1 key.now iv.now run.now) (length tag.old)) result tag.new }
{
    close_with(Finish::Sha1, key, iv, run, tag)
}

// TEST a tag against a record, with either finish.
fn test_with(finish: Finish, key: &[u8], iv: &[u8], run: &[u8], tag: &[u8]) -> u8
    ensures { result ≡ test_bytes (finish_named finish) key.now iv.now run.now tag.now }
{
    if run.len() != 24 {
        return Refusal::RecordLength.number();
    }
    crate::number::number(tags::record::test(finish, key, iv, record_bytes::decode(run), tag))
}

// By the cipher.
pub fn balzenoh_test(key: &[u8], iv: &[u8], run: &[u8], tag: &[u8]) -> u8
    ensures { result ≡ test_bytes by_cipher key.now iv.now run.now tag.now }
{
    test_with(Finish::Cipher, key, iv, run, tag)
}

// By SHA-1.
pub fn balzenoh_test_sha1(key: &[u8], iv: &[u8], run: &[u8], tag: &[u8]) -> u8
    ensures { result ≡ test_bytes by_sha1 key.now iv.now run.now tag.now }
{
    test_with(Finish::Sha1, key, iv, run, tag)
}
