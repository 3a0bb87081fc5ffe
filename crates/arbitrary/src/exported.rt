// The fourteen functions for C and Rust.
ghost use Rattle.std.specs.Prelude.{◌≡◌, length as length_of};
ghost use Rattle.mode.specs.Mode.{by_cipher, by_sha1};
ghost use Rattle.mode.specs.Aes.{aes};
ghost use Rattle.mode.specs.Calls.{seal as seal_outcome, open_sealed, jump_mask, sha1_text};
ghost use Rattle.balzenoh.specs.Exports.{lent_record, lent_tag, seal_run_bytes, check_run_bytes, join_bytes, join_list_bytes, close_bytes, test_bytes};
ghost use Rattle.arbitrary.specs.Returned.{ReturnedAs, ReportedAs, ReportedRunAs};

pub fn seal(key: &[u8], iv: &[u8], message: &[u8], out: &mut [u8], length: &mut usize) -> u8
    ensures { ReportedAs (seal_outcome by_cipher aes key.now iv.now message.now (length_of out.old)) result length.new out.new }
{
    balzenoh::message::balzenoh_seal(key, iv, message, out, length)
}

pub fn seal_sha1(key: &[u8], iv: &[u8], message: &[u8], out: &mut [u8], length: &mut usize) -> u8
    ensures { ReportedAs (seal_outcome by_sha1 aes key.now iv.now message.now (length_of out.old)) result length.new out.new }
{
    balzenoh::message::balzenoh_seal_sha1(key, iv, message, out, length)
}

pub fn open(key: &[u8], sealed: &[u8], out: &mut [u8], length: &mut usize) -> u8
    ensures { ReportedAs (open_sealed by_cipher aes key.now sealed.now (length_of out.old)) result length.new out.new }
{
    balzenoh::message::balzenoh_open(key, sealed, out, length)
}

pub fn open_sha1(key: &[u8], sealed: &[u8], out: &mut [u8], length: &mut usize) -> u8
    ensures { ReportedAs (open_sealed by_sha1 aes key.now sealed.now (length_of out.old)) result length.new out.new }
{
    balzenoh::message::balzenoh_open_sha1(key, sealed, out, length)
}

pub fn seal_run(
    key: &[u8],
    iv: &[u8],
    first: u32,
    last: u8,
    bytes: &[u8],
    out: &mut [u8],
    length: &mut usize,
    run: &mut [u8],
) -> u8
    ensures { ReportedRunAs (seal_run_bytes key.now iv.now first last bytes.now (length_of out.old) (length_of run.old)) result length.new out.new run.new }
{
    balzenoh::run::balzenoh_seal_run(key, iv, first, last, bytes, out, length, run)
}

pub fn check_run(key: &[u8], iv: &[u8], first: u32, bytes: &[u8], run: &mut [u8]) -> u8
    ensures { ReturnedAs (lent_record (check_run_bytes key.now iv.now first bytes.now) (length_of run.old)) result run.new }
{
    balzenoh::run::balzenoh_check_run(key, iv, first, bytes, run)
}

pub fn join(left: &[u8], right: &[u8], run: &mut [u8]) -> u8
    ensures { ReturnedAs (lent_record (join_bytes left.now right.now) (length_of run.old)) result run.new }
{
    balzenoh::join::balzenoh_join(left, right, run)
}

pub fn join_list(records: &[u8], run: &mut [u8]) -> u8
    ensures { ReturnedAs (lent_record (join_list_bytes records.now) (length_of run.old)) result run.new }
{
    balzenoh::join::balzenoh_join_list(records, run)
}

pub fn close(key: &[u8], iv: &[u8], run: &[u8], tag: &mut [u8]) -> u8
    ensures { ReturnedAs (lent_tag by_cipher (close_bytes by_cipher key.now iv.now run.now) (length_of tag.old)) result tag.new }
{
    balzenoh::tag::balzenoh_close(key, iv, run, tag)
}

pub fn close_sha1(key: &[u8], iv: &[u8], run: &[u8], tag: &mut [u8]) -> u8
    ensures { ReturnedAs (lent_tag by_sha1 (close_bytes by_sha1 key.now iv.now run.now) (length_of tag.old)) result tag.new }
{
    balzenoh::tag::balzenoh_close_sha1(key, iv, run, tag)
}

pub fn test(key: &[u8], iv: &[u8], run: &[u8], tag: &[u8]) -> u8
    ensures { result ≡ test_bytes by_cipher key.now iv.now run.now tag.now }
{
    balzenoh::tag::balzenoh_test(key, iv, run, tag)
}

pub fn test_sha1(key: &[u8], iv: &[u8], run: &[u8], tag: &[u8]) -> u8
    ensures { result ≡ test_bytes by_sha1 key.now iv.now run.now tag.now }
{
    balzenoh::tag::balzenoh_test_sha1(key, iv, run, tag)
}

pub fn jump(mask: &[u8], distance: i32, out: &mut [u8]) -> u8
    ensures { ReturnedAs (jump_mask mask.now distance (length_of out.old)) result out.new }
{
    balzenoh::mask::balzenoh_jump(mask, distance, out)
}

pub fn sha1(text: &[u8], out: &mut [u8]) -> u8
    ensures { ReturnedAs (sha1_text text.now (length_of out.old)) result out.new }
{
    balzenoh::hash::balzenoh_sha1(text, out)
}
