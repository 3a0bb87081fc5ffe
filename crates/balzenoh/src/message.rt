// Seal a message, open a sealed record.
ghost use Rattle.std.specs.Prelude.{length as length_of};
ghost use Rattle.mode.specs.Mode.{by_cipher, by_sha1, finish_named};
ghost use Rattle.mode.specs.Aes.{aes};
ghost use Rattle.mode.specs.Calls.{seal, open_sealed};
ghost use Rattle.balzenoh.specs.Exports.{Reported};

use mode::finish::Finish;

// SEAL a message, with either finish.
fn seal_with(
    finish: Finish,
    key: &[u8],
    iv: &[u8],
    message: &[u8],
    out: &mut [u8],
    length: &mut usize,
) -> u8
    ensures { Reported (seal (finish_named finish) aes key.now iv.now message.now (length_of out.old)) result length.new out.new }
{
    crate::number::report(calls::seal::seal(finish, key, iv, message, out), length)
}

// By the cipher.
pub fn balzenoh_seal(
    key: &[u8],
    iv: &[u8],
    message: &[u8],
    out: &mut [u8],
    length: &mut usize,
) -> u8
    ensures { Reported (seal by_cipher aes key.now iv.now message.now (length_of out.old)) result length.new out.new }
{
    seal_with(Finish::Cipher, key, iv, message, out, length)
}

// By SHA-1.
pub fn balzenoh_seal_sha1(
    key: &[u8],
    iv: &[u8],
    message: &[u8],
    out: &mut [u8],
    length: &mut usize,
) -> u8
    ensures { Reported (seal by_sha1 aes key.now iv.now message.now (length_of out.old)) result length.new out.new }
{
    seal_with(Finish::Sha1, key, iv, message, out, length)
}

// OPEN a sealed record, with either finish. An output as long as the message is enough.
fn open_with(finish: Finish, key: &[u8], sealed: &[u8], out: &mut [u8], length: &mut usize) -> u8
    ensures { Reported (open_sealed (finish_named finish) aes key.now sealed.now (length_of out.old)) result length.new out.new }
{
    crate::number::report(opening::open(finish, key, sealed, out), length)
}

// By the cipher.
pub fn balzenoh_open(key: &[u8], sealed: &[u8], out: &mut [u8], length: &mut usize) -> u8
    ensures { Reported (open_sealed by_cipher aes key.now sealed.now (length_of out.old)) result length.new out.new }
{
    open_with(Finish::Cipher, key, sealed, out, length)
}

// By SHA-1.
pub fn balzenoh_open_sha1(key: &[u8], sealed: &[u8], out: &mut [u8], length: &mut usize) -> u8
    ensures { Reported (open_sealed by_sha1 aes key.now sealed.now (length_of out.old)) result length.new out.new }
{
    open_with(Finish::Sha1, key, sealed, out, length)
}
