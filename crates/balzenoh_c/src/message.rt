// Seal a message, open a sealed record.
ghost use Rattle.std.specs.Prelude.{length as length_of};
ghost use Rattle.mode.specs.Mode.{by_cipher, by_sha1};
ghost use Rattle.mode.specs.Aes.{aes};
ghost use Rattle.mode.specs.Calls.{seal, open_sealed};
ghost use Rattle.balzenoh.specs.Exports.{Reported};

// SEAL a message, by the cipher.
#[unsafe(no_mangle)]
pub extern "C" fn balzenoh_seal(
    key: &[u8],
    iv: &[u8],
    message: &[u8],
    out: &mut [u8],
    length: &mut usize,
) -> u8
    ensures { Reported (seal by_cipher aes key.now iv.now message.now (length_of out.old)) result length.new out.new }
{
    balzenoh::message::balzenoh_seal(key, iv, message, out, length)
}

// SEAL a message, by SHA-1.
#[unsafe(no_mangle)]
pub extern "C" fn balzenoh_seal_sha1(
    key: &[u8],
    iv: &[u8],
    message: &[u8],
    out: &mut [u8],
    length: &mut usize,
) -> u8
    ensures { Reported (seal by_sha1 aes key.now iv.now message.now (length_of out.old)) result length.new out.new }
{
    balzenoh::message::balzenoh_seal_sha1(key, iv, message, out, length)
}

// OPEN a sealed record, by the cipher.
#[unsafe(no_mangle)]
pub extern "C" fn balzenoh_open(key: &[u8], sealed: &[u8], out: &mut [u8], length: &mut usize) -> u8
    ensures { Reported (open_sealed by_cipher aes key.now sealed.now (length_of out.old)) result length.new out.new }
{
    balzenoh::message::balzenoh_open(key, sealed, out, length)
}

// OPEN a sealed record, by SHA-1.
#[unsafe(no_mangle)]
pub extern "C" fn balzenoh_open_sha1(
    key: &[u8],
    sealed: &[u8],
    out: &mut [u8],
    length: &mut usize,
) -> u8
    ensures { Reported (open_sealed by_sha1 aes key.now sealed.now (length_of out.old)) result length.new out.new }
{
    balzenoh::message::balzenoh_open_sha1(key, sealed, out, length)
}
