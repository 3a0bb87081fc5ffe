// SHA-1 of a text.
ghost use Rattle.std.specs.Prelude.{length};
ghost use Rattle.mode.specs.Calls.{sha1_text};
ghost use Rattle.balzenoh.specs.Exports.{Returned};

// SHA-1 of a text: the digest, 20 bytes.
pub fn balzenoh_sha1(text: &[u8], out: &mut [u8]) -> u8
    ensures { Returned (sha1_text text.now (length out.old)) result out.new }
{
    crate::number::number(calls::hash::sha1(text, out))
}
