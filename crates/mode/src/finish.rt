// The finish of a list: what makes its tag (ticket P4).
ghost use Rattle.std.specs.Prelude.{◌≡◌};
ghost use Rattle.mode.specs.Mode.{finish_named, overhead as overhead_of};

// By the cipher, as in document 01, or by SHA-1.
#[derive(Clone, Copy)]
pub enum Finish {
    Cipher,
    Sha1,
}

// The bytes of the longest tag.
pub const LONGEST_TAG: usize = 20;

// The bytes of a tag.
pub fn tag_length(finish: Finish) -> usize
    ensures { result ≡ (finish_named finish).tag_length }
{
    match finish {
        Finish::Cipher => 16,
        Finish::Sha1 => LONGEST_TAG,
    }
}

// The bytes that a sealed record has beside its ciphertext: IV and tag.
pub fn overhead(finish: Finish) -> usize
    ensures { result ≡ overhead_of (finish_named finish) }
{
    16 + tag_length(finish)
}
