// Why a call refuses, and what it answers in C.
ghost use Rattle.std.specs.Prelude.{◌≡◌, length};
ghost use Rattle.aes_blocks.specs.EachBlock.{refusal as refusal_of};
ghost use Rattle.aes_blocks.specs.Answer.{answered};

#[derive(Clone, Copy, Debug, PartialEq, Eq)]
pub(crate) enum Refusal {
    KeyLength = 1,
    TextLength = 3,
    OutputTooShort = 5,
}

// The first refusal that holds.
pub(crate) fn check(key: &[u8], text: &[u8], room: usize) -> Result<(), Refusal>
    ensures { answered result ≡ refusal_of key.now text.now room }
{
    if cipher::not_key(key) {
        return Err(Refusal::KeyLength);
    }
    if text.len() % 16 != 0 {
        return Err(Refusal::TextLength);
    }
    if room < text.len() {
        return Err(Refusal::OutputTooShort);
    }
    Ok(())
}

// The number of a call's refusal, or 0.
pub(crate) fn answer(called: Result<(), Refusal>) -> u8
    ensures { result ≡ answered called }
{
    match called {
        Ok(()) => 0,
        Err(refusal) => refusal as u8,
    }
}
