// A record opened, and its answer compared.
use case_records::answer::answered;
use case_text::random::noise;
use mode::Refusal;
use mode::finish::Finish;

// Whether an output that held noise gets a message, or the call a refusal.
pub fn opens(
    finish: Finish,
    key: &[u8],
    sealed: &[u8],
    out: &mut [u8],
    expected: Result<&[u8], Refusal>,
) -> bool {
    noise(out);
    let given = opening::open(finish, key, sealed, out);
    answered(given, expected, out)
}
