// What a case checks.
use case_records::answer::answered;
use case_text::agreed;
use case_text::random::noise;
use mode::Refusal;

// Whether an output that held noise gets a digest, or the call a refusal.
fn answers(text: &[u8], out: &mut [u8], expected: Result<&[u8], Refusal>) -> bool {
    noise(out);
    let given = calls::hash::sha1(text, out);
    answered(given, expected, out)
}

// A text has its digest in outputs of 20 and of 21 bytes, and is refused where the output is too short.
pub fn agrees(text: &[u8], digest: &[u8; 20]) -> bool {
    answers(text, &mut [0u8; 20], Ok(digest))
        && answers(text, &mut [0u8; 21], Ok(digest))
        && answers(text, &mut [0u8; 19], Err(Refusal::OutputTooShort))
}

// In how many of two outputs a text is refused for its length: one with room, and one that is too short.
pub fn too_long(text: &[u8]) -> usize {
    agreed(&[
        answers(text, &mut [0u8; 21], Err(Refusal::Length)),
        answers(text, &mut [0u8; 19], Err(Refusal::Length)),
    ])
}
