// Records that the library seals, under the paper's IV. The answer is the record, at the front of an output. Where a call does not give what it
// should there is none.
use case_records::answer::written;
use case_records::keyed::Keyed;
use case_text::paper;
use mode::finish::{Finish, tag_length};

// A message sealed.
pub fn of_message<'a>(
    finish: Finish,
    key: &[u8],
    message: &[u8],
    out: &'a mut [u8],
) -> Option<&'a mut [u8]> {
    let size = message.len() / 16 * 16 + 32 + tag_length(finish);
    let iv = paper::iv();
    let given = Keyed { key, iv: &iv }.seal(finish, message, out);
    if written(given, Ok(()), size, out) {
        out.get_mut(..size)
    } else {
        None
    }
}

// The IV, the ciphertext of whole blocks with no padding, and the tag.
pub fn of_blocks<'a>(
    finish: Finish,
    key: &[u8],
    text: &[u8],
    out: &'a mut [u8],
) -> Option<&'a mut [u8]> {
    let iv = paper::iv();
    let keyed = Keyed { key, iv: &iv };
    let (front, rest) = out.split_at_mut_checked(16)?;
    front.copy_from_slice(&iv);
    let run = keyed.seal_run(0, false, text, rest).ok()?;
    if !written(Ok(run.length), Ok(()), text.len(), rest) {
        return None;
    }
    let tag = keyed.close(finish, run.run).ok()?;
    let tag = tag.get(..tag_length(finish))?;
    rest.get_mut(text.len()..)?
        .get_mut(..tag.len())?
        .copy_from_slice(tag);
    out.get_mut(..16 + text.len() + tag.len())
}
