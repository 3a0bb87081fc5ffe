// The lines of a file. A line has the length of a text as two bytes and its digest, in hexadecimal digits, a space or the line's end
// after each. In the file of examples the text itself follows, between the space and the line's end.
ghost use Rattle.std.specs.Prelude.{◌<◌, length, IfSome};

use crate::digest::agrees;
use case_text::hex::bytes;

// The bytes of a line up to the text.
const HEAD: usize = 46;

// The length that a line starts with.
fn length(head: &[u8; HEAD]) -> usize {
    u16::from_be_bytes(bytes(&head[..4])) as usize
}

// Whether a text has the digest of a line.
fn has_digest(text: &[u8], head: &[u8; HEAD]) -> bool {
    agrees(text, &bytes(&head[5..45]))
}

// Fronts of one text, each as long as a line says.
pub fn fronts(lines: &[u8], text: &[u8]) -> usize {
    let (heads, _) = lines.as_chunks::<HEAD>();
    heads
        .iter()
        .filter(|head| {
            text.get(..length(head))
                .is_some_and(|front| has_digest(front, head))
        })
        .count()
}

// The first line of some, its text, and the lines behind it. A last line that does not end, or has not all of its text, is none.
fn split_line(lines: &[u8]) -> Option<(&[u8; HEAD], &[u8], &[u8])>
    ensures { IfSome result (λ line. length line.2.now < length lines.now) }
{
    let (head, rest) = lines.split_first_chunk::<HEAD>()?;
    let (text, rest) = rest.split_at_checked(length(head))?;
    let (_, rest) = rest.split_first()?;
    Some((head, text, rest))
}

// Texts that stand in the lines.
pub fn texts(lines: &[u8]) -> usize {
    let mut agreed: usize = 0;
    let mut left = lines;
    while let Some((head, text, rest)) = split_line(left) {
        agreed += usize::from(has_digest(text, head));
        left = rest;
    }
    agreed
}
