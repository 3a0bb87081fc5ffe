// Lines that seal a message or a run, or check a run. Their first two columns, KEY and IV, were read before.
use case_records::answer::{outcome, written};
use case_records::keyed::Keyed;
use case_text::columns::{Columns, ROOM, TEXT};
use mode::RunRecord;
use mode::finish::Finish;

// seal KEY IV MESSAGE ROOM REFUSAL LENGTH
pub fn message(finish: Finish, keyed: Keyed, mut columns: Columns) -> Option<bool> {
    let size = columns.length(TEXT)?;
    let room = columns.length(ROOM)?;
    let outcome = outcome(&mut columns)?;
    let length = columns.length(ROOM)?;
    columns.end()?;
    let mut output = [0u8; ROOM];
    let out = &mut output[..room];
    let given = keyed.seal(finish, &[9u8; TEXT][..size], out);
    Some(written(given, outcome, length, out))
}

// Whether a record has these numbers.
fn numbered(run: RunRecord, first: u32, count: u32) -> bool {
    run.first == first && run.count == count
}

// middle KEY IV FIRST TEXT ROOM REFUSAL COUNT, last KEY IV FIRST TEXT ROOM REFUSAL COUNT: a refusal, or a ciphertext and a record of COUNT blocks
pub fn run(keyed: Keyed, last: bool, mut columns: Columns) -> Option<bool> {
    let first = columns.number()?;
    let size = columns.length(TEXT)?;
    let room = columns.length(ROOM)?;
    let outcome = outcome(&mut columns)?;
    let count = columns.number()?;
    columns.end()?;
    let mut output = [0u8; ROOM];
    let out = &mut output[..room];
    let given = keyed.seal_run(first, last, &[9u8; TEXT][..size], out);
    let length = given.map(|sealed| sealed.length);
    let fits = given.map_or(true, |sealed| numbered(sealed.run, first, count));
    Some(fits && written(length, outcome, count as usize * 16, out))
}

// check KEY IV FIRST TEXT REFUSAL COUNT: a refusal, or a record of COUNT blocks
pub fn check(keyed: Keyed, mut columns: Columns) -> Option<bool> {
    let first = columns.number()?;
    let size = columns.length(TEXT)?;
    let outcome = outcome(&mut columns)?;
    let count = columns.number()?;
    columns.end()?;
    let given = keyed.check_run(first, &[9u8; TEXT][..size]);
    let fits = given.map(|run| numbered(run, first, count));
    Some(fits == outcome.map(|_| true))
}
