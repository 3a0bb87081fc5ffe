// Runs and tags held to values that are known.
ghost use Rattle.std.specs.Prelude.{◌≤◌};

use case_records::answer::{answered, tagged};
use case_records::keyed::Keyed;
use case_text::agreed;
use mode::RunRecord;
use mode::finish::Finish;

// How many are as they should be, of the ciphertext and the record that a middle run gives.
pub fn seals(keyed: Keyed, text: &[u8], cipher: &[u8], run: RunRecord, out: &mut [u8]) -> usize
    ensures { result ≤ 2 }
{
    let given = keyed.seal_run(run.first, false, text, out);
    agreed(&[
        answered(given.map(|sealed| sealed.length), Ok(cipher), out),
        given.map(|sealed| sealed.run) == Ok(run),
    ])
}

// Checking the ciphertext gives the record.
pub fn checks(keyed: Keyed, cipher: &[u8], run: RunRecord) -> bool {
    keyed.check_run(run.first, cipher) == Ok(run)
}

// How many are as they should be, of closing, which gives the tag, and testing the tag, which passes.
pub fn tag_is(finish: Finish, keyed: Keyed, run: RunRecord, tag: &[u8]) -> usize
    ensures { result ≤ 2 }
{
    agreed(&[
        tagged(keyed.close(finish, run), Ok(tag)),
        keyed.test(finish, run, tag).is_ok(),
    ])
}
