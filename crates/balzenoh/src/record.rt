// A run record that is lent as 24 bytes.
ghost use Rattle.std.specs.Prelude.{length};
ghost use Rattle.balzenoh.specs.Exports.{Returned, lent_record};

use mode::{Refusal, RunRecord};

// A record that a call answers, written to a lent output.
pub fn give(answer: Result<RunRecord, Refusal>, out: &mut [u8]) -> u8
    ensures { Returned (lent_record answer (length out.old)) result out.new }
{
    let room = out.len();
    blocks::block::clear(out);
    match crate::room::with_room(answer, room, 24) {
        Ok(run) => {
            record_bytes::encode(run, out);
            0
        }
        Err(refusal) => refusal.number(),
    }
}
