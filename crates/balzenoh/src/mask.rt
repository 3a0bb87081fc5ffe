// Jump a mask.
ghost use Rattle.std.specs.Prelude.{length};
ghost use Rattle.mode.specs.Calls.{jump_mask};
ghost use Rattle.balzenoh.specs.Exports.{Returned};

// JUMP a mask, forward or, by a negative distance, back.
pub fn balzenoh_jump(mask: &[u8], distance: i32, out: &mut [u8]) -> u8
    ensures { Returned (jump_mask mask.now distance (length out.old)) result out.new }
{
    crate::number::number(tags::jump::jump(mask, distance, out))
}
