// What the paper prints of block 1,000,000.
ghost use Rattle.std.specs.Prelude.{◌≤◌};

use crate::sums::{start_mask, sum_is};
use crate::whole::Whole;
use case_records::answer::record;
use case_records::jump::jumped;
use case_records::keyed::Keyed;
use case_text::agreed;
use case_text::hex::{block, bytes};
use case_tools::held::{checks, seals, tag_is};
use mode::RunRecord;
use mode::finish::Finish;

// ---- masks

fn mask() -> [u8; 16] {
    block(b"8F3461728ECD3A7B3D3CC89808967071")
}

fn mask_after() -> [u8; 16] {
    block(b"1E68C2E51D9A74F67A799130112CE065")
}

// One jump leads from a mask to another, and one back.
fn apart(from: [u8; 16], to: [u8; 16], distance: i32, back: i32) -> usize
    ensures { result ≤ 2 }
{
    agreed(&[jumped(from, distance) == to, jumped(to, back) == from])
}

// R1,000,000 and R1,000,001 from R1, and the one from the other.
pub fn masks() -> usize {
    let r1 = start_mask();
    apart(r1, mask(), 999999, -999999)
        + apart(r1, mask_after(), 1000000, -1000000)
        + apart(mask(), mask_after(), 1, -1)
}

// ---- the block

// m1,000,000 and c1,000,000, as the blocks before them led to them.
pub fn blocks(all: Whole) -> usize {
    agreed(&[
        all.block == block(b"8C9A9C08367E40D4A0BDF5405E0A8358"),
        all.next == block(b"F347A18A64E419D33759AD819D5CD8B4"),
    ])
}

// The block as a run of its own: c1,000,000, and t1,000,000 in its record, sealed and checked.
pub fn alone(keyed: Keyed, all: Whole) -> usize {
    let run = record(999999, 1, block(b"0DF19348FE1FD9EFEC91D9843B13566A"));
    let mut out = [0u8; 32];
    seals(keyed, &all.block, &all.next, run, &mut out) + usize::from(checks(keyed, &all.next, run))
}

// ---- the record of all blocks

// A1,000,000.
pub fn record_of_all(run: RunRecord) -> usize {
    let all = record(0, 1000000, block(b"D72D708155DB739339471E4D1EAB6D85"));
    usize::from(run == all)
}

// AUTH-AES.
pub fn cipher_tag(keyed: Keyed, run: RunRecord) -> usize {
    let tag = block(b"9D6478D55514E83763C369067E8B82D0");
    tag_is(Finish::Cipher, keyed, run, &tag)
}

// AUTH-SHA-1.
pub fn hash_tag(keyed: Keyed, run: RunRecord) -> usize {
    let tag: [u8; 20] = bytes(b"29520E37A0D635C41694F30AA9C09FE5AF525D2B");
    tag_is(Finish::Sha1, keyed, run, &tag)
}

// ---- sums

// m1,000,000 plus R1,000,000 and A1,000,000 plus R1,000,001.
pub fn sums(all: Whole) -> usize {
    let r1 = start_mask();
    let a = <[u8; 16]>::from(all.run.preauthenticator);
    sum_is(
        all.block,
        jumped(r1, 999999),
        b"03AEFD7AB8B37AAF9D813DD8569CF329",
        b"7C73C0F8EA2923A80A65651995CAA8C5",
    ) + sum_is(
        a,
        jumped(r1, 1000000),
        b"C945B26448410765433E8F7D0F878DE0",
        b"4A49085400CF9BA45A84774B6020EF55",
    )
}
