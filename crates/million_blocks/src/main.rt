#![tactic(auto)]
// The second vector of the mode's paper, all 1,000,000 blocks, run against the proved library. Each line says how many cases of a group agreed.
use crate::chain::Link;
use crate::whole::Whole;
use case_records::keyed::Keyed;
use case_text::hex::block;
use case_text::{paper, report};
use std::io;

mod chain; // chain.rt: blocks sealed one at a time
mod whole; // whole.rt: all blocks, in runs
mod sums; // sums.rt: sums and their encryptions
mod last; // last.rt: block 1,000,000

// The sums of the first two blocks, from c1 and A1 as the calls give them.
fn report_first(rt: &impl Print, keyed: Keyed, m1: [u8; 16]) -> io::Result<()> {
    let agreed = match Link::none(m1, 0).next(keyed, 0) {
        Some(link) => sums::printed(link),
        None => 0,
    };
    report(rt, "blocks 1 and 2, sums and encryptions", agreed, 7)
}

fn report_runs(rt: &impl Print, all: Whole) -> io::Result<()> {
    report(rt, "runs of at most 2048 blocks, sealed", all.sealed, 978)?;
    report(rt, "runs of at most 2048 blocks, checked", all.checked, 489)
}

fn report_last(rt: &impl Print, keyed: Keyed, all: Whole) -> io::Result<()> {
    report(rt, "block 1000000, masks", last::masks(), 6)?;
    let blocks = last::blocks(all);
    report(rt, "block 1000000, plaintext and ciphertext", blocks, 2)?;
    let alone = last::alone(keyed, all);
    report(rt, "block 1000000, as a run of its own", alone, 3)?;
    let record = last::record_of_all(all.run);
    report(rt, "block 1000000, the record of all", record, 1)?;
    report(
        rt,
        "block 1000000, sums and encryptions",
        last::sums(all),
        4,
    )?;
    let cipher = last::cipher_tag(keyed, all.run);
    report(rt, "block 1000000, AUTH-AES", cipher, 2)?;
    let hash = last::hash_tag(keyed, all.run);
    report(rt, "block 1000000, AUTH-SHA-1", hash, 2)
}

fn main(rt: HostRuntime) -> io::Result<()> {
    let keyed = Keyed {
        key: &paper::key(),
        iv: &paper::iv(),
    };
    let m1 = block(b"00112233445566778899AABBCCDDEEFF");
    report_first(&rt, keyed, m1)?;
    let all = whole::run(keyed, m1);
    report_runs(&rt, all)?;
    report_last(&rt, keyed, all)
}
