#![tactic(auto)]
// The paper's vectors, reference records and damage, run against the proved library. Each line says how many cases of a group agreed.
use case_table::{Keys, Table};
use case_text::report;
use case_tools::reference;
use mode::finish::Finish;
use std::io;
use std::rt::Files;

mod paper; // paper.rt: the vectors of the mode's paper
mod damage; // damage.rt: a record with each bit flipped

// The finish and the keys of the tables.
const TABLE: Table = Table {
    finish: Finish::Cipher,
    keys: Keys::Paper,
};

// ---- the paper

fn report_vectors(rt: &impl Print) -> io::Result<()> {
    report(rt, "paper, first vector", paper::first_vector(), 5)?;
    report(rt, "paper, second vector", paper::second_vector(), 4)?;
    report(rt, "paper, both blocks in one run", paper::both_blocks(), 5)
}

fn report_between(rt: &(impl Files + Print + Alloc)) -> io::Result<()> {
    TABLE.run(rt, "masks.txt")?;
    report(rt, "start mask of zero", paper::zero_start_mask(), 5)?;
    report(rt, "the last block", paper::last_block(), 6)
}

fn report_long_key(rt: &impl Print) -> io::Result<()> {
    report(rt, "a key of 32 bytes", paper::long_key_vector(), 5)?;
    report(
        rt,
        "a key of 32 bytes, start mask of zero",
        paper::long_key_zero_start_mask(),
        5,
    )
}

// ---- damage

fn report_damage(rt: &(impl Files + Print + Alloc)) -> io::Result<()> {
    report(rt, "damage, the record itself", damage::undamaged(), 4)?;
    report(rt, "damage, each bit, opened", damage::opened(), 512)?;
    report(rt, "damage, each bit, tested", damage::tested(), 512)?;
    TABLE.run(rt, "rearranged.txt")
}

fn main(rt: HostRuntime) -> io::Result<()> {
    report_vectors(&rt)?;
    report_between(&rt)?;
    report_long_key(&rt)?;
    println!(rt; "keys of 16 bytes")?;
    reference::run_file(&rt, Finish::Cipher, "sealed.txt", 128)?;
    println!(rt; "keys of 32 bytes")?;
    reference::run_file(&rt, Finish::Cipher, "sealed256.txt", 128)?;
    println!(rt; "damage")?;
    report_damage(&rt)
}
