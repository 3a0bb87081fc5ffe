#![tactic(auto)]
// Published examples of SHA-1 and digests of sha1sum's, run against the proved library. Each line says how many cases of a group agreed.
use case_text::random::Random;
use case_text::{file, report};
use std::io;
use std::rt::Files;

mod digest; // digest.rt: what a case checks
mod lines; // lines.rt: the lines of a file

fn run_examples(rt: &(impl Files + Print + Alloc)) -> io::Result<()> {
    let examples = file::read(rt, "examples.txt")?;
    report(rt, "examples", lines::texts(&examples), 4)
}

// Fronts of a text from the generator, and the whole of it, which is a byte too long.
fn run_lengths(rt: &(impl Files + Print + Alloc)) -> io::Result<()> {
    let mut text = [0u8; 64033];
    Random::seeded(1).fill(&mut text);
    let lengths = file::read(rt, "lengths.txt")?;
    report(rt, "lengths", lines::fronts(&lengths, &text), 134)?;
    report(rt, "refusal 3", digest::too_long(&text), 2)
}

fn main(rt: HostRuntime) -> io::Result<()> {
    run_examples(&rt)?;
    run_lengths(&rt)
}
