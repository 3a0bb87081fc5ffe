#![tactic(auto)]
// Seeded messages, sealed whole and cut into runs, run against the proved library. Each line says how many cases of a group agreed.
use case_text::report;
use std::io;

mod cut; // cut.rt: blocks cut into runs
mod cuts; // cuts.rt: seeded messages, whole and in runs

fn main(rt: HostRuntime) -> io::Result<()> {
    let agreed = cuts::run();
    report(&rt, "cuts, sealed in runs", agreed.sealed, 400)?;
    report(&rt, "cuts, checked in runs", agreed.checked, 400)?;
    report(&rt, "cuts, opened", agreed.opened, 400)?;
    report(&rt, "cuts, reference sums", cuts::sums(agreed), 2)
}
