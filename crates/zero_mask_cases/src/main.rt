#![tactic(auto)]
// A start mask that is still zero after its replacement (ticket P3), run against the proved library. Each line says how many cases of a
// group agreed.
use case_table::{Keys, Table};
use case_text::report;
use mode::finish::Finish;
use std::io;

mod pair; // pair.rt: keys that start with 16 zeros, and the IVs that the cipher run backwards gives
mod others; // others.rt: pairs next to them, which are sealed

fn report_others(rt: &impl Print) -> io::Result<()> {
    let zeros = [0u8; 32];
    let short = others::other_ivs(&zeros[..16]);
    report(rt, "the zero key of 16, other IVs", short, 128)?;
    let long = others::other_ivs(&zeros);
    report(rt, "the zero key of 32, other IVs", long, 128)?;
    report(rt, "half of the key zero", others::half_zero(), 3)?;
    report(rt, "these keys, another IV", others::another_iv(), 6)?;
    report(rt, "another key, their IVs", others::another_key(), 6)
}

// The file has 10 and the rows around it, call by call.
fn main(rt: HostRuntime) -> io::Result<()> {
    report(&rt, "the IVs", pair::found(), 6)?;
    let table = Table {
        finish: Finish::Cipher,
        keys: Keys::Zero,
    };
    table.run(&rt, "table.txt")?;
    report_others(&rt)
}
