#![tactic(auto)]
// Document 01's table of refusals, row by row, and the lengths at the edges of the padding, run against the proved library. Each line
// says how many cases of a group agreed.
use case_table::{Keys, Table};
use mode::finish::Finish;
use std::io;

fn main(rt: HostRuntime) -> io::Result<()> {
    let table = Table {
        finish: Finish::Cipher,
        keys: Keys::Paper,
    };
    table.run(&rt, "table.txt")
}
