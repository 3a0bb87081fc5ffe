#![tactic(auto)]
// What the case programs share that is plain bytes and text.
ghost use Rattle.std.specs.Prelude.{◌≡◌, ◌≤◌, length, count_by};

use std::convert::AsSlice;
use std::io;

pub mod bytes; // bytes.rt: bytes that a case lends or compares
pub mod hex; // hex.rt: bytes from hexadecimal digits
pub mod random; // random.rt: a generator
pub mod paper; // paper.rt: the key and the IV of the mode's paper
pub mod file; // file.rt: a data file
pub mod columns; // columns.rt: the columns of a case

// How many cases agreed.
pub fn agreed(cases: &[bool]) -> usize
    ensures count { result ≡ count_by (λ agrees. agrees) cases.now }
    ensures bound { result ≤ length cases.now }
{
    cases.iter().filter(|agrees| **agrees).count()
}

// `name: agreed of all`. The name is text, or bytes of a data file, which need not be text.
pub fn report<N: AsSlice<u8> + Drop>(
    rt: &impl Print,
    name: N,
    agreed: usize,
    all: usize,
) -> io::Result<()> {
    rt.write_all(name.as_slice())?;
    println!(rt; ": {agreed} of {all}")
}
