// A data file.
ghost use Rattle.std.specs.Prelude.{◌≤◌, IfOk, vec_len};

use std::fs::File;
use std::io;
use std::io::Read;
use std::rt::Files;

// The most bytes of a data file that a program here reads.
pub const MOST: usize = 65536;

// The bytes of a file, without those beyond the most. Where there is no such file it is an error.
pub fn read<R: Files + Alloc>(rt: &R, path: &str) -> io::Result<Vec<u8, R::A>>
    ensures { IfOk result (λ bytes. vec_len bytes ≤ 65536) }
{
    let mut bytes = Vec::new(rt.alloc());
    File::open(rt, path)?
        .take(MOST as u64)
        .read_to_end(&mut bytes)?;
    bytes.truncate(MOST);
    Ok(bytes)
}
