#![tactic(auto)]
// The vector program of document 01. It reads 48 bytes, a key, an IV and one block, and prints the start mask, the middletext, the
// ciphertext block and the tag. For any other length of input, or where a call is refused, it prints nothing.
use blocks::words::Words;
use mode::finish::Finish;
use std::io;
use std::io::Read;

// The label, one space, 32 digits in upper case.
fn print_line(rt: &impl Print, label: &str, block: Words) -> io::Result<()> {
    let high = block.high;
    let low = block.low;
    println!(rt; "{label} {high:016X}{low:016X}")
}

#[tactic(auto, using(fips197::specs::Aes::short))]
fn start_mask(key: [u8; 16], iv: [u8; 16]) -> Words {
    let keys = cipher::expand(&key);
    tags::mask::start_mask(iv, &keys)
}

// The block goes through a middle run at block 0. The pre-authenticator of one block is its middletext.
fn show(rt: &impl Print, key: [u8; 16], iv: [u8; 16], block: [u8; 16]) -> io::Result<()> {
    let mut out = [0u8; 16];
    let Ok(sealed) = calls::run::seal_run(&key, &iv, 0, false, &block, &mut out) else {
        return Ok(());
    };
    let Ok(tag) = tags::record::close(Finish::Cipher, &key, &iv, sealed.run) else {
        return Ok(());
    };
    print_line(rt, "R1", start_mask(key, iv))?;
    print_line(rt, "T1", sealed.run.preauthenticator)?;
    print_line(rt, "C1", blocks::words::load(&out, 0))?;
    print_line(rt, "AUTH", blocks::words::load(&tag, 0))
}

// It reads one byte more than there may be, so that a longer input shows.
fn main(rt: HostRuntime) -> io::Result<()> {
    let mut input = Vec::new(rt.alloc());
    rt.reader().take(49).read_to_end(&mut input)?;
    match <[u8; 48]>::try_from(input.as_slice()) {
        Ok(input) => {
            let key = blocks::block::load(&input, 0);
            let iv = blocks::block::load(&input, 16);
            let block = blocks::block::load(&input, 32);
            show(&rt, key, iv, block)
        }
        Err(_) => Ok(()),
    }
}
