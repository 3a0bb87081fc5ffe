#![tactic(auto)]
// Published vectors of AES-128 and AES-256 and vectors of OpenSSL's, run against the proved library on each of its engines; and the engines beside
// each other. Each line says how many cases agreed.
use case_text::file;
use cipher::engine::Engine;
use std::io;
use std::rt::Files;

mod hex; // hex.rt: blocks from hexadecimal digits
mod agree; // agree.rt: what a case checks
mod fips; // fips.rt: the examples of FIPS 197
mod sboxes; // sboxes.rt: the S-box, looked up and worked out
mod lines; // lines.rt: the lines of a file
mod openssl; // openssl.rt: the triples of a file
mod both; // both.rt: two engines on the same keys and blocks

// `name: agreed of all what`
fn report(rt: &impl Print, name: &str, agreed: usize, all: usize, what: &str) -> io::Result<()> {
    println!(rt; "{name}: {agreed} of {all} {what}")
}

fn report_examples(rt: &impl Print, engine: Engine) -> io::Result<()> {
    let four = fips::words_of_four(engine);
    report(rt, "FIPS 197 A.1, key expansion", four, 44, "words")?;
    let eight = fips::words_of_eight(engine);
    report(rt, "FIPS 197 A.3, key expansion", eight, 60, "words")?;
    let b = fips::appendix_b(engine);
    report(rt, "FIPS 197 B, both ways", b, 2, "blocks")?;
    let c1 = fips::appendix_c1(engine);
    report(rt, "FIPS 197 C.1, both ways", c1, 2, "blocks")?;
    let c1_middle = fips::appendix_c1_middle(engine);
    report(rt, "FIPS 197 C.1, round 6 start", c1_middle, 2, "states")?;
    let c3 = fips::appendix_c3(engine);
    report(rt, "FIPS 197 C.3, both ways", c3, 2, "blocks")?;
    let c3_middle = fips::appendix_c3_middle(engine);
    report(rt, "FIPS 197 C.3, round 8 start", c3_middle, 2, "states")
}

fn report_tables(rt: &impl Print) -> io::Result<()> {
    let tables = sboxes::tables();
    report(rt, "FIPS 197, both tables", tables, 10, "entries")?;
    let worked_out = sboxes::worked_out();
    report(rt, "both tables, worked out", worked_out, 512, "entries")
}

// ---- the triples of a file, under keys of one length

fn report_triples(
    rt: &impl Print,
    engine: Engine,
    text: &[u8],
    size: usize,
    all: usize,
) -> io::Result<()> {
    let agreed = openssl::run(engine, text, size);
    report(rt, "OpenSSL, encryption", agreed.encrypted, all, "blocks")?;
    report(rt, "OpenSSL, decryption", agreed.decrypted, all, "blocks")?;
    report(rt, "OpenSSL, halves that meet", agreed.met, all, "blocks")
}

fn run_file<R: Files + Print + Alloc>(
    rt: &R,
    path: &str,
    size: usize,
    all: usize,
) -> io::Result<()> {
    let text = file::read(rt, path)?;
    println!(rt; "byte tables")?;
    report_triples(rt, Engine::Tables, &text, size, all)?;
    println!(rt; "arithmetic")?;
    report_triples(rt, Engine::Arithmetic, &text, size, all)?;
    println!(rt; "both")?;
    let agreed = both::run(&text, size);
    report(rt, "the engines, equal", agreed, all, "keys")
}

fn main(rt: HostRuntime) -> io::Result<()> {
    println!(rt; "byte tables")?;
    report_examples(&rt, Engine::Tables)?;
    println!(rt; "arithmetic")?;
    report_examples(&rt, Engine::Arithmetic)?;
    println!(rt; "both")?;
    report_tables(&rt)?;
    println!(rt; "keys of 16 bytes")?;
    run_file(&rt, "aes128.txt", 16, 512)?;
    println!(rt; "keys of 32 bytes")?;
    run_file(&rt, "aes256.txt", 32, 500)
}
