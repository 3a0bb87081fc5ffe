#![tactic(auto)]
// Lists of none to three run records, lent to the join of a list: lists that join, and the table's rows for a list. Each line says how
// many cases of a group agreed.
use case_records::answer::{record, run};
use case_text::hex::block;
use case_text::{agreed, report};
use mode::Refusal;
use record_list::join_list;
use std::io;

// One record, two and three; a full list with an empty run behind it.
fn joined() -> usize {
    let records = [run(0, 1, 1), run(1, 2, 2), run(3, 1, 3)];
    let full = [run(0, 1048576, 7), run(1048576, 0, 0), run(1048576, 1, 1)];
    agreed(&[
        join_list(&records[..1]) == Ok(run(0, 1, 1)),
        join_list(&records[..2]) == Ok(run(0, 3, 6)),
        join_list(&records) == Ok(run(0, 4, 15)),
        join_list(&full[..2]) == Ok(run(0, 1048576, 7)),
    ])
}

// A power of x that is kept: right records of one count, of two, of one count behind another, and behind one of no block. The values are
// those of vectors/make-mode-vectors.
fn kept() -> usize {
    let equal = block(b"EB27F0AF8D59030385858584888888FE");
    let other = block(b"3E5EBFBCA3030303030385858D620E96");
    let behind = block(b"53535353535353535353535353535353");
    let empty = block(b"1B1B1B1B1B1B1B1B1B1B1B1B1B1B1B1B");
    agreed(&[
        join_list(&[run(0, 1000, 1), run(1000, 1000, 2), run(2000, 1000, 3)])
            == Ok(record(0, 3000, equal)),
        join_list(&[run(0, 500, 1), run(500, 1000, 2), run(1500, 500, 3)])
            == Ok(record(0, 2000, other)),
        join_list(&[run(0, 1, 1), run(1, 3, 2), run(4, 3, 3)]) == Ok(record(0, 7, behind)),
        join_list(&[run(0, 5, 1), run(5, 0, 2), run(5, 3, 3)]) == Ok(record(0, 8, empty)),
    ])
}

// No record, before records that join, that do not adjoin, that are beyond the limit, and that are blank.
fn none() -> usize {
    let joins = [run(0, 1, 1), run(1, 2, 2), run(3, 1, 3)];
    let apart = [run(0, 1, 1), run(5, 1, 2), run(9, 1, 3)];
    let beyond = [run(1048576, 1, 1), run(1048577, 1, 2), run(1048578, 1, 3)];
    let blank = [run(0, 0, 0), run(0, 0, 0), run(0, 0, 0)];
    agreed(&[
        join_list(&joins[..0]) == Err(Refusal::NotWhole),
        join_list(&apart[..0]) == Err(Refusal::NotWhole),
        join_list(&beyond[..0]) == Err(Refusal::NotWhole),
        join_list(&blank[..0]) == Err(Refusal::NotWhole),
    ])
}

// A gap, an overlap, the wrong order, a gap behind a good pair.
fn apart() -> usize {
    let gap = [run(0, 1, 1), run(2, 1, 2), run(3, 1, 3)];
    let overlap = [run(0, 2, 1), run(1, 2, 2), run(3, 1, 3)];
    let order = [run(1, 1, 1), run(0, 1, 2), run(2, 1, 3)];
    let later = [run(0, 1, 1), run(1, 1, 2), run(3, 1, 3)];
    agreed(&[
        join_list(&gap) == Err(Refusal::NotNeighbours),
        join_list(&overlap[..2]) == Err(Refusal::NotNeighbours),
        join_list(&order) == Err(Refusal::NotNeighbours),
        join_list(&later) == Err(Refusal::NotNeighbours),
    ])
}

// Beyond the limit: alone; the first of three; the last, behind a gap, which this beats; numbers whose sum leaves 32 bits.
fn beyond() -> usize {
    let alone = [run(1, 1048576, 1), run(0, 1, 2), run(1, 1, 3)];
    let first = [run(1048576, 1, 1), run(0, 1, 2), run(5, 1, 3)];
    let last = [run(0, 1, 1), run(5, 1, 2), run(1048576, 1, 3)];
    let huge = [run(0, 1, 1), run(4294967295, 1, 2), run(0, 1, 3)];
    agreed(&[
        join_list(&alone[..1]) == Err(Refusal::BeyondLimit),
        join_list(&first) == Err(Refusal::BeyondLimit),
        join_list(&last) == Err(Refusal::BeyondLimit),
        join_list(&huge[..2]) == Err(Refusal::BeyondLimit),
    ])
}

fn main(rt: HostRuntime) -> io::Result<()> {
    report(&rt, "lent lists that join", joined(), 4)?;
    report(&rt, "lent lists with a power kept", kept(), 4)?;
    report(&rt, "refusal 9 of a lent list", none(), 4)?;
    report(&rt, "refusal 8 of a lent list", apart(), 4)?;
    report(&rt, "refusal 4 of a lent list", beyond(), 4)
}
