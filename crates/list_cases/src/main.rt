#![tactic(auto)]
// Lists of run records, joined one by one as the join of a lent list does it: lists that join, and the table's rows for a list; and masks
// and pre-authenticators in words. Each line says how many cases of a group agreed.
use case_records::answer::{record, run};
use case_text::hex::block;
use case_text::{agreed, report};
use mode::{KeptAnswer, Refusal, RunRecord};
use std::io;

mod words; // words.rt: two words for sixteen bytes

// A list joined, by the step of which the join of a list is the fold.
fn list(records: &[RunRecord]) -> KeptAnswer {
    let mut so_far = record_list::start();
    for next in records {
        so_far = record_list::onto(so_far, *next);
    }
    so_far
}

// So many powers of x were worked out for a list.
fn takes(records: &[RunRecord], powers: u64) -> bool {
    list(records).last.total == powers
}

// ---- the groups

// One record, two, the other two, all three, and all three with the last two joined before. The values are those of
// vectors/make-mode-vectors.
fn joined() -> usize {
    let a = run(0, 1, 1);
    let b = run(1, 2, 2);
    let c = run(3, 1048573, 3);
    let ab = record(0, 3, block(b"06060606060606060606060606060606"));
    let bc = record(1, 1048575, block(b"B1058668124379F209EB4EE46C84559B"));
    let abc = record(0, 1048576, block(b"D5088CBE30C38C101C3BD52AB38AF82C"));
    agreed(&[
        list(&[a]).answer == Ok(a),
        list(&[a, b]).answer == Ok(ab),
        list(&[b, c]).answer == Ok(bc),
        list(&[a, b, c]).answer == Ok(abc),
        list(&[a, bc]).answer == Ok(abc),
    ])
}

// Empty runs: at the limit, alone and behind a full list; before a run and behind it.
fn empty_runs() -> usize {
    let at_limit = run(1048576, 0, 0);
    let full = run(0, 1048576, 7);
    let short = run(5, 3, 9);
    agreed(&[
        list(&[at_limit]).answer == Ok(at_limit),
        list(&[full, at_limit]).answer == Ok(full),
        list(&[run(5, 0, 0), short]).answer == Ok(short),
        list(&[short, run(8, 0, 0)]).answer == Ok(short),
    ])
}

// 8: of a pair, a gap, an overlap, the wrong order; a gap behind a good pair; a gap before a record that adjoins the one behind the gap, and
// before one that starts at block 0, as a blank record does.
fn apart() -> usize {
    agreed(&[
        list(&[run(0, 1, 1), run(2, 1, 2)]).answer == Err(Refusal::NotNeighbours),
        list(&[run(0, 2, 1), run(1, 2, 2)]).answer == Err(Refusal::NotNeighbours),
        list(&[run(1, 1, 1), run(0, 1, 2)]).answer == Err(Refusal::NotNeighbours),
        list(&[run(0, 1, 1), run(1, 1, 2), run(3, 1, 3)]).answer == Err(Refusal::NotNeighbours),
        list(&[run(0, 1, 1), run(2, 1, 2), run(3, 1, 3)]).answer == Err(Refusal::NotNeighbours),
        list(&[run(0, 1, 1), run(2, 1, 2), run(0, 1, 3)]).answer == Err(Refusal::NotNeighbours),
    ])
}

// 4: alone; an empty run at 1,048,577; behind a gap, which 4 beats; numbers whose sum leaves 32 bits.
fn beyond() -> usize {
    agreed(&[
        list(&[run(1, 1048576, 1)]).answer == Err(Refusal::BeyondLimit),
        list(&[run(1048577, 0, 1)]).answer == Err(Refusal::BeyondLimit),
        list(&[run(0, 1, 1), run(5, 1, 2), run(1048576, 1, 3)]).answer == Err(Refusal::BeyondLimit),
        list(&[run(0, 1, 1), run(4294967295, 1, 2)]).answer == Err(Refusal::BeyondLimit),
    ])
}

// 4 stands, whatever follows: a record that adjoins none; one that starts at block 0, as a blank record does; one that adjoins the
// record before the one beyond the limit; one that is beyond the limit itself.
fn beyond_before() -> usize {
    agreed(&[
        list(&[run(1, 1048576, 1), run(5, 1, 2)]).answer == Err(Refusal::BeyondLimit),
        list(&[run(1, 1048576, 1), run(0, 1, 2)]).answer == Err(Refusal::BeyondLimit),
        list(&[run(0, 1, 1), run(1048576, 1, 2), run(1, 1, 3)]).answer == Err(Refusal::BeyondLimit),
        list(&[run(0, 1, 1), run(1048576, 1, 2), run(1048577, 0, 3)]).answer
            == Err(Refusal::BeyondLimit),
    ])
}

// A power that is used again: right records of one count, of one count behind another, of two counts in turn, and behind one of no block.
// The values are those of vectors/make-mode-vectors.
fn kept() -> usize {
    let equal = record(0, 1048576, block(b"C0FF01FD1588153AA0BFCC82332F4D54"));
    let behind = record(0, 10, block(b"9E9E9E9E9E9E9E9E9E9E9E9E9E9E9F92"));
    let in_turn = record(0, 3000, block(b"8D533AD7CA5E040482838F8F9E430842"));
    let empty = record(0, 11, block(b"DCDCDCDCDCDCDCDCDCDCDCDCDCDCDCDC"));
    agreed(&[
        list(&[
            run(0, 262144, 1),
            run(262144, 262144, 2),
            run(524288, 262144, 3),
            run(786432, 262144, 4),
        ])
        .answer
            == Ok(equal),
        list(&[run(0, 1, 1), run(1, 3, 2), run(4, 3, 3), run(7, 3, 4)]).answer == Ok(behind),
        list(&[
            run(0, 1000, 1),
            run(1000, 500, 2),
            run(1500, 1000, 3),
            run(2500, 500, 4),
        ])
        .answer
            == Ok(in_turn),
        list(&[run(0, 5, 1), run(5, 0, 2), run(5, 3, 3), run(8, 3, 4)]).answer == Ok(empty),
    ])
}

// Powers of x worked out, as ticket P2 counts them: a list of one; one right record, and one of no block; two right records of equal counts,
// and two of no block.
fn powers() -> usize {
    agreed(&[
        takes(&[run(0, 3, 1)], 0),
        takes(&[run(0, 3, 1), run(3, 3, 2)], 1),
        takes(&[run(0, 3, 1), run(3, 0, 2)], 1),
        takes(&[run(0, 3, 1), run(3, 2, 2), run(5, 2, 3)], 1),
        takes(&[run(0, 3, 1), run(3, 0, 2), run(3, 0, 3)], 1),
    ])
}

// The second right record has another count; the third one that count too, or the first one's again; a right record of no block behind
// another, and before others.
fn powers_anew() -> usize {
    agreed(&[
        takes(&[run(0, 3, 1), run(3, 3, 2), run(6, 2, 3)], 2),
        takes(&[run(0, 1, 1), run(1, 2, 2), run(3, 1, 3), run(4, 1, 4)], 2),
        takes(&[run(0, 1, 1), run(1, 2, 2), run(3, 1, 3), run(4, 2, 4)], 3),
        takes(&[run(0, 1, 1), run(1, 1, 2), run(2, 0, 3)], 2),
        takes(&[run(0, 1, 1), run(1, 0, 2), run(1, 2, 3), run(3, 2, 4)], 2),
    ])
}

// Of a list that is refused, those of the records joined before: a gap behind the first record, and behind the second; records behind a
// gap; a record beyond the limit behind the second, and the first one.
fn powers_refused() -> usize {
    agreed(&[
        takes(&[run(0, 1, 1), run(2, 1, 2)], 0),
        takes(&[run(0, 1, 1), run(1, 1, 2), run(3, 2, 3)], 1),
        takes(&[run(0, 1, 1), run(2, 1, 2), run(3, 2, 3), run(5, 1, 4)], 0),
        takes(
            &[run(0, 1, 1), run(1, 1, 2), run(1048576, 1, 3), run(2, 2, 4)],
            1,
        ),
        takes(&[run(1048576, 1, 1), run(0, 1, 2), run(1, 1, 3)], 0),
    ])
}

fn main(rt: HostRuntime) -> io::Result<()> {
    report(&rt, "lists that join", joined(), 5)?;
    report(&rt, "lists with empty runs", empty_runs(), 4)?;
    report(&rt, "refusal 8 of a list", apart(), 6)?;
    report(&rt, "refusal 4 of a list", beyond(), 4)?;
    report(&rt, "refusal 4 of an earlier record", beyond_before(), 4)?;
    report(&rt, "lists with a power kept", kept(), 4)?;
    report(&rt, "powers for right records of one count", powers(), 5)?;
    report(
        &rt,
        "powers for right records of several counts",
        powers_anew(),
        5,
    )?;
    report(
        &rt,
        "powers for a list that is refused",
        powers_refused(),
        5,
    )?;
    report(&rt, "bytes and words", words::forms(), 4)?;
    report(&rt, "masks in words", words::masks(), 4)?;
    report(&rt, "jumps of 1 in words", words::jumps_of_one(), 5)?;
    report(&rt, "records in words", words::records(), 4)
}
