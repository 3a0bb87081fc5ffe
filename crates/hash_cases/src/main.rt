#![tactic(auto)]
// The hash finish (ticket P4), run against the proved library. Each line says how many cases of a group agreed.
use case_records::keyed::Keyed;
use case_table::{Keys, Table};
use case_text::{paper, report};
use case_tools::reference;
use mode::finish::Finish;
use std::io;

mod made; // made.rt: a record of the mode's paper and one made by hand
mod other; // other.rt: the other finish's records and tags
mod damage; // damage.rt: a record with each bit flipped

fn report_made(rt: &impl Print, short: Keyed, long: Keyed) -> io::Result<()> {
    report(rt, "paper, first vector", made::first_vector(short), 4)?;
    report(rt, "reference tags", made::reference_tags(short, long), 6)
}

fn report_others(rt: &impl Print, keyed: Keyed) -> io::Result<()> {
    report(rt, "the other finish, records", other::records(keyed), 4)?;
    report(rt, "the other finish, tags", other::tags(keyed), 4)
}

fn report_damage(rt: &impl Print) -> io::Result<()> {
    report(rt, "damage, the record itself", damage::undamaged(), 1)?;
    report(rt, "damage, each bit, opened", damage::opened(), 416)?;
    report(
        rt,
        "damage, each bit of the tag, tested",
        damage::tested(),
        160,
    )
}

// A table of the hash finish.
fn table(keys: Keys) -> Table {
    Table {
        finish: Finish::Sha1,
        keys,
    }
}

fn main(rt: HostRuntime) -> io::Result<()> {
    let iv = &paper::iv();
    let short = Keyed {
        key: &paper::key(),
        iv,
    };
    let long = Keyed {
        key: &paper::long_key(),
        iv,
    };
    report_made(&rt, short, long)?;
    reference::run_file(&rt, Finish::Sha1, "sealed.txt", 64)?;
    table(Keys::Paper).run(&rt, "lengths.txt")?;
    report_others(&rt, short)?;
    table(Keys::Zero).run(&rt, "zero_mask.txt")?;
    report_damage(&rt)
}
