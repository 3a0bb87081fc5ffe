// Blocks cut into runs at random places, in a random order, and their records joined two at a time in a random order.
ghost use Rattle.std.specs.Prelude.{◌<◌, ◌≤◌};

use case_records::answer::record;
use case_records::keyed::Keyed;
use case_text::random::Random;
use mode::RunRecord;

// The most runs.
const MOST: usize = 8;

// Runs 0 to `runs` - 1. Run i starts at block `starts[i]`, none before the one in front of it; the last run goes to the end. Runs may be empty. They
// are worked in the order `order[0]`, `order[1]`, .., and joined as `random` says.
#[derive(Clone, Copy)]
pub struct Cut {
    runs: usize,
    starts: [usize; MOST],
    order: [usize; MOST],
    random: Random,
}

// ---- making a cut

fn starts(mut random: Random, count: usize) -> [usize; MOST] {
    let mut starts = [0usize; MOST];
    let mut at: usize = 0;
    for start in &mut starts[1..] {
        random.step();
        at += random.below((count - at) / 2 + 1);
        *start = at;
    }
    starts
}

// The numbers below `runs`, each once, shuffled.
fn order(mut random: Random, runs: usize) -> [usize; MOST]
    requires { runs ≤ 8 }
{
    let mut order = [0, 1, 2, 3, 4, 5, 6, 7];
    for i in 1..runs {
        random.step();
        order.swap(i, random.below(i + 1));
    }
    order
}

// ---- one run

// The bytes of a run: text from `from` to `to`, and room for it to `stop`.
#[derive(Clone, Copy, Debug)]
pub struct Span {
    first: u32,
    last: bool,
    from: usize,
    to: usize,
    stop: usize,
}

impl Span {
    // Seals the run into its own part of an output, which it fills. Where the answer is not as it should be there is no record.
    pub fn seal(self, keyed: Keyed, message: &[u8], out: &mut [u8]) -> Option<RunRecord> {
        let text = message.get(self.from..self.to)?;
        let lent = out.get_mut(self.from..self.stop)?;
        keyed.record_sealed(self.first, self.last, text, lent.len(), lent)
    }

    // Checks the run of ciphertext.
    pub fn check(self, keyed: Keyed, text: &[u8]) -> Option<RunRecord> {
        keyed
            .check_run(self.first, text.get(self.from..self.to)?)
            .ok()
    }
}

// ---- all runs

// Neighbours are joined until one record is left.
fn join_all(mut random: Random, mut records: [RunRecord; MOST], runs: usize) -> Option<RunRecord>
    requires { runs ≤ 8 }
{
    for last in (1..runs).rev() {
        random.step();
        let i = random.below(last);
        records[i] = records[i].join(records[i + 1]).ok()?;
        records.copy_within(i + 2.., i + 1);
    }
    records.first().copied()
}

impl Cut {
    // A cut of `count` blocks into 1 to 8 runs.
    pub fn of(seed: u32, count: usize) -> Cut {
        let random = Random::seeded(seed);
        let runs = random.below(MOST) + 1;
        let other = random.reseeded();
        Cut {
            runs,
            starts: starts(random, count),
            order: order(other, runs),
            random: other.reseeded(),
        }
    }

    // Run i of a text. The last run has what is left and, where it is padded, a block more than whole blocks.
    fn span(&self, i: usize, text: &[u8], padded: bool) -> Option<Span> {
        let (first, rest) = self.starts.get(i..self.runs)?.split_first()?;
        let from = first.checked_mul(16)?;
        let (to, stop) = match rest.first() {
            Some(next) => (next.checked_mul(16)?, next.checked_mul(16)?),
            None if padded => (text.len(), text.len() / 16 * 16 + 16),
            None => (text.len(), text.len()),
        };
        Some(Span {
            first: u32::try_from(*first).ok()?,
            last: padded && rest.is_empty(),
            from,
            to,
            stop,
        })
    }

    // The record of all runs of a text, each worked in its turn. Where one has no record there is none.
    pub fn work<F: FnMut(Span) -> Option<RunRecord>>(
        self,
        text: &[u8],
        padded: bool,
        mut work: F,
    ) -> Option<RunRecord>
        requires { F.IsAlwaysCallable work }
    {
        let mut records = [record(0, 0, [0u8; 16]); MOST];
        for i in self.order.get(..self.runs)? {
            let run = work(self.span(*i, text, padded)?)?;
            *records.get_mut(*i)? = run;
        }
        join_all(self.random, records, self.runs)
    }
}
