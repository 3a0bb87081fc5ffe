// The power of x that is kept from one join to the next (ticket P2).
ghost use Rattle.std.specs.Prelude.{◌≡◌, pos};
ghost use Rattle.blocks.specs.Words.{bytes_of};
ghost use Rattle.gf128.specs.Gf128.{power as power_of};
ghost use Rattle.mode.specs.Powers.{no_power, Keeps, worked_out, power_for};

use blocks::words::Words;

// x to the power of a count.
#[derive(Clone, Copy)]
pub struct Power {
    pub count: u32,
    pub power: Words,
}

// The last power of x that joining worked out, once there is one. `total` says how many were worked out.
#[derive(Clone, Copy)]
pub struct LastPower {
    pub kept: Option<Power>,
    pub total: u64,
}

impl LastPower {
    // Before the first join.
    pub fn none() -> LastPower
        ensures { result ≡ no_power }
    {
        LastPower {
            kept: None,
            total: 0,
        }
    }

    // x^count, worked out and counted, is kept in the place of the one before.
    fn work_out(self, count: u32) -> (Words, LastPower)
        requires { Keeps self }
        ensures power { bytes_of result.0 ≡ power_of (pos count) }
        ensures last { result.1 ≡ worked_out self count }
    {
        let power = gf128::power(count, false);
        let last = LastPower {
            kept: Some(Power { count, power }),
            total: self.total + 1,
        };
        (power, last)
    }

    // x^count, the one that is kept, where it has that count, or worked out; and what is kept then.
    pub fn for_count(self, count: u32) -> (Words, LastPower)
        requires { Keeps self }
        ensures power { bytes_of result.0 ≡ power_of (pos count) }
        ensures last { result.1 ≡ power_for self count }
    {
        match self.kept {
            Some(last) if last.count == count => (last.power, self),
            _ => self.work_out(count),
        }
    }
}
