// FIPS 197, 5: the cipher under a key schedule, by the S-box of an engine.
ghost use Rattle.std.specs.Prelude.{◌≡◌};
ghost use Rattle.aes_steps.specs.Schedule.{Schedule};

use crate::round_keys::RoundKeys;

#[derive(Drop)]
pub struct Cipher<'a, S> {
    pub keys: RoundKeys<'a>,
    pub sbox: S,
}

impl<'a, S> Cipher<'a, S> {
    // The cipher under a schedule that an engine takes.
    pub fn new(schedule: &'a [u8; crate::schedule::BYTES], sbox: S) -> Self
        requires { Schedule schedule.now }
        ensures { result.keys.schedule.now ≡ schedule.now }
    {
        Cipher {
            keys: RoundKeys { schedule },
            sbox,
        }
    }
}
