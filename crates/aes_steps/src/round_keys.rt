// FIPS 197, 5.1.4: the round keys of a schedule.
ghost use Rattle.std.specs.Prelude.{◌≡◌, ◌/◌, ◌≤◌};
ghost use Rattle.fips197.specs.State.{add_round_key};
ghost use Rattle.fips197.specs.Cipher.{round_key};
ghost use Rattle.aes_steps.specs.Schedule.{rounds_in, round_keys_in, Schedule};

use crate::schedule::{BYTES, ROUNDS};

#[derive(Clone, Copy)]
pub struct RoundKeys<'a> {
    pub schedule: &'a [u8; BYTES],
    pub ghost fits: { Schedule schedule.now },
}

impl<'a> RoundKeys<'a> {
    // The number of rounds.
    pub(crate) fn last(&self) -> usize
        ensures { result ≡ rounds_in self.now.schedule.now }
    {
        self.schedule[ROUNDS] as usize
    }

    // The number of rounds in the first half.
    pub(crate) fn half(&self) -> usize
        ensures { result ≡ rounds_in self.now.schedule.now / 2 }
    {
        self.schedule[ROUNDS] as usize / 2
    }

    // Round key n added to a state.
    pub(crate) fn add(&self, s: [u8; 16], n: usize) -> [u8; 16]
        requires { n ≤ rounds_in self.now.schedule.now }
        ensures { result ≡ add_round_key s (round_key (round_keys_in self.now.schedule.now) n) }
    {
        let mut r = [0u8; 16];
        for i in 0..16 {
            r[i] = s[i] ^ self.schedule[n * 16 + i];
        }
        r
    }
}
