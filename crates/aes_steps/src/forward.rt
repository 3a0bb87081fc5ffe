// FIPS 197, 5.1: the rounds of the cipher, and its two halves.
ghost use Rattle.std.specs.Prelude.{◌≡◌, ◌+◌, ◌≤◌};
ghost use Rattle.std.proofs.Math.Seq.{slice};
ghost use Rattle.fips197.specs.Cipher.{rounds as rounds_of};
ghost use Rattle.aes_steps.specs.Schedule.{rounds_in, round_keys_in, first_half_by, second_half_by};

use crate::cipher::Cipher;
use crate::sbox::SBox;

impl<'a, S: SBox> Cipher<'a, S> {
    // A round with each key from `from` up to, not including, `to`.
    fn rounds(&self, s: [u8; 16], from: usize, to: usize) -> [u8; 16]
        requires from_le_to { from ≤ to }
        requires to_bound { to ≤ rounds_in self.now.keys.schedule.now + 1 }
        ensures { result ≡ rounds_of (slice from to (round_keys_in self.now.keys.schedule.now)) s }
    {
        // A copy, since what is behind `self` would be read again in each round.
        let keys = self.keys;
        let mut t = s;
        for i in from..to {
            let a = self.sbox.sub_shift(t);
            let b = crate::state::mix_columns(a);
            let u = keys.add(b, i);
            t = u;
        }
        t
    }

    // The key whitening and the first half of the rounds: 1 to 5 of ten, 1 to 7 of fourteen.
    pub fn first_half(&self, s: [u8; 16]) -> [u8; 16]
        ensures { result ≡ first_half_by self.now.keys.schedule.now s }
    {
        let half = self.keys.half();
        let t = self.keys.add(s, 0);
        self.rounds(t, 1, half + 1)
    }

    // The other half: rounds 6 to 10, or 8 to 14. The last mixes no columns.
    pub fn second_half(&self, s: [u8; 16]) -> [u8; 16]
        ensures { result ≡ second_half_by self.now.keys.schedule.now s }
    {
        let half = self.keys.half();
        let last = self.keys.last();
        let t = self.rounds(s, half + 1, last);
        let u = self.sbox.sub_shift(t);
        self.keys.add(u, last)
    }
}
