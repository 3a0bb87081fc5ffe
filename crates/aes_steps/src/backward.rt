// FIPS 197, 5.3: the rounds undone, and the two halves run backwards.
ghost use Rattle.std.specs.Prelude.{◌≡◌, ◌+◌, ◌≤◌};
ghost use Rattle.std.proofs.Math.Seq.{slice};
ghost use Rattle.fips197.specs.Cipher.{inv_rounds};
ghost use Rattle.aes_steps.specs.Schedule.{rounds_in, round_keys_in, inv_first_half_by, inv_second_half_by};

use crate::cipher::Cipher;
use crate::sbox::SBox;

impl<'a, S: SBox> Cipher<'a, S> {
    // The rounds with the keys from `from` up to, not including, `to`, undone: the last one first.
    fn inv_rounds(&self, s: [u8; 16], from: usize, to: usize) -> [u8; 16]
        requires from_le_to { from ≤ to }
        requires to_bound { to ≤ rounds_in self.now.keys.schedule.now + 1 }
        ensures { result ≡ inv_rounds (slice from to (round_keys_in self.now.keys.schedule.now)) s }
    {
        // A copy, since what is behind `self` would be read again in each round.
        let keys = self.keys;
        let mut t = s;
        for i in (from..to).rev() {
            let a = keys.add(t, i);
            let b = crate::state::inv_mix_columns(a);
            let u = self.sbox.inv_shift_sub(b);
            t = u;
        }
        t
    }

    // The first half of the rounds and the key whitening, undone.
    pub fn inv_first_half(&self, s: [u8; 16]) -> [u8; 16]
        ensures { result ≡ inv_first_half_by self.now.keys.schedule.now s }
    {
        let half = self.keys.half();
        let t = self.inv_rounds(s, 1, half + 1);
        self.keys.add(t, 0)
    }

    // The other half undone, the last round first.
    pub fn inv_second_half(&self, s: [u8; 16]) -> [u8; 16]
        ensures { result ≡ inv_second_half_by self.now.keys.schedule.now s }
    {
        let half = self.keys.half();
        let last = self.keys.last();
        let t = self.keys.add(s, last);
        let u = self.sbox.inv_shift_sub(t);
        self.inv_rounds(u, half + 1, last)
    }
}
