// FIPS 197, 5.1, 5.2 and 5.3: the S-box and its inverse looked up.
ghost use Rattle.std.specs.Prelude.{◌≡◌};

use aes_steps::sbox::SBox;

// The two tables.
#[derive(Clone, Copy)]
pub struct Tables;

impl SBox for Tables {
    fn sub_shift(&self, s: [u8; 16]) -> [u8; 16] {
        let sbox = &crate::sbox::SBOX;
        let mut r = [0u8; 16];
        for i in 0..16 {
            r[i] = sbox[s[(i + i % 4 * 4) % 16] as usize];
        }
        r
    }

    fn inv_shift_sub(&self, s: [u8; 16]) -> [u8; 16] {
        let inv_sbox = &crate::inv_sbox::INV_SBOX;
        let mut r = [0u8; 16];
        for i in 0..16 {
            r[i] = inv_sbox[s[(i + 16 - i % 4 * 4) % 16] as usize];
        }
        r
    }

    fn sub_word(&self, t: [u8; 4]) -> [u8; 4] {
        let sbox = &crate::sbox::SBOX;
        [
            sbox[t[0] as usize],
            sbox[t[1] as usize],
            sbox[t[2] as usize],
            sbox[t[3] as usize],
        ]
    }
}
