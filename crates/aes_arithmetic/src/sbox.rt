// FIPS 197, 5.1.1, 5.2 and 5.3.2: the S-box at each byte, and its inverse.
ghost use Rattle.std.specs.Prelude.{◌≡◌};
ghost use Rattle.fips197.specs.State.{sub_bytes, inv_sub_bytes};

use aes_steps::sbox::SBox;

// The inverse, then the affine step.
pub fn sub_bytes(s: [u8; 16]) -> [u8; 16]
    ensures { result ≡ sub_bytes s }
{
    let t = crate::field::inverses(s);
    crate::affine::affines(t)
}

// The affine step undone, then the inverse.
pub fn inv_sub_bytes(s: [u8; 16]) -> [u8; 16]
    ensures { result ≡ inv_sub_bytes s }
{
    let t = crate::affine::inv_affines(s);
    crate::field::inverses(t)
}

// The S-box worked out.
#[derive(Clone, Copy)]
pub struct Arithmetic;

impl SBox for Arithmetic {
    fn sub_shift(&self, s: [u8; 16]) -> [u8; 16] {
        let t = sub_bytes(s);
        aes_steps::state::shift_rows(t)
    }

    fn inv_shift_sub(&self, s: [u8; 16]) -> [u8; 16] {
        let t = aes_steps::state::inv_shift_rows(s);
        inv_sub_bytes(t)
    }

    // A word is the front of a state.
    fn sub_word(&self, t: [u8; 4]) -> [u8; 4] {
        let s = sub_bytes([t[0], t[1], t[2], t[3], 0, 0, 0, 0, 0, 0, 0, 0, 0, 0, 0, 0]);
        [s[0], s[1], s[2], s[3]]
    }
}
