// FIPS 197, 5.1.1, 5.2 and 5.3.2: the steps that have the S-box in them. How an engine does them makes it the engine that it is; all else of the
// cipher is here, once for every engine.
ghost use Rattle.std.specs.Prelude.{◌≡◌};
ghost use Rattle.fips197.specs.State.{sub_bytes, inv_sub_bytes, shift_rows, inv_shift_rows};
ghost use Rattle.fips197.specs.KeyExpansion.{sub_word};

pub trait SBox {
    // SubBytes and ShiftRows at once.
    fn sub_shift(&self, s: [u8; 16]) -> [u8; 16]
        ensures { result ≡ shift_rows (sub_bytes s) };

    // InvShiftRows and InvSubBytes at once.
    fn inv_shift_sub(&self, s: [u8; 16]) -> [u8; 16]
        ensures { result ≡ inv_sub_bytes (inv_shift_rows s) };

    // The S-box at each byte of a word.
    fn sub_word(&self, t: [u8; 4]) -> [u8; 4]
        ensures { result ≡ sub_word t };
}
