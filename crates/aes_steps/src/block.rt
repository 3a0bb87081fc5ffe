// One block through the whole cipher.
ghost use Rattle.std.specs.Prelude.{◌≡◌};
ghost use Rattle.aes_steps.specs.Schedule.{encrypt_by, decrypt_by};

use crate::cipher::Cipher;
use crate::sbox::SBox;

impl<'a, S: SBox> Cipher<'a, S> {
    // Both halves.
    pub fn encrypt_block(&self, block: [u8; 16]) -> [u8; 16]
        ensures { result ≡ encrypt_by self.now.keys.schedule.now block }
    {
        let middle = self.first_half(block);
        self.second_half(middle)
    }

    // The same undone.
    pub fn decrypt_block(&self, block: [u8; 16]) -> [u8; 16]
        ensures { result ≡ decrypt_by self.now.keys.schedule.now block }
    {
        let middle = self.inv_second_half(block);
        self.inv_first_half(middle)
    }
}
