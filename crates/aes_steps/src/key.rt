// FIPS 197, 5.2: the key schedule, for a key of four words or of eight.
ghost use Rattle.std.specs.Prelude.{◌≡◌};
ghost use Rattle.fips197.specs.KeyExpansion.{temp};
ghost use Rattle.fips197.specs.Aes.{KeyLength};
ghost use Rattle.aes_steps.specs.Schedule.{schedule_of};
ghost use Rattle.aes_steps.specs.Words.{KeyWords};

use crate::sbox::SBox;

// The word before word i, as it goes into word i. Under four words and under eight, the S-box is at work in every fourth.
fn temp_word<S: SBox>(t: [u8; 4], i: usize, nk: usize, sbox: &S) -> [u8; 4]
    requires { KeyWords nk i }
    ensures { result ≡ temp nk t i }
{
    if i % 4 == 0 {
        let s = sbox.sub_word(t);
        crate::schedule::after_sub(s, i, nk)
    } else {
        t
    }
}

// Every word but the key's is the word nk before it and the word before it, as that goes into it.
pub fn expand<S: SBox>(key: &[u8], sbox: &S) -> [u8; crate::schedule::BYTES]
    requires { KeyLength key.now }
    ensures { result ≡ schedule_of key.now }
{
    let nk = key.len() / 4;
    let end = 4 * (nk + 7);
    let mut w = crate::schedule::first_words(key);
    for i in nk..end {
        let t = crate::schedule::word_at(&w, i - 1);
        let u = temp_word(t, i, nk, sbox);
        crate::schedule::next_word(&mut w, i, nk, u);
    }
    w
}
