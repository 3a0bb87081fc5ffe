// The triples of a file, whose keys have `size` bytes.
use crate::agree::Triple;
use crate::lines::Lines;
use cipher::engine::Engine;

// How many triples agreed, by what was compared.
#[derive(Clone, Copy, Debug, PartialEq, Eq)]
pub struct Agreed {
    pub encrypted: usize,
    pub decrypted: usize,
    pub met: usize,
}

impl Agreed {
    // With one triple more.
    fn with(self, one: Triple) -> Agreed {
        Agreed {
            encrypted: self.encrypted.saturating_add(usize::from(one.encrypted)),
            decrypted: self.decrypted.saturating_add(usize::from(one.decrypted)),
            met: self.met.saturating_add(usize::from(one.met)),
        }
    }
}

// The lines of a text.
pub fn run(engine: Engine, text: &[u8], size: usize) -> Agreed {
    let mut agreed = Agreed {
        encrypted: 0,
        decrypted: 0,
        met: 0,
    };
    for line in (Lines { text, size }) {
        agreed = agreed.with(Triple::of(engine, line.key(), line.plain, line.cipher));
    }
    agreed
}
