// Bytes and numbers that look random and are the same in every run.
ghost use Rattle.std.specs.Prelude.{◌<◌};

// A generator: the state is added to itself, shifted, by exclusive or, three times. It starts from a number that is not 0.
#[derive(Clone, Copy, Debug, PartialEq, Eq)]
pub struct Random {
    state: u32,
}

impl Random {
    pub fn starting(state: u32) -> Random {
        Random { state }
    }

    // The generator of a seed, past the first numbers, which are close for seeds that are close.
    pub fn seeded(seed: u32) -> Random {
        let mut random = Random::starting(seed);
        random.fill(&mut [0u8; 16]);
        random
    }

    // The generator whose seed is this one's state.
    pub fn reseeded(&self) -> Random {
        Random::seeded(self.state)
    }

    pub fn step(&mut self) {
        self.state ^= self.state << 13;
        self.state ^= self.state >> 17;
        self.state ^= self.state << 5;
    }

    // A number below `n`.
    pub fn below(&self, n: usize) -> usize
        requires { 0 < n }
        ensures { result < n }
    {
        self.state as usize % n
    }

    fn byte(&mut self) -> u8 {
        self.step();
        (self.state >> 24) as u8
    }

    pub fn fill(&mut self, out: &mut [u8]) {
        for byte in out.iter_mut() {
            *byte = self.byte();
        }
    }
}

// Fills an output with bytes that no call writes there but by chance.
pub fn noise(out: &mut [u8]) {
    Random::starting(2463534242).fill(out);
}
