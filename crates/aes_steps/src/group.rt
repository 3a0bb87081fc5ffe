// A group of blocks through the cipher, one half over all its blocks before the other begins: the rounds of one block wait for each other, those
// of two blocks do not. The cipher takes bytes, so blocks lie in bytes between the halves. Where the second half is undone they come out of
// their words one at a time: those rounds are compiled into work on single bytes, which words give as they are.
ghost use Rattle.std.specs.Prelude.{◌≡◌, ◌*◌, ◌≤◌, length};
ghost use Rattle.groups.specs.Group.{block_at, Holds};
ghost use Rattle.aes_steps.specs.Schedule.{first_half_by, second_half_by, inv_first_half_by, inv_second_half_by};
ghost use Rattle.aes_steps.specs.Each.{EachBlock};

use crate::cipher::Cipher;
use crate::sbox::SBox;
use blocks::words::Words;

// The n blocks in front of a slice go through a step.
fn each<F: Fn([u8; 16]) -> [u8; 16]>(step: F, text: &mut [u8], n: usize)
    requires callable { F.IsAlwaysCallable step }
    requires n_in_bounds { n * 16 ≤ length text.old }
    ensures { EachBlock (F.post step) n text.old text.new }
{
    for i in 0..n {
        let block = blocks::block::load(text, i * 16);
        let after = step(block);
        blocks::block::store(text, i * 16, after);
    }
}

// ---- forwards

impl<'a, S: SBox> Cipher<'a, S> {
    // n blocks of a group through both halves. `middle` gets what the first gives.
    pub fn encrypt(
        &self,
        group: &mut [u64; groups::WORDS],
        middle: &mut [u64; groups::WORDS],
        n: usize,
    )
        requires { n ≤ 32 }
        ensures middle { Holds n (λ i. first_half_by self.now.keys.schedule.now (block_at group.old i)) middle.new }
        ensures group { Holds n (λ i. second_half_by self.now.keys.schedule.now (first_half_by self.now.keys.schedule.now (block_at group.old i))) group.new }
    {
        let first_half = |block: [u8; 16]| -> [u8; 16]
            ensures { result ≡ first_half_by self.entry.now.keys.schedule.now block }
        { self.first_half(block) };
        let second_half = |block: [u8; 16]| -> [u8; 16]
            ensures { result ≡ second_half_by self.entry.now.keys.schedule.now block }
        { self.second_half(block) };
        let mut text = [0u8; 512];
        groups::store(group, n, &mut text);
        each(first_half, &mut text, n);
        groups::load(&text, n, middle);
        each(second_half, &mut text, n);
        groups::load(&text, n, group);
    }
}

// ---- backwards

impl<'a, S: SBox> Cipher<'a, S> {
    // n blocks of a group with both halves undone. `middle` gets what the second leaves.
    pub fn decrypt(
        &self,
        group: &mut [u64; groups::WORDS],
        middle: &mut [u64; groups::WORDS],
        n: usize,
    )
        requires { n ≤ 32 }
        ensures middle { Holds n (λ i. inv_second_half_by self.now.keys.schedule.now (block_at group.old i)) middle.new }
        ensures group { Holds n (λ i. inv_first_half_by self.now.keys.schedule.now (inv_second_half_by self.now.keys.schedule.now (block_at group.old i))) group.new }
    {
        let inv_first_half = |block: [u8; 16]| -> [u8; 16]
            ensures { result ≡ inv_first_half_by self.entry.now.keys.schedule.now block }
        { self.inv_first_half(block) };
        let mut text = [0u8; 512];
        groups::copy(group, n, middle);
        self.middletexts(middle, n);
        groups::store(middle, n, &mut text);
        each(inv_first_half, &mut text, n);
        groups::load(&text, n, group);
    }

    // n blocks of a group with the second half undone: the middletexts of ciphertext.
    pub fn middletexts(&self, group: &mut [u64; groups::WORDS], n: usize)
        requires { n ≤ 32 }
        ensures { Holds n (λ i. inv_second_half_by self.now.keys.schedule.now (block_at group.old i)) group.new }
    {
        for i in 0..n {
            let w = groups::get(group, i);
            let block = <[u8; 16]>::from(w);
            let middle = self.inv_second_half(block);
            let m = Words::from(middle);
            groups::put(group, i, m);
        }
    }
}
