// A key and an IV, and the calls that take both.
use crate::answer::written;
use case_text::random::noise;
use mode::finish::{Finish, LONGEST_TAG};
use mode::{Refusal, RunRecord, SealedRun};

#[derive(Clone, Copy, Debug)]
pub struct Keyed<'a> {
    pub key: &'a [u8],
    pub iv: &'a [u8],
}

impl Keyed<'_> {
    // What these three write goes into an output that held noise.

    pub fn seal(&self, finish: Finish, message: &[u8], out: &mut [u8]) -> Result<usize, Refusal> {
        noise(out);
        calls::seal::seal(finish, self.key, self.iv, message, out)
    }

    pub fn seal_run(
        &self,
        first: u32,
        last: bool,
        text: &[u8],
        out: &mut [u8],
    ) -> Result<SealedRun, Refusal> {
        noise(out);
        calls::run::seal_run(self.key, self.iv, first, last, text, out)
    }

    // The record of a run, sealed. Where its ciphertext is not of this length, with zeros behind it, there is none.
    pub fn record_sealed(
        &self,
        first: u32,
        last: bool,
        text: &[u8],
        length: usize,
        out: &mut [u8],
    ) -> Option<RunRecord> {
        let sealed = self.seal_run(first, last, text, out).ok()?;
        if written(Ok(sealed.length), Ok(()), length, out) {
            Some(sealed.run)
        } else {
            None
        }
    }

    pub fn check_run(&self, first: u32, text: &[u8]) -> Result<RunRecord, Refusal> {
        calls::run::check_run(self.key, self.iv, first, text)
    }

    pub fn close(&self, finish: Finish, run: RunRecord) -> Result<[u8; LONGEST_TAG], Refusal> {
        tags::record::close(finish, self.key, self.iv, run)
    }

    pub fn test(&self, finish: Finish, run: RunRecord, tag: &[u8]) -> Result<(), Refusal> {
        tags::record::test(finish, self.key, self.iv, run, tag)
    }
}
