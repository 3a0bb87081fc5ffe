// Why a call refuses (document 01's table, with the tickets' rows); and why the functions for C do, whose run records are bytes.
ghost use Rattle.std.specs.Prelude.{◌≡◌};
ghost use Rattle.mode.specs.Refusals.{number_of};

use std::fmt;

#[derive(Clone, Copy, Debug, PartialEq, Eq)]
pub enum Refusal {
    KeyLength,
    IvLength,
    Length,
    BeyondLimit,
    OutputTooShort,
    TagDiffers,
    Padding,
    NotNeighbours,
    NotWhole,
    ZeroMask,
    RecordLength,
}

impl Refusal {
    // Document 01's number; 24 of a record's length.
    pub fn number(self) -> u8
        ensures { result ≡ number_of self }
    {
        match self {
            Refusal::KeyLength => 1,
            Refusal::IvLength => 2,
            Refusal::Length => 3,
            Refusal::BeyondLimit => 4,
            Refusal::OutputTooShort => 5,
            Refusal::TagDiffers => 6,
            Refusal::Padding => 7,
            Refusal::NotNeighbours => 8,
            Refusal::NotWhole => 9,
            Refusal::ZeroMask => 10,
            Refusal::RecordLength => 24,
        }
    }
}

impl fmt::Display for Refusal {
    fn fmt<W: fmt::Write>(&self, f: &mut fmt::Formatter<W>) -> fmt::Result {
        f.write_str(match self {
            Refusal::KeyLength => "the key is neither 16 nor 32 bytes",
            Refusal::IvLength => "the IV is not 16 bytes",
            Refusal::Length => "the bytes handed in have a length that no such thing has",
            Refusal::BeyondLimit => "the blocks reach beyond the limit",
            Refusal::OutputTooShort => "the output is shorter than the answer",
            Refusal::TagDiffers => "the tag differs",
            Refusal::Padding => "the last block is not padded",
            Refusal::NotNeighbours => "two records in turn are not neighbours",
            Refusal::NotWhole => "the record is not one of a whole message, or there is none",
            Refusal::ZeroMask => "the start mask is zero",
            Refusal::RecordLength => "a run record is not 24 bytes",
        })
    }
}

impl std::error::Error for Refusal {}
