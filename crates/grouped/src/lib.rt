// Segments with grouped stripes (ZapRAID's layout): a read of one block by its address, from lent blocks and a lent table of their metadata. A stripe has
// one block on each drive, anywhere in its group; the metadata tell which. The read looks at every block's metadata: it notes in the work table where each
// stripe's blocks lie (refusal 23), puts the data blocks into a heap there, from which those that are alike come one after the other (24), and seeks the
// address (13). A missing drive's memory is never read: what it held is the exclusive or of its stripe's other blocks.
#![tactic(auto)]

ghost use Rattle.std.specs.Prelude.{◌≡◌};
ghost use Rattle.grouped.specs.meaning.RefusalNumbers.{refusal_number};

pub mod checks;
pub mod heap;
pub mod keys;
pub mod places;
pub mod reading;

// The numbers of a segment: D, B, G and the blocks of each drive, N. There are as many stripes as a drive has blocks.
#[derive(Clone, Copy)]
pub struct Segment {
    pub drives: usize,
    pub block: usize,
    pub group: usize,
    pub blocks: usize,
}

// Why a read is refused.
#[derive(Clone, Copy, Debug, PartialEq, Eq)]
pub enum Refusal {
    Segment,
    Length,
    TwoMissing,
    Unwritten,
    StripeLacks,
    Alike,
}

impl Refusal {
    // The documents' number.
    pub fn number(self) -> u32
        ensures { result ≡ refusal_number self }
    {
        match self {
            Refusal::Segment => 1,
            Refusal::Length => 2,
            Refusal::TwoMissing => 4,
            Refusal::Unwritten => 13,
            Refusal::StripeLacks => 23,
            Refusal::Alike => 24,
        }
    }
}

// What a block's metadata say of it, but for its stripe.
#[derive(Clone, Copy)]
pub struct Key {
    pub address: u64,
    pub timestamp: u64,
}
