// The script language of the conformance vectors: a command line read, the host that carries it out over the tables that the caller lends, and
// what its answer line shows. Every answer is a public call's own; no rule of the volume is written here a second time. The functions are proved to be safe
// and to end, no more: what they show is compared line by line with the vectors.
#![tactic(auto)]

use std::fmt;
use tables::Geometry;
use volume::{BadPlace, Reported, State, ZoneDescriptor};

pub mod calling;
pub mod checksum;
pub mod damaging;
pub mod forming;
pub mod hosting;
pub mod input;
pub mod listing;
pub mod parsing;
pub mod performing;
pub mod showing;
pub mod stream;

// A command line: its letter and its numbers (0 where there are fewer).
#[derive(Clone, Copy)]
pub struct Command {
    pub letter: u8,
    pub first: u64,
    pub second: u64,
    pub third: u64,
    pub fourth: u64,
    pub fifth: u64,
    pub sixth: u64,
}

// By how much the tables and the buffer are lent too short, for one command.
#[derive(Clone, Copy, Default)]
pub struct Shortage {
    pub sectors: usize,
    pub written: usize,
    pub durable: usize,
    pub buffer: usize,
}

// What the host keeps between commands: the geometry that it hands to the calls, the lengths of its shelf's tables, the state if there is one,
// the zones and drives that it speaks of, the zones' owners as numbers, of which a script may set one that there is not, and the shortage of the next command.
#[derive(Clone, Copy)]
pub struct Host {
    pub geometry: Geometry,
    pub bytes: usize,
    pub cells: usize,
    pub held: bool,
    pub zones: usize,
    pub drives: usize,
    pub state: State,
    pub owners: [u32; 16],
    pub shortage: Shortage,
}

// What a command leaves: the host, the answer's number, the state that the call handed back, and the bad place that it told.
#[derive(Clone, Copy)]
pub struct Reply {
    pub host: Host,
    pub code: u8,
    pub shown: State,
    pub place: BadPlace,
}

// What a read showed: the answer's number, and the checksum of the bytes read. A line shows the checksum, or the refusal.
#[derive(Clone, Copy)]
pub struct Glimpse {
    pub code: u8,
    pub sum: u64,
}

impl fmt::Display for Glimpse {
    fn fmt<W: fmt::Write>(&self, f: &mut fmt::Formatter<W>) -> fmt::Result {
        if self.code == 0 {
            write!(f, "{}", self.sum)
        } else {
            write!(f, "r{}", self.code)
        }
    }
}

// What a report leaves: its answer and number, and the list.
#[derive(Clone, Copy)]
pub struct Listed {
    pub reported: Reported,
    pub list: [ZoneDescriptor; 16],
}

// The two sums of a checksum.
#[derive(Clone, Copy)]
pub struct Sums {
    pub low: u64,
    pub high: u64,
}
