// The logs of a drive: entries of six types, one sector for each header, laid one after the other from the start of a physical zone.
// `headers` writes a header, `judging` tells what a sector holds, `walking` steps through a log and finds where its legal part ends, with a
// `reader` laid over its zone, `asking` carries a value through a log, and `folds` asks what the volume wants to know of it. Which physical
// zone holds a log is told to each function of the lent sectors.
#![tactic(auto)]

pub mod asking;
pub mod folds;
pub mod headers;
pub mod judging;
pub mod reader;
pub mod walking;

// The physical zones of the two logs on each drive (specs: `general_zone`, `parity_zone`).
pub const GENERAL_LOG: usize = 0;

pub const PARITY_LOG: usize = 1;

// The ASCII mark "ZRV" with which each header begins.
pub const MARK: [u8; 3] = [90, 82, 86];

// The version that follows type and mark.
pub const VERSION: u8 = 1;

// The greatest generation: a zone that has it is worn (specs: `worn_generation`).
pub const WORN_GENERATION: u64 = 18446744073709551615;

// A log: its drive, the physical zone that holds it, and that zone's written pointer.
#[derive(Clone, Copy)]
pub struct Log {
    pub drive: usize,
    pub zone: usize,
    pub written: usize,
}

// What a sector of a log holds (specs: `found`): nothing legal, or the header of an entry of type 1 to 6. Counters stay in the sector.
#[derive(Clone, Copy)]
pub enum Found {
    Bad,
    // the lost drive or 255, the array number
    Label(usize, u64),
    Counters,
    // zone, generation
    Resets(usize, u64),
    // zone, stripe, sectors of the stripe below its end, generation
    Partial(usize, usize, usize, u64),
    // zone, pointer, generation
    Seal(usize, usize, u64),
    // the log's generation
    Closing(u64),
}

// Why a sector where an entry should begin is none (specs: `fault_of`, `in_zone`; `fault_number` gives each case's number).
#[derive(Clone, Copy)]
pub enum Fault {
    // no mark, or another version
    NoMark,
    // mark and version are right, the entry is not legal
    NotLegal,
    // a legal header whose rows would pass the zone's end
    RowsPast,
}

// Where a log's legal part ends, and why (specs: `walk_end_of`). Each case holds the first sector that belongs to no whole entry.
#[derive(Clone, Copy)]
pub enum WalkEnd {
    // the written pointer
    AtPointer(usize),
    // a sector that is no entry, and why it is none
    NoEntry(usize, Fault),
    // an entry whose rows reach past the written pointer
    Torn(usize),
}
