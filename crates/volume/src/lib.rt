// The volume: the calls over the tables that the host lends and the state that it keeps between calls, all but mount (crate `mounting`).
#![tactic(auto)]

use tables::{Geometry, MAX_DRIVES, MAX_ZONES};

pub mod bad_places;
pub mod by_record;
pub mod checks;
pub mod copies_known;
pub mod drive_logs;
pub mod drives_lost;
pub mod emptying;
pub mod emptying_parity;
pub mod emptyings;
pub mod flushing;
pub mod formatting;
pub mod hosts;
pub mod knowing;
pub mod log_room;
pub mod logging;
pub mod looking;
pub mod numbers;
pub mod reading;
pub mod records;
pub mod reporting;
pub mod resetting;
pub mod roles;
pub mod row_others;
pub mod rows;
pub mod shares;
pub mod stripes;
pub mod write_checks;
pub mod write_directly;
pub mod write_room;
pub mod write_stores;
pub mod writing;
pub mod zone_checks;
pub mod zone_looking;

// A zone's condition, with its pointer (document 01: "empty, open with its pointer, sealed with its pointer, or worn with its pointer").
#[derive(Clone, Copy)]
pub enum Condition {
    Empty,
    Open(usize),
    Sealed(usize),
    Worn(usize),
}

// The host that wrote a zone last; nobody since the last format, mount or reset of the zone (document 02, 2.6).
// kept: no Option of a host, since definitions name the three (`owner_of`, `is_owner`).
#[derive(Clone, Copy)]
pub enum Owner {
    Nobody,
    Host0,
    Host1,
}

// What the state says of one zone.
#[derive(Clone, Copy)]
pub struct ZoneRecord {
    pub generation: u64,
    pub condition: Condition,
    pub owner: Owner,
}

// So many hosts use the drives, and so many shares there are at most: one for each drive and host.
pub const HOSTS: usize = 2;

pub const MAX_SHARES: usize = 16;

// What the hosts keep between calls: the lost drive or 255; a record for each zone; and what is left of each host's share of each drive's parity log, host h's
// of drive d at HOSTS × d + h. Records past the volume's last zone say nothing.
// kept: 255 for no lost drive, as definitions have it (`no_drive`, `find_below`, `state_within`) and the bytes of a state and a label.
#[derive(Clone, Copy)]
pub struct State {
    pub lost: usize,
    pub zones: [ZoneRecord; MAX_ZONES],
    pub shares: [u32; MAX_SHARES],
}

// A zone as a call reads it: the geometry, the drives that are present, the zone's number, and the generation under which it is read.
#[derive(Clone, Copy)]
pub struct Zone {
    pub geometry: Geometry,
    pub here: [bool; MAX_DRIVES],
    pub number: usize,
    pub generation: u64,
}

// Why a call is refused (document 01, "Refusals"); `number` gives the documents' number.
#[derive(Clone, Copy, Debug, PartialEq, Eq)]
pub enum Refusal {
    Geometry,
    Length,
    Pointer,
    TwoLost,
    Label,
    Log,
    Stale,
    Address,
    Run,
    Order,
    Sealed,
    Worn,
    Unwritten,
    LogFull,
    Gone,
    HostLimit,
    OpenLimit,
}

// A bad place of a log: its number, 6, 16 or 17 (logs' `Fault`), 0 if there is none; its drive, physical zone and sector.
// kept: the number with 0 for none, since definitions give it so (`no_bad_place`, `first_of`).
#[derive(Clone, Copy)]
pub struct BadPlace {
    pub number: u8,
    pub drive: u8,
    pub zone: u8,
    pub sector: u16,
}

// A call's answer: finished, unfinished (stores were left when the count of stores ran out), or refused with the documents' number; a look or a mount
// that is refused for a log tells its first bad place.
// kept: no Result, and refusals by number, since definitions name these four and the number (`storing`, `refused_at`).
#[derive(Clone, Copy)]
pub enum Answer {
    Finished,
    Unfinished,
    Refused(u8),
    BadLog(BadPlace),
}

// What a call hands back: its answer, and the state that the host keeps from then on.
#[derive(Clone, Copy)]
pub struct Outcome {
    pub answer: Answer,
    pub state: State,
}

// What a look shows of one zone, and what a mount needs to know of it besides: whether a reset entry emptied it, and whether it is clean.
#[derive(Clone, Copy)]
pub struct ZoneLook {
    pub generation: u64,
    pub condition: Condition,
    pub pointer: usize,
    pub by_reset: bool,
    pub clean: bool,
}

// What a look shows: the lost drive or 255, the array number, and the zones; those past the volume's last zone are blank.
#[derive(Clone, Copy)]
pub struct Look {
    pub lost: usize,
    pub array: u64,
    pub zones: [ZoneLook; MAX_ZONES],
}

// A zone's condition as a report tells it: sealed and worn zones are read-only.
#[derive(Clone, Copy)]
pub enum ReportedCondition {
    Empty,
    Open,
    ReadOnly,
}

// What a report tells of one zone: its first address, how many sectors it has, its write pointer (sectors from its start), and its condition.
#[derive(Clone, Copy)]
pub struct ZoneDescriptor {
    pub start: u64,
    pub capacity: u64,
    pub pointer: u64,
    pub condition: ReportedCondition,
}

// What a report hands back: its answer, and how many descriptors it filled.
#[derive(Clone, Copy)]
pub struct Reported {
    pub answer: Answer,
    pub number: usize,
}
