// The tables that the host lends: one list of bytes for all sectors, two lists of pointers. This crate knows a volume's geometry, where
// each sector lies, and the three stores; it knows nothing of logs.
#![tactic(auto)]

pub mod bounds;
pub mod bytes;
pub mod placement;
pub mod sectors;
pub mod stores;
pub mod units;

// Logical zone z lies in physical zone DATA_ZONES + z of every drive (specs: `data_zone`): those before it hold the logs.
pub const DATA_ZONES: usize = 3;

// A shelf has at most so many drives, and a volume so many zones (specs: `max_drives`, `max_zones`). What is kept of each drive or zone is an array this long.
pub const MAX_DRIVES: usize = 8;

pub const MAX_ZONES: usize = 16;

// So many pointers are the most that a table has: MAX_DRIVES × (MAX_ZONES + DATA_ZONES).
pub const MAX_CELLS: usize = 152;

// The shape of a volume (document 01: D, B, U, L and C), and where each drive's logs lie: four bits a drive, the physical zones of its general and of
// its parity log in two bits each; all 0 for logs at their first places (specs: `zone_place`).
#[derive(Clone, Copy)]
pub struct Geometry {
    pub drives: usize,
    pub sector: usize,
    pub unit: usize,
    pub zones: usize,
    pub capacity: usize,
    pub logs: u64,
}
