// Mount: the call that brings a volume up, over the calls and the rules of `volume`.
#![tactic(auto)]

use tables::{Geometry, MAX_DRIVES};
use volume::Look;

pub mod counters;
pub mod ends;
pub mod entries;
pub mod fill;
pub mod known;
pub mod log_headers;
pub mod mount;
pub mod plan;
pub mod rooms;
pub mod steps;
pub mod torn;
pub mod zones;

// What the steps of a mount go by: the geometry, the drives that are here, the look, and whether the drives' last counters differed then.
#[derive(Clone, Copy)]
pub struct Basis {
    pub geometry: Geometry,
    pub here: [bool; MAX_DRIVES],
    pub look: Look,
    pub differ: bool,
}
