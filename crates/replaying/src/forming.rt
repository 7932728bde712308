// A state's form. The host holds its state as the calls do, not as C's bytes; so what the bytes of a state that a script has changed would not have is asked here:
// owners that there are, and nothing past the geometry's zones and drives.
use super::Host;
use volume::{State, ZoneRecord};

// The zones' owners as numbers.
pub fn owners_of(s: State) -> [u32; 16] {
    s.zones
        .map(|record| volume::numbers::owner_number(record.owner))
}

// Whether a zone's record has no form: its owner is none, or there is no such zone and it is not blank.
fn record_odd(r: ZoneRecord, owner: u32, past: bool) -> bool {
    let blank = r.generation == 0 && volume::records::is_empty(r.condition) && owner == 0;
    2 < owner || past && !blank
}

// Whether some zone's record has none.
fn some_record_odd(h: Host) -> bool {
    (0..16).any(|z| record_odd(h.state.zones[z], h.owners[z], h.geometry.zones <= z))
}

// Whether a drive that there is not has a share.
fn some_share_odd(h: Host) -> bool {
    let mut shares = h.state.shares.iter().enumerate();
    shares.any(|(i, share)| h.geometry.drives <= i / volume::HOSTS && *share != 0)
}

// Whether the host's state has no state's form, by its geometry.
pub fn is_odd(h: Host) -> bool {
    some_record_odd(h) || some_share_odd(h)
}
