// What a call checks of its zone: refusal 7, how far a log is used, which refusal 14 asks, and whether a read needs the logs. Only present
// drives are looked at.
ghost use Rattle.std.specs.Prelude.{◌≡◌, ◌&&◌, ◌+◌, ◌-◌, ◌≤◌, ◌<◌, length, get_or};
ghost use Rattle.tables.specs.meaning.Geometry.{Valid, zone_sectors, physical_zones, cells, data_zone};
ghost use Rattle.tables.specs.laws.StripeAt.{needed_of};
ghost use Rattle.tables.specs.meaning.Tables.{cell};
ghost use Rattle.volume.specs.meaning.State.{pointer_in};
ghost use Rattle.volume.specs.meaning.Refusals.{stale_in};
ghost use Rattle.volume.specs.meaning.CallContracts.{is_set};
ghost use Rattle.volume.specs.checks.ZoneChecks.{stale_on, needs_log};

use super::Condition;
use tables::placement::StripeAt;
use tables::{Geometry, MAX_DRIVES};

// The written pointer of a drive's physical zone.
pub fn written_at(written: &[u32], g: Geometry, drive: usize, zone: usize) -> usize
    requires valid { Valid g }
    requires drive_lt_drives { (drive < g.drives) × (zone < physical_zones g) × (length written.now ≡ cells g) }
    ensures { result ≡ get_or written.now (cell g drive zone) 0 }
{
    let at = tables::stores::cell_of(g, drive, zone);
    tables::bounds::widen(written[at])
}

// Whether a written pointer is not what a condition allows, if its pointer needs so many sectors.
fn stale_in(c: Condition, written: usize, needs: usize) -> bool
    ensures { result ≡ stale_in c written needs }
{
    match c {
        Condition::Empty | Condition::Open(_) => written != needs,
        Condition::Sealed(_) | Condition::Worn(_) => written < needs,
    }
}

// Refusal 7 on one drive; `at` is where the condition's pointer lies.
fn drive_stale(
    written: &[u32],
    g: Geometry,
    here: bool,
    condition: Condition,
    at: StripeAt,
    z: usize,
    drive: usize,
) -> bool
    requires valid { Valid g }
    requires written_len { (length written.now ≡ cells g) × (z < g.zones) × (drive < g.drives) × (at.stripe ≤ 65536) × (at.parity < g.drives) }
    ensures { result ≡ here && stale_in condition (get_or written.now (cell g drive (data_zone z)) 0) (needed_of g.drives g.unit at drive) }
{
    if !here {
        return false;
    }
    let w = written_at(written, g, drive, tables::DATA_ZONES + z);
    let needs = tables::placement::needed_of(g, at, drive);
    stale_in(condition, w, needs)
}

// Refusal 7, of a zone that there is.
pub fn is_stale(
    written: &[u32],
    g: Geometry,
    here: [bool; MAX_DRIVES],
    condition: Condition,
    z: usize,
) -> bool
    requires valid { Valid g }
    requires written_len { (length written.now ≡ cells g) × (z < g.zones) × (pointer_in condition ≤ zone_sectors g) }
    ensures { result ≡ stale_on g (is_set here) written.now condition z }
{
    let pointer = super::records::pointer_of(condition);
    let at = tables::placement::stripe_at(g, z, pointer);
    (0..g.drives).any(|d| drive_stale(written, g, here[d], condition, at, z, d))
}

// Whether reading below `end`, which is at or below the pointer, needs the logs: a drive is absent, and the pointer's own stripe is read.
pub fn needs_log(g: Geometry, here: [bool; MAX_DRIVES], pointer: usize, end: usize) -> bool
    requires { Valid g }
    ensures { result ≡ needs_log g here pointer end }
{
    let absent = super::checks::count_absent(g, here);
    let k = tables::bounds::stripe_sectors(g);
    let complete = pointer / k * k;
    (0 < absent) & (complete < end)
}
