// What a look shows of one zone: rules 2, 3, 5 and 6.
ghost use Rattle.std.specs.Prelude.{◌≡◌, ◌≤◌, ◌<◌, min};
ghost use Rattle.tables.specs.meaning.Basics.{pick};
ghost use Rattle.tables.specs.meaning.Below.{larger};
ghost use Rattle.tables.specs.meaning.Geometry.{Valid, zone_sectors};
ghost use Rattle.logs.specs.meaning.Heads.{generation_in};
ghost use Rattle.volume.specs.meaning.CallContracts.{is_set, zone_look_of};
ghost use Rattle.volume.specs.meaning.Rules.{general_heads, generation_of, reset_seen, seal_seen, clean_at, condition_of, seal_limit, zone_view, known_prefix, pointer_at, zone_shown};
ghost use Rattle.volume.specs.looking.DriveLogs.{Sized};
ghost use Rattle.volume.specs.looking.Knowing.{read_device, Readable};
ghost use Rattle.volume.specs.looking.ZoneLooking.{drive_clean};

use super::{Condition, Zone, ZoneLook};
use tables::{Geometry, MAX_DRIVES};

// Rule 2, of one drive.
fn drive_generation(
    sectors: &[u8],
    written: &[u32],
    g: Geometry,
    present: bool,
    d: usize,
    z: usize,
) -> u64
    requires valid { Valid g }
    requires sized { Sized g sectors.now written.now × (d < g.drives) × (z < g.zones) }
    ensures { result ≡ pick present (generation_in z (general_heads g (read_device g sectors.now written.now) d)) 0 }
{
    if !present {
        return 0;
    }
    super::drive_logs::last_generation(sectors, written, g, d, z)
}

// Rule 2: the greatest generation that the present drives' last counters give a zone.
pub fn generation_of(
    sectors: &[u8],
    written: &[u32],
    g: Geometry,
    here: [bool; MAX_DRIVES],
    z: usize,
) -> u64
    requires valid { Valid g }
    requires sized { Sized g sectors.now written.now × (z < g.zones) }
    ensures { result ≡ generation_of g (is_set here) (read_device g sectors.now written.now) z }
{
    let mut most = 0;
    for d in 0..g.drives {
        most = drive_generation(sectors, written, g, here[d], d, z).max(most);
    }
    most
}

// Rule 3: whether a present drive's general log has a reset entry of a zone and generation.
fn reset_seen(
    sectors: &[u8],
    written: &[u32],
    g: Geometry,
    here: [bool; MAX_DRIVES],
    z: usize,
    generation: u64,
) -> bool
    requires valid { Valid g }
    requires sized { Sized g sectors.now written.now }
    ensures { result ≡ reset_seen g (is_set here) (read_device g sectors.now written.now) z generation }
{
    (0..g.drives).any(|d| here[d]
        && super::drive_logs::has_reset(sectors, written, g, d, z, generation))
}

// Whether a present drive's general log has a seal of a zone and generation.
fn seal_seen(
    sectors: &[u8],
    written: &[u32],
    g: Geometry,
    here: [bool; MAX_DRIVES],
    z: usize,
    generation: u64,
) -> bool
    requires valid { Valid g }
    requires sized { Sized g sectors.now written.now }
    ensures { result ≡ seal_seen g (is_set here) (read_device g sectors.now written.now) z generation }
{
    (0..g.drives).any(|d| here[d]
        && super::drive_logs::has_seal(sectors, written, g, d, z, generation))
}

// Rule 6, of one drive: it has no more sectors than pointer q needs, and no current partial parity entry, whole or torn, that ends past it.
fn drive_clean(sectors: &[u8], written: &[u32], zone: Zone, d: usize, q: usize) -> bool
    requires valid { Valid zone.geometry }
    requires sized { Sized zone.geometry sectors.now written.now × (d < zone.geometry.drives) × (zone.number < zone.geometry.zones) × (q ≤ zone_sectors zone.geometry) }
    ensures { result ≡ drive_clean zone.geometry (is_set zone.here) (read_device zone.geometry sectors.now written.now) zone.number zone.generation q d }
{
    let here = zone.here;
    let present = here[d];
    if !present {
        return true;
    }
    let z = zone.number;
    let generation = zone.generation;
    let n = super::drive_logs::zone_pointer(written, zone.geometry, d, tables::DATA_ZONES + z);
    let needs = tables::placement::sectors_needed(zone.geometry, z, q, d);
    let past = super::drive_logs::entry_past(sectors, written, zone.geometry, d, z, generation, q);
    (n <= needs) & !past
}

// Rule 6: whether a zone is clean at pointer q.
pub fn is_clean(sectors: &[u8], written: &[u32], zone: Zone, q: usize) -> bool
    requires valid { Valid zone.geometry }
    requires sized { Sized zone.geometry sectors.now written.now × (zone.number < zone.geometry.zones) × (q ≤ zone_sectors zone.geometry) }
    ensures { result ≡ clean_at zone.geometry (is_set zone.here) (read_device zone.geometry sectors.now written.now) zone.number zone.generation q }
{
    (0..zone.geometry.drives).all(|d| drive_clean(sectors, written, zone, d, q))
}

// Rule 6: a zone's condition, the first that fits.
fn condition_of(generation: u64, q: usize, clean: bool, sealed: bool) -> Condition
    ensures { result ≡ condition_of generation q clean sealed }
{
    if generation == logs::WORN_GENERATION {
        return Condition::Worn(q);
    }
    if q == 0 {
        return Condition::Empty;
    }
    if !clean | sealed {
        return Condition::Sealed(q);
    }
    Condition::Open(q)
}

// Rule 5: the sectors of a zone that are known, from its first on, up to a limit. It stops at the first that is not.
fn known_prefix(sectors: &[u8], written: &[u32], zone: Zone, limit: usize) -> usize
    requires valid { Valid zone.geometry }
    requires readable { Readable zone.geometry zone.here sectors.now written.now zone.number
        × (limit ≡ seal_limit zone.geometry (is_set zone.here) (read_device zone.geometry sectors.now written.now) zone.number zone.generation)
        × (limit ≤ zone_sectors zone.geometry) }
    ensures { result ≡ min (known_prefix zone.geometry.drives zone.geometry.unit zone.number (zone_view zone.geometry (is_set zone.here) (read_device zone.geometry sectors.now written.now) zone.number zone.generation) (zone_sectors zone.geometry)) limit }
{
    for a in 0..limit {
        if !super::knowing::is_known(sectors, written, zone, limit, a) {
            return a;
        }
    }
    limit
}

// Rules 3 and 5: a zone's pointer.
pub fn pointer_at(sectors: &[u8], written: &[u32], zone: Zone, reset: bool) -> usize
    requires valid { Valid zone.geometry }
    requires readable { Readable zone.geometry zone.here sectors.now written.now zone.number
        × (reset ≡ reset_seen zone.geometry (is_set zone.here) (read_device zone.geometry sectors.now written.now) zone.number zone.generation) }
    ensures { (result ≡ pointer_at zone.geometry (is_set zone.here) (read_device zone.geometry sectors.now written.now) zone.number zone.generation) × (result ≤ zone_sectors zone.geometry) }
{
    if reset {
        return 0;
    }
    let here = zone.here;
    let limit = super::knowing::seal_limit(
        sectors,
        written,
        zone.geometry,
        here,
        zone.number,
        zone.generation,
    );
    known_prefix(sectors, written, zone, limit)
}

// What a look shows of a zone.
pub fn look_zone(
    sectors: &[u8],
    written: &[u32],
    g: Geometry,
    here: [bool; MAX_DRIVES],
    z: usize,
) -> ZoneLook
    requires valid { Valid g }
    requires readable { Readable g here sectors.now written.now z }
    ensures { result ≡ zone_look_of (zone_shown g (is_set here) (read_device g sectors.now written.now) z) }
{
    let generation = generation_of(sectors, written, g, here, z);
    let by_reset = reset_seen(sectors, written, g, here, z, generation);
    let zone = Zone {
        geometry: g,
        here,
        number: z,
        generation,
    };
    let pointer = pointer_at(sectors, written, zone, by_reset);
    let clean = is_clean(sectors, written, zone, pointer);
    let sealed = seal_seen(sectors, written, g, here, z, generation);
    let condition = condition_of(generation, pointer, clean, sealed);
    ZoneLook {
        generation,
        condition,
        pointer,
        by_reset,
        clean,
    }
}
