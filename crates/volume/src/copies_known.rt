// Refusal 15 where a parity log is emptied: "an entry that has to be made needs the sectors of its stripe below the pointer".
ghost use Rattle.std.specs.Prelude.{◌≡◌, ◌≤◌, ◌<◌};
ghost use Rattle.tables.specs.meaning.Geometry.{Valid, zone_sectors};
ghost use Rattle.volume.specs.meaning.Emptying.{gone_for_copies};
ghost use Rattle.volume.specs.meaning.CallContracts.{is_set};
ghost use Rattle.volume.specs.looking.Knowing.{Readable, read_device};
ghost use Rattle.volume.specs.emptying.CopiesKnown.{gone_at, in_force_of, CopiesReady};

use super::Zone;
use tables::{Geometry, MAX_DRIVES};

// Whether a zone's entry has to be made for a drive's new log, and a sector that it is made of is not known.
fn zone_gone(sectors: &[u8], pointers: &[u32], zone: Zone, drive: usize, pointer: usize) -> bool
    requires valid { Valid zone.geometry }
    requires readable { Readable zone.geometry zone.here sectors.now pointers.now zone.number × (drive < zone.geometry.drives) × (pointer ≤ zone_sectors zone.geometry) }
    ensures { result ≡ gone_at zone.geometry (is_set zone.here) (read_device zone.geometry sectors.now pointers.now) drive zone.number zone.generation pointer }
{
    let here = zone.here;
    if !super::emptying_parity::is_copied(zone.geometry, drive, zone.number, pointer) {
        return false;
    }
    let log = super::drive_logs::log_in(pointers, zone.geometry, drive, logs::PARITY_LOG);
    if logs::folds::has_partial_at(
        sectors,
        zone.geometry,
        log,
        zone.number,
        zone.generation,
        pointer,
    ) {
        return false;
    }
    let k = tables::bounds::stripe_sectors(zone.geometry);
    let start = pointer / k * k;
    let limit = super::knowing::seal_limit(
        sectors,
        pointers,
        zone.geometry,
        here,
        zone.number,
        zone.generation,
    );
    super::reading::some_gone(sectors, pointers, zone, limit, start, pointer - start)
}

// That of all zones, by their generations and pointers in force.
pub fn copies_gone(
    sectors: &[u8],
    pointers: &[u32],
    g: Geometry,
    here: [bool; MAX_DRIVES],
    drive: usize,
    generations: &[u64],
    points: &[usize],
) -> bool
    requires valid { Valid g }
    requires copies_ready { CopiesReady g here sectors.now pointers.now generations.now points.now × (drive < g.drives) }
    ensures { result ≡ gone_for_copies g (is_set here) (in_force_of g (is_set here) (read_device g sectors.now pointers.now) generations.now points.now) (read_device g sectors.now pointers.now) drive }
{
    (0..g.zones).any(|z| {
        let zone = Zone {
            geometry: g,
            here,
            number: z,
            generation: generations[z],
        };
        zone_gone(sectors, pointers, zone, drive, points[z])
    })
}
