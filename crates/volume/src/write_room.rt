// What a write asks of the parity logs (document 02): where it ends inside a stripe and that stripe's parity drive is here, its entry must not be larger than what is
// left of its host's share of that drive, and the drive's log must have room for the entry and, past it, "L × (1 + U) + U".
ghost use Rattle.std.specs.Prelude.{◌≡◌, ◌+◌, ◌≤◌, ◌<◌, length};
ghost use Rattle.tables.specs.meaning.Geometry.{Valid, zone_sectors, cells};
ghost use Rattle.volume.specs.meaning.Emptying.{reserve};
ghost use Rattle.volume.specs.writing.WriteRoom.{entry_drive_of, entry_taken_of, full_at};

use super::Zone;
use super::roles::LogPlaces;
use tables::Geometry;

// The drive that gets a write's entry, if the write ends inside a stripe.
// kept: no Option, since a host's share is that of this drive where there is no entry, too.
#[derive(Clone, Copy)]
pub struct EntryDrive {
    pub inside: bool,
    pub drive: usize,
}

// That drive, and the entry's sectors; 0 if there is no entry, or the drive is not here.
// kept: an Option would be no plainer: what is taken off a share is told by the drive and the number, and 0 takes nothing off.
#[derive(Clone, Copy)]
pub struct EntryTaken {
    pub drive: usize,
    pub sectors: usize,
}

// Which drive gets the entry of a write that ends at a pointer of a zone.
pub fn entry_drive(g: Geometry, z: usize, end: usize) -> EntryDrive
    requires valid { Valid g }
    requires z_lt_zones { (z < g.zones) × (end ≤ zone_sectors g) }
    ensures { (result ≡ entry_drive_of g z end) × (result.drive < g.drives) }
{
    let k = tables::bounds::stripe_sectors(g);
    let s = end / k;
    let drive = tables::placement::parity_drive(g.drives, z, s);
    let inside = s * k < end;
    EntryDrive { inside, drive }
}

// What the entry takes there.
pub fn entry_taken(zone: Zone, end: usize) -> EntryTaken
    requires valid { Valid zone.geometry }
    requires number_lt_zones { (zone.number < zone.geometry.zones) × (end ≤ zone_sectors zone.geometry) }
    ensures { (result ≡ entry_taken_of zone end) × (result.drive < zone.geometry.drives) × (result.sectors ≤ 17) }
{
    let here = zone.here;
    let entry = entry_drive(zone.geometry, zone.number, end);
    let inside = entry.inside;
    let drive = entry.drive;
    let due = inside & here[drive];
    if !due {
        return EntryTaken { drive, sectors: 0 };
    }
    let sectors = super::emptying_parity::entry_size(zone.geometry, end);
    EntryTaken { drive, sectors }
}

// The room that an entry of so many sectors asks for.
pub fn write_limit(g: Geometry, sectors: usize) -> usize
    requires valid { Valid g }
    requires sectors_bound { sectors ≤ 17 }
    ensures { result ≡ sectors + reserve g }
{
    let kept = super::shares::reserve_of(g);
    sectors + kept
}

// Refusal 14 of a write with this entry, where the logs lie; `share`: what is left of its host's share.
pub fn write_full(
    pointers: &[u32],
    g: Geometry,
    places: LogPlaces,
    share: usize,
    entry: EntryTaken,
) -> bool
    requires valid { Valid g }
    requires valid_2 { Valid places.geometry × (length pointers.now ≡ cells places.geometry) × (entry.drive < places.geometry.drives) × (entry.sectors ≤ 17) }
    ensures { result ≡ full_at g places share pointers.now entry }
{
    let sectors = entry.sectors;
    if sectors == 0 {
        return false;
    }
    if share < sectors {
        return true;
    }
    let limit = write_limit(g, sectors);
    let unused = super::shares::parity_unused(pointers, places, entry.drive);
    unused < limit
}
