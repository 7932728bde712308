// Step 7 of a mount: "sectors missing below the pointer, and parity of complete stripes". A zone of a drive is filled from the sectors that the look
// found there up to those that the zone's pointer needs. All values are those of the look: they are read below its pointers.
ghost use Rattle.std.specs.Prelude.{◌≡◌, ◌≤◌, ◌<◌, length};
ghost use Rattle.tables.specs.meaning.Below.{each_below};
ghost use Rattle.tables.specs.meaning.Geometry.{Valid, cells};
ghost use Rattle.tables.specs.meaning.Placement.{needed};
ghost use Rattle.tables.specs.meaning.Device.{append};
ghost use Rattle.tables.specs.meaning.Phases.{on_present};
ghost use Rattle.tables.specs.laws.Made.{MadeAppends, store_if};
ghost use Rattle.volume.specs.meaning.Content.{content_at};
ghost use Rattle.volume.specs.meaning.CallContracts.{is_set};
ghost use Rattle.volume.specs.rows.RowStores.{rows_if};
ghost use Rattle.mounting.specs.MountLook.{LookWithin};
ghost use Rattle.mounting.specs.MountValues.{shown_by};
ghost use Rattle.mounting.specs.MountRestoring.{Filling};
ghost use Rattle.mounting.specs.MountReady.{ZoneReady, values_in};
ghost use Rattle.volume.specs.laws.FillStores.{fill_zone};
ghost use Rattle.mounting.specs.MountFillOn.{fill_drives, MissingIn};
ghost use Rattle.volume.specs.looking.Knowing.{read_device};

use super::Basis;
use volume::rows::{Extent, Target};

// The value of address a, which lies below the end, appended: what is left of the budget of stores.
fn append_value(
    sectors: &mut [u8],
    written: &mut [u32],
    pointers: &[u32],
    known: Extent,
    target: Target,
    a: usize,
    budget: u64,
) -> u64
    requires valid { Valid known.geometry }
    requires zone_ready { ZoneReady known target sectors.old written.old pointers.now × (a < known.end) }
    ensures { MadeAppends known.to budget result (store_if target.present (append target.drive target.zone (values_in known sectors.old pointers.now a))) sectors.old written.old sectors.new written.new }
{
    let b = known.geometry.sector;
    let mut value = [0u8; 4096];
    volume::rows::known_value(sectors, pointers, known, a, &mut value[..b]);
    tables::stores::append_counted(
        sectors,
        written,
        known.to,
        target.present,
        target.drive,
        target.zone,
        &value[..b],
        budget,
    )
}

// Sector x of a zone of a drive: the parity of a row, built where it will lie, or a data sector.
fn fill_sector(
    sectors: &mut [u8],
    written: &mut [u32],
    pointers: &[u32],
    known: Extent,
    target: Target,
    x: usize,
    budget: u64,
) -> u64
    requires valid { Valid known.geometry }
    requires zone_ready { ZoneReady known target sectors.old written.old pointers.now × (x < needed known.geometry.drives known.geometry.unit known.zone known.end target.drive) }
    ensures { MadeAppends known.to budget result (store_if target.present (append target.drive target.zone (content_at known.geometry.drives known.geometry.unit known.zone (values_in known sectors.old pointers.now) target.drive x)))
        sectors.old written.old sectors.new written.new }
{
    let drive = target.drive;
    let u = known.geometry.unit;
    let s = x / u;
    if drive == tables::placement::parity_drive(known.geometry.drives, known.zone, s) {
        let none = [0u8; 1];
        return volume::rows::append_row(
            sectors,
            written,
            pointers,
            &none[..0],
            known,
            target,
            s,
            x % u,
            budget,
        );
    }
    let a = tables::placement::address_at(known.geometry, known.zone, drive, x);
    append_value(sectors, written, pointers, known, target, a, budget)
}

// The sectors from `from` on, below `to`.
fn fill_sectors(
    sectors: &mut [u8],
    written: &mut [u32],
    pointers: &[u32],
    known: Extent,
    target: Target,
    from: usize,
    to: usize,
    budget: u64,
) -> u64
    requires valid { Valid known.geometry }
    requires zone_ready { ZoneReady known target sectors.old written.old pointers.now × (from ≤ to) × (to ≤ needed known.geometry.drives known.geometry.unit known.zone known.end target.drive) }
    ensures { MadeAppends known.to budget result (rows_if target.present target.drive target.zone (content_at known.geometry.drives known.geometry.unit known.zone (values_in known sectors.old pointers.now) target.drive) from to)
        sectors.old written.old sectors.new written.new }
{
    let mut rest = budget;
    for x in from..to {
        rest = fill_sector(sectors, written, pointers, known, target, x, rest);
    }
    rest
}

// What a zone of a drive lacks: its sectors from those that were there up to those that the zone's pointer needs.
#[derive(Clone, Copy)]
pub struct Missing {
    pub pointer: usize,
    pub from: usize,
    pub to: usize,
}

// That, and nothing where the drive isn't here.
fn missing_in(pointers: &[u32], basis: Basis, drive: usize, z: usize) -> Missing
    requires valid { Valid basis.geometry }
    requires drive_lt_drives { (drive < basis.geometry.drives) × (z < basis.geometry.zones) × (length pointers.now ≡ cells basis.geometry) × LookWithin basis.geometry basis.look }
    ensures { MissingIn basis pointers.now drive z result }
{
    let here = basis.here;
    let present = here[drive];
    let look = basis.look;
    let zones = look.zones;
    let zone = zones[z];
    let pointer = zone.pointer;
    if !present {
        return Missing {
            pointer,
            from: 0,
            to: 0,
        };
    }
    let from = super::log_headers::sectors_then(
        pointers,
        basis.geometry,
        drive,
        tables::DATA_ZONES + z,
    );
    let to = tables::placement::sectors_needed(basis.geometry, z, pointer, drive);
    Missing { pointer, from, to }
}

// One zone of a drive, if it lacks sectors.
fn fill_zone(
    sectors: &mut [u8],
    written: &mut [u32],
    pointers: &[u32],
    basis: Basis,
    drive: usize,
    z: usize,
    budget: u64,
) -> u64
    requires valid { Valid basis.geometry }
    requires drive_lt_drives { (drive < basis.geometry.drives) × (z < basis.geometry.zones) × Filling basis.geometry basis.here basis.look pointers.now sectors.old written.old }
    ensures { MadeAppends basis.geometry budget result
        (on_present (is_set basis.here) (fill_zone basis.geometry (shown_by basis sectors.old pointers.now) (read_device basis.geometry sectors.old pointers.now) drive z)) sectors.old written.old sectors.new written.new }
{
    let missing = missing_in(pointers, basis, drive, z);
    let from = missing.from;
    let to = missing.to;
    if to <= from {
        return budget;
    }
    let pointer = missing.pointer;
    let known = super::known::known_below(sectors, pointers, basis, basis.geometry, z, pointer);
    let target = Target {
        drive,
        zone: tables::DATA_ZONES + z,
        present: true,
    };
    fill_sectors(sectors, written, pointers, known, target, from, to, budget)
}

// The zones of one drive, ascending.
fn fill_drive(
    sectors: &mut [u8],
    written: &mut [u32],
    pointers: &[u32],
    basis: Basis,
    drive: usize,
    budget: u64,
) -> u64
    requires valid { Valid basis.geometry }
    requires drive_lt_drives { (drive < basis.geometry.drives) × Filling basis.geometry basis.here basis.look pointers.now sectors.old written.old }
    ensures { MadeAppends basis.geometry budget result
        (on_present (is_set basis.here) (each_below (fill_zone basis.geometry (shown_by basis sectors.old pointers.now) (read_device basis.geometry sectors.old pointers.now) drive) basis.geometry.zones)) sectors.old written.old sectors.new written.new }
{
    let mut rest = budget;
    for z in 0..basis.geometry.zones {
        rest = fill_zone(sectors, written, pointers, basis, drive, z, rest);
    }
    rest
}

// All of the step's appends, drive by drive.
pub fn fill_drives(
    sectors: &mut [u8],
    written: &mut [u32],
    pointers: &[u32],
    basis: Basis,
    budget: u64,
) -> u64
    requires valid { Valid basis.geometry }
    requires filling { Filling basis.geometry basis.here basis.look pointers.now sectors.old written.old }
    ensures { MadeAppends basis.geometry budget result
        (on_present (is_set basis.here) (fill_drives basis.geometry (shown_by basis sectors.old pointers.now) (read_device basis.geometry sectors.old pointers.now) basis.geometry.drives)) sectors.old written.old sectors.new written.new }
{
    let mut rest = budget;
    for d in 0..basis.geometry.drives {
        rest = fill_drive(sectors, written, pointers, basis, d, rest);
    }
    rest
}
