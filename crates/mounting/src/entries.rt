// Step 8 of a mount: "a type 4 entry at each pointer inside a stripe that by then has no whole current one ending there". Values are those of the
// mount's look, read below its pointers; step 6 completes a torn entry with the same rows. Whether there is such an entry is asked of the logs as
// they were when the step began: below a copy of the written pointers of that moment, `starts`. The look's values are read where the logs lay then, by
// the basis' geometry; `to` says where they lie now, for `starts` and for what is stored.
ghost use Rattle.std.specs.Prelude.{◌≡◌, true, ◌+◌, ◌*◌, ◌≤◌, ◌<◌, min, length};
ghost use Rattle.tables.specs.meaning.Below.{each_below};
ghost use Rattle.tables.specs.meaning.Geometry.{Valid, stripe_sectors, cells, total_bytes};
ghost use Rattle.tables.specs.meaning.Placement.{stripe_of};
ghost use Rattle.tables.specs.meaning.Phases.{on_present};
ghost use Rattle.tables.specs.laws.Made.{MadeAppends};
ghost use Rattle.logs.specs.meaning.Entry.{parity_zone};
ghost use Rattle.volume.specs.meaning.Content.{row_xor_below};
ghost use Rattle.volume.specs.meaning.Rules.{parity_entries};
ghost use Rattle.volume.specs.meaning.CallContracts.{is_set};
ghost use Rattle.volume.specs.rows.RowStores.{rows_if};
ghost use Rattle.mounting.specs.MountLook.{LookWithin};
ghost use Rattle.mounting.specs.MountValues.{shown_by};
ghost use Rattle.mounting.specs.MountReady.{Appending};
ghost use Rattle.mounting.specs.MountLastEntries.{Entering, entry_due, new_entry, zone_entry_stores, entry_stores_below};
ghost use Rattle.volume.specs.looking.Knowing.{read_device};
ghost use Rattle.volume.specs.checks.Records.{zone_look};

use super::Basis;
use tables::Geometry;
use volume::Look;
use volume::rows::Target;

// Whether an entry at a zone's pointer is due on a drive: the pointer lies inside a stripe, the drive holds the stripe's parity, and its log had no
// whole current entry that ends there.
fn entry_due(
    sectors: &[u8],
    starts: &[u32],
    g: Geometry,
    look: Look,
    drive: usize,
    z: usize,
) -> bool
    requires valid { Valid g }
    requires drive_lt_drives { (drive < g.drives) × (z < g.zones) × (length sectors.now ≡ total_bytes g) × (length starts.now ≡ cells g) × LookWithin g look }
    ensures { result ≡ entry_due g look (parity_entries g (read_device g sectors.now starts.now) drive) drive z }
{
    let zones = look.zones;
    let zone = zones[z];
    let pointer = zone.pointer;
    let k = tables::bounds::stripe_sectors(g);
    let s = pointer / k;
    if pointer <= s * k {
        return false;
    }
    if drive != tables::placement::parity_drive(g.drives, z, s) {
        return false;
    }
    let n = super::log_headers::sectors_then(starts, g, drive, logs::PARITY_LOG);
    let log = logs::Log {
        drive,
        zone: logs::PARITY_LOG,
        written: n,
    };
    let there = logs::folds::has_partial_at(sectors, g, log, z, zone.generation, pointer);
    !there
}

// The rows of a partial parity entry from one on: those of a zone's stripe and its first `fill` sectors, on the parity log of a drive.
#[derive(Clone, Copy)]
pub struct EntryRows {
    pub drive: usize,
    pub zone: usize,
    pub stripe: usize,
    pub fill: usize,
    pub from: usize,
}

// The rows, of an entry that ends at or below the zone's pointer; each is built where it will lie.
pub fn append_entry_rows(
    sectors: &mut [u8],
    written: &mut [u32],
    pointers: &[u32],
    basis: Basis,
    to: Geometry,
    entry: EntryRows,
    budget: u64,
) -> u64
    requires valid { Valid basis.geometry }
    requires drive_lt_drives { (entry.drive < basis.geometry.drives) × (entry.zone < basis.geometry.zones) × (entry.stripe * stripe_sectors basis.geometry + entry.fill ≤ (zone_look basis.look entry.zone).pointer) × (entry.from ≤ min entry.fill basis.geometry.unit)
        × Appending basis.geometry to basis.here basis.look parity_zone pointers.now sectors.old written.old }
    ensures { MadeAppends to budget result
        (rows_if true entry.drive parity_zone
        (row_xor_below basis.geometry.drives basis.geometry.unit ((shown_by basis sectors.old pointers.now).zone entry.zone).value entry.stripe (entry.stripe * stripe_sectors basis.geometry + entry.fill)) entry.from (min entry.fill basis.geometry.unit)) sectors.old written.old sectors.new written.new }
{
    let s = entry.stripe;
    let fill = entry.fill;
    let k = tables::bounds::stripe_sectors(basis.geometry);
    let end = s * k + fill;
    let known = super::known::known_below(sectors, pointers, basis, to, entry.zone, end);
    let target = Target {
        drive: entry.drive,
        zone: logs::PARITY_LOG,
        present: true,
    };
    let m = fill.min(basis.geometry.unit);
    let none = [0u8; 1];
    volume::rows::append_rows(
        sectors,
        written,
        pointers,
        &none[..0],
        known,
        target,
        s,
        entry.from,
        m,
        budget,
    )
}

// The entry at a zone's pointer, which lies inside a stripe, on the parity log of a drive: its header and then its rows.
fn append_entry(
    sectors: &mut [u8],
    written: &mut [u32],
    pointers: &[u32],
    basis: Basis,
    to: Geometry,
    drive: usize,
    z: usize,
    budget: u64,
) -> u64
    requires valid { Valid basis.geometry }
    requires drive_lt_drives { (drive < basis.geometry.drives) × (z < basis.geometry.zones) × (stripe_of basis.geometry.drives basis.geometry.unit (zone_look basis.look z).pointer * stripe_sectors basis.geometry < (zone_look basis.look z).pointer)
        × Appending basis.geometry to basis.here basis.look parity_zone pointers.now sectors.old written.old }
    ensures { MadeAppends to budget result (new_entry basis.geometry (shown_by basis sectors.old pointers.now) drive z) sectors.old written.old sectors.new written.new }
{
    let zones = basis.look.zones;
    let zone = zones[z];
    let generation = zone.generation;
    let pointer = zone.pointer;
    let k = tables::bounds::stripe_sectors(basis.geometry);
    let s = pointer / k;
    let fill = pointer - s * k;
    let rest = volume::write_stores::append_partial(
        sectors, written, to, true, drive, z, s, fill, generation, budget,
    );
    let entry = EntryRows {
        drive,
        zone: z,
        stripe: s,
        fill,
        from: 0,
    };
    append_entry_rows(sectors, written, pointers, basis, to, entry, rest)
}

// That entry, if the drive is here and it is due: what is left of the budget of stores.
fn log_entry(
    sectors: &mut [u8],
    written: &mut [u32],
    pointers: &[u32],
    starts: &[u32],
    basis: Basis,
    to: Geometry,
    drive: usize,
    z: usize,
    budget: u64,
) -> u64
    requires valid { Valid basis.geometry }
    requires drive_lt_drives { (drive < basis.geometry.drives) × (z < basis.geometry.zones) × Entering basis.geometry to basis.here basis.look pointers.now starts.now sectors.old written.old }
    ensures { MadeAppends to budget result
        (on_present (is_set basis.here) (zone_entry_stores basis.geometry basis.look (shown_by basis sectors.old pointers.now) (parity_entries to (read_device to sectors.old starts.now) drive) drive z)) sectors.old written.old sectors.new written.new }
{
    let here = basis.here;
    if !here[drive] {
        return budget;
    }
    if !entry_due(sectors, starts, to, basis.look, drive, z) {
        return budget;
    }
    append_entry(sectors, written, pointers, basis, to, drive, z, budget)
}

// The entries of one drive, zones ascending.
fn log_drive(
    sectors: &mut [u8],
    written: &mut [u32],
    pointers: &[u32],
    starts: &[u32],
    basis: Basis,
    to: Geometry,
    drive: usize,
    budget: u64,
) -> u64
    requires valid { Valid basis.geometry }
    requires drive_lt_drives { (drive < basis.geometry.drives) × Entering basis.geometry to basis.here basis.look pointers.now starts.now sectors.old written.old }
    ensures { MadeAppends to budget result
        (on_present (is_set basis.here) (each_below (zone_entry_stores basis.geometry basis.look (shown_by basis sectors.old pointers.now) (parity_entries to (read_device to sectors.old starts.now) drive) drive) basis.geometry.zones)) sectors.old written.old sectors.new written.new }
{
    let mut rest = budget;
    for z in 0..basis.geometry.zones {
        rest = log_entry(
            sectors, written, pointers, starts, basis, to, drive, z, rest,
        );
    }
    rest
}

// The entries of the step, drive by drive.
pub fn log_entries(
    sectors: &mut [u8],
    written: &mut [u32],
    pointers: &[u32],
    starts: &[u32],
    basis: Basis,
    to: Geometry,
    budget: u64,
) -> u64
    requires valid { Valid basis.geometry }
    requires entering { Entering basis.geometry to basis.here basis.look pointers.now starts.now sectors.old written.old }
    ensures { MadeAppends to budget result
        (on_present (is_set basis.here) (entry_stores_below basis.geometry basis.look (shown_by basis sectors.old pointers.now) (parity_entries to (read_device to sectors.old starts.now)) basis.geometry.drives)) sectors.old written.old sectors.new written.new }
{
    let mut rest = budget;
    for d in 0..basis.geometry.drives {
        rest = log_drive(sectors, written, pointers, starts, basis, to, d, rest);
    }
    rest
}
