// Step 6 of a mount: "rows missing from torn entries (the true rows if current and end is at or below the pointer, else zeros)". A parity log is read
// below the pointers of the mount's look; what is missing from its torn entry goes at the written pointer.
ghost use Rattle.std.specs.Prelude.{◌≡◌, true, ◌+◌, ◌*◌, ◌≤◌, ◌<◌, min, length, replicate};
ghost use Rattle.tables.specs.meaning.Below.{each_below};
ghost use Rattle.tables.specs.meaning.Geometry.{Valid, stripe_sectors, zone_sectors, cells, total_bytes};
ghost use Rattle.tables.specs.meaning.Device.{append};
ghost use Rattle.tables.specs.meaning.Phases.{on_present};
ghost use Rattle.tables.specs.laws.Made.{MadeAppends, store_if};
ghost use Rattle.logs.specs.meaning.Entry.{parity_zone};
ghost use Rattle.volume.specs.meaning.Calls.{append_all};
ghost use Rattle.volume.specs.meaning.Mount.{row_for};
ghost use Rattle.volume.specs.meaning.CallContracts.{is_set};
ghost use Rattle.volume.specs.rows.RowStores.{rows_if};
ghost use Rattle.mounting.specs.MountValues.{shown_by};
ghost use Rattle.mounting.specs.MountRestoring.{Filling};
ghost use Rattle.mounting.specs.MountTornLogs.{missing_seen, TornFits, torn_stores, zero_row};
ghost use Rattle.volume.specs.looking.Knowing.{read_device};

use super::Basis;
use super::entries::{EntryRows, append_entry_rows};
use logs::{Found, WalkEnd};
use tables::Geometry;

// A row of zeros on the parity log of a drive: what is left of the budget of stores.
fn append_zeros(
    sectors: &mut [u8],
    written: &mut [u32],
    g: Geometry,
    drive: usize,
    budget: u64,
) -> u64
    requires valid { Valid g }
    requires drive_lt_drives { (drive < g.drives) × (length sectors.old ≡ total_bytes g) × (length written.old ≡ cells g) }
    ensures { MadeAppends g budget result (store_if true (append drive parity_zone (replicate g.sector 0))) sectors.old written.old sectors.new written.new }
{
    let zeros = [0u8; 4096];
    let b = g.sector;
    tables::stores::append_counted(
        sectors,
        written,
        g,
        true,
        drive,
        logs::PARITY_LOG,
        &zeros[..b],
        budget,
    )
}

// The rows of zeros from `from` on, below m.
fn append_zero_rows(
    sectors: &mut [u8],
    written: &mut [u32],
    g: Geometry,
    drive: usize,
    from: usize,
    m: usize,
    budget: u64,
) -> u64
    requires valid { Valid g }
    requires drive_lt_drives { (drive < g.drives) × (length sectors.old ≡ total_bytes g) × (length written.old ≡ cells g) × (from ≤ m) × (m ≤ g.unit) }
    ensures { MadeAppends g budget result (rows_if true drive parity_zone (zero_row g) from m) sectors.old written.old sectors.new written.new }
{
    let mut rest = budget;
    for _ in from..m {
        rest = append_zeros(sectors, written, g, drive, rest);
    }
    rest
}

// The rows that are missing from an entry of generation n.
fn complete_rows(
    sectors: &mut [u8],
    written: &mut [u32],
    pointers: &[u32],
    basis: Basis,
    entry: EntryRows,
    n: u64,
    budget: u64,
) -> u64
    requires valid { Valid basis.geometry }
    requires drive_lt_drives { (entry.drive < basis.geometry.drives) × (entry.zone < basis.geometry.zones) × (entry.stripe * stripe_sectors basis.geometry + entry.fill ≤ zone_sectors basis.geometry) × (entry.from ≤ min entry.fill basis.geometry.unit)
        × Filling basis.geometry basis.here basis.look pointers.now sectors.old written.old }
    ensures { MadeAppends basis.geometry budget result
        (rows_if true entry.drive parity_zone (row_for basis.geometry ((shown_by basis sectors.old pointers.now).zone entry.zone) entry.stripe entry.fill n) entry.from (min entry.fill basis.geometry.unit)) sectors.old written.old sectors.new written.new }
{
    let z = entry.zone;
    let s = entry.stripe;
    let fill = entry.fill;
    let zones = basis.look.zones;
    let zone = zones[z];
    let generation = zone.generation;
    let pointer = zone.pointer;
    let k = tables::bounds::stripe_sectors(basis.geometry);
    let current = (n == generation) & (s * k + fill <= pointer);
    if current {
        return append_entry_rows(
            sectors,
            written,
            pointers,
            basis,
            basis.geometry,
            entry,
            budget,
        );
    }
    let drive = entry.drive;
    let from = entry.from;
    let m = fill.min(basis.geometry.unit);
    append_zero_rows(sectors, written, basis.geometry, drive, from, m, budget)
}

// The same by what was found; only a partial parity entry has rows.
fn complete_entry(
    sectors: &mut [u8],
    written: &mut [u32],
    pointers: &[u32],
    basis: Basis,
    drive: usize,
    f: Found,
    rows: usize,
    budget: u64,
) -> u64
    requires valid { Valid basis.geometry }
    requires drive_lt_drives { (drive < basis.geometry.drives) × Filling basis.geometry basis.here basis.look pointers.now sectors.old written.old
        × TornFits basis.geometry f rows }
    ensures { MadeAppends basis.geometry budget result (append_all drive parity_zone (missing_seen basis.geometry (shown_by basis sectors.old pointers.now) f rows)) sectors.old written.old sectors.new written.new }
{
    match f {
        Found::Bad => budget,
        Found::Label(_, _) => budget,
        Found::Counters => budget,
        Found::Resets(_, _) => budget,
        Found::Partial(z, s, fill, n) => complete_rows(
            sectors,
            written,
            pointers,
            basis,
            EntryRows {
                drive,
                zone: z,
                stripe: s,
                fill,
                from: rows,
            },
            n,
            budget,
        ),
        Found::Seal(_, _, _) => budget,
        Found::Closing(_) => budget,
    }
}

// The parity log of one drive, if the drive is here and the walk of the log ends in a torn entry.
fn complete_log(
    sectors: &mut [u8],
    written: &mut [u32],
    pointers: &[u32],
    basis: Basis,
    drive: usize,
    budget: u64,
) -> u64
    requires valid { Valid basis.geometry }
    requires drive_lt_drives { (drive < basis.geometry.drives) × Filling basis.geometry basis.here basis.look pointers.now sectors.old written.old }
    ensures { MadeAppends basis.geometry budget result
        (on_present (is_set basis.here) (torn_stores basis.geometry (shown_by basis sectors.old pointers.now) (read_device basis.geometry sectors.old pointers.now) drive)) sectors.old written.old sectors.new written.new }
{
    let here = basis.here;
    let present = here[drive];
    if !present {
        return budget;
    }
    let n = super::log_headers::sectors_then(pointers, basis.geometry, drive, logs::PARITY_LOG);
    let w = logs::walking::walk_log(sectors, basis.geometry, drive, logs::PARITY_LOG, true, n);
    let WalkEnd::Torn(p) = w else {
        return budget;
    };
    let f = logs::walking::judge_at(sectors, basis.geometry, drive, logs::PARITY_LOG, true, n, p);
    let rows = n - (p + 1);
    complete_entry(sectors, written, pointers, basis, drive, f, rows, budget)
}

// The parity logs, drive by drive.
pub fn complete_logs(
    sectors: &mut [u8],
    written: &mut [u32],
    pointers: &[u32],
    basis: Basis,
    budget: u64,
) -> u64
    requires valid { Valid basis.geometry }
    requires filling { Filling basis.geometry basis.here basis.look pointers.now sectors.old written.old }
    ensures { MadeAppends basis.geometry budget result
        (on_present (is_set basis.here) (each_below (torn_stores basis.geometry (shown_by basis sectors.old pointers.now) (read_device basis.geometry sectors.old pointers.now)) basis.geometry.drives)) sectors.old written.old sectors.new written.new }
{
    let mut rest = budget;
    for d in 0..basis.geometry.drives {
        rest = complete_log(sectors, written, pointers, basis, d, rest);
    }
    rest
}
