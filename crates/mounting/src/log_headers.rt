// A mount's headers on the general logs: "a new label on each present drive whose last doesn't name the lost one; type 3 again on both its
// drives for each zone emptied by rule 3; .. the seal at its pointer of each zone shown sealed, on each present drive lacking it". The three
// steps differ in the header and in where it is due, and share their loops. A log is read below the pointers of the mount's look.
ghost use Rattle.std.specs.Prelude.{◌≡◌, ◌≤◌, ◌<◌, min, length, get_or};
ghost use Rattle.tables.specs.meaning.Below.{each_below};
ghost use Rattle.tables.specs.meaning.Geometry.{Valid, physical_zones, cells, total_bytes};
ghost use Rattle.tables.specs.meaning.Phases.{on_present};
ghost use Rattle.tables.specs.meaning.Tables.{cell};
ghost use Rattle.tables.specs.laws.Made.{MadeAppends};
ghost use Rattle.logs.specs.meaning.Entry.{encode};
ghost use Rattle.volume.specs.meaning.CallContracts.{is_set};
ghost use Rattle.mounting.specs.MountLook.{LookWithin};
ghost use Rattle.mounting.specs.MountHeaders.{label_due, reset_due, seal_due, header_zones, header_due, header_for, header_stores, header_steps, Logging};
ghost use Rattle.volume.specs.looking.Knowing.{read_device};

use super::Basis;
use tables::Geometry;
use volume::Look;

// The headers that a mount stores.
#[derive(Clone, Copy)]
pub enum HeaderKind {
    Label,
    Reset,
    Seal,
}

// How many of a kind a drive may be due: one label, the others for each zone.
pub fn header_zones(kind: HeaderKind, g: Geometry) -> usize
    ensures { result ≡ header_zones g kind }
{
    match kind {
        HeaderKind::Label => 1,
        HeaderKind::Reset => g.zones,
        HeaderKind::Seal => g.zones,
    }
}

// How many sectors a zone had when the pointers were copied.
pub fn sectors_then(pointers: &[u32], g: Geometry, drive: usize, zone: usize) -> usize
    requires valid { Valid g }
    requires drive_lt_drives { (drive < g.drives) × (zone < physical_zones g) × (length pointers.now ≡ cells g) }
    ensures { (result ≡ min (get_or pointers.now (cell g drive zone) 0) g.capacity) × (result ≤ g.capacity) }
{
    let at = tables::stores::cell_of(g, drive, zone);
    let n = tables::bounds::widen(pointers[at]);
    n.min(g.capacity)
}

// Whether a drive is due a new label: its last does not name the lost drive.
fn label_due(sectors: &[u8], pointers: &[u32], basis: Basis, drive: usize) -> bool
    requires valid { Valid basis.geometry }
    requires drive_lt_drives { (drive < basis.geometry.drives) × (length sectors.now ≡ total_bytes basis.geometry) × (length pointers.now ≡ cells basis.geometry) }
    ensures { result ≡ label_due basis.geometry basis.look (read_device basis.geometry sectors.now pointers.now) drive }
{
    let n = sectors_then(pointers, basis.geometry, drive, logs::GENERAL_LOG);
    let log = logs::Log {
        drive,
        zone: logs::GENERAL_LOG,
        written: n,
    };
    let last = logs::folds::last_lost(sectors, basis.geometry, log);
    let lost = basis.look.lost;
    let d = basis.geometry.drives;
    (lost < d) & (last != lost)
}

// Whether a drive is one of the two that log a zone's reset, and a reset entry emptied the zone.
fn reset_due(g: Geometry, look: Look, drive: usize, z: usize) -> bool
    requires valid { Valid g }
    requires z_lt_zones { z < g.zones }
    ensures { result ≡ reset_due g look drive z }
{
    let zones = look.zones;
    let zone = zones[z];
    let emptied = zone.by_reset;
    let first = tables::placement::first_drive(g, z);
    let d = g.drives;
    let parity = tables::placement::parity_drive(d, z, 0);
    emptied & ((drive == first) | (drive == parity))
}

// Whether a zone is shown sealed and a drive lacks the seal at its pointer.
fn seal_due(sectors: &[u8], pointers: &[u32], basis: Basis, drive: usize, z: usize) -> bool
    requires valid { Valid basis.geometry }
    requires drive_lt_drives { (drive < basis.geometry.drives) × (z < basis.geometry.zones) × (length sectors.now ≡ total_bytes basis.geometry) × (length pointers.now ≡ cells basis.geometry) }
    ensures { result ≡ seal_due basis.geometry basis.look (read_device basis.geometry sectors.now pointers.now) drive z }
{
    let zones = basis.look.zones;
    let zone = zones[z];
    let condition = zone.condition;
    let sealed = volume::records::is_sealed(condition);
    let n = sectors_then(pointers, basis.geometry, drive, logs::GENERAL_LOG);
    let log = logs::Log {
        drive,
        zone: logs::GENERAL_LOG,
        written: n,
    };
    let there = logs::folds::has_seal_at(
        sectors,
        basis.geometry,
        log,
        z,
        zone.generation,
        zone.pointer,
    );
    sealed & !there
}

// Whether a header of a kind is due on a drive for a zone.
fn header_due(
    kind: HeaderKind,
    sectors: &[u8],
    pointers: &[u32],
    basis: Basis,
    drive: usize,
    z: usize,
) -> bool
    requires valid { Valid basis.geometry }
    requires drive_lt_drives { (drive < basis.geometry.drives) × (z < basis.geometry.zones) × (length sectors.now ≡ total_bytes basis.geometry) × (length pointers.now ≡ cells basis.geometry) }
    ensures { result ≡ header_due basis.geometry kind basis.look (read_device basis.geometry sectors.now pointers.now) drive z }
{
    match kind {
        HeaderKind::Label => label_due(sectors, pointers, basis, drive),
        HeaderKind::Reset => reset_due(basis.geometry, basis.look, drive, z),
        HeaderKind::Seal => seal_due(sectors, pointers, basis, drive, z),
    }
}

// Writes that header.
fn write_header(kind: HeaderKind, out: &mut [u8], g: Geometry, look: Look, drive: usize, z: usize)
    requires valid { Valid g }
    requires drive_lt_drives { (drive < g.drives) × (z < g.zones) × (length out.old ≡ g.sector) × LookWithin g look }
    ensures { out.new ≡ encode g drive (header_for kind look z) }
{
    let zones = look.zones;
    let zone = zones[z];
    match kind {
        HeaderKind::Label => logs::headers::write_label(out, g, drive, look.lost, look.array),
        HeaderKind::Reset => logs::headers::write_reset(out, g, drive, z, zone.generation),
        HeaderKind::Seal => logs::headers::write_seal(
            out,
            g,
            drive,
            z,
            zone.pointer,
            zone.generation,
        ),
    }
}

// One header, if its drive is here and it is due: what is left of the budget of stores.
fn log_header(
    kind: HeaderKind,
    sectors: &mut [u8],
    written: &mut [u32],
    pointers: &[u32],
    basis: Basis,
    drive: usize,
    z: usize,
    budget: u64,
) -> u64
    requires valid { Valid basis.geometry }
    requires drive_lt_drives { (drive < basis.geometry.drives) × (z < basis.geometry.zones) × Logging basis.geometry basis.look pointers.now sectors.old written.old }
    ensures { MadeAppends basis.geometry budget result (on_present (is_set basis.here) (header_stores basis.geometry kind basis.look (read_device basis.geometry sectors.old pointers.now) drive z)) sectors.old written.old sectors.new written.new }
{
    let here = basis.here;
    if !here[drive] {
        return budget;
    }
    if !header_due(kind, sectors, pointers, basis, drive, z) {
        return budget;
    }
    let mut header = [0u8; 4096];
    let b = basis.geometry.sector;
    write_header(kind, &mut header[..b], basis.geometry, basis.look, drive, z);
    tables::stores::append_counted(
        sectors,
        written,
        basis.geometry,
        true,
        drive,
        logs::GENERAL_LOG,
        &header[..b],
        budget,
    )
}

// The headers of one drive, for the first n zones.
fn log_drive(
    kind: HeaderKind,
    sectors: &mut [u8],
    written: &mut [u32],
    pointers: &[u32],
    basis: Basis,
    drive: usize,
    n: usize,
    budget: u64,
) -> u64
    requires valid { Valid basis.geometry }
    requires drive_lt_drives { (drive < basis.geometry.drives) × (n ≤ basis.geometry.zones) × Logging basis.geometry basis.look pointers.now sectors.old written.old }
    ensures { MadeAppends basis.geometry budget result (on_present (is_set basis.here) (each_below (header_stores basis.geometry kind basis.look (read_device basis.geometry sectors.old pointers.now) drive) n)) sectors.old written.old sectors.new written.new }
{
    let mut rest = budget;
    for z in 0..n {
        rest = log_header(kind, sectors, written, pointers, basis, drive, z, rest);
    }
    rest
}

// The headers of a step, drive by drive.
pub fn log_headers(
    kind: HeaderKind,
    sectors: &mut [u8],
    written: &mut [u32],
    pointers: &[u32],
    basis: Basis,
    n: usize,
    budget: u64,
) -> u64
    requires valid { Valid basis.geometry }
    requires n_le_zones { (n ≤ basis.geometry.zones) × Logging basis.geometry basis.look pointers.now sectors.old written.old }
    ensures { MadeAppends basis.geometry budget result (on_present (is_set basis.here) (header_steps basis.geometry kind basis.look (read_device basis.geometry sectors.old pointers.now) n basis.geometry.drives)) sectors.old written.old sectors.new written.new }
{
    let mut rest = budget;
    for d in 0..basis.geometry.drives {
        rest = log_drive(kind, sectors, written, pointers, basis, d, n, rest);
    }
    rest
}
