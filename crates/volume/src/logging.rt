// One header appended to the general log of a drive that is present, under the budget of stores that is handed on.
ghost use Rattle.std.specs.Prelude.{◌≡◌, ◌≤◌, ◌<◌, length, take};
ghost use Rattle.tables.specs.meaning.Geometry.{Valid, cells, total_bytes};
ghost use Rattle.tables.specs.meaning.Device.{append};
ghost use Rattle.tables.specs.laws.Made.{MadeAppends, store_if};
ghost use Rattle.logs.specs.meaning.Entry.{general_zone, encode, label, counters, zone_reset};

use tables::Geometry;

// A header of type 3.
pub fn append_reset(
    sectors: &mut [u8],
    written: &mut [u32],
    g: Geometry,
    here: bool,
    drive: usize,
    z: usize,
    generation: u64,
    budget: u64,
) -> u64
    requires valid { Valid g }
    requires drive_lt_drives { (drive < g.drives) × (z < g.zones) × (length sectors.old ≡ total_bytes g) × (length written.old ≡ cells g) }
    ensures { MadeAppends g budget result (store_if here (append drive general_zone (encode g drive (zone_reset z generation)))) sectors.old written.old sectors.new written.new }
{
    let mut buffer = [0u8; 4096];
    let b = g.sector;
    logs::headers::write_reset(&mut buffer[..b], g, drive, z, generation);
    tables::stores::append_counted(
        sectors,
        written,
        g,
        here,
        drive,
        logs::GENERAL_LOG,
        &buffer[..b],
        budget,
    )
}

// A label.
pub fn append_label(
    sectors: &mut [u8],
    written: &mut [u32],
    g: Geometry,
    here: bool,
    drive: usize,
    lost: usize,
    array: u64,
    budget: u64,
) -> u64
    requires valid { Valid g }
    requires drive_lt_drives { (drive < g.drives) × (lost < 256) × (length sectors.old ≡ total_bytes g) × (length written.old ≡ cells g) }
    ensures { MadeAppends g budget result (store_if here (append drive general_zone (encode g drive (label lost array)))) sectors.old written.old sectors.new written.new }
{
    let mut buffer = [0u8; 4096];
    let b = g.sector;
    logs::headers::write_label(&mut buffer[..b], g, drive, lost, array);
    tables::stores::append_counted(
        sectors,
        written,
        g,
        here,
        drive,
        logs::GENERAL_LOG,
        &buffer[..b],
        budget,
    )
}

// The counters: the first of the given generations, one for each zone.
pub fn append_counters(
    sectors: &mut [u8],
    written: &mut [u32],
    g: Geometry,
    here: bool,
    drive: usize,
    generations: &[u64],
    budget: u64,
) -> u64
    requires valid { Valid g }
    requires drive_lt_drives { (drive < g.drives) × (g.zones ≤ length generations.now) × (length sectors.old ≡ total_bytes g) × (length written.old ≡ cells g) }
    ensures { MadeAppends g budget result (store_if here (append drive general_zone (encode g drive (counters (take g.zones generations.now))))) sectors.old written.old sectors.new written.new }
{
    let mut buffer = [0u8; 4096];
    let b = g.sector;
    logs::headers::write_counters(&mut buffer[..b], g, drive, generations);
    tables::stores::append_counted(
        sectors,
        written,
        g,
        here,
        drive,
        logs::GENERAL_LOG,
        &buffer[..b],
        budget,
    )
}
