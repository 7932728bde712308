// The three stores on the tables, and each under a count of stores that is handed on.
ghost use Rattle.std.specs.Prelude.{◌≡◌, ◌&&◌, ltb, ◌+◌, ◌-◌, ◌≤◌, ◌<◌, length, get_or, set};
ghost use Rattle.tables.specs.meaning.Basics.{pick};
ghost use Rattle.tables.specs.meaning.Geometry.{Valid, physical_zones, cells, total_bytes};
ghost use Rattle.tables.specs.meaning.Device.{append, reset, flush};
ghost use Rattle.tables.specs.meaning.Tables.{has_room, log_place, zone_place, first_cell, cell, byte_at, sectors_after_append, written_after_append, pointers_after_reset, durable_after_flush};
ghost use Rattle.tables.specs.laws.Made.{MadeAppends, MadePointers, store_if};

use super::Geometry;

// The physical zone that zone 0 (general log), 1 (parity log) or 2 (spare) is, by the physical zones a and b of the two logs.
fn log_place(a: usize, b: usize, zone: usize) -> usize
    requires { zone < 3 }
    ensures { result ≡ log_place a b zone }
{
    if (2 < a) | ((2 < b) | (a == b)) {
        return zone;
    }
    if zone == 0 {
        return a;
    }
    if zone == 1 {
        return b;
    }
    3 - (a + b)
}

// The physical zone that a zone of a drive is.
pub fn zone_place(g: Geometry, drive: usize, zone: usize) -> usize
    requires { drive < 8 }
    ensures { result ≡ zone_place g drive zone }
{
    if super::DATA_ZONES <= zone {
        return zone;
    }
    let logs = g.logs;
    let bits = ((logs >> (4 * drive)) % 16) as usize;
    log_place(bits % 4, bits / 4, zone)
}

// A zone's cell in the tables of pointers.
pub fn cell_of(g: Geometry, drive: usize, zone: usize) -> usize
    requires valid { Valid g }
    requires drive_lt_drives { (drive < g.drives) × (zone < physical_zones g) }
    ensures { (result ≡ cell g drive zone) × (result < cells g) }
{
    let l = g.zones;
    let place = zone_place(g, drive, zone);
    drive * (l + super::DATA_ZONES) + place
}

// A drive's first cell.
pub fn row_of(g: Geometry, drive: usize) -> usize
    requires valid { Valid g }
    requires drive_lt_drives { drive < g.drives }
    ensures { (result ≡ first_cell g drive) × (result + physical_zones g ≤ cells g) }
{
    let l = g.zones;
    drive * (l + super::DATA_ZONES)
}

// The first byte of a sector.
pub fn byte_at(g: Geometry, drive: usize, zone: usize, n: usize) -> usize
    requires valid { Valid g }
    requires drive_lt_drives { (drive < g.drives) × (zone < physical_zones g) × (n < g.capacity) }
    ensures { (result ≡ byte_at g drive zone n) × (result + g.sector ≤ total_bytes g) }
{
    let at = cell_of(g, drive, zone);
    let c = g.capacity;
    let b = g.sector;
    (at * c + n) * b
}

// The first byte of the sector that a zone's next append writes.
pub fn next_byte(written: &[u32], g: Geometry, drive: usize, zone: usize) -> usize
    requires valid { Valid g }
    requires drive_lt_drives { (drive < g.drives) × (zone < physical_zones g) × (length written.now ≡ cells g) × (get_or written.now (cell g drive zone) 0 < g.capacity) }
    ensures { (result ≡ byte_at g drive zone (get_or written.now (cell g drive zone) 0)) × (result + g.sector ≤ total_bytes g) }
{
    let at = cell_of(g, drive, zone);
    let n = super::bounds::widen(written[at]);
    byte_at(g, drive, zone, n)
}

// Moves a zone's written pointer past a sector that lies there already.
pub fn advance(written: &mut [u32], g: Geometry, drive: usize, zone: usize)
    requires valid { Valid g }
    requires drive_lt_drives { (drive < g.drives) × (zone < physical_zones g) × (length written.old ≡ cells g) × (get_or written.old (cell g drive zone) 0 < g.capacity) }
    ensures { written.new ≡ written_after_append g drive zone written.old }
{
    let at = cell_of(g, drive, zone);
    let n = written[at];
    let next = n + 1;
    written[at] = next;
}

// The same past n sectors.
pub fn advance_by(written: &mut [u32], g: Geometry, drive: usize, zone: usize, n: usize)
    requires valid { Valid g }
    requires drive_lt_drives { (drive < g.drives) × (zone < physical_zones g) × (length written.old ≡ cells g) × (get_or written.old (cell g drive zone) 0 + n ≤ g.capacity) }
    ensures { written.new ≡ set written.old (cell g drive zone) (get_or written.old (cell g drive zone) 0 + n) }
{
    let at = cell_of(g, drive, zone);
    let w = written[at];
    let next = w + n as u32;
    written[at] = next;
}

// Appends one sector at the zone's written pointer.
pub fn append_sector(
    sectors: &mut [u8],
    written: &mut [u32],
    g: Geometry,
    drive: usize,
    zone: usize,
    src: &[u8],
)
    requires valid { Valid g }
    requires drive_lt_drives { (drive < g.drives) × (zone < physical_zones g) }
    requires sectors_len { (length sectors.old ≡ total_bytes g) × (length written.old ≡ cells g) }
    requires src_len { (length src.now ≡ g.sector) × (get_or written.old (cell g drive zone) 0 < g.capacity) }
    ensures { (sectors.new ≡ sectors_after_append g drive zone src.now sectors.old written.old)
        × (written.new ≡ written_after_append g drive zone written.old) }
{
    let to = next_byte(written, g, drive, zone);
    super::sectors::copy_in(sectors, to, src);
    advance(written, g, drive, zone);
}

// Resets one physical zone: both pointers 0, the bytes kept.
pub fn reset_zone(written: &mut [u32], durable: &mut [u32], g: Geometry, drive: usize, zone: usize)
    requires valid { Valid g }
    requires drive_lt_drives { (drive < g.drives) × (zone < physical_zones g) }
    requires written_len { (length written.old ≡ cells g) × (length durable.old ≡ cells g) }
    ensures { (written.new ≡ pointers_after_reset g drive zone written.old)
        × (durable.new ≡ pointers_after_reset g drive zone durable.old) }
{
    let at = cell_of(g, drive, zone);
    written[at] = 0;
    durable[at] = 0;
}

// Flushes one drive: durable becomes written in all its zones.
#[tactic(auto, unfolding(crate::specs::meaning::Tables::durable_after_flush))]
pub fn flush_drive(written: &[u32], durable: &mut [u32], g: Geometry, drive: usize)
    requires valid { Valid g }
    requires drive_lt_drives { drive < g.drives }
    requires written_len { (length written.now ≡ cells g) × (length durable.old ≡ cells g) }
    ensures { durable.new ≡ durable_after_flush g drive written.now durable.old }
{
    let at = row_of(g, drive);
    let end = at + g.zones + super::DATA_ZONES;
    super::sectors::copy_in(durable, at, &written[at..end]);
}

// Whether a store is made: its drive is present, and the budget, one more than the stores that may still be made, has one left.
fn due(here: bool, budget: u64) -> bool
    ensures { result ≡ here && ltb 1 budget }
{
    here & (1 < budget)
}

// What is left of the budget after a store that was due, or was wanting.
pub fn left_after(here: bool, budget: u64) -> u64
    ensures { result ≡ budget - pick here 1 0 }
{
    if !here {
        return budget;
    }
    if budget == 0 {
        return 0;
    }
    budget - 1
}

// Whether a zone has room for one more sector.
fn has_room(written: &[u32], g: Geometry, drive: usize, zone: usize) -> bool
    requires valid { Valid g }
    requires drive_lt_drives { (drive < g.drives) × (zone < physical_zones g) × (length written.now ≡ cells g) }
    ensures { result ≡ has_room g drive zone written.now }
{
    let at = cell_of(g, drive, zone);
    let n = super::bounds::widen(written[at]);
    let c = g.capacity;
    n < c
}

// Whether an append is made: it is due, and the zone has room. Of a drive that is not present no pointer is read.
pub fn append_due(
    written: &[u32],
    g: Geometry,
    here: bool,
    drive: usize,
    zone: usize,
    budget: u64,
) -> bool
    requires valid { Valid g }
    requires drive_lt_drives { (drive < g.drives) × (zone < physical_zones g) × (length written.now ≡ cells g) }
    ensures { result ≡ (here && ltb 1 budget) && has_room g drive zone written.now }
{
    let wanted = due(here, budget);
    if !wanted {
        return false;
    }
    has_room(written, g, drive, zone)
}

// An append, if its drive is present, the budget has a store left and the zone has room: what is left of the budget.
pub fn append_counted(
    sectors: &mut [u8],
    written: &mut [u32],
    g: Geometry,
    here: bool,
    drive: usize,
    zone: usize,
    src: &[u8],
    budget: u64,
) -> u64
    requires valid { Valid g }
    requires drive_lt_drives { (drive < g.drives) × (zone < physical_zones g) }
    requires sectors_len { (length sectors.old ≡ total_bytes g) × (length written.old ≡ cells g) × (length src.now ≡ g.sector) }
    ensures { MadeAppends g budget result (store_if here (append drive zone src.now)) sectors.old written.old sectors.new written.new }
{
    let made = append_due(written, g, here, drive, zone, budget);
    if !made {
        return left_after(here, budget);
    }
    append_sector(sectors, written, g, drive, zone, src);
    left_after(here, budget)
}

// A reset, if its drive is present and the budget has a store left: what is left of it.
pub fn reset_counted(
    written: &mut [u32],
    durable: &mut [u32],
    g: Geometry,
    here: bool,
    drive: usize,
    zone: usize,
    budget: u64,
) -> u64
    requires valid { Valid g }
    requires drive_lt_drives { (drive < g.drives) × (zone < physical_zones g) }
    requires written_len { (length written.old ≡ cells g) × (length durable.old ≡ cells g) }
    ensures { MadePointers g budget result (store_if here (reset drive zone)) written.old durable.old written.new durable.new }
{
    let made = due(here, budget);
    if !made {
        return left_after(here, budget);
    }
    reset_zone(written, durable, g, drive, zone);
    left_after(here, budget)
}

// A flush of a drive, if it is present and the budget has a store left: what is left of it.
pub fn flush_counted(
    written: &[u32],
    durable: &mut [u32],
    g: Geometry,
    here: bool,
    drive: usize,
    budget: u64,
) -> u64
    requires valid { Valid g }
    requires drive_lt_drives { (drive < g.drives) × (length written.now ≡ cells g) × (length durable.old ≡ cells g) }
    ensures { MadePointers g budget result (store_if here (flush drive)) written.now durable.old written.now durable.new }
{
    let made = due(here, budget);
    if !made {
        return left_after(here, budget);
    }
    flush_drive(written, durable, g, drive);
    left_after(here, budget)
}
