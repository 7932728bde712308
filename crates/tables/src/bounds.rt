// The bounds of a geometry, its sizes, and refusals 1 to 3 as far as they speak of the geometry and the tables.
ghost use Rattle.std.specs.Prelude.{◌≡◌, ◌&&◌, ◌≤◌, ◌<◌, length};
ghost use Rattle.tables.specs.meaning.Below.{any_below};
ghost use Rattle.tables.specs.meaning.Geometry.{Valid, geometry_of, log2, zone_sectors, stripe_sectors, physical_zones, cells, total_bytes};
ghost use Rattle.tables.specs.meaning.GeometryTest.{is_valid, all, bound_tests, sector_size};
ghost use Rattle.tables.specs.meaning.Tables.{lengths_fit, buffer_fits, pointer_bad, pointers_bad};

use super::{Geometry, MAX_DRIVES, MAX_ZONES};

// The geometry of document 01's five numbers, with each drive's logs at their first places.
pub fn geometry_of(
    drives: usize,
    sector: usize,
    unit: usize,
    zones: usize,
    capacity: usize,
) -> Geometry
    ensures { result ≡ geometry_of drives sector unit zones capacity }
{
    Geometry {
        drives,
        sector,
        unit,
        zones,
        capacity,
        logs: 0,
    }
}

// Whether a sector, or a block, may have so many bytes.
pub fn size_ok(b: usize) -> bool
    ensures { result ≡ sector_size b }
{
    matches!(b, 64 | 128 | 256 | 512 | 1024 | 2048 | 4096)
}

fn in_ranges(g: Geometry) -> bool
    ensures { result ≡ all (bound_tests g) }
{
    let b = g.sector;
    let size = size_ok(b);
    let d = g.drives;
    let u = g.unit;
    let l = g.zones;
    let c = g.capacity;
    let logs = g.logs;
    (3 <= d)
        & ((d <= MAX_DRIVES)
            & (size
                & ((1 <= u)
                    & ((u <= 16)
                        & ((1 <= l) & ((l <= MAX_ZONES) & ((c <= 65536) & (logs == 0))))))))
}

// Whether every bound of document 01 holds.
pub fn valid(g: Geometry) -> bool
    ensures { result ≡ is_valid g }
{
    let ok = in_ranges(g);
    if !ok {
        return false;
    }
    let b = g.sector;
    let u = g.unit;
    let l = g.zones;
    let c = g.capacity;
    (32 + 8 * l <= b) & ((c % u == 0) & ((l * (1 + u) + 2 * u + 1 <= c) & (l + 6 <= c)))
}

// The sectors of a logical zone.
pub fn zone_sectors(g: Geometry) -> usize
    requires { Valid g }
    ensures { (result ≡ zone_sectors g) × (1 ≤ result) × (result ≤ 458752) }
{
    let d = g.drives;
    let c = g.capacity;
    (d - 1) * c
}

// The data sectors of a stripe.
pub fn stripe_sectors(g: Geometry) -> usize
    requires { Valid g }
    ensures { (result ≡ stripe_sectors g) × (1 ≤ result) × (result ≤ 112) }
{
    let d = g.drives;
    let u = g.unit;
    (d - 1) * u
}

// The power of two that the sector size is.
pub fn size_power(g: Geometry) -> u8
    requires { Valid g }
    ensures { result ≡ log2 g.sector }
{
    let b = g.sector;
    if b == 64 {
        return 6;
    }
    if b == 128 {
        return 7;
    }
    if b == 256 {
        return 8;
    }
    if b == 512 {
        return 9;
    }
    if b == 1024 {
        return 10;
    }
    if b == 2048 {
        return 11;
    }
    12
}

// The cells of a table of pointers.
pub fn table_cells(g: Geometry) -> usize
    requires { Valid g }
    ensures { (result ≡ cells g) × (result ≤ 152) }
{
    let d = g.drives;
    let l = g.zones;
    d * (l + super::DATA_ZONES)
}

// The bytes of all sectors.
pub fn total_bytes(g: Geometry) -> usize
    requires { Valid g }
    ensures { result ≡ total_bytes g }
{
    let n = table_cells(g);
    let c = g.capacity;
    let b = g.sector;
    n * c * b
}

// Refusal 2: whether the three tables have the lengths that the geometry gives.
pub fn lengths_fit(g: Geometry, sectors: usize, written: usize, durable: usize) -> bool
    requires { Valid g }
    ensures { result ≡ lengths_fit g sectors written durable }
{
    let n = table_cells(g);
    let m = total_bytes(g);
    (sectors == m) & ((written == n) & (durable == n))
}

// Refusal 2: whether a buffer of so many bytes is count × B. By division, since the product could wrap.
pub fn buffer_fits(g: Geometry, count: u64, bytes: usize) -> bool
    requires { Valid g }
    ensures { result ≡ buffer_fits g count bytes }
{
    let b = g.sector;
    let n = bytes / b;
    (bytes % b == 0) & (n as u64 == count)
}

pub fn widen(x: u32) -> usize
    ensures { result ≡ x }
{
    x as usize
}

// Whether a drive has a pointer that no drive can have.
fn drive_bad(written: &[u32], durable: &[u32], g: Geometry, d: usize) -> bool
    requires valid { Valid g }
    requires d_lt_drives { (d < g.drives) × (length written.now ≡ cells g) × (length durable.now ≡ cells g) }
    ensures { result ≡ any_below (pointer_bad g written.now durable.now d) (physical_zones g) }
{
    let mut bad = false;
    for y in 0..g.zones + super::DATA_ZONES {
        let at = super::stores::cell_of(g, d, y);
        bad = bad | ((g.capacity < widen(written[at])) | (written[at] < durable[at]));
    }
    bad
}

// Refusal 3: whether a named drive has a pointer that no drive can have.
#[tactic(auto, unfolding(crate::specs::meaning::Tables::pointers_bad))]
pub fn pointers_bad(
    written: &[u32],
    durable: &[u32],
    g: Geometry,
    named: [bool; MAX_DRIVES],
) -> bool
    requires valid { Valid g }
    requires written_len { (length written.now ≡ cells g) × (length durable.now ≡ cells g) }
    ensures { result ≡ pointers_bad g named written.now durable.now }
{
    let mut bad = false;
    for d in 0..g.drives {
        // Of a drive that is not named, no pointer is read.
        bad = bad | (named[d] && drive_bad(written, durable, g, d));
    }
    bad
}
