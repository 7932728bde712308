// The other sectors of a row, added to a buffer that holds the row's parity: what is left there is the sector that was not read. Where the row lies is
// computed once, before the loop over its units.
ghost use Rattle.std.specs.Prelude.{◌≡◌, List, ℕ, ◌+◌, ◌-◌, ◌≤◌, ◌<◌, length};
ghost use Rattle.tables.specs.meaning.Geometry.{Valid, total_bytes, data_zone};
ghost use Rattle.tables.specs.meaning.Placement.{unit_drive};
ghost use Rattle.tables.specs.meaning.Tables.{byte_at};
ghost use Rattle.tables.specs.meaning.Xor.{xor_bytes};
ghost use Rattle.volume.specs.looking.RowOthers.{RowFits, is_other, unit_sector, others_below};

use tables::Geometry;

// Where a row lies: the sectors numbered `sector` of a zone, on all drives; `parity` is the drive of its parity, `start` the address of its first unit's
// sector. The others are those below the address `end` but that of unit `own`.
#[derive(Clone, Copy)]
pub struct RowPlace {
    pub zone: usize,
    pub parity: usize,
    pub sector: usize,
    pub start: usize,
    pub own: usize,
    pub end: usize,
}

// Whether unit k's sector is one of the others.
fn is_other(g: Geometry, row: RowPlace, k: usize) -> bool
    requires valid { Valid g }
    requires row_fits { RowFits g row × (k < g.drives) }
    ensures { result ≡ is_other g row k }
{
    let u = g.unit;
    let start = row.start;
    let own = row.own;
    let end = row.end;
    (k != own) & (start + k * u < end)
}

// The first byte of unit k's sector.
fn unit_byte(g: Geometry, row: RowPlace, k: usize) -> usize
    requires valid { Valid g }
    requires row_fits { RowFits g row × (k < g.drives) }
    ensures { (result ≡ byte_at g (unit_drive g.drives row.parity k) (data_zone row.zone) row.sector) × (result + g.sector ≤ total_bytes g) }
{
    let z = row.zone;
    let d = tables::placement::unit_drive(g.drives, row.parity, k);
    tables::stores::byte_at(g, d, tables::DATA_ZONES + z, row.sector)
}

// Adds unit k's sector.
fn xor_unit(sectors: &[u8], g: Geometry, row: RowPlace, k: usize, out: &mut [u8])
    requires valid { Valid g }
    requires row_fits { RowFits g row × (k < g.drives) × (length sectors.now ≡ total_bytes g) × (length out.old ≡ g.sector) }
    ensures { out.new ≡ xor_bytes out.old (unit_sector g sectors.now row k) }
{
    let from = unit_byte(g, row, k);
    let b = g.sector;
    let end = from + b;
    tables::sectors::xor_into(out, &sectors[from..end]);
}

// Adds it and the next unit's in one pass.
fn xor_pair(sectors: &[u8], g: Geometry, row: RowPlace, k: usize, out: &mut [u8])
    requires valid { Valid g }
    requires row_fits { RowFits g row × (k + 1 < g.drives) × (length sectors.now ≡ total_bytes g) × (length out.old ≡ g.sector) }
    ensures { out.new ≡ xor_bytes (xor_bytes out.old (unit_sector g sectors.now row k)) (unit_sector g sectors.now row (k + 1)) }
{
    let from = unit_byte(g, row, k);
    let next = unit_byte(g, row, k + 1);
    let b = g.sector;
    let end = from + b;
    let next_end = next + b;
    tables::sectors::xor_two(out, &sectors[from..end], &sectors[next..next_end]);
}

// The next units from k on: two at once where both are among the others, else one, added or left out. Gives the unit after them. (Whatever zs the
// buffer held before: if it now has the others below k added, it then has those below m.)
fn xor_next(sectors: &[u8], g: Geometry, row: RowPlace, k: usize, out: &mut [u8]) -> usize
    requires valid { Valid g }
    requires row_fits { RowFits g row × (k + 1 < g.drives) × (length sectors.now ≡ total_bytes g) × (length out.old ≡ g.sector) }
    ensures { (k < result) × (result < g.drives) × ((zs : List ℕ) → out.old ≡ xor_bytes zs (others_below g sectors.now row k) → out.new ≡ xor_bytes zs (others_below g sectors.now row result)) }
{
    let other = is_other(g, row, k);
    if !other {
        return k + 1;
    }
    let n = g.drives - 1;
    let more = is_other(g, row, k + 1);
    if (k + 1 < n) & more {
        xor_pair(sectors, g, row, k, out);
        return k + 2;
    }
    xor_unit(sectors, g, row, k, out);
    k + 1
}

// Adds all the others.
pub fn xor_row(sectors: &[u8], g: Geometry, row: RowPlace, out: &mut [u8])
    requires valid { Valid g }
    requires row_fits { RowFits g row × (length sectors.now ≡ total_bytes g) × (length out.old ≡ g.sector) }
    ensures { out.new ≡ xor_bytes out.old (others_below g sectors.now row (g.drives - 1)) }
{
    let n = g.drives - 1;
    let mut k = 0;
    // kept: the steps differ, since xor_next takes one unit or two and says where it stopped; a `for` has one step.
    while k < n {
        k = xor_next(sectors, g, row, k, out);
    }
}
