// The walk of a log, sector by sector over the zone's own sectors. It is left
// - at the written pointer, where the log is whole;
// - at a sector that is no entry: without mark or version, otherwise not legal, or with rows past the zone's end C;
// - at a torn entry: one whose rows reach past the written pointer, but not past C.
// The position is that of the first sector that belongs to no whole entry.
ghost use Rattle.std.specs.Prelude.{◌≡◌, [], ◌≤◌, ◌<◌, get_or, length};
ghost use Rattle.tables.specs.meaning.Geometry.{Valid, physical_zones, total_bytes};
ghost use Rattle.logs.specs.meaning.Entry.{decode, fault_of};
ghost use Rattle.logs.specs.code.Judge.{found};
ghost use Rattle.logs.specs.meaning.Walk.{walk_log};
ghost use Rattle.logs.specs.code.WalkCode.{InLog, log_sectors, walk_end_of, end_place, left_at};
ghost use Rattle.logs.specs.code.Steps.{step_of};
ghost use Rattle.logs.specs.code.ZoneWalk.{InZone, LegalEnd, sectors_in, step_in_zone, zone_bytes};

use super::{Fault, Found, Log, WalkEnd};
use tables::Geometry;

// What sector p of a log holds.
pub fn judge_at(
    sectors: &[u8],
    g: Geometry,
    drive: usize,
    zone: usize,
    parity: bool,
    n: usize,
    p: usize,
) -> Found
    requires valid { Valid g }
    requires in_log { InLog g drive zone n sectors.now × (p < n) }
    ensures { result ≡ found (decode g drive parity (get_or (log_sectors g drive zone sectors.now n) p [])) }
{
    let b = g.sector;
    let at = tables::stores::byte_at(g, drive, zone, p);
    let end = at + b;
    super::judging::judge(&sectors[at..end], g, drive, parity)
}

// What sector p of a zone holds, in the zone's own bytes.
fn judge_in_zone(
    bytes: &[u8],
    g: Geometry,
    drive: usize,
    parity: bool,
    written: usize,
    p: usize,
) -> Found
    requires valid { Valid g }
    requires in_zone { InZone g written bytes.now × (p < written) }
    ensures { result ≡ found (decode g drive parity (get_or (sectors_in g.sector bytes.now written) p [])) }
{
    let b = g.sector;
    let at = p * b;
    let end = at + b;
    super::judging::judge(&bytes[at..end], g, drive, parity)
}

// Why sector p of a zone is no legal header, of one that is none.
fn fault_in_zone(bytes: &[u8], g: Geometry, written: usize, p: usize) -> Fault
    requires valid { Valid g }
    requires in_zone { InZone g written bytes.now × (p < written) }
    ensures { result ≡ fault_of (get_or (sectors_in g.sector bytes.now written) p []) }
{
    let b = g.sector;
    let at = p * b;
    let end = at + b;
    super::judging::fault_of(&bytes[at..end])
}

// One step of the walk, in the zone's own bytes: the entry that begins at sector p and where the next one begins, or why the walk is left there.
pub fn step_in_zone(
    bytes: &[u8],
    g: Geometry,
    drive: usize,
    parity: bool,
    written: usize,
    p: usize,
) -> Result<(Found, usize), WalkEnd>
    requires { Valid g × (InZone g written bytes.now × (p ≤ written)) }
    ensures { result ≡ step_in_zone g drive parity written bytes.now p }
{
    if written <= p {
        return Err(WalkEnd::AtPointer(p));
    }
    let c = g.capacity;
    let f = judge_in_zone(bytes, g, drive, parity, written, p);
    let rows = super::judging::rows_of(f, g);
    let bad = super::judging::is_bad(f);
    let q = p + 1 + rows;
    if bad {
        let fault = fault_in_zone(bytes, g, written, p);
        return Err(WalkEnd::NoEntry(p, fault));
    }
    if c < q {
        return Err(WalkEnd::NoEntry(p, Fault::RowsPast));
    }
    if written < q {
        return Err(WalkEnd::Torn(p));
    }
    Ok((f, q))
}

// Where the legal part of a log ends, and why: over its entries and their rows, in the zone's own bytes.
pub fn walk_zone(bytes: &[u8], g: Geometry, drive: usize, parity: bool, written: usize) -> WalkEnd
    requires { Valid g × InZone g written bytes.now }
    ensures { LegalEnd g drive parity written bytes.now result }
{
    let mut p = 0;
    // kept: where the next entry begins is known only from this one, so there is no range to go over.
    loop {
        match step_in_zone(bytes, g, drive, parity, written, p) {
            Ok((_, q)) => p = q,
            Err(end) => return end,
        }
    }
}

// A zone's part of the lent sectors: what a reader is laid over.
fn zone_part<'a>(sectors: &'a [u8], g: Geometry, drive: usize, zone: usize) -> &'a [u8]
    requires valid { Valid g }
    requires drive_lt_drives { (drive < g.drives) × ((zone < physical_zones g) × (length sectors.now ≡ total_bytes g)) }
    ensures { result.now ≡ zone_bytes g drive zone sectors.now }
{
    let c = g.capacity;
    let b = g.sector;
    let cell = tables::stores::cell_of(g, drive, zone);
    let size = c * b;
    let at = cell * size;
    let end = at + size;
    &sectors[at..end]
}

// One step of the walk, for a zone of the lent sectors: a reader is laid over the zone's part of them, and takes it.
pub fn next_entry(
    sectors: &[u8],
    g: Geometry,
    log: Log,
    parity: bool,
    p: usize,
) -> Result<(Found, usize), WalkEnd>
    requires valid { Valid g }
    requires in_log { InLog g log.drive log.zone log.written sectors.now × (p ≤ log.written) }
    ensures { result ≡ step_of g p (left_at g log.drive parity (log_sectors g log.drive log.zone sectors.now log.written) p) }
{
    let bytes = zone_part(sectors, g, log.drive, log.zone);
    super::reader::next_step(bytes, g, log.drive, parity, log.written, p)
}

// Where the legal part of a log ends, and why, for a zone of the lent sectors: by a reader too.
pub fn walk_log(
    sectors: &[u8],
    g: Geometry,
    drive: usize,
    zone: usize,
    parity: bool,
    n: usize,
) -> WalkEnd
    requires valid { Valid g }
    requires in_log { InLog g drive zone n sectors.now }
    ensures { (result ≡ walk_end_of (walk_log g drive parity (log_sectors g drive zone sectors.now n)))
        × (end_place result ≤ n) }
{
    let bytes = zone_part(sectors, g, drive, zone);
    super::reader::legal_end(bytes, g, drive, parity, n)
}
