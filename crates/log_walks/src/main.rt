// Logs on the geometry of document 01's worked cases, walked, one line each. All stand on drive 3, the parity drive of stripe 0 of zone 0:
// type 4 in physical zone 1, the others in physical zone 0. Kinds of lines:
// - damaged T B: two entries of type T, byte B of the first one's header changed;
// - torn F N: a partial parity entry of F sectors, N sectors written;
// - full F N: entries up to sector 30 of the parity log, there one of F sectors, N sectors written;
// - mixed N: a general log of eight entries of all types that it may hold, N sectors written.
// Then the walk's position and reason (0 at the pointer, 1 no entry, 2 torn). A general log goes on with what its headers say: the lost
// drive of the last label, the place of the last counters and their number for zone 0, a reset of zone 0 in generation 2, the least seal
// of zone 1 in generation 9. A parity log with the places of the last whole entries of zone 0 in generation 7 that end past 0 and past 2,
// and the rows that its torn entry has.
#![tactic(auto)]

ghost use Rattle.std.specs.Prelude.{◌≡◌, ◌≤◌, ◌<◌, length};
ghost use Rattle.tables.specs.meaning.Geometry.{Valid};
ghost use Rattle.logs.specs.code.WalkCode.{InLog};
ghost use Rattle.log_walks.specs.Worked.{Worked};

use logs::WalkEnd;
use std::io;
use tables::Geometry;

const ARRAY: u64 = 81985529216486895;

fn shape() -> Geometry
    ensures { Worked result }
{
    tables::bounds::geometry_of(4, 64, 2, 2, 32)
}

fn zeros() -> [u8; 40960]
    ensures { 40960 ≡ length result }
{
    [0; 40960]
}

// The lost drive that a label names: none for 0.
fn lost_of(x: usize) -> usize
    requires { x ≤ 8 }
    ensures { result < 256 }
{
    if x == 0 { 255 } else { x }
}

// A header of each type, with one number that varies.
fn header(out: &mut [u8], g: Geometry, kind: usize, x: usize)
    requires worked { Worked g }
    requires out_len { (length out.old ≡ 64) × (x ≤ 5) }
{
    match kind {
        1 => logs::headers::write_label(out, g, 3, lost_of(x), ARRAY),
        2 => logs::headers::write_counters(out, g, 3, &[x as u64, 9]),
        3 => logs::headers::write_reset(out, g, 3, 0, x as u64),
        4 => logs::headers::write_partial(out, g, 3, 0, 0, x, 7),
        _ => logs::headers::write_seal(out, g, 3, 1, x, 9),
    }
}

// Puts a header into sector i of a log.
fn place(sectors: &mut [u8], g: Geometry, zone: usize, i: usize, kind: usize, x: usize)
    requires worked { Worked g }
    requires sectors_len { (length sectors.old ≡ 40960) × (zone < 5) × (i < 32) × (x ≤ 5) }
{
    let at = tables::stores::byte_at(g, 3, zone, i);
    header(&mut sectors[at..at + 64], g, kind, x);
}

fn show_end(rt: &impl Print, end: WalkEnd) -> io::Result<()> {
    match end {
        WalkEnd::AtPointer(p) => print!(rt; " {p} 0"),
        WalkEnd::NoEntry(p, _) => print!(rt; " {p} 1"),
        WalkEnd::Torn(p) => print!(rt; " {p} 2"),
    }
}

// The rows that a torn entry has.
fn show_rows(rt: &impl Print, end: WalkEnd, n: usize) -> io::Result<()> {
    let WalkEnd::Torn(p) = end else {
        return Ok(());
    };
    print!(rt; " {}", n.saturating_sub(p).saturating_sub(1))
}

fn show_walk(
    rt: &impl Print,
    sectors: &[u8],
    g: Geometry,
    zone: usize,
    par: bool,
    n: usize,
) -> io::Result<()>
    requires valid { Valid g }
    requires in_log { InLog g 3 zone n sectors.now }
{
    show_end(rt, logs::walking::walk_log(sectors, g, 3, zone, par, n))
}

fn show_general(rt: &impl Print, sectors: &[u8], g: Geometry, n: usize) -> io::Result<()>
    requires worked { Worked g }
    requires sectors_len { (length sectors.now ≡ 40960) × (n ≤ 32) }
{
    show_walk(rt, sectors, g, 0, false, n)?;
    let log = logs::Log {
        drive: 3,
        zone: 0,
        written: n,
    };
    let lost = logs::folds::last_lost(sectors, g, log);
    let place = logs::folds::last_counters(sectors, g, log);
    let generation = logs::folds::last_generation(sectors, g, log, 0);
    let reset = u64::from(logs::folds::has_reset(sectors, g, log, 0, 2));
    let least = logs::folds::least_seal(sectors, g, log, 1, 9, 96);
    println!(rt; " {lost} {place} {generation} {reset} {least}")
}

fn show_parity(rt: &impl Print, sectors: &[u8], g: Geometry, n: usize) -> io::Result<()>
    requires worked { Worked g }
    requires sectors_len { (length sectors.now ≡ 40960) × (n ≤ 32) }
{
    show_walk(rt, sectors, g, 1, true, n)?;
    let log = logs::Log {
        drive: 3,
        zone: 1,
        written: n,
    };
    let any = logs::folds::last_partial(sectors, g, log, 0, 7, 0, 96);
    let past = logs::folds::last_partial(sectors, g, log, 0, 7, 2, 96);
    let end = logs::walking::walk_log(sectors, g, 3, 1, true, n);
    print!(rt; " {any} {past}")?;
    show_rows(rt, end, n)?;
    println!(rt)
}

// Changes one byte of a log's first sector.
fn change(sectors: &mut [u8], g: Geometry, zone: usize, b: usize)
    requires worked { Worked g }
    requires sectors_len { (length sectors.old ≡ 40960) × (zone < 5) × (b < 64) }
{
    let at = tables::stores::byte_at(g, 3, zone, 0);
    sectors[at + b] ^= 1;
}

fn damaged(
    rt: &impl Print,
    sectors: &mut [u8],
    g: Geometry,
    kind: usize,
    b: usize,
) -> io::Result<()>
    requires worked { Worked g }
    requires sectors_len { (length sectors.old ≡ 40960) × (b < 64) }
{
    print!(rt; "damaged {kind} {b}")?;
    if kind == 4 {
        place(sectors, g, 1, 0, 4, 2);
        place(sectors, g, 1, 3, 4, 2);
        change(sectors, g, 1, b);
        return show_parity(rt, sectors, g, 6);
    }
    place(sectors, g, 0, 0, kind, 2);
    place(sectors, g, 0, 1, kind, 2);
    change(sectors, g, 0, b);
    show_general(rt, sectors, g, 2)
}

fn torn(rt: &impl Print, sectors: &mut [u8], g: Geometry, fill: usize, n: usize) -> io::Result<()>
    requires worked { Worked g }
    requires sectors_len { (length sectors.old ≡ 40960) × (fill ≤ 5) × (n ≤ 32) }
{
    print!(rt; "torn {fill} {n}")?;
    place(sectors, g, 1, 0, 4, fill);
    show_parity(rt, sectors, g, n)
}

fn full(rt: &impl Print, sectors: &mut [u8], g: Geometry, fill: usize, n: usize) -> io::Result<()>
    requires worked { Worked g }
    requires sectors_len { (length sectors.old ≡ 40960) × (fill ≤ 5) × (n ≤ 32) }
{
    print!(rt; "full {fill} {n}")?;
    place(sectors, g, 1, 30, 4, fill);
    show_parity(rt, sectors, g, n)
}

fn mixed(rt: &impl Print, sectors: &[u8], g: Geometry, n: usize) -> io::Result<()>
    requires worked { Worked g }
    requires sectors_len { (length sectors.now ≡ 40960) × (n ≤ 32) }
{
    print!(rt; "mixed {n}")?;
    show_general(rt, sectors, g, n)
}

// Types 1 to 5, each with each of the first 56 bytes changed.
fn all_damaged(rt: &impl Print, sectors: &mut [u8], g: Geometry) -> io::Result<()>
    requires worked { Worked g }
    requires sectors_len { length sectors.old ≡ 40960 }
{
    for i in 0..280 {
        damaged(rt, sectors, g, i / 56 + 1, i % 56)?;
    }
    Ok(())
}

// 1 to 5 sectors below the entry's end, 0 to 4 sectors written.
fn all_torn(rt: &impl Print, sectors: &mut [u8], g: Geometry) -> io::Result<()>
    requires worked { Worked g }
    requires sectors_len { length sectors.old ≡ 40960 }
{
    for i in 0..25 {
        torn(rt, sectors, g, i / 5 + 1, i % 5)?;
    }
    Ok(())
}

// Fifteen entries of one row.
fn build_full(sectors: &mut [u8], g: Geometry)
    requires worked { Worked g }
    requires sectors_len { length sectors.old ≡ 40960 }
{
    for i in 0..15 {
        place(sectors, g, 1, 2 * i, 4, 1);
    }
}

// Then one of one row or two where the zone ends.
fn all_full(rt: &impl Print, sectors: &mut [u8], g: Geometry) -> io::Result<()>
    requires worked { Worked g }
    requires sectors_len { length sectors.old ≡ 40960 }
{
    full(rt, sectors, g, 1, 30)?;
    full(rt, sectors, g, 1, 31)?;
    full(rt, sectors, g, 1, 32)?;
    full(rt, sectors, g, 2, 31)?;
    full(rt, sectors, g, 2, 32)
}

// A label, counters, a label that names drive 2, a reset.
fn build_mixed(sectors: &mut [u8], g: Geometry)
    requires worked { Worked g }
    requires sectors_len { length sectors.old ≡ 40960 }
{
    place(sectors, g, 0, 0, 1, 0);
    place(sectors, g, 0, 1, 2, 1);
    place(sectors, g, 0, 2, 1, 2);
    place(sectors, g, 0, 3, 3, 2);
}

// Two seals, counters, and a label that names no drive of the volume.
fn build_more(sectors: &mut [u8], g: Geometry)
    requires worked { Worked g }
    requires sectors_len { length sectors.old ≡ 40960 }
{
    place(sectors, g, 0, 4, 5, 3);
    place(sectors, g, 0, 5, 5, 4);
    place(sectors, g, 0, 6, 2, 3);
    place(sectors, g, 0, 7, 1, 5);
}

fn all_mixed(rt: &impl Print, sectors: &[u8], g: Geometry) -> io::Result<()>
    requires worked { Worked g }
    requires sectors_len { length sectors.now ≡ 40960 }
{
    for n in 0..10 {
        mixed(rt, sectors, g, n)?;
    }
    Ok(())
}

fn main(rt: HostRuntime) -> io::Result<()> {
    let g = shape();
    let mut space = zeros();
    let sectors: &mut [u8] = &mut space;
    all_damaged(&rt, sectors, g)?;
    all_torn(&rt, sectors, g)?;
    build_full(sectors, g);
    all_full(&rt, sectors, g)?;
    build_mixed(sectors, g);
    build_more(sectors, g);
    all_mixed(&rt, sectors, g)
}
