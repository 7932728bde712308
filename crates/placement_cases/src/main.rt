// Document 01's cases a to h, on D 4, U 2, C 32, B 64, L 2, computed by the proved placement functions. The file `stdout` beside src/ holds
// what document 01 says of them.
#![tactic(auto)]

ghost use Rattle.tables.specs.meaning.Geometry.{Valid};

use std::io;
use tables::Geometry;

// Where the sector at an address of the volume lies.
fn place(rt: &impl Print, name: char, g: Geometry, address: usize) -> io::Result<()>
    requires { Valid g }
{
    let n = tables::bounds::zone_sectors(g);
    let zone = address / n;
    if g.zones <= zone {
        return Ok(());
    }
    let a = address % n;
    let d = tables::placement::drive_of(g, zone, a);
    let x = tables::placement::sector_of(g, a);
    println!(rt;
        "{name} drive {d} zone {} sector {x}",
        tables::DATA_ZONES + zone
    )
}

// The parity drive at a sector of zone 0.
fn parity(rt: &impl Print, name: char, g: Geometry, x: usize) -> io::Result<()>
    requires { Valid g }
{
    let stripe = x / g.unit;
    if 65536 < stripe {
        return Ok(());
    }
    let d = tables::placement::parity_drive(g.drives, 0, stripe);
    println!(rt; "{name} drive {d} zone 3 sector {x}")
}

fn need(rt: &impl Print, g: Geometry, n: usize, drive: usize) -> io::Result<()>
    requires { Valid g }
{
    if tables::bounds::zone_sectors(g) < n || g.drives <= drive {
        return Ok(());
    }
    print!(rt; " {}", tables::placement::sectors_needed(g, 0, n, drive))
}

// What pointer n of zone 0 needs of each of the four drives.
fn needs(rt: &impl Print, name: char, g: Geometry, n: usize) -> io::Result<()>
    requires { Valid g }
{
    print!(rt; "{name} needs")?;
    for drive in 0..4 {
        need(rt, g, n, drive)?;
    }
    println!(rt)
}

fn all(rt: &impl Print, g: Geometry) -> io::Result<()>
    requires { Valid g }
{
    place(rt, 'a', g, 0)?;
    place(rt, 'b', g, 7)?;
    place(rt, 'c', g, 95)?;
    place(rt, 'd', g, 96)?;
    parity(rt, 'e', g, 2)?;
    parity(rt, 'e', g, 3)?;
    needs(rt, 'f', g, 5)?;
    needs(rt, 'g', g, 6)?;
    needs(rt, 'h', g, 7)
}

fn main(rt: HostRuntime) -> io::Result<()> {
    let g = tables::bounds::geometry_of(4, 64, 2, 2, 32);
    let ok = tables::bounds::valid(g);
    if ok {
        all(&rt, g)?;
    }
    Ok(())
}
