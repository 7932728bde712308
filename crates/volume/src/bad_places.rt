// Where a log is bad (document 02, 2.5; specs: `first_bad_place`): of the present drives' counting logs the first bad place, by drive, physical zone and
// sector. A walk is left at its log's first one.
ghost use Rattle.std.specs.Prelude.{◌≡◌, ◌<◌};
ghost use Rattle.tables.specs.meaning.Basics.{pick};
ghost use Rattle.tables.specs.meaning.Geometry.{Valid, physical_zones};
ghost use Rattle.tables.specs.meaning.Tables.{zone_place};
ghost use Rattle.logs.specs.meaning.Entry.{fault_number};
ghost use Rattle.logs.specs.meaning.Walk.{walk_log};
ghost use Rattle.volume.specs.meaning.CallContracts.{is_set};
ghost use Rattle.volume.specs.meaning.Refusals.{no_bad_place, bad_place_in, first_of, drive_bad_place, first_bad_place};
ghost use Rattle.volume.specs.looking.DriveLogs.{Sized, bad_place_seen};
ghost use Rattle.volume.specs.looking.Knowing.{read_device};

use super::BadPlace;
use logs::{Fault, WalkEnd};
use tables::{Geometry, MAX_DRIVES};

// The number by which a log is refused for a fault.
fn fault_number(fault: Fault) -> u8
    ensures { result ≡ fault_number fault }
{
    match fault {
        Fault::NoMark => 6,
        Fault::NotLegal => 16,
        Fault::RowsPast => 17,
    }
}

// No bad place.
pub fn no_place() -> BadPlace
    ensures { result ≡ no_bad_place }
{
    BadPlace {
        number: 0,
        drive: 0,
        zone: 0,
        sector: 0,
    }
}

// The bad place of a log in a physical zone, by the end of its walk.
fn place_at(drive: usize, zone: usize, end: WalkEnd) -> BadPlace
    requires { (drive < 256) × (zone < 256) × ((bad_place_seen drive zone end).sector < 65536) }
    ensures { result ≡ bad_place_seen drive zone end }
{
    match end {
        WalkEnd::AtPointer(_) => no_place(),
        WalkEnd::NoEntry(sector, fault) => {
            let number = fault_number(fault);
            BadPlace {
                number,
                drive: drive as u8,
                zone: zone as u8,
                sector: sector as u16,
            }
        }
        WalkEnd::Torn(_) => no_place(),
    }
}

// The bad place of one log of a drive.
fn log_place(
    sectors: &[u8],
    written: &[u32],
    g: Geometry,
    drive: usize,
    zone: usize,
    parity: bool,
) -> BadPlace
    requires valid { Valid g }
    requires sized { Sized g sectors.now written.now × (drive < g.drives) × (zone < physical_zones g) }
    ensures { result ≡ bad_place_in drive (zone_place g drive zone) (walk_log g drive parity (read_device g sectors.now written.now drive zone).sectors) }
{
    let n = super::drive_logs::zone_pointer(written, g, drive, zone);
    let end = logs::walking::walk_log(sectors, g, drive, zone, parity, n);
    let place = tables::stores::zone_place(g, drive, zone);
    place_at(drive, place, end)
}

// Of two, the first that there is.
fn first_of(a: BadPlace, b: BadPlace) -> BadPlace
    ensures { result ≡ first_of a b }
{
    let number = a.number;
    if number == 0 {
        return b;
    }
    a
}

// The first of a drive's two logs, the lower zone's before the other's.
fn drive_place(sectors: &[u8], written: &[u32], g: Geometry, drive: usize) -> BadPlace
    requires valid { Valid g }
    requires sized { Sized g sectors.now written.now × (drive < g.drives) }
    ensures { result ≡ drive_bad_place g (zone_place g drive) (read_device g sectors.now written.now) drive }
{
    let general = log_place(sectors, written, g, drive, logs::GENERAL_LOG, false);
    let parity = log_place(sectors, written, g, drive, logs::PARITY_LOG, true);
    let y = tables::stores::zone_place(g, drive, logs::GENERAL_LOG);
    let z = tables::stores::zone_place(g, drive, logs::PARITY_LOG);
    if y < z {
        return first_of(general, parity);
    }
    first_of(parity, general)
}

// A drive that is not present has none.
fn present_place(sectors: &[u8], written: &[u32], g: Geometry, present: bool, d: usize) -> BadPlace
    requires valid { Valid g }
    requires sized { Sized g sectors.now written.now × (d < g.drives) }
    ensures { result ≡ pick present (drive_bad_place g (zone_place g d) (read_device g sectors.now written.now) d) no_bad_place }
{
    if !present {
        return no_place();
    }
    drive_place(sectors, written, g, d)
}

// The first of all.
#[tactic(auto, unfolding(crate::specs::meaning::Refusals::first_bad_place))]
pub fn first_bad(sectors: &[u8], written: &[u32], g: Geometry, here: [bool; MAX_DRIVES]) -> BadPlace
    requires valid { Valid g }
    requires sized { Sized g sectors.now written.now }
    ensures { result ≡ first_bad_place g (is_set here) (zone_place g) (read_device g sectors.now written.now) }
{
    let mut bad = no_place();
    for d in 0..g.drives {
        let next = present_place(sectors, written, g, here[d], d);
        bad = first_of(bad, next);
    }
    bad
}
