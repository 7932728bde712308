// Which of a drive's first three zones are its logs (document 02, 2.2; specs: `roles`). A log of a kind lies in its first place, zone 0 or 1, unless it was
// emptied: then its new zone claims the kind by a closing entry, which stands behind the few entries that an emptying copies. So a zone that is not in
// its first place is walked up to that entry, and one that is, only where another zone claims its kind too: what the logs hold does not count.
ghost use Rattle.std.specs.Prelude.{◌≡◌, ◌≢◌, true, false, suc, ◌+◌, ◌*◌, ◌^◌, ◌<◌, length, leb};
ghost use Rattle.tables.specs.meaning.Geometry.{Valid, cells};
ghost use Rattle.logs.specs.code.WalkCode.{InLog};
ghost use Rattle.logs.specs.code.Query.{log_heads};
ghost use Rattle.logs.specs.meaning.Heads.{first_closing};
ghost use Rattle.volume.specs.meaning.CallContracts.{is_set};
ghost use Rattle.volume.specs.meaning.Roles.{zone_claim, claim_of_kind, other_than, roles, by_roles};
ghost use Rattle.volume.specs.laws.LogPlaces.{with_logs, with_parity};
ghost use Rattle.volume.specs.laws.LogClaims.{strengths};
ghost use Rattle.volume.specs.looking.DriveLogs.{Sized};
ghost use Rattle.volume.specs.looking.Knowing.{read_device};
ghost use Rattle.volume.specs.looking.HiddenLogs.{places_of, hidden_log, hidden_logs};
ghost use Rattle.volume.specs.looking.MovedLogs.{is_emptied, zones_after, moved_logs};
ghost use Rattle.volume.specs.looking.LogZones.{rank, three, moved_claim, home_claim, counting_of, moved_of, ParityClaims, zones_read, zones_by, zones_of};

use logs::Log;
use tables::{Geometry, MAX_DRIVES};

// What zones claim that are not in their first places: 0, or the generation of a closing entry.
#[derive(Clone, Copy)]
struct Moved {
    parity_in_first: u64,
    general_in_second: u64,
    general_in_third: u64,
    parity_in_third: u64,
}

// The counting log of a kind, and whether the drive lacks that kind.
// kept: no Option, since the zone is needed where the kind lacks, too: every role has a zone of its own.
#[derive(Clone, Copy)]
pub struct Counting {
    pub zone: usize,
    pub lacks: bool,
}

// The zones of a drive's two logs, and which kinds it lacks. A log that lacks has a zone all the same, which says nothing.
// kept: no Options, for the same reason.
#[derive(Clone, Copy)]
pub struct LogZones {
    pub general: usize,
    pub parity: usize,
    pub lacks_general: bool,
    pub lacks_parity: bool,
}

// Where the logs of all drives lie, as the geometry that places them there; and for each drive whether it lacks a kind.
#[derive(Clone, Copy)]
pub struct LogPlaces {
    pub geometry: Geometry,
    pub no_general: [bool; MAX_DRIVES],
    pub no_parity: [bool; MAX_DRIVES],
}

// The generation of a zone's first closing entry in a walk for a kind; 0 if there is none.
fn claim_of(
    sectors: &[u8],
    written: &[u32],
    g: Geometry,
    drive: usize,
    zone: usize,
    parity: bool,
) -> u64
    requires valid { Valid g }
    requires sized { Sized g sectors.now written.now × (drive < g.drives) × (zone < 3) }
    ensures { result ≡ zone_claim g drive parity (zones_read g sectors.now written.now drive zone) }
{
    let log = super::drive_logs::log_in(written, g, drive, zone);
    logs::folds::first_closing(sectors, g, log, parity)
}

// What is claimed by zones that are not in their first places.
fn moved_claims(sectors: &[u8], written: &[u32], g: Geometry, drive: usize) -> Moved
    requires valid { Valid g }
    requires sized { Sized g sectors.now written.now × (drive < g.drives) }
    ensures { result ≡ moved_of g drive (zones_read g sectors.now written.now drive) }
{
    let parity_in_first = claim_of(sectors, written, g, drive, 0, true);
    let general_in_second = claim_of(sectors, written, g, drive, 1, false);
    let general_in_third = claim_of(sectors, written, g, drive, 2, false);
    let parity_in_third = claim_of(sectors, written, g, drive, 2, true);
    Moved {
        parity_in_first,
        general_in_second,
        general_in_third,
        parity_in_third,
    }
}

// A zone that is not in its first place as a log of a kind: its generation there, if it is one.
fn moved_claim(generation: u64) -> Option<u64>
    ensures { result ≡ moved_claim generation }
{
    if generation == 0 {
        None
    } else {
        Some(generation)
    }
}

// The same of a zone in its first place, by its claim to be the other log. Its own claim is looked for where another zone makes that claim too (`asked`).
fn home_claim(
    sectors: &[u8],
    g: Geometry,
    log: Log,
    parity: bool,
    other: u64,
    asked: bool,
) -> Option<u64>
    requires valid { Valid g }
    requires in_log { InLog g log.drive log.zone log.written sectors.now }
    ensures { result ≡ home_claim other asked (first_closing (log_heads g log.drive parity log.zone log.written sectors.now)) }
{
    if other != 0 {
        return None;
    }
    if !asked {
        return Some(0);
    }
    Some(logs::folds::first_closing(sectors, g, log, parity))
}

// The strongest of zones 0, 1 and 2, at a tie the lower. No claim is weaker than each claim.
fn strongest_of(first: Option<u64>, second: Option<u64>, third: Option<u64>) -> Counting
    ensures { result ≡ counting_of (three (rank first) (rank second) (rank third)) }
{
    if second <= first && third <= first {
        return Counting {
            zone: 0,
            lacks: first.is_none(),
        };
    }
    if third <= second {
        return Counting {
            zone: 1,
            lacks: second.is_none(),
        };
    }
    Counting {
        zone: 2,
        lacks: third.is_none(),
    }
}

// The general log that counts.
fn general_log(sectors: &[u8], written: &[u32], g: Geometry, drive: usize, moved: Moved) -> Counting
    requires valid { Valid g }
    requires sized { Sized g sectors.now written.now × (drive < g.drives) × (moved ≡ moved_of g drive (zones_read g sectors.now written.now drive)) }
    ensures { result ≡ counting_of (strengths g drive (zones_read g sectors.now written.now drive) false) }
{
    let second = moved.general_in_second;
    let third = moved.general_in_third;
    let asked = (second != 0) | (third != 0);
    let log = super::drive_logs::log_in(written, g, drive, logs::GENERAL_LOG);
    let home = home_claim(sectors, g, log, false, moved.parity_in_first, asked);
    let in_second = moved_claim(second);
    let in_third = moved_claim(third);
    strongest_of(home, in_second, in_third)
}

// The parity log that counts.
fn parity_log(sectors: &[u8], written: &[u32], g: Geometry, drive: usize, moved: Moved) -> Counting
    requires valid { Valid g }
    requires sized { Sized g sectors.now written.now × (drive < g.drives) × ParityClaims g drive (zones_read g sectors.now written.now drive) moved }
    ensures { result ≡ counting_of (strengths g drive (zones_read g sectors.now written.now drive) true) }
{
    let first = moved.parity_in_first;
    let third = moved.parity_in_third;
    let asked = (first != 0) | (third != 0);
    let log = super::drive_logs::log_in(written, g, drive, logs::PARITY_LOG);
    let home = home_claim(sectors, g, log, true, moved.general_in_second, asked);
    let in_first = moved_claim(first);
    let in_third = moved_claim(third);
    strongest_of(in_first, home, in_third)
}

// A zone of the first two other than y.
fn other_than(y: usize) -> usize
    ensures { result ≡ other_than y }
{
    if y == 0 { 1 } else { 0 }
}

// The zones of the two logs. Where a kind lacks, a zone that is not the other log stands for it.
fn zones_by(general: Counting, parity: Counting) -> LogZones
    ensures { result ≡ zones_by general parity }
{
    let s = if general.lacks {
        other_than(parity.zone)
    } else {
        general.zone
    };
    let q = if parity.zone == s {
        other_than(s)
    } else {
        parity.zone
    };
    LogZones {
        general: s,
        parity: q,
        lacks_general: general.lacks,
        lacks_parity: parity.lacks,
    }
}

// The parity log of a drive alone, by the claims that decide on it.
pub fn find_parity(sectors: &[u8], written: &[u32], g: Geometry, drive: usize) -> Counting
    requires valid { Valid g }
    requires sized { Sized g sectors.now written.now × (drive < g.drives) }
    ensures { result ≡ counting_of (strengths g drive (zones_read g sectors.now written.now drive) true) }
{
    let parity_in_first = claim_of(sectors, written, g, drive, 0, true);
    let general_in_second = claim_of(sectors, written, g, drive, 1, false);
    let parity_in_third = claim_of(sectors, written, g, drive, 2, true);
    let moved = Moved {
        parity_in_first,
        general_in_second,
        general_in_third: 0,
        parity_in_third,
    };
    parity_log(sectors, written, g, drive, moved)
}

// Which zones are a drive's logs.
pub fn find_logs(sectors: &[u8], written: &[u32], g: Geometry, drive: usize) -> LogZones
    requires valid { Valid g }
    requires sized { Sized g sectors.now written.now × (drive < g.drives) }
    ensures { result ≡ zones_of (roles g (read_device g sectors.now written.now) drive) }
{
    let moved = moved_claims(sectors, written, g, drive);
    let general = general_log(sectors, written, g, drive, moved);
    let parity = parity_log(sectors, written, g, drive, moved);
    zones_by(general, parity)
}

// The generation of the log of a kind that counts, on a drive that has the kind.
pub fn log_generation(
    sectors: &[u8],
    written: &[u32],
    g: Geometry,
    drive: usize,
    parity: bool,
) -> u64
    requires valid { Valid g }
    requires sized { Sized g sectors.now written.now × (drive < g.drives) × (claim_of_kind parity (roles g (read_device g sectors.now written.now) drive) ≢ 0) }
    ensures { suc result ≡ claim_of_kind parity (roles g (read_device g sectors.now written.now) drive) }
{
    let zones = find_logs(sectors, written, g, drive);
    let zone = if parity { zones.parity } else { zones.general };
    claim_of(sectors, written, g, drive, zone, parity)
}

// A drive's four bits in a geometry's logs.
fn log_bits(zones: LogZones, drive: usize) -> u64
    requires { (zones.general < 3) × (zones.parity < 3) × (drive < 8) }
    ensures { result ≡ (zones.general + 4 * zones.parity) * 2 ^ (4 * drive) }
{
    let general = zones.general;
    let parity = zones.parity;
    let bits = (general + 4 * parity) as u64;
    bits << (4 * drive)
}

// A geometry with these logs.
fn with_logs(g: Geometry, logs: u64) -> Geometry
    ensures { result ≡ with_logs g logs }
{
    let drives = g.drives;
    let sector = g.sector;
    let unit = g.unit;
    let zones = g.zones;
    let capacity = g.capacity;
    Geometry {
        drives,
        sector,
        unit,
        zones,
        capacity,
        logs,
    }
}

// A geometry in which one drive's parity log lies in this zone, and all other drives' logs in their first places.
pub fn place_parity(g: Geometry, drive: usize, zone: usize) -> Geometry
    requires { (zone < 3) × (drive < 8) }
    ensures { result ≡ with_parity g drive zone }
{
    let general = other_than(zone);
    let zones = LogZones {
        general,
        parity: zone,
        lacks_general: false,
        lacks_parity: false,
    };
    let bits = log_bits(zones, drive);
    with_logs(g, bits)
}

// Where the logs of all drives lie.
pub fn place_logs(sectors: &[u8], written: &[u32], g: Geometry) -> LogPlaces
    requires valid { Valid g }
    requires sized { Sized g sectors.now written.now }
    ensures { result ≡ places_of g (roles g (read_device g sectors.now written.now)) }
{
    let mut logs = 0;
    let mut no_general = [false; MAX_DRIVES];
    let mut no_parity = [false; MAX_DRIVES];
    for d in 0..g.drives {
        let zones = find_logs(sectors, written, g, d);
        logs += log_bits(zones, d);
        no_general[d] = zones.lacks_general;
        no_parity[d] = zones.lacks_parity;
    }
    let geometry = with_logs(g, logs);
    LogPlaces {
        geometry,
        no_general,
        no_parity,
    }
}

// Where a drive's logs lie after its log of a kind was emptied, if it was: that log lies where the spare lay.
fn zones_after(g: Geometry, parity: bool, emptied: bool, drive: usize) -> LogZones
    requires { drive < 8 }
    ensures { result ≡ zones_after g parity emptied drive }
{
    let general = if emptied & !parity { 2 } else { 0 };
    let other = if emptied & parity { 2 } else { 1 };
    LogZones {
        general: tables::stores::zone_place(g, drive, general),
        parity: tables::stores::zone_place(g, drive, other),
        lacks_general: false,
        lacks_parity: false,
    }
}

// Where the logs lie after those of a kind were emptied on some drives.
pub fn move_logs(g: Geometry, parity: bool, emptied: [Option<u64>; MAX_DRIVES]) -> Geometry
    requires { Valid g }
    ensures { result ≡ with_logs g (moved_logs g parity (is_emptied emptied) g.drives) }
{
    let mut logs = 0;
    for d in 0..g.drives {
        logs += log_bits(zones_after(g, parity, emptied[d].is_some(), d), d);
    }
    with_logs(g, logs)
}

// The written pointers without that of a log that lacks.
fn hide_log(pointers: &mut [u32], g: Geometry, lacks: bool, drive: usize, zone: usize)
    requires valid { Valid g }
    requires drive_lt_drives { (drive < g.drives) × (zone < 3) × (length pointers.old ≡ cells g) }
    ensures { pointers.new ≡ hidden_log g lacks drive zone pointers.old }
{
    if !lacks {
        return;
    }
    let at = tables::stores::cell_of(g, drive, zone);
    pointers[at] = 0;
}

// A copy of the written pointers in which the logs that lack have no sectors: with the geometry of the places, the tables are then the device by its roles
// (specs: `hidden-by-roles`).
pub fn hide_lacking(written: &[u32], pointers: &mut [u32], places: LogPlaces)
    requires valid { Valid places.geometry }
    requires written_len { (length written.now ≡ cells places.geometry) × (length pointers.old ≡ cells places.geometry) }
    ensures { pointers.new ≡ hidden_logs places written.now places.geometry.drives }
{
    let g = places.geometry;
    tables::sectors::copy_in(pointers, 0, written);
    for d in 0..g.drives {
        hide_log(pointers, g, places.no_general[d], d, logs::GENERAL_LOG);
        hide_log(pointers, g, places.no_parity[d], d, logs::PARITY_LOG);
    }
}

// Where the logs lie, with the written pointers by which the tables are the device by its roles.
pub fn see_by_roles(sectors: &[u8], written: &[u32], pointers: &mut [u32], g: Geometry) -> LogPlaces
    requires valid { Valid g }
    requires sized { Sized g sectors.now written.now × (length pointers.old ≡ cells g) × (g.logs ≡ 0) }
    ensures { (result ≡ places_of g (roles g (read_device g sectors.now written.now)))
        × (read_device result.geometry sectors.now pointers.new ≡ by_roles g (read_device g sectors.now written.now))
        × (pointers.new ≡ hidden_logs result written.now result.geometry.drives) }
{
    let places = place_logs(sectors, written, g);
    hide_lacking(written, pointers, places);
    places
}
