// Whether the logs of a kind have the room that a call asks for, and what becomes of one that has not: it is emptied, or the call is refused by 14. "Log full
// is now given only if room would still lack after copying, if outside a mount the spare has sectors written, or where the log to be emptied has generation
// 2^64 − 1"; or where the drive lacks a kind. What the logs hold is looked at only where one lacks room.
ghost use Rattle.std.specs.Prelude.{◌≡◌, ◌&&◌, true, false, ◌≤◌, ◌<◌, ◌-◌, length, ltb};
ghost use Rattle.tables.specs.meaning.Basics.{pick};
ghost use Rattle.tables.specs.meaning.Geometry.{Valid, cells};
ghost use Rattle.volume.specs.meaning.CallContracts.{is_set};
ghost use Rattle.volume.specs.declared.log_room.DriveRoom.TheVariants.{Full, Emptied};
ghost use Rattle.volume.specs.checks.LogRoom.{Asking, kind_lacks_at, unused_at, lacks_at, claim_at, lost_at, drive_room_of, unsized_at, no_answers, with_answer, room_of, emptyings_of, general_room_at, parity_room_at};
ghost use Rattle.volume.specs.emptying.ParityCopies.{PointersWithin};

use super::emptyings::Emptyings;
use super::roles::LogPlaces;
use tables::{Geometry, MAX_DRIVES};

// What a call asks of the logs of a kind, on every drive that is due: one with fewer sectors unused than `below` is emptied, and must have `limit` unused
// then. The geometry of the tables, where the logs lie in it, the drives that are here, and whether the call resets spares with sectors written before it
// empties a log: a mount does, no other call.
#[derive(Clone, Copy)]
pub struct RoomAsked {
    pub first: Geometry,
    pub places: LogPlaces,
    pub here: [bool; MAX_DRIVES],
    pub due: [bool; MAX_DRIVES],
    pub parity: bool,
    pub below: usize,
    pub limit: usize,
    pub clears_spares: bool,
}

// A drive's answer: its log has room or is not asked for any; or it lacks room, and stays full; or it is emptied, and its new log gets this generation.
#[derive(Clone, Copy)]
pub enum DriveRoom {
    Roomy,
    Full,
    Emptied(u64),
}

// That of all drives: whether one stays full; and of those whose log lacks room the generation of the new log, 0 where it stays full.
#[derive(Clone, Copy)]
pub struct LogRoom {
    pub full: bool,
    pub emptied: [Option<u64>; MAX_DRIVES],
}

// Whether a drive lacks a kind.
fn kind_lacks(places: LogPlaces, parity: bool, drive: usize) -> bool
    requires { drive < 8 }
    ensures { result ≡ kind_lacks_at places parity drive }
{
    let no_general = places.no_general;
    let no_parity = places.no_parity;
    if parity {
        return no_parity[drive];
    }
    no_general[drive]
}

// How many sectors of a drive's log are unused; none where the drive lacks the kind.
fn unused(pointers: &[u32], asked: RoomAsked, drive: usize) -> usize
    requires valid { Valid asked.places.geometry }
    requires drive_lt_drives { (drive < asked.places.geometry.drives) × (length pointers.now ≡ cells asked.places.geometry) }
    ensures { result ≡ unused_at asked pointers.now drive }
{
    if kind_lacks(asked.places, asked.parity, drive) {
        return 0;
    }
    let zone = super::emptying::log_zone(asked.parity);
    let n = super::drive_logs::zone_pointer(pointers, asked.places.geometry, drive, zone);
    let c = asked.places.geometry.capacity;
    c - n
}

// Whether a drive is due and its log lacks room.
pub fn lacks_room(pointers: &[u32], asked: RoomAsked, drive: usize) -> bool
    requires valid { Valid asked.places.geometry }
    requires drive_lt_drives { (drive < asked.places.geometry.drives) × (length pointers.now ≡ cells asked.places.geometry) }
    ensures { result ≡ lacks_at asked pointers.now drive }
{
    let due = asked.due;
    let asks = due[drive];
    if !asks {
        return false;
    }
    let left = unused(pointers, asked, drive);
    let below = asked.below;
    left < below
}

// A log that lacks room, before the size of its new log is known.
fn new_log(
    sectors: &[u8],
    written: &[u32],
    pointers: &[u32],
    asked: RoomAsked,
    drive: usize,
) -> DriveRoom
    requires valid { Valid asked.first }
    requires asking { Asking asked sectors.now written.now pointers.now × (drive < asked.first.drives) }
    ensures { result ≡ drive_room_of true (lost_at asked sectors.now written.now pointers.now drive) (claim_at asked sectors.now written.now drive) }
{
    let no_general = kind_lacks(asked.places, false, drive);
    let no_parity = kind_lacks(asked.places, true, drive);
    if no_general | no_parity {
        return DriveRoom::Full;
    }
    let old = super::roles::log_generation(sectors, written, asked.first, drive, asked.parity);
    let spare = super::drive_logs::zone_pointer(
        pointers,
        asked.places.geometry,
        drive,
        super::emptying::SPARE_ZONE,
    );
    let clears = asked.clears_spares;
    if (old == logs::WORN_GENERATION) | (!clears & (0 < spare)) {
        return DriveRoom::Full;
    }
    DriveRoom::Emptied(old + 1)
}

// A drive's answer before the size of its new log is known.
fn room_unsized(
    sectors: &[u8],
    written: &[u32],
    pointers: &[u32],
    asked: RoomAsked,
    drive: usize,
) -> DriveRoom
    requires valid { Valid asked.first }
    requires asking { Asking asked sectors.now written.now pointers.now × (drive < asked.first.drives) }
    ensures { result ≡ unsized_at asked sectors.now written.now pointers.now drive }
{
    let lacks = lacks_room(pointers, asked, drive);
    if !lacks {
        return DriveRoom::Roomy;
    }
    new_log(sectors, written, pointers, asked, drive)
}

// A log that would be emptied, by the size that its new log has.
fn with_size(generation: u64, capacity: usize, limit: usize, size: usize) -> DriveRoom
    ensures { result ≡ pick (ltb (capacity - size) limit) Full (Emptied generation) }
{
    let left = capacity.saturating_sub(size);
    if left < limit {
        return DriveRoom::Full;
    }
    DriveRoom::Emptied(generation)
}

// No drive has answered yet.
fn no_answers() -> LogRoom
    ensures { result ≡ no_answers }
{
    LogRoom {
        full: false,
        emptied: [None; MAX_DRIVES],
    }
}

// The answers with that of one more drive.
fn with_answer(all: LogRoom, drive: usize, room: DriveRoom) -> LogRoom
    requires { drive < 8 }
    ensures { result ≡ with_answer all drive room }
{
    let mut out = all;
    out.full |= matches!(room, DriveRoom::Full);
    out.emptied[drive] = match room {
        DriveRoom::Roomy => None,
        DriveRoom::Full => Some(0),
        DriveRoom::Emptied(generation) => Some(generation),
    };
    out
}

// A drive's answer for its general log, by the generations in force.
fn general_on(
    sectors: &[u8],
    written: &[u32],
    pointers: &[u32],
    asked: RoomAsked,
    generations: &[u64],
    drive: usize,
) -> DriveRoom
    requires valid { Valid asked.first }
    requires asking { Asking asked sectors.now written.now pointers.now × (drive < asked.first.drives) × (asked.first.zones ≤ length generations.now) }
    ensures { result ≡ general_room_at asked generations.now sectors.now written.now pointers.now drive }
{
    match room_unsized(sectors, written, pointers, asked, drive) {
        DriveRoom::Roomy => DriveRoom::Roomy,
        DriveRoom::Full => DriveRoom::Full,
        DriveRoom::Emptied(generation) => {
            let g = asked.places.geometry;
            let size = super::emptying::general_size(sectors, pointers, g, drive, generations);
            with_size(generation, g.capacity, asked.limit, size)
        }
    }
}

// The general logs of all drives.
pub fn general_room(
    sectors: &[u8],
    written: &[u32],
    pointers: &[u32],
    asked: RoomAsked,
    generations: &[u64],
) -> LogRoom
    requires valid { Valid asked.first }
    requires asking { Asking asked sectors.now written.now pointers.now × (asked.first.zones ≤ length generations.now) }
    ensures { result ≡ room_of (general_room_at asked generations.now sectors.now written.now pointers.now) asked.first.drives }
{
    let mut all = no_answers();
    for d in 0..asked.first.drives {
        let room = general_on(sectors, written, pointers, asked, generations, d);
        all = with_answer(all, d, room);
    }
    all
}

// The emptyings of the logs that lack room, none of which stays full.
pub fn emptyings_of(asked: RoomAsked, room: LogRoom) -> Emptyings
    requires { Valid asked.places.geometry }
    ensures { result ≡ emptyings_of asked room }
{
    let from = asked.places.geometry;
    let here = asked.here;
    let emptied = room.emptied;
    let to = super::roles::move_logs(from, asked.parity, emptied);
    Emptyings {
        from,
        to,
        here,
        emptied,
    }
}

// A drive's answer for its parity log, by the zones' pointers in force.
fn parity_on(
    sectors: &[u8],
    written: &[u32],
    pointers: &[u32],
    asked: RoomAsked,
    points: &[usize],
    drive: usize,
) -> DriveRoom
    requires valid { Valid asked.first }
    requires asking { Asking asked sectors.now written.now pointers.now × (drive < asked.first.drives) × PointersWithin asked.first points.now }
    ensures { result ≡ parity_room_at asked points.now sectors.now written.now pointers.now drive }
{
    match room_unsized(sectors, written, pointers, asked, drive) {
        DriveRoom::Roomy => DriveRoom::Roomy,
        DriveRoom::Full => DriveRoom::Full,
        DriveRoom::Emptied(generation) => {
            let g = asked.first;
            let size = super::emptying_parity::parity_size(g, drive, points);
            with_size(generation, g.capacity, asked.limit, size)
        }
    }
}

// The parity logs of all drives.
pub fn parity_room(
    sectors: &[u8],
    written: &[u32],
    pointers: &[u32],
    asked: RoomAsked,
    points: &[usize],
) -> LogRoom
    requires valid { Valid asked.first }
    requires asking { Asking asked sectors.now written.now pointers.now × PointersWithin asked.first points.now }
    ensures { result ≡ room_of (parity_room_at asked points.now sectors.now written.now pointers.now) asked.first.drives }
{
    let mut all = no_answers();
    for d in 0..asked.first.drives {
        let room = parity_on(sectors, written, pointers, asked, points, d);
        all = with_answer(all, d, room);
    }
    all
}
