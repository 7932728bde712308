// A write that needs no log but that of its entry, and finds room there. The other logs count for a write only where a sector of its first stripe is not held:
// they may know it. Where the stripe's earlier sectors are held, and there is no entry or its host's share and its log have room for it, no other log is
// looked for (specs: `directly-ends`).
ghost use Rattle.std.specs.Prelude.{◌≡◌, false, ◌≤◌, ◌<◌, length};
ghost use Rattle.tables.specs.meaning.Geometry.{Valid, zone_sectors, cells};
ghost use Rattle.tables.specs.laws.Made.{MadeAppends};
ghost use Rattle.volume.specs.checks.ZoneChecks.{PointersReach};
ghost use Rattle.volume.specs.looking.DriveLogs.{Sized};
ghost use Rattle.volume.specs.writing.WriteStores.{earlier_held, WriteReady, StoresPast};
ghost use Rattle.volume.specs.writing.WriteRoom.{entry_taken_of};
ghost use Rattle.volume.specs.writing.WriteRun.{end_of, run_stores_of, RunAsked};
ghost use Rattle.volume.specs.writing.WriteDirectly.{entry_log, entry_place, direct_place, TriedOn};

use super::write_room::EntryTaken;
use super::writing::Run;
use super::{Condition, Refusal, Zone};
use tables::{Geometry, MAX_CELLS};

// A write that was made: what is left of its budget of stores, and its entry.
#[derive(Clone, Copy)]
pub struct WriteMade {
    pub rest: u64,
    pub entry: EntryTaken,
}

// The geometry that places a drive's parity log, if that has so much room.
fn entry_log(
    sectors: &[u8],
    written: &[u32],
    g: Geometry,
    drive: usize,
    limit: usize,
) -> Option<Geometry>
    requires valid { Valid g }
    requires sized { Sized g sectors.now written.now × (drive < g.drives) }
    ensures { result ≡ entry_log g sectors.now written.now drive limit }
{
    let log = super::roles::find_parity(sectors, written, g, drive);
    let n = super::drive_logs::zone_pointer(written, g, drive, log.zone);
    if log.lacks | (g.capacity - n < limit) {
        return None;
    }
    Some(super::roles::place_parity(g, drive, log.zone))
}

// The geometry that places the log of a write's entry, if the write needs no other; by what is left of its host's share. The tables' own if there is no entry.
fn entry_place(
    sectors: &[u8],
    written: &[u32],
    g: Geometry,
    share: usize,
    entry: EntryTaken,
) -> Option<Geometry>
    requires valid { Valid g }
    requires sized { Sized g sectors.now written.now × (entry.drive < g.drives) × (entry.sectors ≤ 17) }
    ensures { result ≡ entry_place g share sectors.now written.now entry }
{
    if entry.sectors == 0 {
        return Some(g);
    }
    if share < entry.sectors {
        return None;
    }
    let limit = super::write_room::write_limit(g, entry.sectors);
    entry_log(sectors, written, g, entry.drive, limit)
}

// Whether the earlier sectors of a pointer's stripe are held. With every drive present they are: no drive has less than the pointer needs.
fn earlier_held(written: &[u32], zone: Zone, n: usize) -> bool
    requires valid { Valid zone.geometry }
    requires number_lt_zones { (zone.number < zone.geometry.zones) × (length written.now ≡ cells zone.geometry) × (n ≤ zone_sectors zone.geometry) × PointersReach zone.geometry zone.here written.now zone.number n }
    ensures { result ≡ earlier_held zone.geometry zone.here written.now zone.number n }
{
    let here = zone.here;
    let absent = super::checks::count_absent(zone.geometry, here);
    if absent == 0 {
        return true;
    }
    super::write_stores::earlier_held(written, zone, n)
}

// The same of a write from its zone's pointer on.
fn place_of(sectors: &[u8], written: &[u32], run: Run, entry: EntryTaken) -> Option<Geometry>
    requires valid { Valid run.zone.geometry }
    requires sized { Sized run.zone.geometry sectors.now written.now × (run.zone.number < run.zone.geometry.zones) × (run.pointer ≤ zone_sectors run.zone.geometry) × PointersReach run.zone.geometry run.zone.here written.now run.zone.number run.pointer }
    requires value { (entry ≡ entry_taken_of run.zone (end_of run)) × (entry.drive < run.zone.geometry.drives) × (entry.sectors ≤ 17) }
    ensures { result ≡ direct_place run sectors.now written.now }
{
    let held = earlier_held(written, run.zone, run.pointer);
    if !held {
        return None;
    }
    entry_place(
        sectors,
        written,
        run.zone.geometry,
        run.allowance.share,
        entry,
    )
}

// Its stores, by the geometry that places its entry's log. What is read is read below the written pointers of its start.
fn write_directly(
    sectors: &mut [u8],
    written: &mut [u32],
    run: Run,
    to: Geometry,
    buffer: &[u8],
    budget: u64,
) -> u64
    requires valid { Valid run.zone.geometry }
    requires write_ready { WriteReady run.zone.geometry run.zone.here sectors.old written.old run.zone.number run.zone.generation run.pointer run.count buffer.now × StoresPast run.zone.geometry to written.old written.old }
    ensures { MadeAppends to budget result (run_stores_of run sectors.old written.old buffer.now) sectors.old written.old sectors.new written.new }
{
    let cells = written.len();
    let mut pointers = [0u32; MAX_CELLS];
    tables::sectors::copy_in(&mut pointers[..cells], 0, written);
    super::write_stores::write_all(
        sectors,
        written,
        &pointers[..cells],
        run.zone,
        to,
        run.pointer,
        run.count,
        buffer,
        budget,
    )
}

// Refusals 7 to 12, 18 and 19 of a write in a zone that there is, in condition c; if none applies and it needs no log but that of its entry, its stores.
// Not made: it needs other logs, or is refused by 14.
pub fn write_alone(
    sectors: &mut [u8],
    written: &mut [u32],
    run: Run,
    c: Condition,
    buffer: &[u8],
    count: u32,
) -> Result<Option<WriteMade>, Refusal>
    requires valid { Valid run.zone.geometry }
    requires run_asked { RunAsked run c sectors.old written.old buffer.now }
    ensures { TriedOn run c count buffer.now sectors.old written.old sectors.new written.new result }
{
    super::write_checks::zone_refusal(written, run, c)?;
    let entry = super::write_room::entry_taken(run.zone, run.pointer + run.count);
    let Some(to) = place_of(sectors, written, run, entry) else {
        return Ok(None);
    };
    let budget = super::checks::budget_of(count);
    let rest = write_directly(sectors, written, run, to, buffer, budget);
    Ok(Some(WriteMade { rest, entry }))
}
