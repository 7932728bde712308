// Write (document 01): "stripe by stripe its data sectors by address, then U parity sectors if the stripe is complete; if it ends inside a stripe,
// one type 4 entry on the parity drive." Its host owns the zone from then on, and its entry is off the host's share (document 02).
ghost use Rattle.std.specs.Prelude.{◌≡◌, List, ℕ, ◌≤◌, ◌<◌};
ghost use Rattle.tables.specs.meaning.Geometry.{Valid, zone_sectors};
ghost use Rattle.tables.specs.meaning.Tables.{tables_of};
ghost use Rattle.volume.specs.meaning.CallContracts.{record_at, write_on};
ghost use Rattle.volume.specs.looking.DriveLogs.{Sized};
ghost use Rattle.volume.specs.checks.LogRoom.{SeenByRoles};
ghost use Rattle.volume.specs.writing.WriteRoom.{entry_taken_of};
ghost use Rattle.volume.specs.writing.WriteRun.{end_of, RunReady, RunAsked, RunStated, ended_with, Gives, GivesAny, write_zone_on, write_asked_on};
ghost use Rattle.volume.specs.writing.Writing.{write_asked, run_of};

use super::checks::Sizes;
use super::hosts::Allowance;
use super::roles::LogPlaces;
use super::write_room::EntryTaken;
use super::{Answer, Condition, Outcome, Refusal, State, Zone, ZoneRecord};
use tables::{Geometry, MAX_CELLS, MAX_DRIVES};

// What is written: so many sectors of a zone from its pointer on, by a host that may do so much.
#[derive(Clone, Copy)]
pub struct Run {
    pub zone: Zone,
    pub pointer: usize,
    pub count: usize,
    pub host: usize,
    pub allowance: Allowance,
}

// How it ends with `rest` left of the budget. If it finished, the zone is open past the run and the host's own, what the entry takes is off the host's share,
// and a drive that was left out is lost.
fn outcome(run: Run, entry: EntryTaken, state: State, rest: u64) -> Outcome
    requires valid { Valid run.zone.geometry }
    requires number_lt_zones { (run.zone.number < run.zone.geometry.zones) × (run.zone.generation ≡ (record_at state run.zone.number).generation) × (end_of run ≤ zone_sectors run.zone.geometry) × (run.host < 2) }
    requires value { (entry ≡ entry_taken_of run.zone (end_of run)) × (entry.drive < run.zone.geometry.drives) × (entry.sectors ≤ 17) }
    ensures { result ≡ ended_with run state rest }
{
    if rest == 0 {
        return Outcome {
            answer: Answer::Unfinished,
            state,
        };
    }
    let here = run.zone.here;
    let z = run.zone.number;
    let end = run.pointer + run.count;
    let lost = super::checks::left_out(run.zone.geometry, here);
    let owner = super::hosts::owner_of(run.host);
    let before = state.shares;
    let shares = super::hosts::shares_less(before, entry.drive, run.host, entry.sectors);
    let mut zones = state.zones;
    zones[z] = ZoneRecord {
        generation: run.zone.generation,
        condition: Condition::Open(end),
        owner,
    };
    Outcome {
        answer: Answer::Finished,
        state: State {
            lost,
            zones,
            shares,
        },
    }
}

// A write that passed the refusals before 14, with the logs where they lie: refusals 14 and 15, and the stores. What is read is read below the written pointers
// of its start.
fn write_seen(
    sectors: &mut [u8],
    written: &mut [u32],
    pointers: &[u32],
    run: Run,
    places: LogPlaces,
    state: State,
    buffer: &[u8],
    count: u32,
) -> Outcome
    requires valid { Valid run.zone.geometry }
    requires seen_by_roles { SeenByRoles run.zone.geometry places sectors.old written.old pointers.now × RunReady run state written.old buffer.now }
    ensures { GivesAny (λ (ds : List ℕ). write_zone_on run state buffer.now count (tables_of sectors.old written.old ds)) result sectors.new written.new }
{
    let geometry = places.geometry;
    let entry = super::write_room::entry_taken(run.zone, run.pointer + run.count);
    let share = run.allowance.share;
    let full = super::write_room::write_full(pointers, run.zone.geometry, places, share, entry);
    if full {
        return super::checks::refused(Refusal::LogFull, state);
    }
    let here = run.zone.here;
    let lies = Zone {
        geometry,
        here,
        number: run.zone.number,
        generation: run.zone.generation,
    };
    let gone = super::write_checks::gone_before(sectors, pointers, lies, run.pointer);
    if gone {
        return super::checks::refused(Refusal::Gone, state);
    }
    let budget = super::checks::budget_of(count);
    let rest = super::write_stores::write_all(
        sectors,
        written,
        pointers,
        lies,
        geometry,
        run.pointer,
        run.count,
        buffer,
        budget,
    );
    outcome(run, entry, state, rest)
}

// The same, where the logs are still to be found.
fn write_by_roles(
    sectors: &mut [u8],
    written: &mut [u32],
    run: Run,
    state: State,
    buffer: &[u8],
    count: u32,
) -> Outcome
    requires valid { Valid run.zone.geometry }
    requires sized { Sized run.zone.geometry sectors.old written.old × (run.zone.geometry.logs ≡ 0) × RunReady run state written.old buffer.now }
    ensures { GivesAny (λ (ds : List ℕ). write_zone_on run state buffer.now count (tables_of sectors.old written.old ds)) result sectors.new written.new }
{
    let cells = written.len();
    let mut pointers = [0u32; MAX_CELLS];
    let places = super::roles::see_by_roles(
        sectors,
        written,
        &mut pointers[..cells],
        run.zone.geometry,
    );
    write_seen(
        sectors,
        written,
        &pointers[..cells],
        run,
        places,
        state,
        buffer,
        count,
    )
}

// A write in a zone that there is: refusals 7 to 19, and the stores. Where it needs no log but that of its entry, and that has room, no other is looked for.
fn write_zone(
    sectors: &mut [u8],
    written: &mut [u32],
    run: Run,
    state: State,
    buffer: &[u8],
    count: u32,
) -> Outcome
    requires valid { Valid run.zone.geometry }
    requires run_asked { RunAsked run (record_at state run.zone.number).condition sectors.old written.old buffer.now × RunStated run (record_at state run.zone.number).condition state }
    ensures { GivesAny (λ (ds : List ℕ). write_asked_on run state buffer.now count (tables_of sectors.old written.old ds)) result sectors.new written.new }
{
    let z = run.zone.number;
    let records = state.zones;
    let record = records[z];
    let c = record.condition;
    match super::write_directly::write_alone(sectors, written, run, c, buffer, count) {
        Err(refusal) => super::checks::refused(refusal, state),
        Ok(None) => write_by_roles(sectors, written, run, state, buffer, count),
        Ok(Some(made)) => outcome(run, made.entry, state, made.rest),
    }
}

// What is asked: `count` sectors from an offset of a zone that there is, by a host.
fn run_of(
    g: Geometry,
    here: [bool; MAX_DRIVES],
    state: State,
    host: usize,
    z: usize,
    offset: usize,
    count: usize,
) -> Run
    requires valid { Valid g }
    requires z_lt_zones { (z < g.zones) × (offset < zone_sectors g) × (count < 4294967296) }
    ensures { result ≡ run_of g here state host z offset count }
{
    let records = state.zones;
    let record = records[z];
    let zone = Zone {
        geometry: g,
        here,
        number: z,
        generation: record.generation,
    };
    let allowance = super::hosts::allowance_of(g, state, host, z, offset + count);
    Run {
        zone,
        pointer: offset,
        count,
        host,
        allowance,
    }
}

// The call: `run` sectors from an address, out of a buffer, by a host.
pub fn write(
    sectors: &mut [u8],
    written: &mut [u32],
    durable: &[u32],
    g: Geometry,
    named: [bool; MAX_DRIVES],
    state: State,
    host: u32,
    address: u64,
    run: u32,
    buffer: &[u8],
    count: u32,
) -> Outcome
    ensures { Gives (write_on g named state (write_asked host address run buffer.now) count (tables_of sectors.old written.old durable.now)) result (tables_of sectors.new written.new durable.now) }
{
    let within = super::checks::input_within(g, state);
    let lost = state.lost;
    let sizes = Sizes {
        sectors: sectors.len(),
        count: run as u64,
        bytes: buffer.len(),
    };
    if let Err(refusal) = super::checks::opening(within, sizes, written, durable, g, named, lost) {
        return super::checks::refused(refusal, state);
    }
    let z = super::reading::zone_of(g, address);
    let zones = g.zones;
    if zones <= z {
        return super::checks::refused(Refusal::Address, state);
    }
    let here = super::checks::present_drives(g, named, lost);
    let offset = super::reading::offset_of(g, address);
    let asked = run_of(g, here, state, host as usize, z, offset, run as usize);
    write_zone(sectors, written, asked, state, buffer, count)
}
