// Reset: type 3 on the zone's two drives; flush all; reset the zone on all; flush all, so that no cut brings the old sectors back behind the raised counters;
// counters raised, on all; flush all.
ghost use Rattle.std.specs.Prelude.{◌≡◌, false, not, ℕ, ◌≤◌, ◌<◌, length, take, ◌++◌, eqb};
ghost use Rattle.tables.specs.meaning.Basics.{pick};
ghost use Rattle.tables.specs.meaning.Drives.{find_below};
ghost use Rattle.tables.specs.meaning.Below.{each_below};
ghost use Rattle.tables.specs.meaning.Geometry.{Valid, zone_sectors, cells, total_bytes, max_zones};
ghost use Rattle.tables.specs.meaning.Phases.{on_present};
ghost use Rattle.tables.specs.meaning.Tables.{tables_of};
ghost use Rattle.tables.specs.laws.Made.{Made, MadeAppends, MadePointers};
ghost use Rattle.logs.specs.meaning.Entry.{worn_generation};
ghost use Rattle.volume.specs.meaning.RefusalNumbers.{number_of};
ghost use Rattle.volume.specs.declared.Answer.TheVariants.{Finished, Unfinished};
ghost use Rattle.volume.specs.meaning.State.{pointer_in};
ghost use Rattle.volume.specs.meaning.CallContracts.{record_at, is_set, reset_on, state_held, view_state};
ghost use Rattle.volume.specs.laws.StateHeld.{reset_record};
ghost use Rattle.volume.specs.looking.DriveLogs.{Sized};
ghost use Rattle.volume.specs.checks.LogRoom.{SeenByRoles};
ghost use Rattle.volume.specs.emptying.Emptyings.{EmptyingReady, emptied_on, new_general_on};
ghost use Rattle.volume.specs.storing.Resetting.{reset_late_number, reset_with, reset_entry, zone_reset_at, counters_at, raised_list};
ghost use Rattle.volume.specs.storing.ResetZone.{ResetReady, reset_zone_on};
ghost use Rattle.volume.specs.meaning.Calls.{reset_state};
ghost use Rattle.volume.specs.checks.Records.{generations_in};

use super::checks::Sizes;
use super::emptyings::Emptyings;
use super::log_room::RoomAsked;
use super::roles::LogPlaces;
use super::{Condition, Outcome, Owner, Refusal, State, Zone, ZoneRecord};
use tables::{Geometry, MAX_CELLS, MAX_DRIVES, MAX_ZONES};

// Refusals 7 and 12 of a reset of a zone that there is, by the state's record of it.
fn zone_refusal(
    written: &[u32],
    g: Geometry,
    here: [bool; MAX_DRIVES],
    r: ZoneRecord,
    z: usize,
) -> Result<(), Refusal>
    requires valid { Valid g }
    requires written_len { (length written.now ≡ cells g) × (z < g.zones) × (pointer_in r.condition ≤ zone_sectors g) }
    ensures { number_of result ≡ reset_late_number g (is_set here) r z written.now }
{
    let condition = r.condition;
    if super::zone_checks::is_stale(written, g, here, condition, z) {
        return Err(Refusal::Stale);
    }
    let generation = r.generation;
    if super::records::is_worn(condition) | (logs::WORN_GENERATION <= generation) {
        return Err(Refusal::Worn);
    }
    Ok(())
}

// The first phase: a type 3 header on the drives of the first unit and of parity of the zone's stripe 0.
fn log_resets(
    sectors: &mut [u8],
    written: &mut [u32],
    g: Geometry,
    here: [bool; MAX_DRIVES],
    z: usize,
    generation: u64,
    budget: u64,
) -> u64
    requires valid { Valid g }
    requires z_lt_zones { (z < g.zones) × (length sectors.old ≡ total_bytes g) × (length written.old ≡ cells g) }
    ensures { MadeAppends g budget result (on_present (is_set here) (each_below (reset_entry g z generation) g.drives)) sectors.old written.old sectors.new written.new }
{
    let first = tables::placement::first_drive(g, z);
    let parity = tables::placement::parity_drive(g.drives, z, 0);
    let mut rest = budget;
    for d in 0..g.drives {
        let due = here[d] & ((d == first) | (d == parity));
        rest = super::logging::append_reset(sectors, written, g, due, d, z, generation, rest);
    }
    rest
}

// The third phase: the zone reset on every drive that is here.
fn reset_zones(
    written: &mut [u32],
    durable: &mut [u32],
    g: Geometry,
    here: [bool; MAX_DRIVES],
    z: usize,
    budget: u64,
) -> u64
    requires valid { Valid g }
    requires z_lt_zones { (z < g.zones) × (length written.old ≡ cells g) × (length durable.old ≡ cells g) }
    ensures { MadePointers g budget result (on_present (is_set here) (each_below (zone_reset_at z) g.drives)) written.old durable.old written.new durable.new }
{
    let mut rest = budget;
    for d in 0..g.drives {
        rest = tables::stores::reset_counted(
            written,
            durable,
            g,
            here[d],
            d,
            tables::DATA_ZONES + z,
            rest,
        );
    }
    rest
}

// The fifth phase, and a step of a mount: the counters on every drive that is here.
pub fn log_counters(
    sectors: &mut [u8],
    written: &mut [u32],
    g: Geometry,
    here: [bool; MAX_DRIVES],
    generations: &[u64],
    budget: u64,
) -> u64
    requires valid { Valid g }
    requires zones_in_bounds { (g.zones ≤ length generations.now) × (length sectors.old ≡ total_bytes g) × (length written.old ≡ cells g) }
    ensures { MadeAppends g budget result (on_present (is_set here) (each_below (counters_at g (take g.zones generations.now)) g.drives)) sectors.old written.old sectors.new written.new }
{
    let mut rest = budget;
    for d in 0..g.drives {
        rest = super::logging::append_counters(sectors, written, g, here[d], d, generations, rest);
    }
    rest
}

// The state's generations, that of zone z raised by one.
fn raised_generations(state: State, z: usize) -> [u64; MAX_ZONES]
    requires { (z < 16) × ((record_at state z).generation < worn_generation) }
    ensures { result ≡ raised_list state z }
{
    let mut raised = super::records::generations_of(state);
    raised[z] += 1;
    raised
}

// The six phases, with the generations that the counters give afterwards.
fn reset_stores(
    sectors: &mut [u8],
    written: &mut [u32],
    durable: &mut [u32],
    zone: Zone,
    generations: &[u64],
    budget: u64,
) -> u64
    requires valid { Valid zone.geometry }
    requires number_lt_zones { (zone.number < zone.geometry.zones) × (zone.geometry.zones ≤ length generations.now) × (length sectors.old ≡ total_bytes zone.geometry) × (length written.old ≡ cells zone.geometry) × (length durable.old ≡ cells zone.geometry) }
    ensures { Made zone.geometry budget result (reset_with zone.geometry (is_set zone.here) zone.number zone.generation (take zone.geometry.zones generations.now)) (tables_of sectors.old written.old durable.old) (tables_of sectors.new written.new durable.new) }
{
    let here = zone.here;
    let z = zone.number;
    let generation = zone.generation;
    let logged = log_resets(sectors, written, zone.geometry, here, z, generation, budget);
    let flushed = super::flushing::flush_all(written, durable, zone.geometry, here, logged);
    let cleared = reset_zones(written, durable, zone.geometry, here, z, flushed);
    let settled = super::flushing::flush_all(written, durable, zone.geometry, here, cleared);
    let counted = log_counters(sectors, written, zone.geometry, here, generations, settled);
    super::flushing::flush_all(written, durable, zone.geometry, here, counted)
}

// The emptyings, and then the phases where the logs lie from then on.
fn reset_from(
    sectors: &mut [u8],
    written: &mut [u32],
    durable: &mut [u32],
    pointers: &[u32],
    all: Emptyings,
    zone: Zone,
    state: State,
    budget: u64,
) -> u64
    requires valid { Valid all.from × Valid zone.geometry }
    requires emptying_ready { EmptyingReady false all pointers.now sectors.old written.old durable.old × (zone.geometry ≡ all.to) × (zone.number < all.from.zones) × ((record_at state zone.number).generation < worn_generation) }
    ensures { Made all.to budget result (each_below (λ d. emptied_on all false (new_general_on all (generations_in state) sectors.old pointers.now d) d) all.from.drives ++ reset_with zone.geometry (is_set zone.here) zone.number zone.generation (take zone.geometry.zones (raised_list state zone.number)))
        (tables_of sectors.old written.old durable.old) (tables_of sectors.new written.new durable.new) }
{
    let z = zone.number;
    let current = super::records::generations_of(state);
    let raised = raised_generations(state, z);
    let rest = super::emptyings::empty_generals(
        sectors, written, durable, pointers, all, &current, budget,
    );
    reset_stores(sectors, written, durable, zone, &raised, rest)
}

// A zone's record after its reset: nobody's.
fn reset_record(r: ZoneRecord) -> ZoneRecord
    requires { r.generation < worn_generation }
    ensures { result ≡ reset_record r }
{
    let generation = r.generation + 1;
    if generation == logs::WORN_GENERATION {
        return ZoneRecord {
            generation,
            condition: Condition::Worn(0),
            owner: Owner::Nobody,
        };
    }
    ZoneRecord {
        generation,
        condition: Condition::Empty,
        owner: Owner::Nobody,
    }
}

// How it ends with `rest` left of the budget. If it finished, the zone's record is that of a zone reset, and a drive that was left out is lost.
fn outcome(zone: Zone, state: State, rest: u64) -> Outcome
    requires valid { Valid zone.geometry }
    requires number_lt_zones { (zone.number < zone.geometry.zones) × ((record_at state zone.number).generation < worn_generation) }
    ensures { result ≡ pick (eqb rest 0) (record { answer = Unfinished; state = state })
        (record { answer = Finished; state = state_held max_zones (reset_state (find_below (λ (d : ℕ). not (is_set zone.here d)) zone.geometry.drives) (view_state state) zone.number) }) }
{
    let here = zone.here;
    let z = zone.number;
    let lost = super::checks::left_out(zone.geometry, here);
    let mut zones = state.zones;
    let record = zones[z];
    zones[z] = reset_record(record);
    let shares = state.shares;
    let next = State {
        lost,
        zones,
        shares,
    };
    super::flushing::ended(state, next, rest)
}

// A reset of a zone that passed refusals 7 and 12, with the logs where they lie: refusal 14, and the stores.
fn reset_seen(
    sectors: &mut [u8],
    written: &mut [u32],
    durable: &mut [u32],
    pointers: &[u32],
    zone: Zone,
    places: LogPlaces,
    state: State,
    count: u32,
) -> Outcome
    requires valid { Valid zone.geometry }
    requires seen_by_roles { SeenByRoles zone.geometry places sectors.old written.old pointers.now × ResetReady zone state durable.old }
    ensures { (result ≡ (reset_zone_on zone state count (tables_of sectors.old written.old durable.old)).outcome)
        × (tables_of sectors.new written.new durable.new ≡ (reset_zone_on zone state count (tables_of sectors.old written.old durable.old)).tables) }
{
    let g = zone.geometry;
    let here = zone.here;
    let zones = g.zones;
    let limit = zones + 4;
    let asked = RoomAsked {
        first: g,
        places,
        here,
        due: here,
        parity: false,
        below: limit,
        limit,
        clears_spares: false,
    };
    let current = super::records::generations_of(state);
    let room = super::log_room::general_room(sectors, written, pointers, asked, &current);
    let full = room.full;
    if full {
        return super::checks::refused(Refusal::LogFull, state);
    }
    let all = super::log_room::emptyings_of(asked, room);
    let to = all.to;
    let own = Zone {
        geometry: to,
        here,
        number: zone.number,
        generation: zone.generation,
    };
    let budget = super::checks::budget_of(count);
    let rest = reset_from(sectors, written, durable, pointers, all, own, state, budget);
    outcome(zone, state, rest)
}

// The same, where the logs are still to be found.
fn reset_zone(
    sectors: &mut [u8],
    written: &mut [u32],
    durable: &mut [u32],
    zone: Zone,
    state: State,
    count: u32,
) -> Outcome
    requires valid { Valid zone.geometry }
    requires sized { Sized zone.geometry sectors.old written.old × (zone.geometry.logs ≡ 0) × ResetReady zone state durable.old }
    ensures { (result ≡ (reset_zone_on zone state count (tables_of sectors.old written.old durable.old)).outcome)
        × (tables_of sectors.new written.new durable.new ≡ (reset_zone_on zone state count (tables_of sectors.old written.old durable.old)).tables) }
{
    let cells = written.len();
    let mut pointers = [0u32; MAX_CELLS];
    let places = super::roles::see_by_roles(
        sectors,
        written,
        &mut pointers[..cells],
        zone.geometry,
    );
    reset_seen(
        sectors,
        written,
        durable,
        &pointers[..cells],
        zone,
        places,
        state,
        count,
    )
}

// The call.
pub fn reset(
    sectors: &mut [u8],
    written: &mut [u32],
    durable: &mut [u32],
    g: Geometry,
    named: [bool; MAX_DRIVES],
    state: State,
    zone: usize,
    count: u32,
) -> Outcome
    ensures { (result ≡ (reset_on g named state zone count (tables_of sectors.old written.old durable.old)).outcome)
        × (tables_of sectors.new written.new durable.new ≡ (reset_on g named state zone count (tables_of sectors.old written.old durable.old)).tables) }
{
    let within = super::checks::input_within(g, state);
    let lost = state.lost;
    let sizes = Sizes {
        sectors: sectors.len(),
        count: 0,
        bytes: 0,
    };
    if let Err(refusal) = super::checks::opening(within, sizes, written, durable, g, named, lost) {
        return super::checks::refused(refusal, state);
    }
    let zones = g.zones;
    if zones <= zone {
        return super::checks::refused(Refusal::Address, state);
    }
    let records = state.zones;
    let record = records[zone];
    let here = super::checks::present_drives(g, named, lost);
    if let Err(refusal) = zone_refusal(written, g, here, record, zone) {
        return super::checks::refused(refusal, state);
    }
    let own = Zone {
        geometry: g,
        here,
        number: zone,
        generation: record.generation,
    };
    reset_zone(sectors, written, durable, own, state, count)
}
