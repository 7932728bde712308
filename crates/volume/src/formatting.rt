// Format: reset every zone; flush all, so that no cut brings an old log back over the new; label, then counters (all 1), drive by drive; flush all.
ghost use Rattle.std.specs.Prelude.{◌≡◌, ◌<◌, length};
ghost use Rattle.tables.specs.meaning.Below.{each_below};
ghost use Rattle.tables.specs.meaning.Geometry.{Valid, physical_zones, cells, total_bytes};
ghost use Rattle.tables.specs.meaning.Phases.{on_present};
ghost use Rattle.tables.specs.meaning.Tables.{tables_of};
ghost use Rattle.tables.specs.laws.Made.{Made, MadeAppends, MadePointers};
ghost use Rattle.volume.specs.meaning.RefusalNumbers.{number_of};
ghost use Rattle.volume.specs.meaning.State.{with_shares};
ghost use Rattle.volume.specs.meaning.Calls.{format_stores, format_state};
ghost use Rattle.volume.specs.meaning.Hosts.{fresh_shares};
ghost use Rattle.volume.specs.meaning.CallContracts.{is_set, format_on, state_held};
ghost use Rattle.volume.specs.storing.Formatting.{format_number, drive_resets, drive_entries, resets_if, entries_if};

use super::{Condition, Outcome, Owner, Refusal, State, ZoneRecord};
use tables::{Geometry, MAX_DRIVES, MAX_ZONES};

// Refusals 1 to 4, of a call that has no state yet.
fn format_refusal(
    sectors: usize,
    written: &[u32],
    durable: &[u32],
    g: Geometry,
    named: [bool; MAX_DRIVES],
) -> Result<(), Refusal>
    ensures { number_of result ≡ format_number g named sectors written.now durable.now }
{
    if !tables::bounds::valid(g) {
        return Err(Refusal::Geometry);
    }
    if !tables::bounds::lengths_fit(g, sectors, written.len(), durable.len()) {
        return Err(Refusal::Length);
    }
    if tables::bounds::pointers_bad(written, durable, g, named) {
        return Err(Refusal::Pointer);
    }
    if 1 < super::checks::count_absent(g, named) {
        return Err(Refusal::TwoLost);
    }
    Ok(())
}

// Every physical zone of a drive reset, if it is here.
fn reset_drive(
    written: &mut [u32],
    durable: &mut [u32],
    g: Geometry,
    here: bool,
    drive: usize,
    budget: u64,
) -> u64
    requires valid { Valid g }
    requires drive_lt_drives { (drive < g.drives) × (length written.old ≡ cells g) × (length durable.old ≡ cells g) }
    ensures { MadePointers g budget result (resets_if here drive (physical_zones g)) written.old durable.old written.new durable.new }
{
    let mut rest = budget;
    for y in 0..g.zones + tables::DATA_ZONES {
        rest = tables::stores::reset_counted(written, durable, g, here, drive, y, rest);
    }
    rest
}

// The first phase: the same of every drive that is here.
fn reset_drives(
    written: &mut [u32],
    durable: &mut [u32],
    g: Geometry,
    here: [bool; MAX_DRIVES],
    budget: u64,
) -> u64
    requires valid { Valid g }
    requires written_len { (length written.old ≡ cells g) × (length durable.old ≡ cells g) }
    ensures { MadePointers g budget result (on_present (is_set here) (each_below (drive_resets g) g.drives)) written.old durable.old written.new durable.new }
{
    let mut rest = budget;
    for d in 0..g.drives {
        rest = reset_drive(written, durable, g, here[d], d, rest);
    }
    rest
}

// A drive's label and its counters, all 1, if it is here.
fn label_drive(
    sectors: &mut [u8],
    written: &mut [u32],
    g: Geometry,
    here: bool,
    drive: usize,
    lost: usize,
    array: u64,
    budget: u64,
) -> u64
    requires valid { Valid g }
    requires drive_lt_drives { (drive < g.drives) × (lost < 256) × (length sectors.old ≡ total_bytes g) × (length written.old ≡ cells g) }
    ensures { MadeAppends g budget result (entries_if g here lost array drive) sectors.old written.old sectors.new written.new }
{
    let rest = super::logging::append_label(sectors, written, g, here, drive, lost, array, budget);
    let ones = [1u64; MAX_ZONES];
    super::logging::append_counters(sectors, written, g, here, drive, &ones, rest)
}

// The third phase: the same of every drive that is here.
fn label_drives(
    sectors: &mut [u8],
    written: &mut [u32],
    g: Geometry,
    here: [bool; MAX_DRIVES],
    lost: usize,
    array: u64,
    budget: u64,
) -> u64
    requires valid { Valid g }
    requires lost_bound { (lost < 256) × (length sectors.old ≡ total_bytes g) × (length written.old ≡ cells g) }
    ensures { MadeAppends g budget result (on_present (is_set here) (each_below (drive_entries g lost array) g.drives)) sectors.old written.old sectors.new written.new }
{
    let mut rest = budget;
    for d in 0..g.drives {
        rest = label_drive(sectors, written, g, here[d], d, lost, array, rest);
    }
    rest
}

// The four phases.
fn format_stores(
    sectors: &mut [u8],
    written: &mut [u32],
    durable: &mut [u32],
    g: Geometry,
    here: [bool; MAX_DRIVES],
    lost: usize,
    array: u64,
    budget: u64,
) -> u64
    requires valid { Valid g }
    requires lost_bound { (lost < 256) × (length sectors.old ≡ total_bytes g) × (length written.old ≡ cells g) × (length durable.old ≡ cells g) }
    ensures { Made g budget result (format_stores g (is_set here) lost array) (tables_of sectors.old written.old durable.old) (tables_of sectors.new written.new durable.new) }
{
    let cleared = reset_drives(written, durable, g, here, budget);
    let settled = super::flushing::flush_all(written, durable, g, here, cleared);
    let labelled = label_drives(sectors, written, g, here, lost, array, settled);
    super::flushing::flush_all(written, durable, g, here, labelled)
}

// The state that a finished format hands on: every zone empty, of generation 1 and nobody's, the records past the last zone blank; and the hosts' shares of
// empty logs.
#[tactic(auto, using(crate::specs::laws::StateHeld::records_none))]
fn fresh_state(g: Geometry, here: [bool; MAX_DRIVES], lost: usize) -> State
    requires { Valid g }
    ensures { result ≡ state_held g.zones (with_shares (fresh_shares g (is_set here)) (format_state lost)) }
{
    let mut zones = [super::records::blank_record(); MAX_ZONES];
    for z in 0..g.zones {
        zones[z] = ZoneRecord {
            generation: 1,
            condition: Condition::Empty,
            owner: Owner::Nobody,
        };
    }
    State {
        lost,
        zones,
        shares: super::shares::fresh_shares(g, here),
    }
}

// The call. A format neither reads nor changes the old state: it is handed back if the call is refused or unfinished.
pub fn format(
    sectors: &mut [u8],
    written: &mut [u32],
    durable: &mut [u32],
    g: Geometry,
    named: [bool; MAX_DRIVES],
    array: u64,
    old: State,
    count: u32,
) -> Outcome
    ensures { (result ≡ (format_on g named array old count (tables_of sectors.old written.old durable.old)).outcome)
        × (tables_of sectors.new written.new durable.new ≡ (format_on g named array old count (tables_of sectors.old written.old durable.old)).tables) }
{
    if let Err(refusal) = format_refusal(sectors.len(), written, durable, g, named) {
        return super::checks::refused(refusal, old);
    }
    let here = super::checks::present_drives(g, named, 255);
    let lost = super::checks::left_out(g, named);
    let budget = count as u64 + 1;
    let rest = format_stores(sectors, written, durable, g, here, lost, array, budget);
    let state = fresh_state(g, here, lost);
    super::flushing::ended(old, state, rest)
}
