// Look: what the present drives show, rules 1 to 6 over all zones, with their logs where these lie. It stores nothing.
ghost use Rattle.std.specs.Prelude.{◌≡◌, not, ℕ, length};
ghost use Rattle.tables.specs.meaning.Drives.{find_below};
ghost use Rattle.tables.specs.meaning.Geometry.{Valid, cells};
ghost use Rattle.tables.specs.meaning.Tables.{tables_of, zone_place};
ghost use Rattle.volume.specs.meaning.RefusalNumbers.{number_of};
ghost use Rattle.volume.specs.meaning.CallContracts.{is_set, look_on};
ghost use Rattle.volume.specs.meaning.Refusals.{first_bad_place};
ghost use Rattle.volume.specs.meaning.Rules.{showing, zone_shown};
ghost use Rattle.volume.specs.looking.DriveLogs.{Sized};
ghost use Rattle.volume.specs.looking.Knowing.{read_device};
ghost use Rattle.volume.specs.looking.SeenByRoles.{kind_lacks_on};
ghost use Rattle.volume.specs.looking.Looking.{Lookable, shape_number, log_number, looks_from, look_of, records_of};
ghost use Rattle.volume.specs.looking.ShownState.{HereBelow, state_seen};
ghost use Rattle.volume.specs.looking.Surveying.{Surveyed};

use super::roles::LogPlaces;
use super::{
    Answer, BadPlace, Condition, Look, Outcome, Owner, Refusal, State, ZoneLook, ZoneRecord,
};
use tables::{Geometry, MAX_CELLS, MAX_DRIVES, MAX_ZONES};

// What a look goes by: where the logs lie, which drives are present, the refusal by their logs (4 to 6), and the first bad place.
#[derive(Clone, Copy)]
pub struct Survey {
    pub places: LogPlaces,
    pub here: [bool; MAX_DRIVES],
    pub refusal: Result<(), Refusal>,
    pub bad: BadPlace,
}

// Refusals 1 to 3, of a call that is handed no state.
pub fn shape_refusal(
    sectors: usize,
    written: &[u32],
    durable: &[u32],
    g: Geometry,
    named: [bool; MAX_DRIVES],
) -> Result<(), Refusal>
    ensures { number_of result ≡ shape_number g named sectors written.now durable.now }
{
    if !tables::bounds::valid(g) {
        return Err(Refusal::Geometry);
    }
    if !tables::bounds::lengths_fit(g, sectors, written.len(), durable.len()) {
        return Err(Refusal::Length);
    }
    if tables::bounds::pointers_bad(written, durable, g, named) {
        return Err(Refusal::Pointer);
    }
    Ok(())
}

// Whether a present drive lacks a kind of log.
fn kind_lacks(places: LogPlaces, here: [bool; MAX_DRIVES]) -> bool
    requires { Valid places.geometry }
    ensures { result ≡ kind_lacks_on places here }
{
    (0..places.geometry.drives).any(|d| here[d] && (places.no_general[d] || places.no_parity[d]))
}

// Refusals 4 to 6, by the drives that rule 1 leaves present and their first bad place.
fn log_refusal(
    sectors: &[u8],
    written: &[u32],
    places: LogPlaces,
    here: [bool; MAX_DRIVES],
    bad: BadPlace,
) -> Result<(), Refusal>
    requires valid { Valid places.geometry }
    requires sized { Sized places.geometry sectors.now written.now
        × (bad ≡ first_bad_place places.geometry (is_set here) (zone_place places.geometry) (read_device places.geometry sectors.now written.now)) }
    ensures { number_of result ≡ log_number places here (read_device places.geometry sectors.now written.now) }
{
    if 1 < super::checks::count_absent(places.geometry, here) {
        return Err(Refusal::TwoLost);
    }
    if kind_lacks(places, here) {
        return Err(Refusal::Label);
    }
    if super::drives_lost::labels_bad(sectors, written, places.geometry, here) {
        return Err(Refusal::Label);
    }
    if bad.number != 0 {
        return Err(Refusal::Log);
    }
    Ok(())
}

// What a look goes by, in tables that passed refusals 1 to 3. It leaves the written pointers by which the tables are the device by its roles.
pub fn survey_drives(
    sectors: &[u8],
    written: &[u32],
    pointers: &mut [u32],
    g: Geometry,
    named: [bool; MAX_DRIVES],
) -> Survey
    requires valid { Valid g }
    requires sized { Sized g sectors.now written.now × (length pointers.old ≡ cells g) × (g.logs ≡ 0) }
    ensures { Surveyed g named sectors.now written.now result pointers.new }
{
    let places = super::roles::see_by_roles(sectors, written, pointers, g);
    let here = super::drives_lost::look_present(sectors, pointers, places.geometry, named);
    let bad = super::bad_places::first_bad(sectors, pointers, places.geometry, here);
    let refusal = log_refusal(sectors, pointers, places, here, bad);
    Survey {
        places,
        here,
        refusal,
        bad,
    }
}

// What is shown of every zone; those past the last are blank.
#[tactic(auto, unfolding(crate::specs::looking::Looking::looks_from))]
fn look_zones(
    sectors: &[u8],
    written: &[u32],
    g: Geometry,
    here: [bool; MAX_DRIVES],
) -> [ZoneLook; MAX_ZONES]
    requires valid { Valid g }
    requires lookable { Lookable g here sectors.now written.now }
    ensures { result ≡ looks_from g (zone_shown g (is_set here) (read_device g sectors.now written.now)) }
{
    let blank = ZoneLook {
        generation: 0,
        condition: Condition::Empty,
        pointer: 0,
        by_reset: false,
        clean: false,
    };
    let mut zones = [blank; MAX_ZONES];
    for z in 0..g.zones {
        zones[z] = super::zone_looking::look_zone(sectors, written, g, here, z);
    }
    zones
}

// What the drives that are here show.
pub fn look_all(sectors: &[u8], written: &[u32], g: Geometry, here: [bool; MAX_DRIVES]) -> Look
    requires valid { Valid g }
    requires lookable { Lookable g here sectors.now written.now }
    ensures { result ≡ look_of g (showing g (is_set here) (find_below (λ (d : ℕ). not (is_set here d)) g.drives) (read_device g sectors.now written.now)) }
{
    let lost = super::checks::left_out(g, here);
    let array = super::drives_lost::look_array(sectors, written, g, here);
    let zones = look_zones(sectors, written, g, here);
    Look { lost, array, zones }
}

// The records of the zones that a look shows: nobody's.
#[tactic(auto, using(crate::specs::laws::StateHeld::records_none))]
fn records_of(g: Geometry, shown: [ZoneLook; MAX_ZONES]) -> [ZoneRecord; MAX_ZONES]
    requires { Valid g }
    ensures { result ≡ records_of g shown }
{
    let mut zones = [super::records::blank_record(); MAX_ZONES];
    for z in 0..g.zones {
        zones[z] = ZoneRecord {
            generation: shown[z].generation,
            condition: shown[z].condition,
            owner: Owner::Nobody,
        };
    }
    zones
}

// The state that the drives that are here show, with the shares of their parity logs.
pub fn shown_state(
    sectors: &[u8],
    written: &[u32],
    places: LogPlaces,
    here: [bool; MAX_DRIVES],
) -> State
    requires valid { Valid places.geometry }
    requires lookable { Lookable places.geometry here sectors.now written.now × HereBelow places.geometry here }
    ensures { result ≡ state_seen places here sectors.now written.now }
{
    let shown = look_all(sectors, written, places.geometry, here);
    let lost = shown.lost;
    let looks = shown.zones;
    let zones = records_of(places.geometry, looks);
    let shares = super::shares::shares_of(written, places, here);
    State {
        lost,
        zones,
        shares,
    }
}

// The call. Refused: the old state stays. Else: what is shown is the state.
pub fn look(
    sectors: &[u8],
    written: &[u32],
    durable: &[u32],
    g: Geometry,
    named: [bool; MAX_DRIVES],
    old: State,
) -> Outcome
    ensures { result ≡ look_on g named old (tables_of sectors.now written.now durable.now) }
{
    if let Err(refusal) = shape_refusal(sectors.len(), written, durable, g, named) {
        return super::checks::refused(refusal, old);
    }
    let cells = written.len();
    let mut pointers = [0u32; MAX_CELLS];
    let found = survey_drives(sectors, written, &mut pointers[..cells], g, named);
    if let Err(refusal) = found.refusal {
        return super::checks::refused_at(refusal, found.bad, old);
    }
    let here = found.here;
    let state = shown_state(sectors, &pointers[..cells], found.places, here);
    Outcome {
        answer: Answer::Finished,
        state,
    }
}
