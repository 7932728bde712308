// The room of the logs in a mount: its steps 1, 2 and 10. "After its look, mount first resets the zone that is neither log, where it has sectors written, then
// empties general logs; parity logs it empties just before its last step, with all missing sectors stored".
ghost use Rattle.std.specs.Prelude.{◌≡◌, length};
ghost use Rattle.tables.specs.meaning.Below.{each_below};
ghost use Rattle.tables.specs.meaning.Geometry.{Valid, cells};
ghost use Rattle.tables.specs.meaning.Phases.{on_present};
ghost use Rattle.tables.specs.meaning.Lists.{concat};
ghost use Rattle.tables.specs.meaning.Tables.{tables_of, device_of};
ghost use Rattle.tables.specs.laws.Made.{Made, MadePointers};
ghost use Rattle.volume.specs.meaning.Mount.{phases_of_logs};
ghost use Rattle.volume.specs.meaning.CallContracts.{is_set};
ghost use Rattle.mounting.specs.MountEnds.{course_of};
ghost use Rattle.mounting.specs.MountRooms.{spare_reset, lost_among, places_after, SparesCleared, Planned};

use super::plan::Course;
use tables::{Geometry, MAX_DRIVES};
use volume::Look;
use volume::log_room::LogRoom;
use volume::roles::LogPlaces;

// 1. The reset of the spare zone on each drive that is here where that zone has sectors written, by the pointers of the start.
pub fn reset_spares(
    written: &mut [u32],
    durable: &mut [u32],
    pointers: &[u32],
    g: Geometry,
    here: [bool; MAX_DRIVES],
    budget: u64,
) -> u64
    requires valid { Valid g }
    requires written_len { (length written.old ≡ cells g) × (length durable.old ≡ cells g) × (length pointers.now ≡ cells g) }
    ensures { MadePointers g budget result (on_present (is_set here) (each_below (spare_reset g pointers.now) g.drives)) written.old durable.old written.new durable.new }
{
    let mut rest = budget;
    for d in 0..g.drives {
        let used = volume::drive_logs::zone_pointer(pointers, g, d, volume::emptying::SPARE_ZONE);
        rest = tables::stores::reset_counted(
            written,
            durable,
            g,
            here[d] & (0 < used),
            d,
            volume::emptying::SPARE_ZONE,
            rest,
        );
    }
    rest
}

// What a mount goes by, all of it as it is at the start: where the logs lie, the drives that are here, the look, whether the drives' last counters
// differ, and which logs lack room.
#[derive(Clone, Copy)]
pub struct Plan {
    pub places: LogPlaces,
    pub here: [bool; MAX_DRIVES],
    pub look: Look,
    pub differ: bool,
    pub general: LogRoom,
    pub parity: LogRoom,
}

// Where the logs lie after those of a kind were emptied on some drives. None of these drives lacks a kind.
pub fn places_after(
    places: LogPlaces,
    parity: bool,
    emptied: [Option<u64>; MAX_DRIVES],
) -> LogPlaces
    requires { Valid places.geometry }
    ensures { result ≡ places_after places parity emptied }
{
    let no_general = places.no_general;
    let no_parity = places.no_parity;
    let geometry = volume::roles::move_logs(places.geometry, parity, emptied);
    LogPlaces {
        geometry,
        no_general,
        no_parity,
    }
}

// The first flush, and step 1 with its flush.
fn clear_spares(
    written: &mut [u32],
    durable: &mut [u32],
    pointers: &[u32],
    g: Geometry,
    places: LogPlaces,
    here: [bool; MAX_DRIVES],
    budget: u64,
) -> u64
    requires valid { Valid g × Valid places.geometry }
    requires written_len { (length written.old ≡ cells g) × (length durable.old ≡ cells g) × (length pointers.now ≡ cells g) × (cells places.geometry ≡ cells g) }
    ensures { SparesCleared g places.geometry here budget result pointers.now written.old durable.old written.new durable.new }
{
    let flushed = volume::flushing::flush_all(written, durable, g, here, budget);
    let spared = reset_spares(written, durable, pointers, places.geometry, here, flushed);
    super::steps::flush_after(written, durable, g, here, flushed, spared)
}

// The first flush, and steps 1 and 2. `pointers` are those of the start, without those of logs that lack; afterwards, those of the moment before step 2.
pub fn open_logs(
    sectors: &mut [u8],
    written: &mut [u32],
    durable: &mut [u32],
    pointers: &mut [u32],
    g: Geometry,
    plan: Plan,
    course: Course,
    budget: u64,
) -> u64
    requires valid { Valid g }
    requires planned { Planned g (tables_of sectors.old written.old durable.old) plan pointers.old × (course ≡ course_of plan) }
    ensures { Made g budget result (concat (phases_of_logs g (is_set plan.here) (lost_among g plan.here) (device_of g (tables_of sectors.old written.old durable.old))))
        (tables_of sectors.old written.old durable.old) (tables_of sectors.new written.new durable.new) }
{
    let here = plan.here;
    let rest = clear_spares(written, durable, pointers, g, plan.places, here, budget);
    if rest == 0 {
        return 0;
    }
    volume::roles::hide_lacking(written, pointers, plan.places);
    let current = volume::records::generations_shown(plan.look);
    let copied = volume::emptyings::empty_generals(
        sectors,
        written,
        durable,
        pointers,
        course.general,
        &current,
        rest,
    );
    super::steps::flush_after(written, durable, g, here, rest, copied)
}
