// What a mount goes by (`Plan`), found before its first store: where the logs lie, the look, whether the drives' last counters differ, and which logs lack room. By
// it, what each step goes by (`Course`).
ghost use Rattle.std.specs.Prelude.{◌≡◌};
ghost use Rattle.tables.specs.meaning.Geometry.{Valid};
ghost use Rattle.volume.specs.checks.LogRoom.{SeenByRoles};
ghost use Rattle.volume.specs.looking.Looking.{Lookable};
ghost use Rattle.mounting.specs.MountEnds.{course_of};
ghost use Rattle.mounting.specs.MountPlan.{PlanMade};
ghost use Rattle.mounting.specs.MountPlanned.{mount_asked};

use super::Basis;
use super::rooms::Plan;
use tables::Geometry;
use volume::emptyings::Emptyings;
use volume::log_room::RoomAsked;
use volume::looking::Survey;
use volume::roles::LogPlaces;

// What a mount asks of the logs of a kind, on every drive that is here. Its first step resets the spares.
fn mount_asks(g: Geometry, found: Survey, parity: bool, limit: usize) -> RoomAsked
    ensures { result ≡ mount_asked g found parity limit }
{
    let places = found.places;
    let here = found.here;
    RoomAsked {
        first: g,
        places,
        here,
        due: here,
        parity,
        below: limit,
        limit,
        clears_spares: true,
    }
}

// The plan, by what was found in tables that passed refusals 1 to 6. Whether its logs stay full is refusal 14.
pub fn plan_mount(
    sectors: &[u8],
    written: &[u32],
    pointers: &[u32],
    g: Geometry,
    found: Survey,
) -> Plan
    requires valid { Valid g }
    requires seen_by_roles { SeenByRoles g found.places sectors.now written.now pointers.now × Lookable found.places.geometry found.here sectors.now pointers.now }
    ensures { PlanMade g found sectors.now written.now pointers.now result }
{
    let places = found.places;
    let here = found.here;
    let look = volume::looking::look_all(sectors, pointers, places.geometry, here);
    let differ = super::counters::counters_differ(sectors, pointers, places.geometry, here);
    let generations = volume::records::generations_shown(look);
    let points = volume::records::points_shown(look);
    let l = g.zones;
    let reserve = volume::shares::reserve_of(g);
    let general_asked = mount_asks(g, found, false, l + 2);
    let parity_asked = mount_asks(g, found, true, reserve);
    let general = volume::log_room::general_room(
        sectors,
        written,
        pointers,
        general_asked,
        &generations,
    );
    let parity = volume::log_room::parity_room(sectors, written, pointers, parity_asked, &points);
    Plan {
        places,
        here,
        look,
        differ,
        general,
        parity,
    }
}

// What the steps of a mount go by: where the logs lie from step 2 on and from step 10 on, the emptyings of these two steps, and what the other steps are
// made by.
#[derive(Clone, Copy)]
pub struct Course {
    pub middle: LogPlaces,
    pub end: LogPlaces,
    pub general: Emptyings,
    pub parity: Emptyings,
    pub basis: Basis,
}

// That, by the plan.
pub fn course_of(plan: Plan) -> Course
    requires { Valid plan.places.geometry }
    ensures { result ≡ course_of plan }
{
    let here = plan.here;
    let look = plan.look;
    let first = plan.places.geometry;
    let moved = plan.general.emptied;
    let middle = super::rooms::places_after(plan.places, false, moved);
    let emptied = plan.parity.emptied;
    let end = super::rooms::places_after(middle, true, emptied);
    let geometry = middle.geometry;
    let to = end.geometry;
    Course {
        middle,
        end,
        general: Emptyings {
            from: first,
            to: geometry,
            here,
            emptied: moved,
        },
        parity: Emptyings {
            from: geometry,
            to,
            here,
            emptied,
        },
        basis: Basis {
            geometry,
            here,
            look,
            differ: plan.differ,
        },
    }
}
