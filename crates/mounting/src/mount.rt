// Mount (document 01): "flushes all present drives and takes a look. It then stores, by that look, drive by drive and zones ascending in each, with
// a flush of all present drives after each step that stored". Its look, where the logs lie and which of them lack room are found before its first store
// (`Plan`); the steps that follow read by copies of the written pointers.
ghost use Rattle.std.specs.Prelude.{◌≡◌, length};
ghost use Rattle.tables.specs.meaning.Geometry.{Valid, cells};
ghost use Rattle.tables.specs.meaning.Tables.{tables_of};
ghost use Rattle.tables.specs.laws.Made.{Made};
ghost use Rattle.volume.specs.meaning.CallContracts.{is_set, mount_stores_on, mount_on};
ghost use Rattle.volume.specs.looking.Looking.{Lookable};
ghost use Rattle.volume.specs.looking.ShownState.{HereBelow};
ghost use Rattle.mounting.specs.MountRooms.{lost_among, Planned};
ghost use Rattle.mounting.specs.MountBetween.{Before};
ghost use Rattle.mounting.specs.MountEnds.{course_of};
ghost use Rattle.mounting.specs.Mounting.{mounted_on, ShownNow, MountEnded};

use super::plan::Course;
use super::rooms::Plan;
use tables::{Geometry, MAX_CELLS, MAX_DRIVES};
use volume::{Answer, Outcome, Refusal, State};

// The first flush and steps 1 to 9: what is left of the budget. `pointers` are afterwards those of the moment before step 3, by which what is missing is
// read; the logs lie then where those of step 2 were emptied to.
fn restore_before(
    sectors: &mut [u8],
    written: &mut [u32],
    durable: &mut [u32],
    pointers: &mut [u32],
    g: Geometry,
    plan: Plan,
    course: Course,
    budget: u64,
) -> u64
    requires valid { Valid g }
    requires planned { Planned g (tables_of sectors.old written.old durable.old) plan pointers.old × (course ≡ course_of plan) }
    ensures { Before g (tables_of sectors.old written.old durable.old) plan budget result pointers.new (tables_of sectors.new written.new durable.new) }
{
    let rest = super::rooms::open_logs(
        sectors, written, durable, pointers, g, plan, course, budget,
    );
    if rest == 0 {
        return 0;
    }
    volume::roles::hide_lacking(written, pointers, course.middle);
    super::steps::restore_steps(sectors, written, durable, pointers, course.basis, rest)
}

// The stores of a mount: what is left of the budget. `pointers` and `starts` are scratch: copies of the written pointers.
fn restore(
    sectors: &mut [u8],
    written: &mut [u32],
    durable: &mut [u32],
    pointers: &mut [u32],
    starts: &mut [u32],
    g: Geometry,
    plan: Plan,
    budget: u64,
) -> u64
    requires valid { Valid g }
    requires planned { Planned g (tables_of sectors.old written.old durable.old) plan pointers.old × (length starts.old ≡ cells g) }
    ensures { Made g budget result (mount_stores_on g (is_set plan.here) (lost_among g plan.here) (tables_of sectors.old written.old durable.old))
        (tables_of sectors.old written.old durable.old) (tables_of sectors.new written.new durable.new) }
{
    let course = super::plan::course_of(plan);
    let rest = restore_before(sectors, written, durable, pointers, g, plan, course, budget);
    if rest == 0 {
        return 0;
    }
    super::ends::restore_ends(
        sectors, written, durable, pointers, starts, g, plan, course, rest,
    )
}

// The state that the drives that are here show, their logs where these lie now. `pointers` is scratch: a copy of the written pointers.
fn shown_now(
    sectors: &[u8],
    written: &[u32],
    pointers: &mut [u32],
    g: Geometry,
    here: [bool; MAX_DRIVES],
) -> State
    requires valid { Valid g }
    requires lookable { Lookable g here sectors.now written.now × HereBelow g here × (length pointers.old ≡ cells g) × (g.logs ≡ 0) }
    ensures { ShownNow g here sectors.now written.now result }
{
    let places = volume::roles::see_by_roles(sectors, written, pointers, g);
    volume::looking::shown_state(sectors, pointers, places, here)
}

// How a mount ends with `rest` left of the budget. If it finished, its state is what the drives that are here show. `pointers` is scratch.
fn outcome(
    sectors: &[u8],
    written: &[u32],
    pointers: &mut [u32],
    g: Geometry,
    here: [bool; MAX_DRIVES],
    old: State,
    rest: u64,
) -> Outcome
    requires valid { Valid g }
    requires lookable { Lookable g here sectors.now written.now × HereBelow g here × (length pointers.old ≡ cells g) × (g.logs ≡ 0) }
    ensures { MountEnded g here old rest sectors.now written.now result }
{
    if rest == 0 {
        return Outcome {
            answer: Answer::Unfinished,
            state: old,
        };
    }
    let state = shown_now(sectors, written, pointers, g, here);
    Outcome {
        answer: Answer::Finished,
        state,
    }
}

// A mount that no refusal stopped: its stores, and the state that they leave.
fn mount_planned(
    sectors: &mut [u8],
    written: &mut [u32],
    durable: &mut [u32],
    pointers: &mut [u32],
    g: Geometry,
    plan: Plan,
    old: State,
    count: u32,
) -> Outcome
    requires valid { Valid g }
    requires planned { Planned g (tables_of sectors.old written.old durable.old) plan pointers.old }
    ensures { (result ≡ (mounted_on g (is_set plan.here) (lost_among g plan.here) old count (tables_of sectors.old written.old durable.old)).outcome)
        × (tables_of sectors.new written.new durable.new
        ≡ (mounted_on g (is_set plan.here) (lost_among g plan.here) old count (tables_of sectors.old written.old durable.old)).tables) }
{
    let here = plan.here;
    let cells = written.len();
    let mut starts = [0u32; MAX_CELLS];
    let budget = volume::checks::budget_of(count);
    let rest = restore(
        sectors,
        written,
        durable,
        pointers,
        &mut starts[..cells],
        g,
        plan,
        budget,
    );
    outcome(sectors, written, pointers, g, here, old, rest)
}

// The call.
pub fn mount(
    sectors: &mut [u8],
    written: &mut [u32],
    durable: &mut [u32],
    g: Geometry,
    named: [bool; MAX_DRIVES],
    old: State,
    count: u32,
) -> Outcome
    ensures { (result ≡ (mount_on g named old count (tables_of sectors.old written.old durable.old)).outcome)
        × (tables_of sectors.new written.new durable.new ≡ (mount_on g named old count (tables_of sectors.old written.old durable.old)).tables) }
{
    if let Err(refusal) = volume::looking::shape_refusal(
        sectors.len(),
        written,
        durable,
        g,
        named,
    ) {
        return volume::checks::refused(refusal, old);
    }
    let cells = written.len();
    let mut pointers = [0u32; MAX_CELLS];
    let found = volume::looking::survey_drives(sectors, written, &mut pointers[..cells], g, named);
    if let Err(refusal) = found.refusal {
        return volume::checks::refused_at(refusal, found.bad, old);
    }
    let plan = super::plan::plan_mount(sectors, written, &pointers[..cells], g, found);
    if plan.general.full | plan.parity.full {
        return volume::checks::refused(Refusal::LogFull, old);
    }
    mount_planned(
        sectors,
        written,
        durable,
        &mut pointers[..cells],
        g,
        plan,
        old,
        count,
    )
}
