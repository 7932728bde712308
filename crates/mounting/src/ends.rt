// The last two steps of a mount: the parity logs that lacked room at its start are emptied, "with all missing sectors stored"; then come the entries at the
// pointers that lack one, where the logs lie by then.
ghost use Rattle.std.specs.Prelude.{◌≡◌, length};
ghost use Rattle.tables.specs.meaning.Geometry.{Valid, cells};
ghost use Rattle.tables.specs.meaning.Tables.{tables_of};
ghost use Rattle.mounting.specs.MountEnds.{course_of, ParityStepMade, EndsReady, EndsMade};
ghost use Rattle.volume.specs.checks.Records.{generations_shown, points_shown};
ghost use Rattle.volume.specs.emptying.ParityTurns.{ParitiesReady};

use super::plan::Course;
use super::rooms::Plan;
use tables::Geometry;
use volume::Look;
use volume::emptyings::Emptyings;

// 10. The emptying of those parity logs, as they stand by now.
fn parity_step(
    sectors: &mut [u8],
    written: &mut [u32],
    durable: &mut [u32],
    pointers: &[u32],
    starts: &[u32],
    all: Emptyings,
    look: Look,
    budget: u64,
) -> u64
    requires valid { Valid all.from }
    requires parities_ready { ParitiesReady all (generations_shown look) (points_shown look) pointers.now starts.now sectors.old written.old durable.old }
    ensures { ParityStepMade all look pointers.now starts.now budget result
        (tables_of sectors.old written.old durable.old) (tables_of sectors.new written.new durable.new) }
{
    let generations = volume::records::generations_shown(look);
    let points = volume::records::points_shown(look);
    let here = all.here;
    let rest = volume::emptyings::empty_parities(
        sectors,
        written,
        durable,
        pointers,
        starts,
        all,
        &generations,
        &points,
        budget,
    );
    super::steps::flush_after(written, durable, all.to, here, budget, rest)
}

// Steps 10 and 11: what is left of the budget. `pointers` are those of the moment before step 3; `starts` is scratch.
pub fn restore_ends(
    sectors: &mut [u8],
    written: &mut [u32],
    durable: &mut [u32],
    pointers: &[u32],
    starts: &mut [u32],
    g: Geometry,
    plan: Plan,
    course: Course,
    budget: u64,
) -> u64
    requires valid { Valid g }
    requires ends_ready { EndsReady g plan pointers.now (tables_of sectors.old written.old durable.old) × ((length starts.old ≡ cells g) × (course ≡ course_of plan)) }
    ensures { EndsMade g plan pointers.now budget result (tables_of sectors.old written.old durable.old) (tables_of sectors.new written.new durable.new) }
{
    volume::roles::hide_lacking(written, starts, course.middle);
    let rest = parity_step(
        sectors,
        written,
        durable,
        pointers,
        starts,
        course.parity,
        plan.look,
        budget,
    );
    if rest == 0 {
        return 0;
    }
    super::steps::entry_step(
        sectors,
        written,
        durable,
        pointers,
        starts,
        course.basis,
        course.end,
        rest,
    )
}
