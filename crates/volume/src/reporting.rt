// The zone report: a list of the zones as zoned drives give it, from the state alone.
ghost use Rattle.std.specs.Prelude.{◌≡◌, ◌<◌, length};
ghost use Rattle.tables.specs.meaning.Geometry.{Valid};
ghost use Rattle.volume.specs.meaning.CallContracts.{record_at, view_state};
ghost use Rattle.volume.specs.meaning.Report.{told_of, descriptor_of, may_report, report_on};
ghost use Rattle.volume.specs.reading.Reporting.{reported_as, report_number};

use super::{Answer, Condition, Refusal, Reported, ReportedCondition, State, ZoneDescriptor};
use tables::Geometry;

// Refusal 1: whether the geometry and the state keep their bounds.
fn may_report(g: Geometry, state: State) -> bool
    ensures { result ≡ may_report g (view_state state) }
{
    let ok = tables::bounds::valid(g);
    if !ok {
        return false;
    }
    super::checks::state_within(g, state)
}

// How many descriptors are filled: as many as are lent but at most the zones; none if the report is refused.
pub fn report_number(g: Geometry, state: State, room: usize) -> usize
    ensures { result ≡ report_number g (view_state state) room }
{
    let most = g.zones;
    let ok = may_report(g, state);
    if !ok {
        return 0;
    }
    if room < most {
        return room;
    }
    most
}

// What is told of a zone's condition.
fn told_of(c: Condition) -> ReportedCondition
    ensures { result ≡ told_of c }
{
    match c {
        Condition::Empty => ReportedCondition::Empty,
        Condition::Open(_) => ReportedCondition::Open,
        Condition::Sealed(_) | Condition::Worn(_) => ReportedCondition::ReadOnly,
    }
}

// The descriptor of one zone.
pub fn describe(g: Geometry, state: State, z: usize) -> ZoneDescriptor
    requires { (Valid g) × (z < g.zones) }
    ensures { result ≡ descriptor_of g z (record_at state z).condition }
{
    let sectors = tables::bounds::zone_sectors(g);
    let r = state.zones[z];
    let c = r.condition;
    let pointer = super::records::pointer_of(c);
    let told = told_of(c);
    let start = z * sectors;
    ZoneDescriptor {
        start: start as u64,
        capacity: sectors as u64,
        pointer: pointer as u64,
        condition: told,
    }
}

// The answer, and how many descriptors are filled.
pub fn reported(g: Geometry, state: State, number: usize) -> Reported
    ensures { result ≡ reported_as g (view_state state) number }
{
    let ok = may_report(g, state);
    if ok {
        return Reported {
            answer: Answer::Finished,
            number,
        };
    }
    Reported {
        answer: Answer::Refused(Refusal::Geometry.number()),
        number,
    }
}

// The report: fills the lent list in zone order, and gives how many descriptors it filled. Those past that number keep their contents.
pub fn report(g: Geometry, state: State, list: &mut [ZoneDescriptor]) -> Reported
    ensures { (result.answer ≡ (report_on g (view_state state) list.old).answer)
        × (result.number ≡ (report_on g (view_state state) list.old).number)
        × (list.new ≡ (report_on g (view_state state) list.old).list) }
{
    let n = report_number(g, state, list.len());
    for z in 0..n {
        list[z] = describe(g, state, z);
    }
    reported(g, state, n)
}
