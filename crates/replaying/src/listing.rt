// What the answer line of a report shows: how many descriptors it fills, and the checksum of the whole list as C's bytes, with those that it leaves.
ghost use Rattle.std.specs.Prelude.{◌≡◌, ◌++◌, ◌≤◌, take, drop};
ghost use Rattle.volume.specs.meaning.CallContracts.{view_state};
ghost use Rattle.volume.specs.meaning.Report.{report_on};
ghost use Rattle.replaying.specs.Adler.{Small};

use super::{Command, Host, Listed, Sums};
use tables::Geometry;
use volume::{ReportedCondition, State, ZoneDescriptor};

// Eight bytes of a descriptor before any report, 0xEE each.
const UNTOUCHED: u64 = 17216961135462248174;

// A descriptor before any report. No condition is such bytes: told_at shows them in its place.
fn untouched() -> ZoneDescriptor {
    ZoneDescriptor {
        start: UNTOUCHED,
        capacity: UNTOUCHED,
        pointer: UNTOUCHED,
        condition: ReportedCondition::Empty,
    }
}

// The report into the first descriptors of a list; those past them stay.
fn report_into(g: Geometry, state: State, mut list: [ZoneDescriptor; 16], room: usize) -> Listed
    requires { room ≤ 16 }
    ensures { (result.reported.answer ≡ (report_on g (view_state state) (take room list)).answer)
        × (result.reported.number ≡ (report_on g (view_state state) (take room list)).number)
        × (result.list ≡ (report_on g (view_state state) (take room list)).list ++ drop room list) }
{
    let reported = volume::reporting::report(g, state, &mut list[..room]);
    Listed { reported, list }
}

// The report into an untouched list. At most 16 descriptors are lent: there are no more zones.
pub fn listed(h: Host, c: Command) -> Listed {
    let room = super::hosting::lend(c.first as usize, 0, 16);
    report_into(h.geometry, h.state, [untouched(); 16], room)
}

// Descriptor z of the list as the report left it.
fn descriptor_at(l: Listed, z: usize) -> ZoneDescriptor {
    l.list.get(z).copied().unwrap_or(untouched())
}

// The number of its condition, or the bytes from before where the report filled nothing.
fn told_at(l: Listed, z: usize, told: ReportedCondition) -> u64 {
    if z < l.reported.number {
        volume::numbers::told_number(told)
    } else {
        UNTOUCHED
    }
}

// With the bytes of descriptor z of the list.
fn add_listed(s: Sums, l: Listed, z: usize) -> Sums
    requires { Small s }
    ensures { Small result }
{
    let d = descriptor_at(l, z);
    let s1 = super::checksum::add_number(s, d.start);
    let s2 = super::checksum::add_number(s1, d.capacity);
    let s3 = super::checksum::add_number(s2, d.pointer);
    super::checksum::add_number(s3, told_at(l, z, d.condition))
}

// How many descriptors are filled.
pub fn report_filled(l: Listed) -> u64 {
    l.reported.number as u64
}

// The checksum of the list.
pub fn list_sum(l: Listed, c: Command) -> u64 {
    let room = c.first as usize;
    let mut s = super::checksum::start_sums();
    for z in 0..room {
        s = add_listed(s, l, z);
    }
    super::checksum::sum_number(s)
}
