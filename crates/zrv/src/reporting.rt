// Report of the C edge: from the state's bytes alone, the zones' descriptors into a lent list of 32 bytes each.
ghost use Rattle.std.specs.Prelude.{◌≡◌, ◌+◌, ◌*◌, ◌≤◌, length};
ghost use Rattle.tables.specs.meaning.Geometry.{Valid};
ghost use Rattle.tables.specs.meaning.Lists.{overlay};
ghost use Rattle.volume.specs.meaning.RefusalNumbers.{number_of};
ghost use Rattle.volume.specs.meaning.CallContracts.{view_state};
ghost use Rattle.zrv.specs.meaning.Bytes.{descriptor_to};
ghost use Rattle.zrv.specs.meaning.EdgeCalls.{shape_of, answered, report_input, report_edge};
ghost use Rattle.zrv.specs.laws.Report.{told_bytes};

use tables::Geometry;
use volume::{Refusal, State, ZoneDescriptor};

// The bytes of a descriptor.
const DESCRIPTOR: usize = 32;

// What is refused before a report.
fn report_refusal(g: Geometry, state: &[u8]) -> Result<(), Refusal>
    ensures { number_of result ≡ report_input g state.now }
{
    if !tables::bounds::valid(g) {
        return Err(Refusal::Geometry);
    }
    if super::input::state_bad(g, state) {
        return Err(Refusal::Geometry);
    }
    if state.len() == super::state::STATE_BYTES {
        Ok(())
    } else {
        Err(Refusal::Length)
    }
}

// Writes a descriptor as the 32 bytes from `at`.
fn descriptor_to(d: ZoneDescriptor, bytes: &mut [u8], at: usize)
    requires { at + 32 ≤ length bytes.old }
    ensures { bytes.new ≡ overlay bytes.old at (descriptor_to d) }
{
    let start = d.start;
    let capacity = d.capacity;
    let pointer = d.pointer;
    let condition = d.condition;
    let told = volume::numbers::told_number(condition);
    tables::bytes::write_u64(bytes, at, start);
    tables::bytes::write_u64(bytes, at + 8, capacity);
    tables::bytes::write_u64(bytes, at + 16, pointer);
    tables::bytes::write_u64(bytes, at + 24, told);
}

// Writes the descriptors of the first n zones.
fn fill_list(g: Geometry, state: State, n: usize, list: &mut [u8])
    requires valid { Valid g }
    requires n_le_zones { (n ≤ g.zones) × (n * 32 ≤ length list.old) }
    ensures { list.new ≡ told_bytes g (view_state state).condition n list.old }
{
    for z in 0..n {
        let d = volume::reporting::describe(g, state, z);
        descriptor_to(d, list, z * DESCRIPTOR);
    }
}

// Report: the descriptors of the zones, in zone order, as many as the list has room for.
#[unsafe(no_mangle)]
pub extern "C" fn zrv_report(
    drives: u32,
    sector_bytes: u32,
    unit: u32,
    zones: u32,
    zone_sectors: u32,
    state: &[u8],
    list: &mut [u8],
) -> u64
    ensures { answered result list.new
        ≡ report_edge (shape_of drives sector_bytes unit zones zone_sectors) state.now list.old }
{
    let g = super::input::shape(drives, sector_bytes, unit, zones, zone_sectors);
    if let Err(refusal) = report_refusal(g, state) {
        return refusal.number() as u64;
    }
    let held = super::state::state_from(g, state);
    let n = volume::reporting::report_number(g, held, list.len() / DESCRIPTOR);
    fill_list(g, held, n, list);
    super::input::HIGH * (n as u64)
}
