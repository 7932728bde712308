// The calls of the C edge that store by the state that they are handed: write, flush, reset and compact. Finished, each hands on the state.
ghost use Rattle.std.specs.Prelude.{◌≡◌, length};
ghost use Rattle.zrv.specs.laws.ByRecord.{InputTaken, whole_write};
ghost use Rattle.zrv.specs.meaning.EdgeCalls.{shape_of, ranges, answered, write_of, write_edge, flush_edge, reset_edge, compact_edge};

use super::records::WriteCall;

// A write that passed the tests of its input, by the whole state.
fn write_whole(
    asked: WriteCall,
    sectors: &mut [u8],
    written: &mut [u8],
    durable: &[u8],
    state: &mut [u8],
    buffer: &[u8],
) -> u64
    requires { InputTaken asked.geometry state.old (length written.old) (length durable.now) }
    ensures { answered result (ranges sectors.new written.new durable.now state.new)
        ≡ whole_write asked buffer.now (ranges sectors.old written.old durable.now state.old) }
{
    let g = asked.geometry;
    let named = asked.named;
    let host = asked.host;
    let address = asked.address;
    let run = asked.run;
    let count = asked.count;
    let n = tables::bounds::table_cells(g);
    let old = super::state::state_from(g, state);
    let mut w = [0u32; 152];
    let mut d = [0u32; 152];
    let ws = &mut w[..n];
    let ds = &mut d[..n];
    super::words::tables_from(g, written, durable, ws, ds);
    let outcome = volume::writing::write(
        sectors, ws, ds, g, named, old, host, address, run, buffer, count,
    );
    super::words::table_to(ws, written);
    super::input::hand_back(g, outcome, state)
}

// Write by a host: so many sectors at an address, which must be their zone's pointer. It stores in `sectors` and `written`; `durable` it only reads.
#[unsafe(no_mangle)]
pub extern "C" fn zrv_write(
    drives: u32,
    sector_bytes: u32,
    unit: u32,
    zones: u32,
    zone_sectors: u32,
    named: u32,
    host: u32,
    address: u64,
    sectors_to_write: u32,
    count: u32,
    sectors: &mut [u8],
    written: &mut [u8],
    durable: &[u8],
    state: &mut [u8],
    buffer: &[u8],
) -> u64
    ensures { answered result (ranges sectors.new written.new durable.now state.new)
        ≡ write_edge (shape_of drives sector_bytes unit zones zone_sectors) named (write_of host address sectors_to_write buffer.now) count (ranges sectors.old written.old durable.now state.old) }
{
    let g = super::input::shape(drives, sector_bytes, unit, zones, zone_sectors);
    if let Err(refusal) = super::input::input_refusal(g, state, written.len(), durable.len()) {
        return refusal.number() as u64;
    }
    let here = super::input::named_drives(named);
    let asked = WriteCall {
        geometry: g,
        named: here,
        host,
        address,
        run: sectors_to_write,
        count,
    };
    if let Some(code) = super::records::write_by_record(
        asked, sectors, written, durable, state, buffer,
    ) {
        return code;
    }
    write_whole(asked, sectors, written, durable, state, buffer)
}

// Flush: every present drive is flushed. It stores in `durable`.
#[unsafe(no_mangle)]
pub extern "C" fn zrv_flush(
    drives: u32,
    sector_bytes: u32,
    unit: u32,
    zones: u32,
    zone_sectors: u32,
    named: u32,
    count: u32,
    sectors: &[u8],
    written: &[u8],
    durable: &mut [u8],
    state: &mut [u8],
) -> u64
    ensures { answered result (ranges sectors.now written.now durable.new state.new)
        ≡ flush_edge (shape_of drives sector_bytes unit zones zone_sectors) named count (ranges sectors.now written.now durable.old state.old) }
{
    let g = super::input::shape(drives, sector_bytes, unit, zones, zone_sectors);
    if let Err(refusal) = super::input::input_refusal(g, state, written.len(), durable.len()) {
        return refusal.number() as u64;
    }
    let n = tables::bounds::table_cells(g);
    let here = super::input::named_drives(named);
    let old = super::state::state_from(g, state);
    let mut w = [0u32; 152];
    let mut d = [0u32; 152];
    let ws = &mut w[..n];
    let ds = &mut d[..n];
    super::words::tables_from(g, written, durable, ws, ds);
    let outcome = volume::flushing::flush(sectors, ws, ds, g, here, old, count);
    super::words::table_to(ds, durable);
    super::input::hand_back(g, outcome, state)
}

// Reset of a logical zone: finished, it is empty, or worn after its last generation.
#[unsafe(no_mangle)]
pub extern "C" fn zrv_reset(
    drives: u32,
    sector_bytes: u32,
    unit: u32,
    zones: u32,
    zone_sectors: u32,
    named: u32,
    zone: u32,
    count: u32,
    sectors: &mut [u8],
    written: &mut [u8],
    durable: &mut [u8],
    state: &mut [u8],
) -> u64
    ensures { answered result (ranges sectors.new written.new durable.new state.new)
        ≡ reset_edge (shape_of drives sector_bytes unit zones zone_sectors) named zone count (ranges sectors.old written.old durable.old state.old) }
{
    let g = super::input::shape(drives, sector_bytes, unit, zones, zone_sectors);
    if let Err(refusal) = super::input::input_refusal(g, state, written.len(), durable.len()) {
        return refusal.number() as u64;
    }
    let n = tables::bounds::table_cells(g);
    let here = super::input::named_drives(named);
    let old = super::state::state_from(g, state);
    let mut w = [0u32; 152];
    let mut d = [0u32; 152];
    let ws = &mut w[..n];
    let ds = &mut d[..n];
    super::words::tables_from(g, written, durable, ws, ds);
    let outcome = volume::resetting::reset(sectors, ws, ds, g, here, old, zone as usize, count);
    super::words::table_to(ws, written);
    super::words::table_to(ds, durable);
    super::input::hand_back(g, outcome, state)
}

// Compact of a drive: its parity log is emptied, and the hosts get their shares of it anew.
#[unsafe(no_mangle)]
pub extern "C" fn zrv_compact(
    drives: u32,
    sector_bytes: u32,
    unit: u32,
    zones: u32,
    zone_sectors: u32,
    named: u32,
    drive: u32,
    count: u32,
    sectors: &mut [u8],
    written: &mut [u8],
    durable: &mut [u8],
    state: &mut [u8],
) -> u64
    ensures { answered result (ranges sectors.new written.new durable.new state.new)
        ≡ compact_edge (shape_of drives sector_bytes unit zones zone_sectors) named drive count (ranges sectors.old written.old durable.old state.old) }
{
    let g = super::input::shape(drives, sector_bytes, unit, zones, zone_sectors);
    if let Err(refusal) = super::input::input_refusal(g, state, written.len(), durable.len()) {
        return refusal.number() as u64;
    }
    let n = tables::bounds::table_cells(g);
    let here = super::input::named_drives(named);
    let old = super::state::state_from(g, state);
    let mut w = [0u32; 152];
    let mut d = [0u32; 152];
    let ws = &mut w[..n];
    let ds = &mut d[..n];
    super::words::tables_from(g, written, durable, ws, ds);
    let outcome = compacting::compact(sectors, ws, ds, g, here, old, drive as usize, count);
    super::words::table_to(ws, written);
    super::words::table_to(ds, durable);
    super::input::hand_back(g, outcome, state)
}
