// Read and peek of the C edge. They store nothing and hand on no state: each changes its answer buffer alone, and only where it is finished.
ghost use Rattle.std.specs.Prelude.{◌≡◌, ◌<◌};
ghost use Rattle.tables.specs.meaning.Geometry.{Valid};
ghost use Rattle.volume.specs.meaning.Refusals.{zone_of};
ghost use Rattle.zrv.specs.meaning.EdgeCalls.{shape_of, ranges, answered, read_edge, offset_at, peek_edge};

use tables::Geometry;

// Read: so many sectors from an address, into the answer buffer.
#[unsafe(no_mangle)]
pub extern "C" fn zrv_read(
    drives: u32,
    sector_bytes: u32,
    unit: u32,
    zones: u32,
    zone_sectors: u32,
    named: u32,
    address: u64,
    sectors_to_read: u32,
    sectors: &[u8],
    written: &[u8],
    durable: &[u8],
    state: &[u8],
    answer: &mut [u8],
) -> u64
    ensures { answered result answer.new
        ≡ read_edge (shape_of drives sector_bytes unit zones zone_sectors) named address sectors_to_read (ranges sectors.now written.now durable.now state.now) answer.old }
{
    let g = super::input::shape(drives, sector_bytes, unit, zones, zone_sectors);
    if let Err(refusal) = super::input::input_refusal(g, state, written.len(), durable.len()) {
        return refusal.number() as u64;
    }
    let n = tables::bounds::table_cells(g);
    let here = super::input::named_drives(named);
    let mut w = [0u32; 152];
    let ws = &mut w[..n];
    super::words::table_from(written, ws);
    let by = super::records::record_of(g, here, state, ws, durable, address);
    match volume::by_record::read_record(sectors, ws, by, address, sectors_to_read, answer) {
        Ok(()) => 0,
        Err(refusal) => refusal.number() as u64,
    }
}

// The offset in `sectors` of the sector at an address.
fn offset_at(g: Geometry, address: u64) -> usize
    requires valid { Valid g }
    requires address_bound { zone_of g address < g.zones }
    ensures { result ≡ offset_at g address }
{
    let z = volume::reading::zone_of(g, address);
    let offset = volume::reading::offset_of(g, address);
    let d = tables::placement::drive_of(g, z, offset);
    let x = tables::placement::sector_of(g, offset);
    tables::stores::byte_at(g, d, tables::DATA_ZONES + z, x)
}

// Peek: where a held sector lies in `sectors`, as its offset in the place's eight bytes.
#[unsafe(no_mangle)]
pub extern "C" fn zrv_peek(
    drives: u32,
    sector_bytes: u32,
    unit: u32,
    zones: u32,
    zone_sectors: u32,
    named: u32,
    address: u64,
    sectors: &[u8],
    written: &[u8],
    durable: &[u8],
    state: &[u8],
    place: &mut [u8],
) -> u64
    ensures { answered result place.new
        ≡ peek_edge (shape_of drives sector_bytes unit zones zone_sectors) named address (ranges sectors.now written.now durable.now state.now) place.old }
{
    let g = super::input::shape(drives, sector_bytes, unit, zones, zone_sectors);
    if let Err(refusal) = super::input::input_refusal(g, state, written.len(), durable.len()) {
        return refusal.number() as u64;
    }
    if place.len() != 8 {
        return 2;
    }
    let n = tables::bounds::table_cells(g);
    let here = super::input::named_drives(named);
    let old = super::state::state_from(g, state);
    let mut w = [0u32; 152];
    let mut d = [0u32; 152];
    let ws = &mut w[..n];
    let ds = &mut d[..n];
    super::words::tables_from(g, written, durable, ws, ds);
    if let Err(refusal) = volume::reading::peek_refusal(sectors, ws, ds, g, here, old, address) {
        return refusal.number() as u64;
    }
    let at = offset_at(g, address);
    tables::bytes::write_u64(place, 0, at as u64);
    0
}
