// The calls of the C edge that never read the state: format, look and mount. Finished, each leaves what it shows in the state's bytes.
ghost use Rattle.std.specs.Prelude.{◌≡◌};
ghost use Rattle.zrv.specs.meaning.EdgeCalls.{shape_of, ranges, answered, format_edge, look_edge, mount_edge};

// Format: an empty volume. Finished, its first state becomes the state.
#[unsafe(no_mangle)]
pub extern "C" fn zrv_format(
    drives: u32,
    sector_bytes: u32,
    unit: u32,
    zones: u32,
    zone_sectors: u32,
    named: u32,
    array: u64,
    count: u32,
    sectors: &mut [u8],
    written: &mut [u8],
    durable: &mut [u8],
    state: &mut [u8],
) -> u64
    ensures { answered result (ranges sectors.new written.new durable.new state.new)
        ≡ format_edge (shape_of drives sector_bytes unit zones zone_sectors) named array count (ranges sectors.old written.old durable.old state.old) }
{
    let g = super::input::shape(drives, sector_bytes, unit, zones, zone_sectors);
    if let Err(refusal) = super::input::sizes_refusal(
        g,
        state.len(),
        written.len(),
        durable.len(),
    ) {
        return refusal.number() as u64;
    }
    let n = tables::bounds::table_cells(g);
    let here = super::input::named_drives(named);
    let old = super::input::unread_state();
    let mut w = [0u32; 152];
    let mut d = [0u32; 152];
    let ws = &mut w[..n];
    let ds = &mut d[..n];
    super::words::tables_from(g, written, durable, ws, ds);
    let outcome = volume::formatting::format(sectors, ws, ds, g, here, array, old, count);
    super::words::table_to(ws, written);
    super::words::table_to(ds, durable);
    super::input::hand_back(g, outcome, state)
}

// Look: what the present drives show becomes the state. It stores nothing. Refused for a log, it returns the bad place too.
#[unsafe(no_mangle)]
pub extern "C" fn zrv_look(
    drives: u32,
    sector_bytes: u32,
    unit: u32,
    zones: u32,
    zone_sectors: u32,
    named: u32,
    sectors: &[u8],
    written: &[u8],
    durable: &[u8],
    state: &mut [u8],
) -> u64
    ensures { answered result (ranges sectors.now written.now durable.now state.new)
        ≡ look_edge (shape_of drives sector_bytes unit zones zone_sectors) named (ranges sectors.now written.now durable.now state.old) }
{
    let g = super::input::shape(drives, sector_bytes, unit, zones, zone_sectors);
    if let Err(refusal) = super::input::sizes_refusal(
        g,
        state.len(),
        written.len(),
        durable.len(),
    ) {
        return refusal.number() as u64;
    }
    let n = tables::bounds::table_cells(g);
    let here = super::input::named_drives(named);
    let old = super::input::unread_state();
    let mut w = [0u32; 152];
    let mut d = [0u32; 152];
    let ws = &mut w[..n];
    let ds = &mut d[..n];
    super::words::tables_from(g, written, durable, ws, ds);
    let outcome = volume::looking::look(sectors, ws, ds, g, here, old);
    super::input::hand_back_placed(g, outcome, state)
}

// Mount: brings the volume back after a cut. Finished, what it shows becomes the state. It returns as a look does.
#[unsafe(no_mangle)]
pub extern "C" fn zrv_mount(
    drives: u32,
    sector_bytes: u32,
    unit: u32,
    zones: u32,
    zone_sectors: u32,
    named: u32,
    count: u32,
    sectors: &mut [u8],
    written: &mut [u8],
    durable: &mut [u8],
    state: &mut [u8],
) -> u64
    ensures { answered result (ranges sectors.new written.new durable.new state.new)
        ≡ mount_edge (shape_of drives sector_bytes unit zones zone_sectors) named count (ranges sectors.old written.old durable.old state.old) }
{
    let g = super::input::shape(drives, sector_bytes, unit, zones, zone_sectors);
    if let Err(refusal) = super::input::sizes_refusal(
        g,
        state.len(),
        written.len(),
        durable.len(),
    ) {
        return refusal.number() as u64;
    }
    let n = tables::bounds::table_cells(g);
    let here = super::input::named_drives(named);
    let old = super::input::unread_state();
    let mut w = [0u32; 152];
    let mut d = [0u32; 152];
    let ws = &mut w[..n];
    let ds = &mut d[..n];
    super::words::tables_from(g, written, durable, ws, ds);
    let outcome = mounting::mount::mount(sectors, ws, ds, g, here, old, count);
    super::words::table_to(ws, written);
    super::words::table_to(ds, durable);
    super::input::hand_back_placed(g, outcome, state)
}
