// The static library that C links as libzrv.a: each call of include/zrv.h, exported. An export calls the function of its name in crate `zrv` and promises the same.
#![tactic(auto)]

ghost use Rattle.std.specs.Prelude.{◌≡◌, length};
ghost use Rattle.zrv.specs.meaning.EdgeCalls.{version, shape_of, ranges, answered, format_edge, look_edge, mount_edge, write_of, write_edge, flush_edge, reset_edge, compact_edge, read_edge, peek_edge, report_edge};
ghost use Rattle.zrv.specs.meaning.GroupedEdge.{segment_of, grouped_edge};

// Version: that of the archive, for a host to compare with its header's.
#[unsafe(no_mangle)]
pub extern "C" fn zrv_version() -> u32
    ensures { result ≡ version }
{
    zrv::version::zrv_version()
}

// Format: an empty volume. Finished, its first state becomes the state.
#[unsafe(no_mangle)]
pub extern "C" fn zrv_format(
    drives: u32,
    sector_bytes: u32,
    unit: u32,
    zones: u32,
    zone_sectors: u32,
    named: u32,
    array: u64,
    count: u32,
    sectors: &mut [u8],
    written: &mut [u8],
    durable: &mut [u8],
    state: &mut [u8],
) -> u64
    ensures { answered result (ranges sectors.new written.new durable.new state.new)
        ≡ format_edge (shape_of drives sector_bytes unit zones zone_sectors) named array count (ranges sectors.old written.old durable.old state.old) }
{
    zrv::starting::zrv_format(
        drives,
        sector_bytes,
        unit,
        zones,
        zone_sectors,
        named,
        array,
        count,
        sectors,
        written,
        durable,
        state,
    )
}

// Look: what the present drives show becomes the state. It stores nothing. Refused for a log, it returns the bad place too.
#[unsafe(no_mangle)]
pub extern "C" fn zrv_look(
    drives: u32,
    sector_bytes: u32,
    unit: u32,
    zones: u32,
    zone_sectors: u32,
    named: u32,
    sectors: &[u8],
    written: &[u8],
    durable: &[u8],
    state: &mut [u8],
) -> u64
    ensures { answered result (ranges sectors.now written.now durable.now state.new)
        ≡ look_edge (shape_of drives sector_bytes unit zones zone_sectors) named (ranges sectors.now written.now durable.now state.old) }
{
    zrv::starting::zrv_look(
        drives,
        sector_bytes,
        unit,
        zones,
        zone_sectors,
        named,
        sectors,
        written,
        durable,
        state,
    )
}

// Mount: brings the volume back after a cut. Finished, what it shows becomes the state. It returns as a look does.
#[unsafe(no_mangle)]
pub extern "C" fn zrv_mount(
    drives: u32,
    sector_bytes: u32,
    unit: u32,
    zones: u32,
    zone_sectors: u32,
    named: u32,
    count: u32,
    sectors: &mut [u8],
    written: &mut [u8],
    durable: &mut [u8],
    state: &mut [u8],
) -> u64
    ensures { answered result (ranges sectors.new written.new durable.new state.new)
        ≡ mount_edge (shape_of drives sector_bytes unit zones zone_sectors) named count (ranges sectors.old written.old durable.old state.old) }
{
    zrv::starting::zrv_mount(
        drives,
        sector_bytes,
        unit,
        zones,
        zone_sectors,
        named,
        count,
        sectors,
        written,
        durable,
        state,
    )
}

// Write by a host: so many sectors at an address, which must be their zone's pointer. It stores in `sectors` and `written`; `durable` it only reads.
#[unsafe(no_mangle)]
pub extern "C" fn zrv_write(
    drives: u32,
    sector_bytes: u32,
    unit: u32,
    zones: u32,
    zone_sectors: u32,
    named: u32,
    host: u32,
    address: u64,
    sectors_to_write: u32,
    count: u32,
    sectors: &mut [u8],
    written: &mut [u8],
    durable: &[u8],
    state: &mut [u8],
    buffer: &[u8],
) -> u64
    ensures { answered result (ranges sectors.new written.new durable.now state.new)
        ≡ write_edge (shape_of drives sector_bytes unit zones zone_sectors) named (write_of host address sectors_to_write buffer.now) count (ranges sectors.old written.old durable.now state.old) }
{
    zrv::writing::zrv_write(
        drives,
        sector_bytes,
        unit,
        zones,
        zone_sectors,
        named,
        host,
        address,
        sectors_to_write,
        count,
        sectors,
        written,
        durable,
        state,
        buffer,
    )
}

// Flush: every present drive is flushed. It stores in `durable`.
#[unsafe(no_mangle)]
pub extern "C" fn zrv_flush(
    drives: u32,
    sector_bytes: u32,
    unit: u32,
    zones: u32,
    zone_sectors: u32,
    named: u32,
    count: u32,
    sectors: &[u8],
    written: &[u8],
    durable: &mut [u8],
    state: &mut [u8],
) -> u64
    ensures { answered result (ranges sectors.now written.now durable.new state.new)
        ≡ flush_edge (shape_of drives sector_bytes unit zones zone_sectors) named count (ranges sectors.now written.now durable.old state.old) }
{
    zrv::writing::zrv_flush(
        drives,
        sector_bytes,
        unit,
        zones,
        zone_sectors,
        named,
        count,
        sectors,
        written,
        durable,
        state,
    )
}

// Reset of a logical zone: finished, it is empty, or worn after its last generation.
#[unsafe(no_mangle)]
pub extern "C" fn zrv_reset(
    drives: u32,
    sector_bytes: u32,
    unit: u32,
    zones: u32,
    zone_sectors: u32,
    named: u32,
    zone: u32,
    count: u32,
    sectors: &mut [u8],
    written: &mut [u8],
    durable: &mut [u8],
    state: &mut [u8],
) -> u64
    ensures { answered result (ranges sectors.new written.new durable.new state.new)
        ≡ reset_edge (shape_of drives sector_bytes unit zones zone_sectors) named zone count (ranges sectors.old written.old durable.old state.old) }
{
    zrv::writing::zrv_reset(
        drives,
        sector_bytes,
        unit,
        zones,
        zone_sectors,
        named,
        zone,
        count,
        sectors,
        written,
        durable,
        state,
    )
}

// Compact of a drive: its parity log is emptied, and the hosts get their shares of it anew.
#[unsafe(no_mangle)]
pub extern "C" fn zrv_compact(
    drives: u32,
    sector_bytes: u32,
    unit: u32,
    zones: u32,
    zone_sectors: u32,
    named: u32,
    drive: u32,
    count: u32,
    sectors: &mut [u8],
    written: &mut [u8],
    durable: &mut [u8],
    state: &mut [u8],
) -> u64
    ensures { answered result (ranges sectors.new written.new durable.new state.new)
        ≡ compact_edge (shape_of drives sector_bytes unit zones zone_sectors) named drive count (ranges sectors.old written.old durable.old state.old) }
{
    zrv::writing::zrv_compact(
        drives,
        sector_bytes,
        unit,
        zones,
        zone_sectors,
        named,
        drive,
        count,
        sectors,
        written,
        durable,
        state,
    )
}

// Read: so many sectors from an address, into the answer buffer.
#[unsafe(no_mangle)]
pub extern "C" fn zrv_read(
    drives: u32,
    sector_bytes: u32,
    unit: u32,
    zones: u32,
    zone_sectors: u32,
    named: u32,
    address: u64,
    sectors_to_read: u32,
    sectors: &[u8],
    written: &[u8],
    durable: &[u8],
    state: &[u8],
    answer: &mut [u8],
) -> u64
    ensures { answered result answer.new
        ≡ read_edge (shape_of drives sector_bytes unit zones zone_sectors) named address sectors_to_read (ranges sectors.now written.now durable.now state.now) answer.old }
{
    zrv::reading::zrv_read(
        drives,
        sector_bytes,
        unit,
        zones,
        zone_sectors,
        named,
        address,
        sectors_to_read,
        sectors,
        written,
        durable,
        state,
        answer,
    )
}

// Peek: where a held sector lies in `sectors`, as its offset in the place's eight bytes.
#[unsafe(no_mangle)]
pub extern "C" fn zrv_peek(
    drives: u32,
    sector_bytes: u32,
    unit: u32,
    zones: u32,
    zone_sectors: u32,
    named: u32,
    address: u64,
    sectors: &[u8],
    written: &[u8],
    durable: &[u8],
    state: &[u8],
    place: &mut [u8],
) -> u64
    ensures { answered result place.new
        ≡ peek_edge (shape_of drives sector_bytes unit zones zone_sectors) named address (ranges sectors.now written.now durable.now state.now) place.old }
{
    zrv::reading::zrv_peek(
        drives,
        sector_bytes,
        unit,
        zones,
        zone_sectors,
        named,
        address,
        sectors,
        written,
        durable,
        state,
        place,
    )
}

// Report: the descriptors of the zones, in zone order, as many as the list has room for.
#[unsafe(no_mangle)]
pub extern "C" fn zrv_report(
    drives: u32,
    sector_bytes: u32,
    unit: u32,
    zones: u32,
    zone_sectors: u32,
    state: &[u8],
    list: &mut [u8],
) -> u64
    ensures { answered result list.new
        ≡ report_edge (shape_of drives sector_bytes unit zones zone_sectors) state.now list.old }
{
    zrv::reporting::zrv_report(drives, sector_bytes, unit, zones, zone_sectors, state, list)
}

// Read of the block with an address, into the answer buffer.
#[unsafe(no_mangle)]
pub extern "C" fn zrv_grouped_read(
    drives: u32,
    block_bytes: u32,
    group: u32,
    blocks_per_drive: u32,
    named: u32,
    address: u64,
    blocks: &[u8],
    metadata: &[u8],
    work: &mut [u8],
    answer: &mut [u8],
) -> u64
    ensures { answered result answer.new
        ≡ grouped_edge (segment_of drives block_bytes group blocks_per_drive) named address blocks.now metadata.now (length work.old) answer.old }
{
    zrv::segments::zrv_grouped_read(
        drives,
        block_bytes,
        group,
        blocks_per_drive,
        named,
        address,
        blocks,
        metadata,
        work,
        answer,
    )
}
