// Read and peek: the calls that store nothing. Read gives the values of rule 4; before it writes to the caller's buffer it knows that every
// sector of the run is known. Such a run lies below the pointer of a zone that is not stale, so it needs no log unless a drive is absent and the
// pointer's own stripe is read: only then does it look where the logs lie. Peek gives the part of the lent sectors where a held sector sits.
ghost use Rattle.std.specs.Prelude.{◌≡◌, false, ◌+◌, ◌*◌, ◌≤◌, ◌<◌, length, eqb};
ghost use Rattle.tables.specs.meaning.Basics.{pick};
ghost use Rattle.tables.specs.meaning.Below.{tabulate_from};
ghost use Rattle.tables.specs.meaning.Lists.{concat};
ghost use Rattle.tables.specs.meaning.Geometry.{Valid, cells, total_bytes, zone_sectors};
ghost use Rattle.tables.specs.meaning.Tables.{tables_of};
ghost use Rattle.volume.specs.meaning.RefusalNumbers.{number_of};
ghost use Rattle.volume.specs.meaning.Rules.{value_at, seal_limit};
ghost use Rattle.volume.specs.meaning.Refusals.{gone_in, zone_of, offset_of};
ghost use Rattle.volume.specs.meaning.State.{pointer_in};
ghost use Rattle.volume.specs.meaning.CallContracts.{is_set, read_on, peek_number, peek_on, peek_from, past};
ghost use Rattle.volume.specs.looking.Knowing.{Readable, read_device, own_sector};
ghost use Rattle.volume.specs.declared.Answer.TheVariants.{Finished, Refused};
ghost use Rattle.volume.specs.reading.Reading.{late_number, RunReady, RunRead};
ghost use Rattle.volume.specs.reading.ReadZone.{ReadAsked, zone_read_number, zone_read_left};
ghost use Rattle.volume.specs.reading.ReadingHeld.{LimitServes};
ghost use Rattle.volume.specs.reading.Peeking.{place_number_on};

use super::checks::Sizes;
use super::{Answer, Condition, Refusal, State, Zone};
use tables::{Geometry, MAX_CELLS, MAX_DRIVES};

// Whether some sector of a run is not known; limit is the zone's least current seal.
pub fn some_gone(
    sectors: &[u8],
    written: &[u32],
    zone: Zone,
    limit: usize,
    offset: usize,
    count: usize,
) -> bool
    requires valid { Valid zone.geometry }
    requires readable { Readable zone.geometry zone.here sectors.now written.now zone.number × (offset + count ≤ zone_sectors zone.geometry)
        × (limit ≡ seal_limit zone.geometry (is_set zone.here) (read_device zone.geometry sectors.now written.now) zone.number zone.generation) }
    ensures { result ≡ gone_in zone.geometry (is_set zone.here) (read_device zone.geometry sectors.now written.now) zone.number zone.generation offset count }
{
    (offset..offset + count).any(|a| !super::knowing::is_known(sectors, written, zone, limit, a))
}

// Copies a run that is held, sector after sector.
fn copy_run(sectors: &[u8], g: Geometry, z: usize, offset: usize, count: usize, out: &mut [u8])
    requires valid { Valid g }
    requires z_lt_zones { (z < g.zones) × (offset + count ≤ zone_sectors g) × (length sectors.now ≡ total_bytes g) × (length out.old ≡ count * g.sector) }
    ensures { out.new ≡ concat (tabulate_from (own_sector g sectors.now z) offset count) }
{
    for i in 0..count {
        let at = i * g.sector;
        let end = at + g.sector;
        super::knowing::read_own(sectors, g, z, offset + i, &mut out[at..end]);
    }
}

// The values of a run that is known, sector after sector; limit serves it as the zone's least current seal does.
fn read_values(
    sectors: &[u8],
    written: &[u32],
    zone: Zone,
    limit: usize,
    offset: usize,
    count: usize,
    out: &mut [u8],
)
    requires valid { Valid zone.geometry }
    requires readable { Readable zone.geometry zone.here sectors.now written.now zone.number × (offset + count ≤ zone_sectors zone.geometry) × (length out.old ≡ count * zone.geometry.sector)
        × (gone_in zone.geometry (is_set zone.here) (read_device zone.geometry sectors.now written.now) zone.number zone.generation offset count ≡ false)
        × LimitServes zone.geometry zone.here sectors.now written.now zone.number zone.generation limit offset count }
    ensures { out.new ≡ concat (tabulate_from (value_at zone.geometry (is_set zone.here) (read_device zone.geometry sectors.now written.now) zone.number zone.generation) offset count) }
{
    for i in 0..count {
        let at = i * zone.geometry.sector;
        let end = at + zone.geometry.sector;
        super::knowing::served_value(sectors, written, zone, limit, offset + i, &mut out[at..end]);
    }
}

// Reads a run by the logs, where these lie; `pointers` is room for the written pointers by which the tables are the device by its roles.
fn read_by_roles(
    sectors: &[u8],
    written: &[u32],
    pointers: &mut [u32],
    zone: Zone,
    offset: usize,
    count: usize,
    out: &mut [u8],
) -> bool
    requires valid { Valid zone.geometry }
    requires readable { Readable zone.geometry zone.here sectors.now written.now zone.number × (zone.geometry.logs ≡ 0) × (length pointers.old ≡ cells zone.geometry)
        × (offset + count ≤ zone_sectors zone.geometry) × (length out.old ≡ count * zone.geometry.sector) }
    ensures { RunRead zone sectors.now written.now offset count out.old result out.new }
{
    let here = zone.here;
    let places = super::roles::see_by_roles(sectors, written, pointers, zone.geometry);
    let h = places.geometry;
    let seen = Zone {
        geometry: h,
        here,
        number: zone.number,
        generation: zone.generation,
    };
    let limit = super::knowing::seal_limit(
        sectors,
        pointers,
        h,
        here,
        zone.number,
        zone.generation,
    );
    let gone = some_gone(sectors, pointers, seen, limit, offset, count);
    if gone {
        return true;
    }
    read_values(sectors, pointers, seen, limit, offset, count, out);
    false
}

// Reads a run for which the logs are needed.
fn read_logged(
    sectors: &[u8],
    written: &[u32],
    zone: Zone,
    offset: usize,
    count: usize,
    out: &mut [u8],
) -> bool
    requires valid { Valid zone.geometry }
    requires readable { Readable zone.geometry zone.here sectors.now written.now zone.number × (zone.geometry.logs ≡ 0)
        × (offset + count ≤ zone_sectors zone.geometry) × (length out.old ≡ count * zone.geometry.sector) }
    ensures { RunRead zone sectors.now written.now offset count out.old result out.new }
{
    let cells = written.len();
    let mut pointers = [0u32; MAX_CELLS];
    read_by_roles(
        sectors,
        written,
        &mut pointers[..cells],
        zone,
        offset,
        count,
        out,
    )
}

// Reads a run below the pointer, sector after sector: the values of rule 4. Gives whether some sector is not known (refusal 15); the buffer stays then.
fn read_run(
    sectors: &[u8],
    written: &[u32],
    zone: Zone,
    pointer: usize,
    offset: usize,
    count: usize,
    out: &mut [u8],
) -> bool
    requires valid { Valid zone.geometry }
    requires run_ready { RunReady zone sectors.now written.now pointer offset count out.old }
    ensures { RunRead zone sectors.now written.now offset count out.old result out.new }
{
    let here = zone.here;
    let absent = super::checks::count_absent(zone.geometry, here);
    if absent == 0 {
        copy_run(sectors, zone.geometry, zone.number, offset, count, out);
        return false;
    }
    let logged = super::zone_checks::needs_log(zone.geometry, here, pointer, offset + count);
    if logged {
        return read_logged(sectors, written, zone, offset, count, out);
    }
    read_values(sectors, written, zone, 0, offset, count, out);
    false
}

// The zone of an address.
pub fn zone_of(g: Geometry, address: u64) -> usize
    requires { Valid g }
    ensures { result ≡ zone_of g address }
{
    let size = tables::bounds::zone_sectors(g) as u64;
    (address / size) as usize
}

// Where an address lies in its zone.
pub fn offset_of(g: Geometry, address: u64) -> usize
    requires { Valid g }
    ensures { (result ≡ offset_of g address) × (result < zone_sectors g) }
{
    let size = tables::bounds::zone_sectors(g) as u64;
    (address % size) as usize
}

// Refusals 7, 9 and 13 of a run in a zone that exists.
fn run_refusal(
    written: &[u32],
    zone: Zone,
    c: Condition,
    offset: usize,
    count: usize,
) -> Result<(), Refusal>
    requires valid { Valid zone.geometry }
    requires written_len { (length written.now ≡ cells zone.geometry) × (zone.number < zone.geometry.zones) × (pointer_in c ≤ zone_sectors zone.geometry) × (offset ≤ zone_sectors zone.geometry) × (count ≤ 4294967295) }
    ensures { number_of result ≡ late_number zone.geometry zone.here written.now c zone.number offset count }
{
    let here = zone.here;
    let stale = super::zone_checks::is_stale(written, zone.geometry, here, c, zone.number);
    if stale {
        return Err(Refusal::Stale);
    }
    let most = tables::bounds::zone_sectors(zone.geometry);
    let end = offset + count;
    if (count == 0) | (most < end) {
        return Err(Refusal::Run);
    }
    let pointer = super::records::pointer_of(c);
    if pointer < end {
        return Err(Refusal::Unwritten);
    }
    Ok(())
}

// A read of a run in a zone that there is, in condition c: refusals 7, 9, 13 and 15; accepted, the buffer holds the sectors.
pub fn read_zone(
    sectors: &[u8],
    written: &[u32],
    zone: Zone,
    c: Condition,
    offset: usize,
    count: usize,
    out: &mut [u8],
) -> Result<(), Refusal>
    requires valid { Valid zone.geometry }
    requires read_asked { ReadAsked zone c sectors.now written.now offset count out.old }
    ensures { (number_of result ≡ zone_read_number zone c sectors.now written.now offset count) × (out.new ≡ zone_read_left zone sectors.now written.now offset count out.old (number_of result)) }
{
    run_refusal(written, zone, c, offset, count)?;
    let pointer = super::records::pointer_of(c);
    let gone = read_run(sectors, written, zone, pointer, offset, count, out);
    if gone {
        return Err(Refusal::Gone);
    }
    Ok(())
}

// A read's answer.
fn answer_of(read: Result<(), Refusal>) -> Answer
    ensures { result ≡ pick (eqb (number_of read) 0) Finished (Refused (number_of read)) }
{
    match read {
        Ok(()) => Answer::Finished,
        Err(refusal) => Answer::Refused(refusal.number()),
    }
}

// The call. A refused read leaves the buffer as it was.
pub fn read(
    sectors: &[u8],
    written: &[u32],
    durable: &[u32],
    g: Geometry,
    named: [bool; MAX_DRIVES],
    state: State,
    address: u64,
    count: u32,
    out: &mut [u8],
) -> Answer
    ensures { (result ≡ (read_on g named state address count out.old (tables_of sectors.now written.now durable.now)).answer)
        × (out.new ≡ (read_on g named state address count out.old (tables_of sectors.now written.now durable.now)).buffer) }
{
    let within = super::checks::input_within(g, state);
    let lost = state.lost;
    let sizes = Sizes {
        sectors: sectors.len(),
        count: count as u64,
        bytes: out.len(),
    };
    if let Err(refusal) = super::checks::opening(within, sizes, written, durable, g, named, lost) {
        return Answer::Refused(refusal.number());
    }
    let z = zone_of(g, address);
    let zones = g.zones;
    if zones <= z {
        return Answer::Refused(Refusal::Address.number());
    }
    let records = state.zones;
    let record = records[z];
    let c = record.condition;
    let here = super::checks::present_drives(g, named, lost);
    let zone = Zone {
        geometry: g,
        here,
        number: z,
        generation: record.generation,
    };
    let offset = offset_of(g, address);
    answer_of(read_zone(sectors, written, zone, c, offset, count as usize, out))
}

// Refusals 7, 13 and 15 of a peek in a zone that exists.
fn place_refusal(
    written: &[u32],
    g: Geometry,
    here: [bool; MAX_DRIVES],
    c: Condition,
    z: usize,
    offset: usize,
) -> Result<(), Refusal>
    requires valid { Valid g }
    requires z_lt_zones { (z < g.zones) × (length written.now ≡ cells g) × (pointer_in c ≤ zone_sectors g) × (offset < zone_sectors g) }
    ensures { number_of result ≡ place_number_on g here written.now c z offset }
{
    let stale = super::zone_checks::is_stale(written, g, here, c, z);
    if stale {
        return Err(Refusal::Stale);
    }
    let pointer = super::records::pointer_of(c);
    if pointer < offset + 1 {
        return Err(Refusal::Unwritten);
    }
    let held = super::knowing::own_held(written, g, here, z, offset);
    if !held {
        return Err(Refusal::Gone);
    }
    Ok(())
}

// The refusals of a peek.
pub fn peek_refusal(
    sectors: &[u8],
    written: &[u32],
    durable: &[u32],
    g: Geometry,
    named: [bool; MAX_DRIVES],
    state: State,
    address: u64,
) -> Result<(), Refusal>
    ensures { number_of result ≡ peek_number g named state address (tables_of sectors.now written.now durable.now) }
{
    let within = super::checks::input_within(g, state);
    let lost = state.lost;
    let sizes = Sizes {
        sectors: sectors.len(),
        count: 0,
        bytes: 0,
    };
    super::checks::opening(within, sizes, written, durable, g, named, lost)?;
    let z = zone_of(g, address);
    let zones = g.zones;
    if zones <= z {
        return Err(Refusal::Address);
    }
    let records = state.zones;
    let record = records[z];
    let c = record.condition;
    let here = super::checks::present_drives(g, named, lost);
    let offset = offset_of(g, address);
    place_refusal(written, g, here, c, z, offset)
}

// The part of the lent sectors where a held sector sits, without copying; an empty part where the peek is refused.
pub fn peek<'a>(
    sectors: &'a [u8],
    written: &[u32],
    durable: &[u32],
    g: Geometry,
    named: [bool; MAX_DRIVES],
    state: State,
    address: u64,
) -> &'a [u8]
    ensures { (result.now ≡ peek_on g named state address (tables_of sectors.now written.now durable.now))
        × (result.ref_ptr ≡ past (peek_from g named state address (tables_of sectors.now written.now durable.now)) sectors.entry.ref_ptr) }
{
    if peek_refusal(sectors, written, durable, g, named, state, address).is_err() {
        return &sectors[..0];
    }
    let z = zone_of(g, address);
    let offset = offset_of(g, address);
    let d = tables::placement::drive_of(g, z, offset);
    let x = tables::placement::sector_of(g, offset);
    let at = tables::stores::byte_at(g, d, tables::DATA_ZONES + z, x);
    let b = g.sector;
    let end = at + b;
    &sectors[at..end]
}
