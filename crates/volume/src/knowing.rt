// Rule 4: whether a sector of a zone is known under a generation, and its value. Three ways are tried in order. It is held: its own bytes. Or its
// row is complete: the row's parity in place and the row's other data give it. Or a partial parity entry gives it: the last whole and
// current one in the log of its stripe's parity drive that ends past it, at or below every current seal, and whose other sectors of the
// row below its end are held. The more an entry covers, the more sectors it needs: so the entries that serve are those that end past the sector
// and at most at its row's first other sector that is not held. A sector that is held costs no walk of a log.
ghost use Rattle.std.specs.Prelude.{◌≡◌, true, ◌+◌, ◌-◌, ◌≤◌, ◌<◌, min, length};
ghost use Rattle.tables.specs.meaning.Basics.{pick};
ghost use Rattle.tables.specs.meaning.Geometry.{Valid, cells, physical_zones, total_bytes, zone_sectors};
ghost use Rattle.tables.specs.meaning.Placement.{unit_index};
ghost use Rattle.tables.specs.meaning.Tables.{sector_at};
ghost use Rattle.tables.specs.meaning.Xor.{xor_bytes};
ghost use Rattle.logs.specs.meaning.Heads.{least_seal};
ghost use Rattle.logs.specs.meaning.Entry.{parity_zone, decode};
ghost use Rattle.logs.specs.code.Judge.{found};
ghost use Rattle.logs.specs.code.QueryLaws.{SmallSeen};
ghost use Rattle.volume.specs.declared.knowing.Source.TheVariants.{Held, Row, Entry};
ghost use Rattle.volume.specs.meaning.Rules.{general_heads, seal_limit, known, zone_view, value_at, parity_of, row_address};
ghost use Rattle.volume.specs.meaning.CallContracts.{is_set};
ghost use Rattle.volume.specs.looking.Knowing.{Readable, read_device, held_on, own_held, all_held, row_held, row_complete, stripe_end, reach_of, serving_place, source_of, has_source, row_xor, end_seen, entry_end, way_value, value_from, SourceFits};

use super::Zone;
use super::row_others::RowPlace;
use logs::Found;
use tables::{Geometry, MAX_DRIVES};

// How a sector is known (specs: `source_of`): not at all, held, by its row, or by the entry at a place of its parity drive's log, counted from 1.
#[derive(Clone, Copy)]
pub enum Source {
    Unknown,
    Held,
    Row,
    Entry(usize),
}

// The least current seal of one drive and of `most`.
fn seal_of(sectors: &[u8], written: &[u32], zone: Zone, d: usize, most: usize) -> usize
    requires valid { Valid zone.geometry }
    requires readable { Readable zone.geometry zone.here sectors.now written.now zone.number × (d < zone.geometry.drives) }
    ensures { (result ≡ pick (is_set zone.here d) (least_seal zone.number zone.generation most (general_heads zone.geometry (read_device zone.geometry sectors.now written.now) d)) most) × (result ≤ most) }
{
    let here = zone.here;
    let present = here[d];
    if !present {
        return most;
    }
    let at = tables::stores::cell_of(zone.geometry, d, logs::GENERAL_LOG);
    let n = tables::bounds::widen(written[at]);
    let log = logs::Log {
        drive: d,
        zone: logs::GENERAL_LOG,
        written: n,
    };
    logs::folds::least_seal(
        sectors,
        zone.geometry,
        log,
        zone.number,
        zone.generation,
        most,
    )
}

// The least current seal of a zone; its length if there is none.
#[tactic(auto, unfolding(crate::specs::meaning::Rules::seal_limit))]
pub fn seal_limit(
    sectors: &[u8],
    written: &[u32],
    g: Geometry,
    here: [bool; MAX_DRIVES],
    z: usize,
    generation: u64,
) -> usize
    requires valid { Valid g }
    requires readable { Readable g here sectors.now written.now z }
    ensures { (result ≡ seal_limit g (is_set here) (read_device g sectors.now written.now) z generation) × (result ≤ zone_sectors g) }
{
    let zone = Zone {
        geometry: g,
        here,
        number: z,
        generation,
    };
    let mut limit = tables::bounds::zone_sectors(g);
    for d in 0..g.drives {
        limit = seal_of(sectors, written, zone, d, limit);
    }
    limit
}

// Whether sector x of a zone is held by drive d.
pub fn is_held(
    written: &[u32],
    g: Geometry,
    here: [bool; MAX_DRIVES],
    z: usize,
    d: usize,
    x: usize,
) -> bool
    requires valid { Valid g }
    requires z_lt_zones { (z < g.zones) × (d < g.drives) × (length written.now ≡ cells g) }
    ensures { result ≡ held_on g here written.now z d x }
{
    let present = here[d];
    if !present {
        return false;
    }
    let at = tables::stores::cell_of(g, d, tables::DATA_ZONES + z);
    let n = tables::bounds::widen(written[at]);
    x < n
}

// Whether the drive of address a holds it.
pub fn own_held(written: &[u32], g: Geometry, here: [bool; MAX_DRIVES], z: usize, a: usize) -> bool
    requires valid { Valid g }
    requires z_lt_zones { (z < g.zones) × (length written.now ≡ cells g) × (a < zone_sectors g) }
    ensures { result ≡ own_held g here written.now z a }
{
    let d = tables::placement::drive_of(g, z, a);
    let x = tables::placement::sector_of(g, a);
    is_held(written, g, here, z, d, x)
}

// Whether all sectors of a run are held. Then no log need be walked to know them.
pub fn all_held(
    written: &[u32],
    g: Geometry,
    here: [bool; MAX_DRIVES],
    z: usize,
    offset: usize,
    count: usize,
) -> bool
    requires valid { Valid g }
    requires z_lt_zones { (z < g.zones) × (length written.now ≡ cells g) × (offset + count ≤ zone_sectors g) }
    ensures { result ≡ all_held g here written.now z offset count }
{
    (offset..offset + count).all(|a| own_held(written, g, here, z, a))
}

// The parity drive of the stripe of address a.
pub fn parity_of(g: Geometry, z: usize, a: usize) -> usize
    requires valid { Valid g }
    requires z_lt_zones { (z < g.zones) × (a < zone_sectors g) }
    ensures { (result ≡ parity_of g.drives g.unit z a) × (result < g.drives) }
{
    let d = g.drives;
    let u = g.unit;
    let k = (d - 1) * u;
    tables::placement::parity_drive(d, z, a / k)
}

// One past the last address of the stripe of a.
fn stripe_end(g: Geometry, a: usize) -> usize
    requires valid { Valid g }
    requires a_bound { a < zone_sectors g }
    ensures { (result ≡ stripe_end g a) × (result ≤ 458864) }
{
    let k = tables::bounds::stripe_sectors(g);
    a / k * k + k
}

// The address of unit k's sector in the row of a.
fn row_address(g: Geometry, a: usize, k: usize) -> usize
    requires valid { Valid g }
    requires a_bound { (a < zone_sectors g) × (k < g.drives) }
    ensures { result ≡ row_address g.drives g.unit a k }
{
    let n = tables::bounds::stripe_sectors(g);
    let u = g.unit;
    a / n * n + (k * u + a % n % u)
}

// The unit of address a in its stripe.
fn unit_index(g: Geometry, a: usize) -> usize
    requires valid { Valid g }
    requires a_bound { a < zone_sectors g }
    ensures { (result ≡ unit_index g.drives g.unit a) × (result < g.drives) }
{
    let n = tables::bounds::stripe_sectors(g);
    let u = g.unit;
    a % n / u
}

// The first address in the row of a, its own left out, that is not held; the stripe's end if all are held.
#[tactic(auto, unfolding(crate::specs::looking::Knowing::reach_of))]
fn reach_of(written: &[u32], g: Geometry, here: [bool; MAX_DRIVES], z: usize, a: usize) -> usize
    requires valid { Valid g }
    requires z_lt_zones { (z < g.zones) × (a < zone_sectors g) × (length written.now ≡ cells g) }
    ensures { result ≡ reach_of g here written.now z a }
{
    let mut reach = stripe_end(g, a);
    for k in 0..g.drives - 1 {
        reach = reach_past(written, g, here, z, a, k, reach);
    }
    reach
}

// That as far as unit k: `reach` is what the units before it leave.
fn reach_past(
    written: &[u32],
    g: Geometry,
    here: [bool; MAX_DRIVES],
    z: usize,
    a: usize,
    k: usize,
    reach: usize,
) -> usize
    requires valid { Valid g }
    requires z_lt_zones { (z < g.zones) × (a < zone_sectors g) × (length written.now ≡ cells g) × (k < g.drives) }
    ensures { result ≡ pick (row_held g here written.now z a k) reach (min reach (row_address g.drives g.unit a k)) }
{
    let own = unit_index(g, a);
    let p = parity_of(g, z, a);
    let d = tables::placement::unit_drive(g.drives, p, k);
    let x = tables::placement::sector_of(g, a);
    let held = is_held(written, g, here, z, d, x);
    if (k == own) | held {
        return reach;
    }
    let b = row_address(g, a, k);
    reach.min(b)
}

// The place, counted from 1, of the last entry that serves address a; 0 if there is none.
fn serving_place(sectors: &[u8], written: &[u32], zone: Zone, limit: usize, a: usize) -> usize
    requires valid { Valid zone.geometry }
    requires readable { Readable zone.geometry zone.here sectors.now written.now zone.number × (a < zone_sectors zone.geometry) }
    ensures { result ≡ serving_place zone.geometry zone.here sectors.now written.now zone.number zone.generation limit a }
{
    let here = zone.here;
    let p = parity_of(zone.geometry, zone.number, a);
    let present = here[p];
    if !present {
        return 0;
    }
    let reach = reach_of(written, zone.geometry, here, zone.number, a);
    let high = limit.min(reach);
    let at = tables::stores::cell_of(zone.geometry, p, logs::PARITY_LOG);
    let n = tables::bounds::widen(written[at]);
    let log = logs::Log {
        drive: p,
        zone: logs::PARITY_LOG,
        written: n,
    };
    logs::folds::last_partial(
        sectors,
        zone.geometry,
        log,
        zone.number,
        zone.generation,
        a,
        high,
    )
}

// Whether the row's parity is in place with all its other data.
fn row_complete(written: &[u32], g: Geometry, here: [bool; MAX_DRIVES], z: usize, a: usize) -> bool
    requires valid { Valid g }
    requires z_lt_zones { (z < g.zones) × (a < zone_sectors g) × (length written.now ≡ cells g) }
    ensures { result ≡ row_complete g here written.now z a }
{
    let p = parity_of(g, z, a);
    let x = tables::placement::sector_of(g, a);
    let held = is_held(written, g, here, z, p, x);
    let end = stripe_end(g, a);
    let reach = reach_of(written, g, here, z, a);
    held & (end <= reach)
}

// How address a is known.
fn source_of(sectors: &[u8], written: &[u32], zone: Zone, limit: usize, a: usize) -> Source
    requires valid { Valid zone.geometry }
    requires readable { Readable zone.geometry zone.here sectors.now written.now zone.number × (a < zone_sectors zone.geometry) }
    ensures { result ≡ source_of zone.geometry zone.here sectors.now written.now zone.number zone.generation limit a }
{
    let here = zone.here;
    let held = own_held(written, zone.geometry, here, zone.number, a);
    if held {
        return Source::Held;
    }
    let row = row_complete(written, zone.geometry, here, zone.number, a);
    if row {
        return Source::Row;
    }
    let place = serving_place(sectors, written, zone, limit, a);
    if place == 0 {
        return Source::Unknown;
    }
    Source::Entry(place)
}

fn has_source(way: Source) -> bool
    ensures { result ≡ has_source way }
{
    !matches!(way, Source::Unknown)
}

// Whether address a of a zone is known under a generation; limit is the zone's least current seal.
pub fn is_known(sectors: &[u8], written: &[u32], zone: Zone, limit: usize, a: usize) -> bool
    requires valid { Valid zone.geometry }
    requires readable { Readable zone.geometry zone.here sectors.now written.now zone.number × (a < zone_sectors zone.geometry)
        × (limit ≡ seal_limit zone.geometry (is_set zone.here) (read_device zone.geometry sectors.now written.now) zone.number zone.generation) }
    ensures { result ≡ known zone.geometry.drives zone.geometry.unit zone.number (zone_view zone.geometry (is_set zone.here) (read_device zone.geometry sectors.now written.now) zone.number zone.generation) a }
{
    let way = source_of(sectors, written, zone, limit, a);
    has_source(way)
}

// The exclusive or of the other sectors in the row of a below an end with sector n of a zone of the parity drive: the row's parity in place, or a row
// of an entry.
fn value_of_row(
    sectors: &[u8],
    g: Geometry,
    z: usize,
    a: usize,
    end: usize,
    zone: usize,
    n: usize,
    out: &mut [u8],
)
    requires valid { Valid g }
    requires z_lt_zones { (z < g.zones) × (a < zone_sectors g) × (zone < physical_zones g) × (n < g.capacity) × (length sectors.now ≡ total_bytes g) × (length out.old ≡ g.sector) }
    ensures { out.new ≡ xor_bytes (row_xor g sectors.now z a end) (sector_at g sectors.now (parity_of g.drives g.unit z a) zone n) }
{
    let p = parity_of(g, z, a);
    let row = RowPlace {
        zone: z,
        parity: p,
        sector: tables::placement::sector_of(g, a),
        start: row_address(g, a, 0),
        own: unit_index(g, a),
        end,
    };
    tables::sectors::read_sector(sectors, g, p, zone, n, out);
    super::row_others::xor_row(sectors, g, row, out);
}

// The end of a partial parity entry.
fn end_of(f: Found, g: Geometry) -> usize
    requires valid { Valid g }
    requires small_seen { SmallSeen g f }
    ensures { result ≡ end_seen g f }
{
    let k = tables::bounds::stripe_sectors(g);
    match f {
        Found::Bad => 0,
        Found::Label(_, _) => 0,
        Found::Counters => 0,
        Found::Resets(_, _) => 0,
        Found::Partial(_, s, fill, _) => s * k + fill,
        Found::Seal(_, _, _) => 0,
        Found::Closing(_) => 0,
    }
}

// The end of the entry whose header is at a place of drive d's parity log, counted from 1.
fn entry_end(sectors: &[u8], g: Geometry, d: usize, place: usize) -> usize
    requires valid { Valid g }
    requires d_lt_drives { (d < g.drives) × (length sectors.now ≡ total_bytes g) × (0 < place) × (place ≤ g.capacity) × SmallSeen g (found (decode g d true (sector_at g sectors.now d parity_zone (place - 1)))) }
    ensures { result ≡ entry_end g sectors.now d place }
{
    let f = logs::walking::judge_at(sectors, g, d, logs::PARITY_LOG, true, g.capacity, place - 1);
    end_of(f, g)
}

// A held sector's own bytes.
pub fn read_own(sectors: &[u8], g: Geometry, z: usize, a: usize, out: &mut [u8])
    requires valid { Valid g }
    requires z_lt_zones { (z < g.zones) × (a < zone_sectors g) × (length sectors.now ≡ total_bytes g) × (length out.old ≡ g.sector) }
    ensures { out.new ≡ way_value g sectors.now z a Held }
{
    let d = tables::placement::drive_of(g, z, a);
    let x = tables::placement::sector_of(g, a);
    tables::sectors::read_sector(sectors, g, d, tables::DATA_ZONES + z, x, out);
}

// A sector by its row's parity in place.
fn value_by_row(sectors: &[u8], g: Geometry, z: usize, a: usize, out: &mut [u8])
    requires valid { Valid g }
    requires z_lt_zones { (z < g.zones) × (a < zone_sectors g) × (length sectors.now ≡ total_bytes g) × (length out.old ≡ g.sector) }
    ensures { out.new ≡ way_value g sectors.now z a Row }
{
    let end = stripe_end(g, a);
    let x = tables::placement::sector_of(g, a);
    value_of_row(sectors, g, z, a, end, tables::DATA_ZONES + z, x, out);
}

// A sector by the entry at a place of its parity drive's log.
fn value_by_entry(sectors: &[u8], g: Geometry, z: usize, a: usize, place: usize, out: &mut [u8])
    requires valid { Valid g }
    requires z_lt_zones { (z < g.zones) × (a < zone_sectors g) × (length sectors.now ≡ total_bytes g) × (length out.old ≡ g.sector) × SourceFits g sectors.now z a (Entry place) }
    ensures { out.new ≡ way_value g sectors.now z a (Entry place) }
{
    let p = parity_of(g, z, a);
    let end = entry_end(sectors, g, p, place);
    let k = tables::bounds::stripe_sectors(g);
    let u = g.unit;
    value_of_row(sectors, g, z, a, end, 1, place + a % k % u, out);
}

// The value by a way; without one the buffer stays as it is.
fn value_by(sectors: &[u8], g: Geometry, z: usize, a: usize, way: Source, out: &mut [u8])
    requires valid { Valid g }
    requires z_lt_zones { (z < g.zones) × (a < zone_sectors g) × (length sectors.now ≡ total_bytes g) × (length out.old ≡ g.sector) × SourceFits g sectors.now z a way }
    ensures { out.new ≡ value_from g sectors.now z a way out.old }
{
    match way {
        Source::Unknown => {}
        Source::Held => read_own(sectors, g, z, a, out),
        Source::Row => value_by_row(sectors, g, z, a, out),
        Source::Entry(place) => value_by_entry(sectors, g, z, a, place, out),
    }
}

// The value of address a of a zone, which is known under a generation; limit finds the way to it that the zone's least current seal finds.
pub fn served_value(
    sectors: &[u8],
    written: &[u32],
    zone: Zone,
    limit: usize,
    a: usize,
    out: &mut [u8],
)
    requires valid { Valid zone.geometry }
    requires readable { Readable zone.geometry zone.here sectors.now written.now zone.number × (a < zone_sectors zone.geometry)
        × (source_of zone.geometry zone.here sectors.now written.now zone.number zone.generation limit a ≡ source_of zone.geometry zone.here sectors.now written.now zone.number zone.generation (seal_limit zone.geometry (is_set zone.here) (read_device zone.geometry sectors.now written.now) zone.number zone.generation) a)
        × (known zone.geometry.drives zone.geometry.unit zone.number (zone_view zone.geometry (is_set zone.here) (read_device zone.geometry sectors.now written.now) zone.number zone.generation) a ≡ true)
        × (length out.old ≡ zone.geometry.sector) }
    ensures { out.new ≡ value_at zone.geometry (is_set zone.here) (read_device zone.geometry sectors.now written.now) zone.number zone.generation a }
{
    let way = source_of(sectors, written, zone, limit, a);
    value_by(sectors, zone.geometry, zone.number, a, way, out);
}

// The value of address a of a zone, which is known under a generation; limit is the zone's least current seal.
pub fn sector_value(
    sectors: &[u8],
    written: &[u32],
    g: Geometry,
    here: [bool; MAX_DRIVES],
    z: usize,
    generation: u64,
    limit: usize,
    a: usize,
    out: &mut [u8],
)
    requires valid { Valid g }
    requires readable { Readable g here sectors.now written.now z × (a < zone_sectors g)
        × (limit ≡ seal_limit g (is_set here) (read_device g sectors.now written.now) z generation)
        × (known g.drives g.unit z (zone_view g (is_set here) (read_device g sectors.now written.now) z generation) a ≡ true)
        × (length out.old ≡ g.sector) }
    ensures { out.new ≡ value_at g (is_set here) (read_device g sectors.now written.now) z generation a }
{
    let zone = Zone {
        geometry: g,
        here,
        number: z,
        generation,
    };
    served_value(sectors, written, zone, limit, a, out);
}
