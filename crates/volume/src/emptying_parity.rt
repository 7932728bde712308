// A parity log that lacks room is emptied as a general one is (`emptying`). Of its entries is copied, "for each zone, the last whole current partial parity at
// its pointer, made if lacking". Generations, pointers and values are "in a mount by its look; elsewhere by the state"; values are read below `pointers`, the old
// log below `starts`, both copies of the written pointers: outside a mount of the call's start, in a mount of its look and of the moment.
ghost use Rattle.std.specs.Prelude.{◌≡◌, true, [], ◌∷◌, suc, ◌≤◌, ◌<◌, min, length};
ghost use Rattle.tables.specs.meaning.Geometry.{Valid, zone_sectors, cells};
ghost use Rattle.tables.specs.meaning.Device.{append};
ghost use Rattle.tables.specs.meaning.Tables.{tables_of, sector_at};
ghost use Rattle.tables.specs.laws.Made.{Made, MadeAppends, store_if};
ghost use Rattle.logs.specs.meaning.Entry.{parity_zone, spare_zone};
ghost use Rattle.volume.specs.meaning.Content.{fill_of};
ghost use Rattle.volume.specs.meaning.Calls.{append_all};
ghost use Rattle.volume.specs.meaning.Emptying.{new_parity_size};
ghost use Rattle.volume.specs.looking.Knowing.{read_device};
ghost use Rattle.volume.specs.rows.RowStores.{rows_if};
ghost use Rattle.volume.specs.emptying.Moving.{Copying};
ghost use Rattle.volume.specs.emptying.EmptyingStores.{emptied_to};
ghost use Rattle.volume.specs.emptying.ParityCopies.{by_pointers, PointersWithin, copied_at, size_at, made_at, copied_entry, copied_entries, entry_sectors, entries_on};
ghost use Rattle.volume.specs.emptying.MadeEntries.{Making, made_rows};
ghost use Rattle.volume.specs.emptying.ParityReady.{PointCopying, ParityCopying};

use super::emptying::Emptying;
use super::rows::{Extent, Target};
use tables::Geometry;

// A zone as its partial parity is copied: its generation in force, and its pointer.
#[derive(Clone, Copy)]
pub struct ZonePoint {
    pub number: usize,
    pub generation: u64,
    pub pointer: usize,
}

// Whether a zone's pointer lies inside a stripe whose parity a drive holds.
pub fn is_copied(g: Geometry, drive: usize, z: usize, pointer: usize) -> bool
    requires valid { Valid g }
    requires z_lt_zones { (z < g.zones) × (pointer ≤ zone_sectors g) }
    ensures { result ≡ copied_at g drive z pointer }
{
    let k = tables::bounds::stripe_sectors(g);
    let s = pointer / k;
    let parity = tables::placement::parity_drive(g.drives, z, s);
    (s * k < pointer) & (drive == parity)
}

// How many sectors the entry at a pointer has.
pub fn entry_size(g: Geometry, pointer: usize) -> usize
    requires valid { Valid g }
    requires pointer_bound { pointer ≤ zone_sectors g }
    ensures { (result ≡ suc (min (fill_of g pointer) g.unit)) × (result ≤ 17) }
{
    let k = tables::bounds::stripe_sectors(g);
    let s = pointer / k;
    let rows = (pointer - s * k).min(g.unit);
    1 + rows
}

// How many sectors are copied for a zone.
fn copy_size(g: Geometry, drive: usize, z: usize, pointer: usize) -> usize
    requires valid { Valid g }
    requires z_lt_zones { (z < g.zones) × (pointer ≤ zone_sectors g) }
    ensures { (result ≡ size_at g drive z pointer) × (result ≤ 17) }
{
    let copied = is_copied(g, drive, z, pointer);
    if !copied {
        return 0;
    }
    entry_size(g, pointer)
}

// How many sectors a drive's parity log has once it is emptied: its copies and the closing entry.
pub fn parity_size(g: Geometry, drive: usize, points: &[usize]) -> usize
    requires valid { Valid g }
    requires pointers_within { PointersWithin g points.now }
    ensures { result ≡ new_parity_size g (by_pointers points.now) drive }
{
    let mut total = 0;
    for z in 0..g.zones {
        total += copy_size(g, drive, z, points[z]);
    }
    total + 1
}

// Copies one sector of the old log.
fn copy_sector(sectors: &mut [u8], written: &mut [u32], e: Emptying, n: usize, budget: u64) -> u64
    requires valid { Valid e.from }
    requires copying { Copying true e written.old sectors.old written.old × (n < e.from.capacity) }
    ensures { MadeAppends e.to budget result (store_if true (append e.drive parity_zone (sector_at e.from sectors.old e.drive parity_zone n))) sectors.old written.old sectors.new written.new }
{
    let drive = e.drive;
    let mut buffer = [0u8; 4096];
    let b = e.from.sector;
    tables::sectors::read_sector(
        sectors,
        e.from,
        drive,
        logs::PARITY_LOG,
        n,
        &mut buffer[..b],
    );
    tables::stores::append_counted(
        sectors,
        written,
        e.to,
        true,
        drive,
        logs::PARITY_LOG,
        &buffer[..b],
        budget,
    )
}

// Copies those from one on, below m.
fn copy_run(
    sectors: &mut [u8],
    written: &mut [u32],
    e: Emptying,
    first: usize,
    m: usize,
    budget: u64,
) -> u64
    requires valid { Valid e.from }
    requires copying { Copying true e written.old sectors.old written.old × (first ≤ m) × (m ≤ e.from.capacity) }
    ensures { MadeAppends e.to budget result (rows_if true e.drive parity_zone (sector_at e.from sectors.old e.drive parity_zone) first m) sectors.old written.old sectors.new written.new }
{
    let mut rest = budget;
    for n in first..m {
        rest = copy_sector(sectors, written, e, n, rest);
    }
    rest
}

// The rows of the entry at a zone's pointer, made from the values below it; each is built where it will lie. By `from` that is in the drive's spare zone.
fn append_made_rows(
    sectors: &mut [u8],
    written: &mut [u32],
    pointers: &[u32],
    e: Emptying,
    point: ZonePoint,
    budget: u64,
) -> u64
    requires valid { Valid e.from }
    requires making { Making e point pointers.now sectors.old written.old }
    ensures { MadeAppends e.from budget result (append_all e.drive spare_zone (made_rows e point (read_device e.from sectors.old pointers.now))) sectors.old written.old sectors.new written.new }
{
    let from = e.from;
    let here = e.here;
    let z = point.number;
    let generation = point.generation;
    let pointer = point.pointer;
    let k = tables::bounds::stripe_sectors(from);
    let s = pointer / k;
    let u = from.unit;
    let m = (pointer - s * k).min(u);
    let limit = super::knowing::seal_limit(sectors, pointers, from, here, z, generation);
    let known = Extent {
        geometry: from,
        to: from,
        here,
        zone: z,
        generation,
        limit,
        below: pointer,
        end: pointer,
    };
    let target = Target {
        drive: e.drive,
        zone: super::emptying::SPARE_ZONE,
        present: true,
    };
    let none = [0u8; 1];
    super::rows::append_rows(
        sectors,
        written,
        pointers,
        &none[..0],
        known,
        target,
        s,
        0,
        m,
        budget,
    )
}

// That entry: its header and then its rows.
fn append_made(
    sectors: &mut [u8],
    written: &mut [u32],
    pointers: &[u32],
    e: Emptying,
    point: ZonePoint,
    budget: u64,
) -> u64
    requires valid { Valid e.from }
    requires making { Making e point pointers.now sectors.old written.old }
    ensures { MadeAppends e.to budget result (entries_on e (made_at e (read_device e.from sectors.old pointers.now) point ∷ [])) sectors.old written.old sectors.new written.new }
{
    let pointer = point.pointer;
    let k = tables::bounds::stripe_sectors(e.from);
    let s = pointer / k;
    let fill = pointer - s * k;
    let rest = super::write_stores::append_partial(
        sectors,
        written,
        e.to,
        true,
        e.drive,
        point.number,
        s,
        fill,
        point.generation,
        budget,
    );
    append_made_rows(sectors, written, pointers, e, point, rest)
}

// Copies a zone's entry, if its pointer lies inside a stripe whose parity the drive holds: the last whole current one of the old log that ends at the
// pointer, sector by sector; if there is none, one that is made.
fn copy_entry(
    sectors: &mut [u8],
    written: &mut [u32],
    pointers: &[u32],
    starts: &[u32],
    e: Emptying,
    point: ZonePoint,
    budget: u64,
) -> u64
    requires valid { Valid e.from }
    requires point_copying { PointCopying e point pointers.now starts.now sectors.old written.old }
    ensures { MadeAppends e.to budget result (entries_on e (copied_entry e point pointers.now starts.now sectors.old)) sectors.old written.old sectors.new written.new }
{
    let pointer = point.pointer;
    if !is_copied(e.from, e.drive, point.number, pointer) {
        return budget;
    }
    let log = super::drive_logs::log_in(starts, e.from, e.drive, logs::PARITY_LOG);
    let place = logs::folds::last_partial(
        sectors,
        e.from,
        log,
        point.number,
        point.generation,
        pointer - 1,
        pointer,
    );
    if place == 0 {
        return append_made(sectors, written, pointers, e, point, budget);
    }
    let first = place - 1;
    let size = entry_size(e.from, pointer);
    copy_run(sectors, written, e, first, first + size, budget)
}

// Copies those of all zones, ascending.
pub fn copy_parity(
    sectors: &mut [u8],
    written: &mut [u32],
    pointers: &[u32],
    starts: &[u32],
    e: Emptying,
    generations: &[u64],
    points: &[usize],
    budget: u64,
) -> u64
    requires valid { Valid e.from }
    requires parity_copying { ParityCopying e generations.now points.now pointers.now starts.now sectors.old written.old }
    ensures { MadeAppends e.to budget result (entries_on e (copied_entries e generations.now points.now pointers.now starts.now sectors.old)) sectors.old written.old sectors.new written.new }
{
    let mut rest = budget;
    for z in 0..e.from.zones {
        let point = ZonePoint {
            number: z,
            generation: generations[z],
            pointer: points[z],
        };
        rest = copy_entry(sectors, written, pointers, starts, e, point, rest);
    }
    rest
}

// Empties a drive's parity log into its spare zone.
pub fn empty_parity(
    sectors: &mut [u8],
    written: &mut [u32],
    durable: &mut [u32],
    pointers: &[u32],
    starts: &[u32],
    e: Emptying,
    generations: &[u64],
    points: &[usize],
    budget: u64,
) -> u64
    requires valid { Valid e.from }
    requires parity_copying { ParityCopying e generations.now points.now pointers.now starts.now sectors.old written.old × (length durable.old ≡ cells e.from) }
    ensures { Made e.to budget result (emptied_to e true (entry_sectors e (copied_entries e generations.now points.now pointers.now starts.now sectors.old)))
        (tables_of sectors.old written.old durable.old) (tables_of sectors.new written.new durable.new) }
{
    let here = e.here;
    let flushed = super::flushing::flush_all(written, durable, e.to, here, budget);
    let copied = copy_parity(
        sectors,
        written,
        pointers,
        starts,
        e,
        generations,
        points,
        flushed,
    );
    super::emptying::end_emptying(sectors, written, durable, e, true, copied)
}
