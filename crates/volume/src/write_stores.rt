// The stores of a write: sector by sector in the order of their addresses, the parity of each stripe that becomes complete, and one partial parity
// entry if it ends inside a stripe. A stripe that is written whole is laid at once (`stripes`). Stores to a drive that is not here are skipped. Rows are built where they will lie: from the write's buffer, and
// where the write begins inside a stripe from that stripe's earlier sectors, read below a copy of the written pointers of its start. The logs may lie
// elsewhere for what is stored than for what is read: a log that was emptied between the two.
ghost use Rattle.std.specs.Prelude.{◌≡◌, [], ◌+◌, ◌-◌, ◌*◌, ◌≤◌, ◌<◌, length};
ghost use Rattle.tables.specs.meaning.Basics.{pick};
ghost use Rattle.tables.specs.meaning.Device.{append};
ghost use Rattle.tables.specs.meaning.Geometry.{Valid, zone_sectors, stripe_sectors, cells, total_bytes};
ghost use Rattle.tables.specs.meaning.Phases.{on_present};
ghost use Rattle.tables.specs.laws.Made.{MadeAppends, store_if};
ghost use Rattle.logs.specs.meaning.Entry.{parity_zone, encode, partial_parity};
ghost use Rattle.volume.specs.meaning.Content.{inside_stripe};
ghost use Rattle.volume.specs.meaning.Rules.{seal_limit};
ghost use Rattle.volume.specs.meaning.Calls.{sector_stores, data_stores, entry_stores, write_with};
ghost use Rattle.volume.specs.meaning.Answers.{sectors_in};
ghost use Rattle.volume.specs.meaning.CallContracts.{is_set};
ghost use Rattle.volume.specs.looking.Knowing.{Readable, read_device};
ghost use Rattle.volume.specs.rows.RowsInPlace.{content_of};
ghost use Rattle.volume.specs.writing.WriteStores.{earlier_held, WriteReady, StoresPast, Writing, run_content};

use super::Zone;
use super::rows::{Extent, Target};
use tables::{Geometry, stores};

// One address: its sector, and the stripe's parity if it is the last of its stripe. What is left of the budget of stores.
fn write_sector(
    sectors: &mut [u8],
    written: &mut [u32],
    pointers: &[u32],
    buffer: &[u8],
    known: Extent,
    a: usize,
    budget: u64,
) -> u64
    requires valid { Valid known.geometry }
    requires writing { Writing known sectors.old written.old pointers.now buffer.now × (known.below ≤ a) × (a < known.end) }
    ensures { MadeAppends known.to budget result (on_present (is_set known.here) (sector_stores known.geometry.drives known.geometry.unit known.zone (content_of known (read_device known.geometry sectors.old pointers.now) buffer.now) a))
        sectors.old written.old sectors.new written.new }
{
    let here = known.here;
    let z = known.zone;
    let below = known.below;
    let zone = tables::DATA_ZONES + z;
    let d = tables::placement::drive_of(known.geometry, z, a);
    let b = known.geometry.sector;
    let at = (a - below) * b;
    let end = at + b;
    let rest = stores::append_counted(
        sectors,
        written,
        known.to,
        here[d],
        d,
        zone,
        &buffer[at..end],
        budget,
    );
    let k = tables::bounds::stripe_sectors(known.geometry);
    if a % k + 1 < k {
        return rest;
    }
    let p = tables::placement::parity_drive(known.geometry.drives, z, a / k);
    let target = Target {
        drive: p,
        zone,
        present: here[p],
    };
    super::rows::append_rows(
        sectors,
        written,
        pointers,
        buffer,
        known,
        target,
        a / k,
        0,
        known.geometry.unit,
        rest,
    )
}

// How far a write has come: its next address, and what is left of the budget of stores.
#[derive(Clone, Copy)]
struct Reached {
    next: usize,
    rest: u64,
}

// What comes next at address a: its whole stripe, if that begins there and all of it can be stored; else its sector.
fn write_next(
    sectors: &mut [u8],
    written: &mut [u32],
    pointers: &[u32],
    buffer: &[u8],
    known: Extent,
    a: usize,
    budget: u64,
) -> Reached
    requires valid { Valid known.geometry }
    requires writing { Writing known sectors.old written.old pointers.now buffer.now × (known.below ≤ a) × (a < known.end) }
    ensures { (a < result.next) × (result.next ≤ known.end)
        × MadeAppends known.to budget result.rest (on_present (is_set known.here) (data_stores known.geometry.drives known.geometry.unit known.zone (content_of known (read_device known.geometry sectors.old pointers.now) buffer.now) a (result.next - a)))
        sectors.old written.old sectors.new written.new }
{
    let due = super::stripes::stripe_due(written, known, a, budget);
    if due {
        let rest = super::stripes::write_stripe(sectors, written, buffer, known, a, budget);
        let k = tables::bounds::stripe_sectors(known.geometry);
        return Reached { next: a + k, rest };
    }
    let rest = write_sector(sectors, written, pointers, buffer, known, a, budget);
    Reached { next: a + 1, rest }
}

// The addresses from `below` to the end.
fn write_run(
    sectors: &mut [u8],
    written: &mut [u32],
    pointers: &[u32],
    buffer: &[u8],
    known: Extent,
    budget: u64,
) -> u64
    requires valid { Valid known.geometry }
    requires writing { Writing known sectors.old written.old pointers.now buffer.now }
    ensures { MadeAppends known.to budget result (on_present (is_set known.here) (data_stores known.geometry.drives known.geometry.unit known.zone (content_of known (read_device known.geometry sectors.old pointers.now) buffer.now) known.below (known.end - known.below)))
        sectors.old written.old sectors.new written.new }
{
    let mut rest = budget;
    let mut a = known.below;
    // kept: the steps differ, since write_next takes a sector or a whole stripe and says where it stopped; a `for` has one step.
    while a < known.end {
        let reached = write_next(sectors, written, pointers, buffer, known, a, rest);
        rest = reached.rest;
        a = reached.next;
    }
    rest
}

// The header of a partial parity entry, on the parity log of a drive: stripe s, its first `fill` sectors. It is written where it will lie.
pub fn append_partial(
    sectors: &mut [u8],
    written: &mut [u32],
    g: Geometry,
    present: bool,
    drive: usize,
    z: usize,
    s: usize,
    fill: usize,
    generation: u64,
    budget: u64,
) -> u64
    requires valid { Valid g }
    requires drive_lt_drives { (drive < g.drives) × (z < g.zones) × (s * stripe_sectors g + fill ≤ zone_sectors g) × (length sectors.old ≡ total_bytes g) × (length written.old ≡ cells g) }
    ensures { MadeAppends g budget result (store_if present (append drive parity_zone (encode g drive (partial_parity z s fill generation)))) sectors.old written.old sectors.new written.new }
{
    let made = stores::append_due(written, g, present, drive, logs::PARITY_LOG, budget);
    if !made {
        return stores::left_after(present, budget);
    }
    let from = stores::next_byte(written, g, drive, logs::PARITY_LOG);
    let b = g.sector;
    let end = from + b;
    logs::headers::write_partial(&mut sectors[from..end], g, drive, z, s, fill, generation);
    stores::advance(written, g, drive, logs::PARITY_LOG);
    stores::left_after(present, budget)
}

// If the end lies inside a stripe: the partial parity entry that ends there, its header and then its rows, on the stripe's parity drive.
fn write_entry(
    sectors: &mut [u8],
    written: &mut [u32],
    pointers: &[u32],
    buffer: &[u8],
    known: Extent,
    budget: u64,
) -> u64
    requires valid { Valid known.geometry }
    requires writing { Writing known sectors.old written.old pointers.now buffer.now }
    ensures { MadeAppends known.to budget result (on_present (is_set known.here) (pick (inside_stripe known.geometry known.end) (entry_stores known.geometry known.zone known.generation (content_of known (read_device known.geometry sectors.old pointers.now) buffer.now) known.end) []))
        sectors.old written.old sectors.new written.new }
{
    let here = known.here;
    let end = known.end;
    let k = tables::bounds::stripe_sectors(known.geometry);
    let s = end / k;
    let start = s * k;
    if end <= start {
        return budget;
    }
    let fill = end - start;
    let p = tables::placement::parity_drive(known.geometry.drives, known.zone, s);
    let due = here[p];
    let rest = append_partial(
        sectors,
        written,
        known.to,
        due,
        p,
        known.zone,
        s,
        fill,
        known.generation,
        budget,
    );
    let m = fill.min(known.geometry.unit);
    let target = Target {
        drive: p,
        zone: logs::PARITY_LOG,
        present: due,
    };
    super::rows::append_rows(
        sectors, written, pointers, buffer, known, target, s, 0, m, rest,
    )
}

// The whole write: its sectors, and the entry.
fn write_extent(
    sectors: &mut [u8],
    written: &mut [u32],
    pointers: &[u32],
    buffer: &[u8],
    known: Extent,
    budget: u64,
) -> u64
    requires valid { Valid known.geometry }
    requires writing { Writing known sectors.old written.old pointers.now buffer.now }
    ensures { MadeAppends known.to budget result (on_present (is_set known.here) (write_with known.geometry known.zone known.generation (content_of known (read_device known.geometry sectors.old pointers.now) buffer.now) known.below (known.end - known.below)))
        sectors.old written.old sectors.new written.new }
{
    let rest = write_run(sectors, written, pointers, buffer, known, budget);
    write_entry(sectors, written, pointers, buffer, known, rest)
}

// Whether the earlier sectors of a pointer's stripe are held.
pub fn earlier_held(written: &[u32], zone: Zone, n: usize) -> bool
    requires valid { Valid zone.geometry }
    requires number_lt_zones { (zone.number < zone.geometry.zones) × (length written.now ≡ cells zone.geometry) × (n ≤ zone_sectors zone.geometry) }
    ensures { result ≡ earlier_held zone.geometry zone.here written.now zone.number n }
{
    let here = zone.here;
    let k = tables::bounds::stripe_sectors(zone.geometry);
    let start = n / k * k;
    super::knowing::all_held(written, zone.geometry, here, zone.number, start, n - start)
}

// The least current seal of a zone, where an earlier sector of pointer n's stripe is not held. Where all are held no log is walked: a write's time does
// not grow with what the logs hold.
fn earlier_limit(sectors: &[u8], pointers: &[u32], zone: Zone, n: usize) -> usize
    requires valid { Valid zone.geometry }
    requires readable { Readable zone.geometry zone.here sectors.now pointers.now zone.number × (n ≤ zone_sectors zone.geometry) }
    ensures { result ≡ pick (earlier_held zone.geometry zone.here pointers.now zone.number n) 0
        (seal_limit zone.geometry (is_set zone.here) (read_device zone.geometry sectors.now pointers.now) zone.number zone.generation) }
{
    let held = earlier_held(pointers, zone, n);
    if held {
        return 0;
    }
    let here = zone.here;
    super::knowing::seal_limit(
        sectors,
        pointers,
        zone.geometry,
        here,
        zone.number,
        zone.generation,
    )
}

// The stores of a write of `count` sectors from pointer n of a zone, as far as the budget of stores goes: what is left of it. `pointers` is a copy of
// the written pointers of its start, below which it reads; what it stores goes by `to`.
pub fn write_all(
    sectors: &mut [u8],
    written: &mut [u32],
    pointers: &[u32],
    zone: Zone,
    to: Geometry,
    n: usize,
    count: usize,
    buffer: &[u8],
    budget: u64,
) -> u64
    requires valid { Valid zone.geometry }
    requires write_ready { WriteReady zone.geometry zone.here sectors.old pointers.now zone.number zone.generation n count buffer.now × StoresPast zone.geometry to pointers.now written.old }
    ensures { MadeAppends to budget result (on_present (is_set zone.here) (write_with zone.geometry zone.number zone.generation (run_content zone.geometry (is_set zone.here) (read_device zone.geometry sectors.old pointers.now) zone.number zone.generation n (sectors_in zone.geometry count buffer.now)) n count))
        sectors.old written.old sectors.new written.new }
{
    let limit = earlier_limit(sectors, pointers, zone, n);
    let g = zone.geometry;
    let here = zone.here;
    write_extent(
        sectors,
        written,
        pointers,
        buffer,
        Extent {
            geometry: g,
            to,
            here,
            zone: zone.number,
            generation: zone.generation,
            limit,
            below: n,
            end: n + count,
        },
        budget,
    )
}
