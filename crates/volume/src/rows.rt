// Rows of parity, built in the lent sectors where they will lie: row r of stripe s is the exclusive or of its sectors below an end. A row is built only
// when its store is due, so an unfinished call has changed nothing but what its stores say; and past the pointers below which sectors are read, so
// no sector that is read changes meanwhile.
ghost use Rattle.std.specs.Prelude.{◌≡◌, true, List, [], ℕ, ◌+◌, ◌*◌, ◌≤◌, ◌<◌, length, ltb};
ghost use Rattle.tables.specs.meaning.Basics.{pick};
ghost use Rattle.tables.specs.meaning.Device.{append};
ghost use Rattle.tables.specs.meaning.Geometry.{Valid, cells, stripe_sectors, zone_sectors, total_bytes};
ghost use Rattle.tables.specs.meaning.Lists.{overlay};
ghost use Rattle.tables.specs.meaning.Tables.{sector_no};
ghost use Rattle.tables.specs.laws.Made.{MadeAppends, store_if};
ghost use Rattle.volume.specs.meaning.Content.{row_xor_below};
ghost use Rattle.volume.specs.meaning.Rules.{value_at};
ghost use Rattle.volume.specs.meaning.CallContracts.{is_set};
ghost use Rattle.volume.specs.looking.Knowing.{read_device, own_held, own_sector};
ghost use Rattle.volume.specs.rows.RowStores.{rows_if};
ghost use Rattle.volume.specs.rows.RowsInPlace.{with_member, with_two, with_three, content_of, own_place, held_then_new, FreePlace, MemberKnown, RowKnown, RowBuilt, StripeKnown, RowsReady, ValueKnown};

use tables::{Geometry, MAX_DRIVES};

// The content of a zone below `end`. Up to `below` it is what is known under a generation, by rule 4; from there on the sectors of a buffer. limit is the
// zone's least current seal, or any number where every sector that is read is held. Logs are read where `geometry` says they lie, and what is stored
// goes where `to` does: the same but for logs that were emptied since.
#[derive(Clone, Copy)]
pub struct Extent {
    pub geometry: Geometry,
    pub to: Geometry,
    pub here: [bool; MAX_DRIVES],
    pub zone: usize,
    pub generation: u64,
    pub limit: usize,
    pub below: usize,
    pub end: usize,
}

// Where rows are appended: a zone of a drive, and whether the drive is present.
#[derive(Clone, Copy)]
pub struct Target {
    pub drive: usize,
    pub zone: usize,
    pub present: bool,
}

// Adds a sector to the row at `to` by exclusive or; the row's first sector is laid there instead, whatever the bytes were.
fn put(sectors: &mut [u8], to: usize, first: bool, src: &[u8])
    requires { to + length src.now ≤ length sectors.old }
    ensures { sectors.new ≡ with_member first sectors.old to src.now }
{
    if first {
        tables::sectors::copy_in(sectors, to, src);
        return;
    }
    let end = to + src.len();
    tables::sectors::xor_into(&mut sectors[to..end], src);
}

// Where the bytes of address a lie in the tables, on the drive that holds it.
fn own_place(g: Geometry, z: usize, a: usize) -> usize
    requires valid { Valid g }
    requires z_lt_zones { (z < g.zones) × (a < zone_sectors g) }
    ensures { (result ≡ own_place g z a) × (result + g.sector ≤ total_bytes g) }
{
    let d = tables::placement::drive_of(g, z, a);
    let x = tables::placement::sector_of(g, a);
    tables::stores::byte_at(g, d, tables::DATA_ZONES + z, x)
}

// The same with the bytes that a drive holds of address a, straight from the tables.
fn put_held(sectors: &mut [u8], pointers: &[u32], known: Extent, a: usize, to: usize, first: bool)
    requires valid { Valid known.geometry }
    requires zone_lt_zones { (known.zone < known.geometry.zones) × (a < zone_sectors known.geometry) × (length sectors.old ≡ total_bytes known.geometry)
        × (own_held known.geometry known.here pointers.now known.zone a ≡ true) × FreePlace known.geometry pointers.now to }
    ensures { sectors.new ≡ with_member first sectors.old to (own_sector known.geometry sectors.old known.zone a) }
{
    let from = own_place(known.geometry, known.zone, a);
    if first {
        tables::sectors::copy_within(sectors, to, from, known.geometry.sector);
        return;
    }
    tables::sectors::xor_within(sectors, to, from, known.geometry.sector);
}

// The same with those bytes and sector number i of the buffer, in one pass.
fn put_held_with(
    sectors: &mut [u8],
    pointers: &[u32],
    buffer: &[u8],
    known: Extent,
    a: usize,
    i: usize,
    to: usize,
    first: bool,
)
    requires valid { Valid known.geometry }
    requires zone_lt_zones { (known.zone < known.geometry.zones) × (a < zone_sectors known.geometry) × (length sectors.old ≡ total_bytes known.geometry)
        × (own_held known.geometry known.here pointers.now known.zone a ≡ true) × FreePlace known.geometry pointers.now to
        × (i * known.geometry.sector + known.geometry.sector ≤ length buffer.now) }
    ensures { sectors.new ≡ with_two first sectors.old to (own_sector known.geometry sectors.old known.zone a) (sector_no known.geometry.sector buffer.now i) }
{
    let from = own_place(known.geometry, known.zone, a);
    let b = known.geometry.sector;
    let x = i * b;
    let end = x + b;
    if first {
        tables::sectors::lay_with(sectors, to, from, &buffer[x..end]);
        return;
    }
    tables::sectors::xor_with(sectors, to, from, &buffer[x..end]);
}

// The value of address a, by what is known of its zone.
pub fn known_value(sectors: &[u8], pointers: &[u32], known: Extent, a: usize, out: &mut [u8])
    requires valid { Valid known.geometry }
    requires value_known { ValueKnown known sectors.now pointers.now a × (length out.old ≡ known.geometry.sector) }
    ensures { out.new ≡ value_at known.geometry (is_set known.here) (read_device known.geometry sectors.now pointers.now) known.zone known.generation a }
{
    let here = known.here;
    super::knowing::sector_value(
        sectors,
        pointers,
        known.geometry,
        here,
        known.zone,
        known.generation,
        known.limit,
        a,
        out,
    );
}

// The same with the value of address a, which lies below `below`.
fn put_known(sectors: &mut [u8], pointers: &[u32], known: Extent, a: usize, to: usize, first: bool)
    requires valid { Valid known.geometry }
    requires a_lt_below { (a < known.below) × (a < known.end) × MemberKnown known sectors.old pointers.now [] a × FreePlace known.geometry pointers.now to }
    ensures { sectors.new ≡ with_member first sectors.old to (value_at known.geometry (is_set known.here) (read_device known.geometry sectors.old pointers.now) known.zone known.generation a) }
{
    let here = known.here;
    let held = super::knowing::own_held(pointers, known.geometry, here, known.zone, a);
    if held {
        put_held(sectors, pointers, known, a, to, first);
        return;
    }
    let b = known.geometry.sector;
    let mut value = [0u8; 4096];
    known_value(sectors, pointers, known, a, &mut value[..b]);
    put(sectors, to, first, &value[..b]);
}

// The same with the content's sector of address a, if a is below the end.
fn put_member(
    sectors: &mut [u8],
    pointers: &[u32],
    buffer: &[u8],
    known: Extent,
    a: usize,
    to: usize,
    first: bool,
)
    requires valid { Valid known.geometry }
    requires member_known { MemberKnown known sectors.old pointers.now buffer.now a × FreePlace known.geometry pointers.now to }
    ensures { sectors.new ≡ pick (ltb a known.end) (with_member first sectors.old to (content_of known (read_device known.geometry sectors.old pointers.now) buffer.now a)) sectors.old }
{
    let end = known.end;
    if end <= a {
        return;
    }
    let below = known.below;
    if a < below {
        put_known(sectors, pointers, known, a, to, first);
        return;
    }
    let b = known.geometry.sector;
    let from = (a - below) * b;
    let past = from + b;
    put(sectors, to, first, &buffer[from..past]);
}

// Adds three sectors of the buffer to the row at `to` in one pass: number i, and those one and two units after it. The row's first three are laid there
// instead.
fn put_three(sectors: &mut [u8], buffer: &[u8], g: Geometry, i: usize, to: usize, first: bool)
    requires valid { Valid g }
    requires sector_in_bounds { (to + g.sector ≤ length sectors.old) × ((i + 2 * g.unit) * g.sector + g.sector ≤ length buffer.now) }
    ensures { sectors.new ≡ with_three first sectors.old to (sector_no g.sector buffer.now i) (sector_no g.sector buffer.now (i + g.unit)) (sector_no g.sector buffer.now (i + 2 * g.unit)) }
{
    let b = g.sector;
    let u = g.unit;
    let x = i * b;
    let y = (i + u) * b;
    let z = (i + 2 * u) * b;
    let x_end = x + b;
    let y_end = y + b;
    let z_end = z + b;
    let end = to + b;
    if first {
        tables::sectors::lay_three(
            &mut sectors[to..end],
            &buffer[x..x_end],
            &buffer[y..y_end],
            &buffer[z..z_end],
        );
        return;
    }
    tables::sectors::xor_three(
        &mut sectors[to..end],
        &buffer[x..x_end],
        &buffer[y..y_end],
        &buffer[z..z_end],
    );
}

// Whether a drive holds address a, which is known, and the later address b comes from the buffer.
fn held_then_new(pointers: &[u32], known: Extent, a: usize, b: usize) -> bool
    requires valid { Valid known.geometry }
    requires zone_lt_zones { (known.zone < known.geometry.zones) × (length pointers.now ≡ cells known.geometry) × (known.end ≤ zone_sectors known.geometry) }
    ensures { result ≡ held_then_new known pointers.now a b }
{
    let below = known.below;
    let end = known.end;
    if (a < below) & ((below <= b) & (b < end)) {
        let here = known.here;
        let z = known.zone;
        return super::knowing::own_held(pointers, known.geometry, here, z, a);
    }
    false
}

// The next members of the row that begins at address `start`, from k on: three at once where all of them come from the buffer; two where the first is
// held and the second comes from the buffer, as where a write of one sector adds to a stripe; else one. Gives the member after them. (Whatever the
// bytes xs were before the row: if the sectors hold its first k members, they now hold those below m.)
fn put_next(
    sectors: &mut [u8],
    pointers: &[u32],
    buffer: &[u8],
    known: Extent,
    start: usize,
    k: usize,
    to: usize,
) -> usize
    requires valid { Valid known.geometry }
    requires k_bound { (k + 1 < known.geometry.drives) × RowKnown known sectors.old pointers.now buffer.now start to }
    ensures { (k < result) × (result < known.geometry.drives) × ((xs : List ℕ) → RowBuilt known xs pointers.now buffer.now start to k sectors.old → RowBuilt known xs pointers.now buffer.now start to result sectors.new) }
{
    let u = known.geometry.unit;
    let n = known.geometry.drives - 1;
    let below = known.below;
    let end = known.end;
    let a = start + k * u;
    let last = a + 2 * u;
    if (k + 2 < n) & ((below <= a) & (last < end)) {
        put_three(sectors, buffer, known.geometry, a - below, to, k == 0);
        return k + 3;
    }
    let next = a + u;
    let pair = held_then_new(pointers, known, a, next);
    if (k + 1 < n) & pair {
        let i = next - below;
        put_held_with(sectors, pointers, buffer, known, a, i, to, k == 0);
        return k + 2;
    }
    put_member(sectors, pointers, buffer, known, a, to, k == 0);
    k + 1
}

// Row r of stripe s, built at `to`.
fn build_row(
    sectors: &mut [u8],
    pointers: &[u32],
    buffer: &[u8],
    known: Extent,
    s: usize,
    r: usize,
    to: usize,
)
    requires valid { Valid known.geometry }
    requires stripe_known { StripeKnown known sectors.old pointers.now buffer.now s × (s * stripe_sectors known.geometry + r < known.end) × FreePlace known.geometry pointers.now to }
    ensures { sectors.new ≡ overlay sectors.old to (row_xor_below known.geometry.drives known.geometry.unit (content_of known (read_device known.geometry sectors.old pointers.now) buffer.now) s known.end r) }
{
    let n = known.geometry.drives - 1;
    let start = s * (n * known.geometry.unit) + r;
    let mut k = 0;
    // kept: the steps differ, since put_next takes one member, two or three and says where it stopped; a `for` has one step.
    while k < n {
        k = put_next(sectors, pointers, buffer, known, start, k, to);
    }
}

// Row r of stripe s, appended where rows go: what is left of the budget of stores.
pub fn append_row(
    sectors: &mut [u8],
    written: &mut [u32],
    pointers: &[u32],
    buffer: &[u8],
    known: Extent,
    target: Target,
    s: usize,
    r: usize,
    budget: u64,
) -> u64
    requires valid { Valid known.geometry }
    requires rows_ready { RowsReady known target sectors.old written.old pointers.now buffer.now s × (s * stripe_sectors known.geometry + r < known.end) }
    ensures { MadeAppends known.to budget result (store_if target.present (append target.drive target.zone (row_xor_below known.geometry.drives known.geometry.unit (content_of known (read_device known.geometry sectors.old pointers.now) buffer.now) s known.end r)))
        sectors.old written.old sectors.new written.new }
{
    let made = tables::stores::append_due(
        written,
        known.to,
        target.present,
        target.drive,
        target.zone,
        budget,
    );
    if !made {
        return tables::stores::left_after(target.present, budget);
    }
    let to = tables::stores::next_byte(written, known.to, target.drive, target.zone);
    build_row(sectors, pointers, buffer, known, s, r, to);
    tables::stores::advance(written, known.to, target.drive, target.zone);
    tables::stores::left_after(target.present, budget)
}

// The rows of stripe s from `from` on, below m.
pub fn append_rows(
    sectors: &mut [u8],
    written: &mut [u32],
    pointers: &[u32],
    buffer: &[u8],
    known: Extent,
    target: Target,
    s: usize,
    from: usize,
    m: usize,
    budget: u64,
) -> u64
    requires valid { Valid known.geometry }
    requires rows_ready { RowsReady known target sectors.old written.old pointers.now buffer.now s × (from ≤ m) × (m ≤ known.geometry.unit) × (s * stripe_sectors known.geometry + m ≤ known.end) }
    ensures { MadeAppends known.to budget result (rows_if target.present target.drive target.zone (row_xor_below known.geometry.drives known.geometry.unit (content_of known (read_device known.geometry sectors.old pointers.now) buffer.now) s known.end) from m)
        sectors.old written.old sectors.new written.new }
{
    let mut rest = budget;
    for r in from..m {
        rest = append_row(
            sectors, written, pointers, buffer, known, target, s, r, rest,
        );
    }
    rest
}
