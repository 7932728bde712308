// Writing a header into a buffer of one sector: mark, type, version, start, end and generation, what the type adds, then zeros.
ghost use Rattle.std.specs.Prelude.{◌≡◌, ◌+◌, ◌*◌, ◌-◌, ◌≤◌, ◌<◌, length, take, drop, replicate};
ghost use Rattle.tables.specs.meaning.Lists.{overlay};
ghost use Rattle.tables.specs.meaning.Geometry.{Valid, stripe_sectors, zone_sectors};
ghost use Rattle.tables.specs.meaning.LittleEndian.{words_le};
ghost use Rattle.logs.specs.code.Lays.{label_start};
ghost use Rattle.logs.specs.meaning.Entry.{mark_bytes, frame, encode, label, counters, zone_reset, partial_parity, seal, closing, kind_of_log};

use tables::Geometry;

// The first eight bytes: mark, type, version 1, zeros.
fn write_mark(out: &mut [u8], kind: u8)
    requires { 8 ≤ length out.old }
    ensures { out.new ≡ overlay out.old 0 (mark_bytes kind) }
{
    out[0] = super::MARK[0];
    out[1] = super::MARK[1];
    out[2] = super::MARK[2];
    out[3] = kind;
    out[4] = super::VERSION;
    out[5] = 0;
    out[6] = 0;
    out[7] = 0;
}

// The first 32 bytes of an entry.
fn write_frame(out: &mut [u8], kind: u8, start: u64, end: u64, generation: u64)
    requires { 32 ≤ length out.old }
    ensures { out.new ≡ frame kind start end generation (drop 32 out.old) }
{
    write_mark(out, kind);
    tables::bytes::write_u64(out, 8, start);
    tables::bytes::write_u64(out, 16, end);
    tables::bytes::write_u64(out, 24, generation);
}

// A header with zeros from byte 32 on: all of types 3 to 6, the beginning of the others.
fn write_span(out: &mut [u8], kind: u8, start: u64, end: u64, generation: u64)
    requires { 32 ≤ length out.old }
    ensures { out.new ≡ frame kind start end generation (replicate (length out.old - 32) 0) }
{
    tables::sectors::clear(out);
    write_frame(out, kind, start, end, generation);
}

// The header of a seal: from its zone's first address to its pointer.
pub fn write_seal(out: &mut [u8], g: Geometry, drive: usize, z: usize, n: usize, generation: u64)
    requires valid { Valid g }
    requires out_len { (length out.old ≡ g.sector) × (z < g.zones) × (n ≤ zone_sectors g) }
    ensures { out.new ≡ encode g drive (seal z n generation) }
{
    let q = tables::bounds::zone_sectors(g);
    let start = z * q;
    let end = start + n;
    write_span(out, 5, start as u64, end as u64, generation);
}

// The header of a reset: its zone's full range.
pub fn write_reset(out: &mut [u8], g: Geometry, drive: usize, z: usize, generation: u64)
    requires valid { Valid g }
    requires out_len { (length out.old ≡ g.sector) × (z < g.zones) }
    ensures { out.new ≡ encode g drive (zone_reset z generation) }
{
    let q = tables::bounds::zone_sectors(g);
    let start = z * q;
    let end = start + q;
    write_span(out, 3, start as u64, end as u64, generation);
}

// The header of a partial parity entry of stripe s: from the stripe's first address over its first `fill` sectors.
pub fn write_partial(
    out: &mut [u8],
    g: Geometry,
    drive: usize,
    z: usize,
    s: usize,
    fill: usize,
    generation: u64,
)
    requires valid { Valid g }
    requires out_len { (length out.old ≡ g.sector) × (z < g.zones) × (s * stripe_sectors g + fill ≤ zone_sectors g) }
    ensures { out.new ≡ encode g drive (partial_parity z s fill generation) }
{
    let q = tables::bounds::zone_sectors(g);
    let k = tables::bounds::stripe_sectors(g);
    let start = z * q + s * k;
    let end = start + fill;
    write_span(out, 4, start as u64, end as u64, generation);
}

// The number of a log's kind.
pub fn kind_of_log(parity: bool) -> u64
    ensures { result ≡ kind_of_log parity }
{
    if parity {
        return 1;
    }
    0
}

// The header of a closing entry: the kind of its log, and the log's generation.
pub fn write_closing(out: &mut [u8], g: Geometry, drive: usize, parity: bool, generation: u64)
    requires valid { Valid g }
    requires out_len { length out.old ≡ g.sector }
    ensures { out.new ≡ encode g drive (closing (kind_of_log parity) generation) }
{
    let kind = kind_of_log(parity);
    write_span(out, 6, kind, 0, generation);
}

// Bytes 32 to 39 of a label.
fn write_label_start(out: &mut [u8], g: Geometry, drive: usize, lost: usize)
    requires valid { Valid g }
    requires in_bounds { (40 ≤ length out.old) × (drive < g.drives) × (lost < 256) }
    ensures { out.new ≡ overlay out.old 32 (label_start g drive lost) }
{
    let d = g.drives;
    let u = g.unit;
    let p = tables::bounds::size_power(g);
    out[32] = d as u8;
    out[33] = u as u8;
    out[34] = p;
    out[35] = drive as u8;
    out[36] = lost as u8;
    out[37] = 0;
    out[38] = 0;
    out[39] = 0;
}

// The label of a drive: the shape of the volume, the drive's index, the lost drive or 255, the array number.
pub fn write_label(out: &mut [u8], g: Geometry, drive: usize, lost: usize, array: u64)
    requires valid { Valid g }
    requires out_len { (length out.old ≡ g.sector) × (drive < g.drives) × (lost < 256) }
    ensures { out.new ≡ encode g drive (label lost array) }
{
    let c = g.capacity;
    let l = g.zones;
    write_span(out, 1, 0, 0, 0);
    write_label_start(out, g, drive, lost);
    tables::bytes::write_u32(out, 40, c as u32);
    tables::bytes::write_u32(out, 44, (l + tables::DATA_ZONES) as u32);
    tables::bytes::write_u64(out, 48, array);
}

// The first l of some numbers, of eight bytes each, from byte 32.
fn write_words(out: &mut [u8], numbers: &[u64], l: usize)
    requires { (32 + 8 * l ≤ length out.old) × (l ≤ length numbers.now) }
    ensures { out.new ≡ overlay out.old 32 (words_le (take l numbers.now)) }
{
    for i in 0..l {
        tables::bytes::write_u64(out, 32 + 8 * i, numbers[i]);
    }
}

// The counters: the first of the given generations, one for each zone.
pub fn write_counters(out: &mut [u8], g: Geometry, drive: usize, generations: &[u64])
    requires valid { Valid g }
    requires out_len { (length out.old ≡ g.sector) × (g.zones ≤ length generations.now) }
    ensures { out.new ≡ encode g drive (counters (take g.zones generations.now)) }
{
    let l = g.zones;
    write_span(out, 2, 0, 0, 0);
    write_words(out, generations, l);
}
