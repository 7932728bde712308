// The commands that change the tables and are no calls: a new shelf's zeros, a byte, a pair of pointers, sectors that no call stored.
ghost use Rattle.std.specs.Prelude.{◌≡◌};
ghost use Rattle.replaying.specs.Damaging.{may_append};

use tables::Geometry;

// One byte of the sectors, if there is one at that place.
pub fn put_byte(sectors: &mut [u8], at: usize, value: u64) {
    if let Some(byte) = sectors.get_mut(at) {
        *byte = (value % 256) as u8;
    }
}

// One pointer, if there is one at that place.
fn put_pointer(table: &mut [u32], at: usize, value: u64) {
    if let Some(pointer) = table.get_mut(at) {
        *pointer = super::hosting::narrow(value);
    }
}

// One zone's pair of pointers.
pub fn put_pair(written: &mut [u32], durable: &mut [u32], at: usize, w: u64, d: u64) {
    put_pointer(written, at, w);
    put_pointer(durable, at, d);
}

// Whether an append may be tried: the tables are the geometry's, the drive and its zone are there.
fn may_append(
    g: Geometry,
    sectors: usize,
    written: usize,
    src: usize,
    drive: usize,
    zone: usize,
) -> bool
    ensures { result ≡ may_append g sectors written src drive zone }
{
    let ok = tables::bounds::valid(g);
    if !ok {
        return false;
    }
    let fit = tables::bounds::lengths_fit(g, sectors, written, written);
    let d = g.drives;
    let l = g.zones;
    let b = g.sector;
    fit & ((src == b) & ((drive < d) & (zone < l + tables::DATA_ZONES)))
}

// A sector at a zone's written pointer, which rises by 1; nothing where the zone is full.
pub fn append(
    sectors: &mut [u8],
    written: &mut [u32],
    g: Geometry,
    drive: usize,
    zone: usize,
    src: &[u8],
) {
    let ok = may_append(g, sectors.len(), written.len(), src.len(), drive, zone);
    if !ok {
        return;
    }
    tables::stores::append_counted(sectors, written, g, true, drive, zone, src, 2);
}

// A header that no call would write: a seal's mark, version and zeros, with another type, start and end.
pub fn odd_header(out: &mut [u8], g: Geometry, kind: u64, start: u64, end: u64, generation: u64) {
    let ok = tables::bounds::valid(g);
    if !ok {
        return;
    }
    let b = g.sector;
    if out.len() != b {
        return;
    }
    logs::headers::write_seal(out, g, 0, 0, 0, generation);
    out[3] = (kind % 256) as u8;
    tables::bytes::write_u64(out, 8, start);
    tables::bytes::write_u64(out, 16, end);
}
