// What a sector holds, as an entry of one log of one drive: its fields are read, tested against geometry, drive and log, and all its bytes
// compared with those of the header that they make. No buffer, no copy.
ghost use Rattle.std.specs.Prelude.{◌≡◌, ◌≢◌, ◌+◌, ◌*◌, ◌-◌, ◌≤◌, ◌<◌, length, take, drop, replicate};
ghost use Rattle.tables.specs.meaning.Geometry.{Valid, stripe_sectors, zone_sectors};
ghost use Rattle.tables.specs.meaning.LittleEndian.{bytes_le, same_bytes};
ghost use Rattle.logs.specs.code.Lays.{head_same, zeros_from};
ghost use Rattle.logs.specs.code.Judge.{found};
ghost use Rattle.logs.specs.code.JudgeMore.{label_same, as_counters};
ghost use Rattle.logs.specs.code.WalkCode.{rows_seen, bad_seen};
ghost use Rattle.logs.specs.meaning.Entry.{mark_bytes, marked, fault_of, encode, decode, fits_log, kind_of, frame, label, zone_reset, partial_parity, seal};

use super::{Fault, Found};
use tables::Geometry;

// Whether the eight bytes from `at` say n.
fn same_u64(s: &[u8], at: usize, n: u64) -> bool
    requires { at + 8 ≤ length s.now }
    ensures { result ≡ same_bytes (bytes_le 8 n) (take 8 (drop at s.now)) }
{
    tables::bytes::read_u64(s, at) == n
}

// Whether the four bytes from `at` say n.
fn same_u32(s: &[u8], at: usize, n: u32) -> bool
    requires { at + 4 ≤ length s.now }
    ensures { result ≡ same_bytes (bytes_le 4 n) (take 4 (drop at s.now)) }
{
    tables::bytes::read_u32(s, at) == n
}

// Whether all bytes from `at` on are zero: gathered in one byte, with no test on the way, so that many are taken at once.
fn zeros_from(s: &[u8], at: usize) -> bool
    requires { at ≤ length s.now }
    ensures { result ≡ zeros_from s.now at }
{
    let mut any = 0;
    for x in &s[at..] {
        any |= *x;
    }
    any == 0
}

// Whether mark and version are there: bytes 0 to 2, 4 and 5.
fn is_marked(s: &[u8]) -> bool
    requires { 8 ≤ length s.now }
    ensures { result ≡ marked s.now }
{
    (super::MARK[0] == s[0])
        & ((super::MARK[1] == s[1])
            & ((super::MARK[2] == s[2]) & ((super::VERSION == s[4]) & (0 == s[5]))))
}

// Whether the first eight bytes are the mark, this type, version 1 and zeros.
fn is_mark(s: &[u8], kind: u8) -> bool
    requires { 8 ≤ length s.now }
    ensures { result ≡ same_bytes (mark_bytes kind) (take 8 s.now) }
{
    let marked = is_marked(s);
    marked & ((kind == s[3]) & ((0 == s[6]) & (0 == s[7])))
}

// Why a sector is no legal header, of one that is none.
pub fn fault_of(s: &[u8]) -> Fault
    requires { 8 ≤ length s.now }
    ensures { result ≡ fault_of s.now }
{
    let marked = is_marked(s);
    if marked {
        return Fault::NotLegal;
    }
    Fault::NoMark
}

// Whether the first 32 bytes say so.
fn is_frame(s: &[u8], kind: u8, start: u64, end: u64, generation: u64) -> bool
    requires { 32 ≤ length s.now }
    ensures { result ≡ head_same kind start end generation s.now }
{
    let a = same_u64(s, 8, start);
    let b = same_u64(s, 16, end);
    let c = same_u64(s, 24, generation);
    let m = is_mark(s, kind);
    m & (a & (b & c))
}

// Whether all bytes are those of a header with zeros from byte 32 on.
fn is_span(s: &[u8], kind: u8, start: u64, end: u64, generation: u64) -> bool
    requires { 32 ≤ length s.now }
    ensures { result ≡ same_bytes (frame kind start end generation (replicate (length s.now - 32) 0)) s.now }
{
    let a = is_frame(s, kind, start, end, generation);
    if !a {
        return false;
    }
    zeros_from(s, 32)
}

// Type 3 stands in the general log, on the drives of the first unit and of parity of its zone's stripe 0.
fn reset_fits(g: Geometry, drive: usize, parity: bool, z: usize) -> bool
    requires { Valid g }
    ensures { result ≡ fits_log g drive parity (zone_reset z 0) }
{
    let l = g.zones;
    if l <= z {
        return false;
    }
    let d = g.drives;
    let f = tables::placement::first_drive(g, z);
    let p = tables::placement::parity_drive(d, z, 0);
    !parity & ((drive == f) | (drive == p))
}

// Type 5 stands in the general log, its pointer above 0 and inside the zone.
fn seal_fits(g: Geometry, parity: bool, z: usize, n: usize) -> bool
    requires { Valid g }
    ensures { result ≡ fits_log g 0 parity (seal z n 0) }
{
    let l = g.zones;
    let q = tables::bounds::zone_sectors(g);
    !parity & ((z < l) & ((0 < n) & (n <= q)))
}

// Type 4 stands in the parity log of its stripe's parity drive, its end strictly inside the stripe.
fn partial_fits(g: Geometry, drive: usize, parity: bool, z: usize, t: usize, f: usize) -> bool
    requires valid { Valid g }
    requires g_bound { t * stripe_sectors g ≤ zone_sectors g }
    ensures { result ≡ fits_log g drive parity (partial_parity z t f 0) }
{
    let l = g.zones;
    if l <= z {
        return false;
    }
    let d = g.drives;
    let q = tables::bounds::zone_sectors(g);
    let k = tables::bounds::stripe_sectors(g);
    let p = tables::placement::parity_drive(d, z, t);
    parity & ((t * k < q) & ((0 < f) & ((f < k) & (drive == p))))
}

// A byte as a number of the machine's size.
fn byte_value(x: u8) -> usize
    ensures { (result ≡ x) × (result < 256) }
{
    x as usize
}

// Whether bytes 32 to 39 are those of this drive's label with that lost drive.
fn names_label(s: &[u8], g: Geometry, drive: usize, lost: usize) -> bool
    requires valid { Valid g }
    requires in_bounds { 56 ≤ length s.now }
    ensures { result ≡ label_same g drive lost s.now }
{
    let d = g.drives;
    let u = g.unit;
    let p = tables::bounds::size_power(g);
    let b0 = byte_value(s[32]);
    let b1 = byte_value(s[33]);
    let b3 = byte_value(s[35]);
    let b4 = byte_value(s[36]);
    (d == b0)
        & ((u == b1)
            & ((p == s[34])
                & ((drive == b3)
                    & ((lost == b4) & ((0 == s[37]) & ((0 == s[38]) & (0 == s[39])))))))
}

// Whether all bytes are those of this drive's label.
fn is_label(s: &[u8], g: Geometry, drive: usize, lost: usize, array: u64) -> bool
    requires valid { Valid g }
    requires s_len { length s.now ≡ g.sector }
    ensures { result ≡ same_bytes (encode g drive (label lost array)) s.now }
{
    let l = g.zones;
    let c = g.capacity;
    let t1 = is_frame(s, 1, 0, 0, 0);
    let t2 = names_label(s, g, drive, lost);
    let t3 = same_u32(s, 40, c as u32);
    let t4 = same_u32(s, 44, (l + tables::DATA_ZONES) as u32);
    let t5 = same_u64(s, 48, array);
    let front = t1 & (t2 & (t3 & (t4 & t5)));
    if !front {
        return false;
    }
    zeros_from(s, 56)
}

// Type 1, or any other byte 3.
fn judge_label(s: &[u8], g: Geometry, drive: usize, parity: bool) -> Found
    requires valid { Valid g }
    requires s_len { (length s.now ≡ g.sector) × ((kind_of s.now ≢ 2) × (kind_of s.now ≢ 3) × (kind_of s.now ≢ 4) × (kind_of s.now ≢ 5) × (kind_of s.now ≢ 6)) }
    ensures { result ≡ found (decode g drive parity s.now) }
{
    let lost = byte_value(s[36]);
    let array = tables::bytes::read_u64(s, 48);
    let d = g.drives;
    let fit = !parity & ((lost < d) | (lost == 255));
    if !fit {
        return Found::Bad;
    }
    let ok = is_label(s, g, drive, lost, array);
    if !ok {
        return Found::Bad;
    }
    Found::Label(lost, array)
}

// Whether all bytes are those of counters.
fn is_counters(s: &[u8], g: Geometry, drive: usize) -> bool
    requires valid { Valid g }
    requires s_len { length s.now ≡ g.sector }
    ensures { result ≡ same_bytes (encode g drive (as_counters g s.now)) s.now }
{
    let l = g.zones;
    let a = is_frame(s, 2, 0, 0, 0);
    if !a {
        return false;
    }
    zeros_from(s, 32 + 8 * l)
}

// Type 2. Its numbers may be any, so they say nothing.
fn judge_counters(s: &[u8], g: Geometry, drive: usize, parity: bool) -> Found
    requires valid { Valid g }
    requires s_len { (length s.now ≡ g.sector) × (kind_of s.now ≡ 2) }
    ensures { result ≡ found (decode g drive parity s.now) }
{
    if parity {
        return Found::Bad;
    }
    let ok = is_counters(s, g, drive);
    if !ok {
        return Found::Bad;
    }
    Found::Counters
}

// Type 3: the zone is told by its start.
fn judge_reset(s: &[u8], g: Geometry, drive: usize, parity: bool) -> Found
    requires valid { Valid g }
    requires s_len { (length s.now ≡ g.sector) × (kind_of s.now ≡ 3) }
    ensures { result ≡ found (decode g drive parity s.now) }
{
    let q = tables::bounds::zone_sectors(g);
    let z = tables::bytes::read_u64(s, 8) as usize / q;
    let generation = tables::bytes::read_u64(s, 24);
    let fit = reset_fits(g, drive, parity, z);
    if !fit {
        return Found::Bad;
    }
    let start = z * q;
    let end = start + q;
    let ok = is_span(s, 3, start as u64, end as u64, generation);
    if !ok {
        return Found::Bad;
    }
    Found::Resets(z, generation)
}

// Type 4: zone and stripe are told by its start.
fn judge_partial(s: &[u8], g: Geometry, drive: usize, parity: bool) -> Found
    requires valid { Valid g }
    requires s_len { (length s.now ≡ g.sector) × (kind_of s.now ≡ 4) }
    ensures { result ≡ found (decode g drive parity s.now) }
{
    let q = tables::bounds::zone_sectors(g);
    let k = tables::bounds::stripe_sectors(g);
    let first = tables::bytes::read_u64(s, 8) as usize;
    let z = first / q;
    let t = first % q / k;
    let f = (tables::bytes::read_u64(s, 16) as usize).saturating_sub(first);
    let generation = tables::bytes::read_u64(s, 24);
    let fit = partial_fits(g, drive, parity, z, t, f);
    if !fit {
        return Found::Bad;
    }
    let start = z * q + t * k;
    let end = start + f;
    let ok = is_span(s, 4, start as u64, end as u64, generation);
    if !ok {
        return Found::Bad;
    }
    Found::Partial(z, t, f, generation)
}

// Type 5: the zone is told by its start, the pointer by its end.
fn judge_seal(s: &[u8], g: Geometry, drive: usize, parity: bool) -> Found
    requires valid { Valid g }
    requires s_len { (length s.now ≡ g.sector) × (kind_of s.now ≡ 5) }
    ensures { result ≡ found (decode g drive parity s.now) }
{
    let q = tables::bounds::zone_sectors(g);
    let first = tables::bytes::read_u64(s, 8) as usize;
    let z = first / q;
    let n = (tables::bytes::read_u64(s, 16) as usize).saturating_sub(first);
    let generation = tables::bytes::read_u64(s, 24);
    let fit = seal_fits(g, parity, z, n);
    if !fit {
        return Found::Bad;
    }
    let start = z * q;
    let end = start + n;
    let ok = is_span(s, 5, start as u64, end as u64, generation);
    if !ok {
        return Found::Bad;
    }
    Found::Seal(z, n, generation)
}

// Type 6 stands in a log of the kind that its start tells; its generation is above 0.
fn judge_closing(s: &[u8], g: Geometry, drive: usize, parity: bool) -> Found
    requires valid { Valid g }
    requires s_len { (length s.now ≡ g.sector) × (kind_of s.now ≡ 6) }
    ensures { result ≡ found (decode g drive parity s.now) }
{
    let own = super::headers::kind_of_log(parity);
    let kind = tables::bytes::read_u64(s, 8);
    let generation = tables::bytes::read_u64(s, 24);
    let fit = (kind == own) & (0 < generation);
    if !fit {
        return Found::Bad;
    }
    let ok = is_span(s, 6, kind, 0, generation);
    if !ok {
        return Found::Bad;
    }
    Found::Closing(generation)
}

// What a sector holds, as an entry of one log of one drive.
pub fn judge(s: &[u8], g: Geometry, drive: usize, parity: bool) -> Found
    requires valid { Valid g }
    requires s_len { length s.now ≡ g.sector }
    ensures { result ≡ found (decode g drive parity s.now) }
{
    let kind = s[3];
    if kind == 2 {
        return judge_counters(s, g, drive, parity);
    }
    if kind == 3 {
        return judge_reset(s, g, drive, parity);
    }
    if kind == 4 {
        return judge_partial(s, g, drive, parity);
    }
    if kind == 5 {
        return judge_seal(s, g, drive, parity);
    }
    if kind == 6 {
        return judge_closing(s, g, drive, parity);
    }
    judge_label(s, g, drive, parity)
}

// How many rows follow it.
pub fn rows_of(f: Found, g: Geometry) -> usize
    requires { Valid g }
    ensures { (result ≡ rows_seen g f) × (result ≤ 16) }
{
    if let Found::Partial(_, _, n, _) = f {
        n.min(g.unit)
    } else {
        0
    }
}

// Whether there is no legal header.
pub fn is_bad(f: Found) -> bool
    ensures { result ≡ bad_seen f }
{
    matches!(f, Found::Bad)
}
