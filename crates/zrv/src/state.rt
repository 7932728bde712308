// The C edge's state: so many bytes, read, written, and tested for their form.
ghost use Rattle.std.specs.Prelude.{◌≡◌, ◌&&◌, ◌++◌, ℕ, ◌+◌, ◌*◌, ◌%◌, ◌≤◌, ◌<◌, length, take, drop};
ghost use Rattle.tables.specs.meaning.Geometry.{Valid};
ghost use Rattle.tables.specs.meaning.Lists.{overlay};
ghost use Rattle.tables.specs.meaning.Below.{all_below};
ghost use Rattle.tables.specs.meaning.LittleEndian.{read_le};
ghost use Rattle.tables.specs.laws.LittleEndian.{write_le};
ghost use Rattle.volume.specs.meaning.Refusals.{state_within};
ghost use Rattle.volume.specs.meaning.CallContracts.{record_at, view_state};
ghost use Rattle.zrv.specs.meaning.Bytes.{state_bytes, kind_of, record_of, record_to, record_from, records_part, shares_part, shares_of, shares_below, state_to, state_from, state_well_formed};
ghost use Rattle.zrv.specs.laws.StateForm.{record_fits, zeros_between};

use tables::{Geometry, MAX_ZONES};
use volume::{HOSTS, MAX_SHARES, State, ZoneRecord};

// The bytes of a state: those of its head, of each zone's record, and of each share.
pub const STATE_BYTES: usize = 328;

const HEAD_BYTES: usize = 8;

const RECORD_BYTES: usize = 16;

// Where the shares begin.
const SHARES_START: usize = 264;

const SHARE_BYTES: usize = 4;

// A record's condition and owner as one number, each a byte of it.
fn kind_of(r: ZoneRecord) -> u32
    ensures { result ≡ kind_of r }
{
    let condition = r.condition;
    let owner = r.owner;
    let low = volume::numbers::condition_number(condition);
    let high = volume::numbers::owner_number(owner);
    low + 256 * high
}

// Writes a zone's record as the sixteen bytes from `at`.
fn record_to(r: ZoneRecord, bytes: &mut [u8], at: usize)
    requires { at + 16 ≤ length bytes.old }
    ensures { bytes.new ≡ overlay bytes.old at (record_to r) }
{
    let generation = r.generation;
    let condition = r.condition;
    let kind = kind_of(r);
    let pointer = volume::records::pointer_of(condition);
    let low = (pointer % 4294967296) as u32;
    tables::bytes::write_u64(bytes, at, generation);
    tables::bytes::write_u32(bytes, at + 8, kind);
    tables::bytes::write_u32(bytes, at + 12, low);
}

// The record of a generation, a kind and a pointer.
fn record_of_kind(generation: u64, kind: u32, pointer: u32) -> ZoneRecord
    ensures { result ≡ record_of generation kind pointer }
{
    let condition = volume::numbers::condition_of((kind % 256) as u64, pointer as usize);
    let owner = volume::numbers::owner_of_number((kind / 256) as u64);
    ZoneRecord {
        generation,
        condition,
        owner,
    }
}

// The record in the sixteen bytes from `at`.
fn record_from(bytes: &[u8], at: usize) -> ZoneRecord
    requires { at + 16 ≤ length bytes.now }
    ensures { result ≡ record_from bytes.now at }
{
    let generation = tables::bytes::read_u64(bytes, at);
    let kind = tables::bytes::read_u32(bytes, at + 8);
    let pointer = tables::bytes::read_u32(bytes, at + 12);
    record_of_kind(generation, kind, pointer)
}

// The record of a zone; of one that there is not, a blank one.
pub fn record_at(g: Geometry, bytes: &[u8], z: usize) -> ZoneRecord
    requires valid { Valid g }
    requires bytes_len { length bytes.now ≡ state_bytes }
    ensures { result ≡ record_at (state_from g bytes.now) z }
{
    let n = g.zones;
    if n <= z {
        return volume::records::blank_record();
    }
    record_from(bytes, HEAD_BYTES + RECORD_BYTES * z)
}

// Share i: what is left of a host's share of a drive.
pub fn share_at(bytes: &[u8], i: usize) -> u32
    requires { (length bytes.now ≡ state_bytes) × (i < 16) }
    ensures { result ≡ read_le 4 bytes.now (264 + i * 4) }
{
    tables::bytes::read_u32(bytes, SHARES_START + i * SHARE_BYTES)
}

// Puts the lost drive, the record of zone z and share i into the bytes of a state. The other records and shares stay.
pub fn put_parts(bytes: &mut [u8], lost: usize, z: usize, r: ZoneRecord, i: usize, share: u32)
    requires { (length bytes.old ≡ state_bytes) × (z < 16) × (i < 16) }
    ensures { bytes.new ≡ write_le 4 (overlay (write_le 8 bytes.old 0 (lost % 256)) (8 + 16 * z) (record_to r)) (264 + i * 4) share }
{
    tables::bytes::write_u64(bytes, 0, (lost % 256) as u64);
    record_to(r, bytes, HEAD_BYTES + RECORD_BYTES * z);
    tables::bytes::write_u32(bytes, SHARES_START + i * SHARE_BYTES, share);
}

// Puts the records of the first n zones where there are none.
fn put_records(state: State, n: usize, bytes: &mut [u8])
    requires { (n ≤ 16) × (bytes.old ≡ records_part 0 state ++ shares_part 0 state) }
    ensures { bytes.new ≡ records_part n state ++ shares_part 0 state }
{
    for z in 0..n {
        record_to(state.zones[z], bytes, HEAD_BYTES + RECORD_BYTES * z);
    }
}

// Puts the first k shares where there are none.
fn put_shares(state: State, k: usize, bytes: &mut [u8])
    requires { (k ≤ 16) × (length bytes.old ≡ state_bytes) × (drop 264 bytes.old ≡ shares_part 0 state) }
    ensures { bytes.new ≡ take 264 bytes.old ++ shares_part k state }
{
    for i in 0..k {
        tables::bytes::write_u32(bytes, SHARES_START + i * SHARE_BYTES, state.shares[i]);
    }
}

// The bytes of a state.
pub fn state_to(g: Geometry, state: State, bytes: &mut [u8])
    requires valid { Valid g }
    requires bytes_len { length bytes.old ≡ state_bytes }
    ensures { bytes.new ≡ state_to g state }
{
    let n = g.zones;
    let k = g.drives * HOSTS;
    let lost = state.lost;
    tables::sectors::clear(bytes);
    tables::bytes::write_u64(bytes, 0, (lost % 256) as u64);
    put_records(state, n, bytes);
    put_shares(state, k, bytes);
}

// The first k shares that the bytes hold.
fn shares_from(bytes: &[u8], k: usize) -> [u32; MAX_SHARES]
    requires { (k ≤ 16) × (length bytes.now ≡ state_bytes) }
    ensures { result ≡ shares_below (λ (i : ℕ). read_le 4 bytes.now (264 + i * 4)) k }
{
    let mut shares = [0u32; MAX_SHARES];
    for i in 0..k {
        shares[i] = share_at(bytes, i);
    }
    shares
}

// The state that the bytes hold. Not inlined: what it holds on the way would stay on the stack throughout each call for C.
#[inline(never)]
pub fn state_from(g: Geometry, bytes: &[u8]) -> State
    requires valid { Valid g }
    requires bytes_len { length bytes.now ≡ state_bytes }
    ensures { result ≡ state_from g bytes.now }
{
    let lost = tables::bytes::read_u64(bytes, 0) as usize;
    let shares = shares_from(bytes, g.drives * HOSTS);
    let mut zones = [volume::records::blank_record(); MAX_ZONES];
    for z in 0..g.zones {
        zones[z] = record_from(bytes, HEAD_BYTES + RECORD_BYTES * z);
    }
    State {
        lost,
        zones,
        shares,
    }
}

// Whether the sixteen bytes from `at` are a record as it is written (the numbers are a condition's and an owner's, and an empty zone has no pointer), its pointer
// at most `most`. Any eight bytes are a generation.
fn record_fits(bytes: &[u8], at: usize, most: usize) -> bool
    requires { at + 16 ≤ length bytes.now }
    ensures { result ≡ record_fits most bytes.now at }
{
    let kind = tables::bytes::read_u32(bytes, at + 8);
    let pointer = tables::bytes::read_u32(bytes, at + 12);
    let n = tables::bounds::widen(pointer);
    let condition = kind % 256;
    (kind / 256 <= 2) & ((condition <= 3) & (((condition != 0) | (n == 0)) & (n <= most)))
}

// Whether the records of the first n zones are so.
fn records_fit(bytes: &[u8], n: usize, most: usize) -> bool
    requires { (n ≤ 16) × (length bytes.now ≡ state_bytes) }
    ensures { result ≡ all_below (λ (z : ℕ). record_fits most bytes.now (8 + 16 * z)) n }
{
    let mut ok = true;
    for z in 0..n {
        ok &= record_fits(bytes, HEAD_BYTES + RECORD_BYTES * z, most);
    }
    ok
}

// Whether all bytes from `at` to `end` are zero. It leaves off at none, so that the compiler takes many at a time.
#[tactic(auto, unfolding(crate::specs::laws::StateForm::zeros_between))]
fn zeros_between(bytes: &[u8], at: usize, end: usize) -> bool
    requires { (at ≤ end) × (end ≤ length bytes.now) }
    ensures { result ≡ zeros_between bytes.now at end }
{
    let mut zeros = true;
    for byte in &bytes[at..end] {
        zeros &= *byte == 0;
    }
    zeros
}

// Whether the bytes have a state's form (written again, what they hold is they), and hold a state that refusal 1 does not meet. It is tested on the bytes
// as they stand: neither is the state read for it nor written.
pub fn state_fits(g: Geometry, bytes: &[u8]) -> bool
    requires valid { Valid g }
    requires bytes_len { length bytes.now ≡ state_bytes }
    ensures { result ≡ state_well_formed g bytes.now && state_within g (view_state (state_from g bytes.now)) }
{
    let d = g.drives;
    let n = g.zones;
    let k = d * HOSTS;
    let most = tables::bounds::zone_sectors(g);
    let lost = tables::bytes::read_u64(bytes, 0) as usize;
    let records = records_fit(bytes, n, most);
    let past = zeros_between(bytes, HEAD_BYTES + RECORD_BYTES * n, SHARES_START);
    let none = zeros_between(bytes, SHARES_START + k * SHARE_BYTES, STATE_BYTES);
    ((lost < d) | (lost == 255)) & (records & (past & none))
}
