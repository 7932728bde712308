// What the C edge makes of a call's numbers and bytes before the call, and of its outcome after it.
ghost use Rattle.std.specs.Prelude.{◌≡◌, ◌+◌, ◌*◌, ◌<◌, length};
ghost use Rattle.tables.specs.meaning.Geometry.{Valid};
ghost use Rattle.volume.specs.meaning.RefusalNumbers.{number_of};
ghost use Rattle.volume.specs.meaning.CallContracts.{answer_number};
ghost use Rattle.zrv.specs.meaning.Bytes.{state_bytes};
ghost use Rattle.zrv.specs.meaning.EdgeCalls.{shape_of, named_of, sizes_fit, state_bad, input_number, sizes_number, unread_state, state_after, with_number, place_number};

use tables::Geometry;
use volume::{Answer, Outcome, Refusal, State};

// What a number in the high 32 bits is multiplied by.
pub const HIGH: u64 = 4294967296;

// The geometry of a call's first five numbers.
pub fn shape(drives: u32, sector_bytes: u32, unit: u32, zones: u32, zone_sectors: u32) -> Geometry
    ensures { result ≡ shape_of drives sector_bytes unit zones zone_sectors }
{
    tables::bounds::geometry_of(
        drives as usize,
        sector_bytes as usize,
        unit as usize,
        zones as usize,
        zone_sectors as usize,
    )
}

// The drives that a mask names.
pub fn named_drives(mask: u32) -> [bool; 8]
    ensures { result ≡ named_of mask }
{
    let mut named = [false; 8];
    let mut bits = mask;
    for drive in named.iter_mut() {
        *drive = bits % 2 == 1;
        bits /= 2;
    }
    named
}

// Refusal 2, of the state's and the tables' bytes.
fn sizes_fit(g: Geometry, state: usize, written: usize, durable: usize) -> bool
    requires { Valid g }
    ensures { result ≡ sizes_fit g state written durable }
{
    let n = tables::bounds::table_cells(g);
    let m = n * 4;
    (state == super::state::STATE_BYTES) & ((written == m) & (durable == m))
}

// Refusal 1, of the state's bytes.
pub fn state_bad(g: Geometry, bytes: &[u8]) -> bool
    requires { Valid g }
    ensures { result ≡ state_bad g bytes.now }
{
    if bytes.len() != super::state::STATE_BYTES {
        return false;
    }
    let fits = super::state::state_fits(g, bytes);
    !fits
}

// What is refused before a call that reads the state.
pub fn input_refusal(
    g: Geometry,
    state: &[u8],
    written: usize,
    durable: usize,
) -> Result<(), Refusal>
    ensures { number_of result ≡ input_number g state.now written durable }
{
    if !tables::bounds::valid(g) {
        return Err(Refusal::Geometry);
    }
    if state_bad(g, state) {
        return Err(Refusal::Geometry);
    }
    if sizes_fit(g, state.len(), written, durable) {
        Ok(())
    } else {
        Err(Refusal::Length)
    }
}

// What is refused before a call that only writes the state.
pub fn sizes_refusal(
    g: Geometry,
    state: usize,
    written: usize,
    durable: usize,
) -> Result<(), Refusal>
    ensures { number_of result ≡ sizes_number g state written durable }
{
    if !tables::bounds::valid(g) {
        return Err(Refusal::Geometry);
    }
    if sizes_fit(g, state, written, durable) {
        Ok(())
    } else {
        Err(Refusal::Length)
    }
}

// In place of the state that a format, look or mount never reads.
pub fn unread_state() -> State
    ensures { result ≡ unread_state }
{
    let blank = volume::records::blank_record();
    let zones = [blank; tables::MAX_ZONES];
    let shares = [0u32; volume::MAX_SHARES];
    State {
        lost: 0,
        zones,
        shares,
    }
}

// The number of an answer, as C has it.
pub fn number_of(a: Answer) -> u64
    ensures { result ≡ answer_number a }
{
    volume::numbers::answer_number(a) as u64
}

// Hands an outcome back: its number, and the state's bytes where the call is finished.
pub fn hand_back(g: Geometry, outcome: Outcome, bytes: &mut [u8]) -> u64
    requires valid { Valid g }
    requires bytes_len { length bytes.old ≡ state_bytes }
    ensures { (result ≡ answer_number outcome.answer) × (bytes.new ≡ state_after g outcome bytes.old) }
{
    let answer = outcome.answer;
    let state = outcome.state;
    let n = number_of(answer);
    if n != 0 {
        return n;
    }
    super::state::state_to(g, state, bytes);
    n
}

// A bad place as a number of 32 bits.
fn place_of(drive: u8, zone: u8, sector: u16) -> u64
    ensures { (result ≡ drive * 16777216 + (zone * 65536 + sector)) × (result < 4294967296) }
{
    (drive as u64) * 16777216 + ((zone as u64) * 65536 + (sector as u64))
}

// The place that an answer tells; 0 if it tells none.
fn place_number(a: Answer) -> u64
    ensures { (result ≡ place_number a) × (result < 4294967296) }
{
    match a {
        Answer::Finished => 0,
        Answer::Unfinished => 0,
        Answer::Refused(_) => 0,
        Answer::BadLog(b) => place_of(b.drive, b.zone, b.sector),
    }
}

// Hands the outcome of a look or a mount back: its number, with the place that it tells, and the state's bytes where the call is finished.
pub fn hand_back_placed(g: Geometry, outcome: Outcome, bytes: &mut [u8]) -> u64
    requires valid { Valid g }
    requires bytes_len { length bytes.old ≡ state_bytes }
    ensures { (result ≡ with_number (answer_number outcome.answer) (place_number outcome.answer)) × (bytes.new ≡ state_after g outcome bytes.old) }
{
    let answer = outcome.answer;
    let n = volume::numbers::answer_number(answer);
    let place = place_number(answer);
    hand_back(g, outcome, bytes);
    (n as u64) + HIGH * place
}
