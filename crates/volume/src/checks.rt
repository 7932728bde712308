// What every call checks of its input before it looks at a zone: refusals 1 to 4, and the drives that are present.
ghost use Rattle.std.specs.Prelude.{◌≡◌, not, ◌&&◌, suc, ℕ, ◌≤◌, ◌<◌, leb};
ghost use Rattle.tables.specs.meaning.Basics.{pick};
ghost use Rattle.tables.specs.meaning.Below.{all_below, count_below};
ghost use Rattle.tables.specs.meaning.Drives.{find_below};
ghost use Rattle.tables.specs.meaning.Geometry.{Valid, zone_sectors};
ghost use Rattle.tables.specs.meaning.GeometryTest.{is_valid};
ghost use Rattle.volume.specs.declared.Answer.TheVariants.{Refused};
ghost use Rattle.volume.specs.meaning.State.{pointer_in};
ghost use Rattle.volume.specs.meaning.Refusals.{state_within};
ghost use Rattle.volume.specs.meaning.Answers.{refused_at};
ghost use Rattle.volume.specs.meaning.CallContracts.{record_at, view_state, is_set};
ghost use Rattle.volume.specs.meaning.RefusalNumbers.{refusal_number, number_of};
ghost use Rattle.volume.specs.checks.CheckLaws.{present_list, opening_from, opened_from, Tested};

use super::{Answer, BadPlace, Outcome, Refusal, State};
use tables::{Geometry, MAX_DRIVES};

// Whether no pointer of the state is past its zone's end.
fn pointers_within(g: Geometry, state: State) -> bool
    requires { Valid g }
    ensures { result ≡ all_below (λ (z : ℕ). leb (pointer_in (record_at state z).condition) (zone_sectors g)) g.zones }
{
    let most = tables::bounds::zone_sectors(g);
    (0..g.zones).all(|z| super::records::pointer_of(state.zones[z].condition) <= most)
}

// Refusal 1, as far as it is about the state.
pub fn state_within(g: Geometry, state: State) -> bool
    requires { Valid g }
    ensures { result ≡ state_within g (view_state state) }
{
    let ok = pointers_within(g, state);
    let lost = state.lost;
    let d = g.drives;
    ((lost < d) | (lost == 255)) & ok
}

// The drives of a call: named, and not lost in the state.
pub fn present_drives(g: Geometry, named: [bool; MAX_DRIVES], lost: usize) -> [bool; MAX_DRIVES]
    requires { Valid g }
    ensures { result ≡ present_list g named lost }
{
    let n = g.drives;
    [
        named[0] & (0 != lost),
        named[1] & (1 != lost),
        named[2] & (2 != lost),
        (3 < n) & (named[3] & (3 != lost)),
        (4 < n) & (named[4] & (4 != lost)),
        (5 < n) & (named[5] & (5 != lost)),
        (6 < n) & (named[6] & (6 != lost)),
        (7 < n) & (named[7] & (7 != lost)),
    ]
}

// How many drives are absent.
pub fn count_absent(g: Geometry, here: [bool; MAX_DRIVES]) -> usize
    requires { Valid g }
    ensures { result ≡ count_below (λ (d : ℕ). not (is_set here d)) g.drives }
{
    here[..g.drives].iter().filter(|present| !**present).count()
}

// The first value if b, else the second.
pub fn choose(b: bool, x: usize, y: usize) -> usize
    ensures { result ≡ pick b x y }
{
    if b { x } else { y }
}

// The same of generations.
pub fn choose_generation(b: bool, x: u64, y: u64) -> u64
    ensures { result ≡ pick b x y }
{
    if b { x } else { y }
}

// The drive that is absent, or 255.
pub fn left_out(g: Geometry, here: [bool; MAX_DRIVES]) -> usize
    requires { Valid g }
    ensures { result ≡ find_below (λ (d : ℕ). not (is_set here d)) g.drives }
{
    let mut x = 255;
    for d in 0..g.drives {
        if !here[d] {
            x = d;
        }
    }
    x
}

// Refusal 1: whether the geometry is valid and the state lies within it.
pub fn input_within(g: Geometry, state: State) -> bool
    ensures { result ≡ is_valid g && state_within g (view_state state) }
{
    let ok = tables::bounds::valid(g);
    if !ok {
        return false;
    }
    state_within(g, state)
}

// What refusal 2 looks at beside the pointer tables: the bytes of the sectors, and a call's buffer, its sectors and its bytes. A call without a
// buffer has 0 of both.
#[derive(Clone, Copy)]
pub struct Sizes {
    pub sectors: usize,
    pub count: u64,
    pub bytes: usize,
}

// Refusals 2 to 4 of a call that passed 1, with tables of pointers of the right lengths. `bad`: what refusal 3 found.
pub fn opened(
    g: Geometry,
    named: [bool; MAX_DRIVES],
    lost: usize,
    sizes: Sizes,
    bad: bool,
) -> Result<(), Refusal>
    requires { Valid g }
    ensures { number_of result ≡ opened_from g named lost sizes.count sizes.bytes sizes.sectors bad }
{
    let sectors = sizes.sectors;
    let count = sizes.count;
    let bytes = sizes.bytes;
    let total = tables::bounds::total_bytes(g);
    let buffer = tables::bounds::buffer_fits(g, count, bytes);
    let fit = (sectors == total) & buffer;
    if !fit {
        return Err(Refusal::Length);
    }
    if bad {
        return Err(Refusal::Pointer);
    }
    let here = present_drives(g, named, lost);
    let absent = count_absent(g, here);
    if 1 < absent {
        return Err(Refusal::TwoLost);
    }
    Ok(())
}

// Refusals 1 to 4 of a call with a state. `within`: what refusal 1 found.
pub fn opening(
    within: bool,
    sizes: Sizes,
    written: &[u32],
    durable: &[u32],
    g: Geometry,
    named: [bool; MAX_DRIVES],
    lost: usize,
) -> Result<(), Refusal>
    requires { Tested within g }
    ensures { number_of result ≡ opening_from g named within lost sizes.count sizes.bytes sizes.sectors written.now durable.now }
{
    if !within {
        return Err(Refusal::Geometry);
    }
    let n = tables::bounds::table_cells(g);
    let fit = (written.len() == n) & (durable.len() == n);
    if !fit {
        return Err(Refusal::Length);
    }
    let bad = tables::bounds::pointers_bad(written, durable, g, named);
    opened(g, named, lost, sizes, bad)
}

// A refused call hands the state back as it was.
pub fn refused(refusal: Refusal, state: State) -> Outcome
    ensures { result ≡ record { answer = Refused (refusal_number refusal); state = state } }
{
    Outcome {
        answer: Answer::Refused(refusal.number()),
        state,
    }
}

// A look or a mount that is refused: for a log it tells the first bad place, else its number.
pub fn refused_at(refusal: Refusal, bad: BadPlace, state: State) -> Outcome
    ensures { result ≡ record { answer = refused_at bad (refusal_number refusal); state = state } }
{
    match refusal {
        Refusal::Log => Outcome {
            answer: Answer::BadLog(bad),
            state,
        },
        _ => refused(refusal, state),
    }
}

// The budget of a call that may make `count` stores: one more (specs: `Made`).
pub fn budget_of(count: u32) -> u64
    ensures { result ≡ suc count }
{
    count as u64 + 1
}
