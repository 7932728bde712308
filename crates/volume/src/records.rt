// What a zone's condition says, and what the records of a state and of a look say of all zones.
ghost use Rattle.std.specs.Prelude.{◌≡◌};
ghost use Rattle.volume.specs.meaning.State.{pointer_in, is_empty, is_sealed, is_worn};
ghost use Rattle.volume.specs.meaning.CallContracts.{blank_record};
ghost use Rattle.volume.specs.checks.Records.{generations_in, points_in, generations_shown, points_shown};

use super::{Condition, Look, Owner, State, ZoneRecord};
use tables::MAX_ZONES;

// The pointer that a condition carries.
pub fn pointer_of(c: Condition) -> usize
    ensures { result ≡ pointer_in c }
{
    match c {
        Condition::Empty => 0,
        Condition::Open(n) | Condition::Sealed(n) | Condition::Worn(n) => n,
    }
}

pub fn is_empty(c: Condition) -> bool
    ensures { result ≡ is_empty c }
{
    matches!(c, Condition::Empty)
}

pub fn is_sealed(c: Condition) -> bool
    ensures { result ≡ is_sealed c }
{
    matches!(c, Condition::Sealed(_))
}

pub fn is_worn(c: Condition) -> bool
    ensures { result ≡ is_worn c }
{
    matches!(c, Condition::Worn(_))
}

// A record that says nothing: those past the volume's last zone.
pub fn blank_record() -> ZoneRecord
    ensures { result ≡ blank_record }
{
    ZoneRecord {
        generation: 0,
        condition: Condition::Empty,
        owner: Owner::Nobody,
    }
}

// The generations of the state's zones.
// A loop, here and in the next three: `map` takes the records by value, and a compact then takes 3 KB more of stack and a quarter more time.
pub fn generations_of(state: State) -> [u64; MAX_ZONES]
    ensures { result ≡ generations_in state }
{
    let mut generations = [0; MAX_ZONES];
    for z in 0..MAX_ZONES {
        generations[z] = state.zones[z].generation;
    }
    generations
}

// The pointers of the state's zones.
pub fn points_of(state: State) -> [usize; MAX_ZONES]
    ensures { result ≡ points_in state }
{
    let mut points = [0; MAX_ZONES];
    for z in 0..MAX_ZONES {
        points[z] = pointer_of(state.zones[z].condition);
    }
    points
}

// The generations that a look shows.
pub fn generations_shown(look: Look) -> [u64; MAX_ZONES]
    ensures { result ≡ generations_shown look }
{
    let mut generations = [0; MAX_ZONES];
    for z in 0..MAX_ZONES {
        generations[z] = look.zones[z].generation;
    }
    generations
}

// The pointers that a look shows.
pub fn points_shown(look: Look) -> [usize; MAX_ZONES]
    ensures { result ≡ points_shown look }
{
    let mut points = [0; MAX_ZONES];
    for z in 0..MAX_ZONES {
        points[z] = look.zones[z].pointer;
    }
    points
}
