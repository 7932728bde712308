// Flush: document 01's "flush all", on every present drive.
ghost use Rattle.std.specs.Prelude.{◌≡◌, ◌<◌, length, eqb};
ghost use Rattle.tables.specs.meaning.Basics.{pick};
ghost use Rattle.tables.specs.meaning.Geometry.{Valid, cells};
ghost use Rattle.tables.specs.meaning.Tables.{tables_of};
ghost use Rattle.tables.specs.laws.Made.{MadePointers};
ghost use Rattle.volume.specs.declared.Answer.TheVariants.{Finished, Unfinished};
ghost use Rattle.volume.specs.meaning.Calls.{flush_stores};
ghost use Rattle.volume.specs.meaning.CallContracts.{is_set, flush_on};

use super::checks::Sizes;
use super::{Answer, Outcome, State};
use tables::{Geometry, MAX_DRIVES};

// Flushes every drive that is here, as far as the budget of stores goes: what is left of it.
pub fn flush_all(
    written: &[u32],
    durable: &mut [u32],
    g: Geometry,
    here: [bool; MAX_DRIVES],
    budget: u64,
) -> u64
    requires valid { Valid g }
    requires written_len { (length written.now ≡ cells g) × (length durable.old ≡ cells g) }
    ensures { MadePointers g budget result (flush_stores g (is_set here)) written.now durable.old written.now durable.new }
{
    let mut rest = budget;
    for d in 0..g.drives {
        rest = tables::stores::flush_counted(written, durable, g, here[d], d, rest);
    }
    rest
}

// How a call ends with `rest` left of its budget: unfinished with the old state, or finished with the next one.
pub fn ended(old: State, next: State, rest: u64) -> Outcome
    ensures { result ≡ pick (eqb rest 0) (record { answer = Unfinished; state = old }) (record { answer = Finished; state = next }) }
{
    if rest == 0 {
        return Outcome {
            answer: Answer::Unfinished,
            state: old,
        };
    }
    Outcome {
        answer: Answer::Finished,
        state: next,
    }
}

// The call.
pub fn flush(
    sectors: &[u8],
    written: &[u32],
    durable: &mut [u32],
    g: Geometry,
    named: [bool; MAX_DRIVES],
    state: State,
    count: u32,
) -> Outcome
    ensures { (result ≡ (flush_on g named state count (tables_of sectors.now written.now durable.old)).outcome)
        × (tables_of sectors.now written.now durable.new ≡ (flush_on g named state count (tables_of sectors.now written.now durable.old)).tables) }
{
    let within = super::checks::input_within(g, state);
    let lost = state.lost;
    let sizes = Sizes {
        sectors: sectors.len(),
        count: 0,
        bytes: 0,
    };
    if let Err(refusal) = super::checks::opening(within, sizes, written, durable, g, named, lost) {
        return super::checks::refused(refusal, state);
    }
    let here = super::checks::present_drives(g, named, lost);
    let budget = count as u64 + 1;
    let rest = flush_all(written, durable, g, here, budget);
    let x = super::checks::left_out(g, here);
    let zones = state.zones;
    let shares = state.shares;
    let next = State {
        lost: x,
        zones,
        shares,
    };
    ended(state, next, rest)
}
