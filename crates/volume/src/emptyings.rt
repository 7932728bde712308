// The logs of a kind that lack room are emptied drive by drive, ascending (`emptying`). All of it is read where the logs lay at the call's start, below a copy
// of the written pointers of then, and stored where they lie once all are emptied: each store is on one drive.
ghost use Rattle.std.specs.Prelude.{◌≡◌, true, false, ◌≤◌, ◌<◌, length};
ghost use Rattle.tables.specs.meaning.Geometry.{Valid};
ghost use Rattle.tables.specs.meaning.Below.{each_below};
ghost use Rattle.tables.specs.meaning.Tables.{tables_of};
ghost use Rattle.tables.specs.laws.Made.{Made};
ghost use Rattle.volume.specs.emptying.Emptyings.{EmptyingReady, emptied_on, new_general_on};
ghost use Rattle.volume.specs.emptying.ParityEmptyings.{ParityKnown, TurnReady, new_parity_on};
ghost use Rattle.volume.specs.emptying.ParityTurns.{ParitiesReady, parity_copies_on, ParitiesEmptied};

use super::emptying::Emptying;
use tables::{Geometry, MAX_DRIVES};

// Which logs are emptied: where all logs lay and where they lie afterwards, the drives that are here, and the generations of the new logs, of the drives whose
// log is emptied.
#[derive(Clone, Copy)]
pub struct Emptyings {
    pub from: Geometry,
    pub to: Geometry,
    pub here: [bool; MAX_DRIVES],
    pub emptied: [Option<u64>; MAX_DRIVES],
}

// A drive's general log, if it is one of them.
fn empty_general_on(
    sectors: &mut [u8],
    written: &mut [u32],
    durable: &mut [u32],
    pointers: &[u32],
    all: Emptyings,
    generations: &[u64],
    drive: usize,
    budget: u64,
) -> u64
    requires valid { Valid all.from }
    requires emptying_ready { EmptyingReady false all pointers.now sectors.old written.old durable.old × (drive < all.from.drives) × (all.from.zones ≤ length generations.now) }
    ensures { Made all.to budget result (emptied_on all false (new_general_on all generations.now sectors.old pointers.now drive) drive)
        (tables_of sectors.old written.old durable.old) (tables_of sectors.new written.new durable.new) }
{
    let Some(generation) = all.emptied[drive] else {
        return budget;
    };
    let e = Emptying {
        from: all.from,
        to: all.to,
        here: all.here,
        drive,
        generation,
    };
    super::emptying::empty_general(sectors, written, durable, pointers, e, generations, budget)
}

// All of them.
pub fn empty_generals(
    sectors: &mut [u8],
    written: &mut [u32],
    durable: &mut [u32],
    pointers: &[u32],
    all: Emptyings,
    generations: &[u64],
    budget: u64,
) -> u64
    requires valid { Valid all.from }
    requires emptying_ready { EmptyingReady false all pointers.now sectors.old written.old durable.old × (all.from.zones ≤ length generations.now) }
    ensures { Made all.to budget result (each_below (λ d. emptied_on all false (new_general_on all generations.now sectors.old pointers.now d) d) all.from.drives)
        (tables_of sectors.old written.old durable.old) (tables_of sectors.new written.new durable.new) }
{
    let mut rest = budget;
    for d in 0..all.from.drives {
        rest = empty_general_on(
            sectors,
            written,
            durable,
            pointers,
            all,
            generations,
            d,
            rest,
        );
    }
    rest
}

// A drive's parity log, if it is one of them, by the generations and pointers in force: values are read below `pointers`, the old log below `starts`.
fn empty_parity_at(
    sectors: &mut [u8],
    written: &mut [u32],
    durable: &mut [u32],
    pointers: &[u32],
    starts: &[u32],
    all: Emptyings,
    generations: &[u64],
    points: &[usize],
    drive: usize,
    budget: u64,
) -> u64
    requires valid { Valid all.from }
    requires turn_ready { TurnReady all generations.now points.now pointers.now starts.now sectors.old written.old durable.old drive }
    ensures { Made all.to budget result (emptied_on all true (parity_copies_on all generations.now points.now pointers.now starts.now sectors.old drive) drive)
        (tables_of sectors.old written.old durable.old) (tables_of sectors.new written.new durable.new) }
{
    let Some(generation) = all.emptied[drive] else {
        return budget;
    };
    let e = Emptying {
        from: all.from,
        to: all.to,
        here: all.here,
        drive,
        generation,
    };
    super::emptying_parity::empty_parity(
        sectors,
        written,
        durable,
        pointers,
        starts,
        e,
        generations,
        points,
        budget,
    )
}

// The same outside a mount: all is read below `pointers`.
pub fn empty_parity_on(
    sectors: &mut [u8],
    written: &mut [u32],
    durable: &mut [u32],
    pointers: &[u32],
    all: Emptyings,
    generations: &[u64],
    points: &[usize],
    drive: usize,
    budget: u64,
) -> u64
    requires valid { Valid all.from }
    requires emptying_ready { EmptyingReady true all pointers.now sectors.old written.old durable.old × ParityKnown all generations.now points.now pointers.now sectors.old written.old drive }
    ensures { Made all.to budget result (emptied_on all true (new_parity_on all generations.now points.now sectors.old pointers.now drive) drive)
        (tables_of sectors.old written.old durable.old) (tables_of sectors.new written.new durable.new) }
{
    empty_parity_at(
        sectors,
        written,
        durable,
        pointers,
        pointers,
        all,
        generations,
        points,
        drive,
        budget,
    )
}

// All of them in a mount: `pointers` are those of the look, by which values are read, `starts` those of the moment before, by which the old logs are.
pub fn empty_parities(
    sectors: &mut [u8],
    written: &mut [u32],
    durable: &mut [u32],
    pointers: &[u32],
    starts: &[u32],
    all: Emptyings,
    generations: &[u64],
    points: &[usize],
    budget: u64,
) -> u64
    requires valid { Valid all.from }
    requires parities_ready { ParitiesReady all generations.now points.now pointers.now starts.now sectors.old written.old durable.old }
    ensures { ParitiesEmptied all generations.now points.now pointers.now starts.now budget result
        (tables_of sectors.old written.old durable.old) (tables_of sectors.new written.new durable.new) }
{
    let mut rest = budget;
    for d in 0..all.from.drives {
        rest = empty_parity_at(
            sectors,
            written,
            durable,
            pointers,
            starts,
            all,
            generations,
            points,
            d,
            rest,
        );
    }
    rest
}
