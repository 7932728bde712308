// Compact (document 02, 2.6): the call that empties a drive's parity log, whether it lacks room or not, and gives the hosts their shares of it anew. Over the
// calls and the rules of `volume`.
#![tactic(auto)]

ghost use Rattle.std.specs.Prelude.{◌≡◌, ◌&&◌, true, ℕ, ◌<◌, length, ltb};
ghost use Rattle.tables.specs.meaning.Geometry.{Valid, cells};
ghost use Rattle.tables.specs.meaning.Tables.{tables_of};
ghost use Rattle.volume.specs.meaning.CallContracts.{is_set, view_state, compact_on};
ghost use Rattle.volume.specs.meaning.Refusals.{state_within};
ghost use Rattle.volume.specs.looking.DriveLogs.{Sized};
ghost use Rattle.volume.specs.checks.LogRoom.{SeenByRoles};
ghost use Rattle.compacting.specs.CompactRoom.{compact_asked};
ghost use Rattle.compacting.specs.CompactMade.{CompactReady};
ghost use Rattle.compacting.specs.Compacting.{some_stale, renewed_list, new_share, ended_with, compact_seen_on};

use tables::{Geometry, MAX_CELLS, MAX_DRIVES};
use volume::checks::Sizes;
use volume::log_room::RoomAsked;
use volume::roles::LogPlaces;
use volume::{HOSTS, MAX_SHARES, Outcome, Refusal, State};

// What is compacted: a drive's parity log, in tables of this geometry, with the drives that are here.
#[derive(Clone, Copy)]
pub struct Compaction {
    pub first: Geometry,
    pub here: [bool; MAX_DRIVES],
    pub drive: usize,
}

// Refusal 7 of every zone.
fn some_stale(written: &[u32], g: Geometry, here: [bool; MAX_DRIVES], state: State) -> bool
    requires valid { Valid g }
    requires written_len { (length written.now ≡ cells g) × (state_within g (view_state state) ≡ true) }
    ensures { result ≡ some_stale g (is_set here) state written.now g.zones }
{
    let mut stale = false;
    for z in 0..g.zones {
        stale |= volume::zone_checks::is_stale(written, g, here, state.zones[z].condition, z);
    }
    stale
}

// Whether a drive is one of the volume's and here.
fn is_here(g: Geometry, here: [bool; MAX_DRIVES], drive: usize) -> bool
    requires { Valid g }
    ensures { result ≡ ltb drive g.drives && is_set here drive }
{
    drive < g.drives && here[drive]
}

// What it asks of the logs: that drive's is emptied however much of it is unused, and must have the reserve unused then.
fn compact_asks(job: Compaction, places: LogPlaces) -> RoomAsked
    requires valid { Valid job.first }
    requires drive_lt_drives { job.drive < job.first.drives }
    ensures { result ≡ compact_asked job places }
{
    let first = job.first;
    let here = job.here;
    let drive = job.drive;
    let mut due = [false; MAX_DRIVES];
    due[drive] = true;
    let below = first.capacity + 1;
    let limit = volume::shares::reserve_of(first);
    RoomAsked {
        first,
        places,
        here,
        due,
        parity: true,
        below,
        limit,
        clears_spares: false,
    }
}

// The shares with those of a drive anew.
fn renewed(shares: [u32; MAX_SHARES], drive: usize, share: u32) -> [u32; MAX_SHARES]
    requires { drive < 8 }
    ensures { result ≡ renewed_list shares drive share }
{
    let mut out = shares;
    let at = drive * HOSTS;
    out[at] = share;
    out[at + 1] = share;
    out
}

// What each host gets of the new log: half of what it has unused past the reserve.
fn new_share(job: Compaction, state: State) -> u32
    requires valid { Valid job.first }
    requires drive_lt_drives { (job.drive < job.first.drives) × (state_within job.first (view_state state) ≡ true) }
    ensures { result ≡ new_share job state }
{
    let g = job.first;
    let points = volume::records::points_of(state);
    let size = volume::emptying_parity::parity_size(g, job.drive, &points);
    volume::shares::half_past(g, g.capacity.saturating_sub(size))
}

// How it ends with `rest` left of the budget. If it finished, the hosts have their shares of the new log, and a drive that was left out is lost.
fn outcome(job: Compaction, state: State, rest: u64) -> Outcome
    requires valid { Valid job.first }
    requires drive_lt_drives { (job.drive < job.first.drives) × (state_within job.first (view_state state) ≡ true) }
    ensures { result ≡ ended_with job state rest }
{
    let here = job.here;
    let drive = job.drive;
    let share = new_share(job, state);
    let old = state.shares;
    let shares = renewed(old, drive, share);
    let lost = volume::checks::left_out(job.first, here);
    let zones = state.zones;
    let next = State {
        lost,
        zones,
        shares,
    };
    volume::flushing::ended(state, next, rest)
}

// A compact that passed refusals 1 to 8, with the logs where they lie: refusals 14 and 15, and the stores.
fn compact_seen(
    sectors: &mut [u8],
    written: &mut [u32],
    durable: &mut [u32],
    pointers: &[u32],
    job: Compaction,
    places: LogPlaces,
    state: State,
    count: u32,
) -> Outcome
    requires valid { Valid job.first }
    requires seen_by_roles { SeenByRoles job.first places sectors.old written.old pointers.now × CompactReady job state written.old durable.old }
    ensures { (result ≡ (compact_seen_on job state count (tables_of sectors.old written.old durable.old)).outcome)
        × (tables_of sectors.new written.new durable.new ≡ (compact_seen_on job state count (tables_of sectors.old written.old durable.old)).tables) }
{
    let here = job.here;
    let drive = job.drive;
    let asked = compact_asks(job, places);
    let points = volume::records::points_of(state);
    let room = volume::log_room::parity_room(sectors, written, pointers, asked, &points);
    if room.full {
        return volume::checks::refused(Refusal::LogFull, state);
    }
    let generations = volume::records::generations_of(state);
    if volume::copies_known::copies_gone(
        sectors,
        pointers,
        places.geometry,
        here,
        drive,
        &generations,
        &points,
    ) {
        return volume::checks::refused(Refusal::Gone, state);
    }
    let all = volume::log_room::emptyings_of(asked, room);
    let budget = volume::checks::budget_of(count);
    let rest = volume::emptyings::empty_parity_on(
        sectors,
        written,
        durable,
        pointers,
        all,
        &generations,
        &points,
        drive,
        budget,
    );
    outcome(job, state, rest)
}

// The same, where the logs are still to be found.
fn compact_by_roles(
    sectors: &mut [u8],
    written: &mut [u32],
    durable: &mut [u32],
    job: Compaction,
    state: State,
    count: u32,
) -> Outcome
    requires valid { Valid job.first }
    requires sized { Sized job.first sectors.old written.old × (job.first.logs ≡ 0) × CompactReady job state written.old durable.old }
    ensures { (result ≡ (compact_seen_on job state count (tables_of sectors.old written.old durable.old)).outcome)
        × (tables_of sectors.new written.new durable.new ≡ (compact_seen_on job state count (tables_of sectors.old written.old durable.old)).tables) }
{
    let cells = written.len();
    let mut pointers = [0u32; MAX_CELLS];
    let places = volume::roles::see_by_roles(sectors, written, &mut pointers[..cells], job.first);
    compact_seen(
        sectors,
        written,
        durable,
        &pointers[..cells],
        job,
        places,
        state,
        count,
    )
}

// The call: the parity log of a drive.
pub fn compact(
    sectors: &mut [u8],
    written: &mut [u32],
    durable: &mut [u32],
    g: Geometry,
    named: [bool; MAX_DRIVES],
    state: State,
    drive: usize,
    count: u32,
) -> Outcome
    ensures { (result ≡ (compact_on g named state drive count (tables_of sectors.old written.old durable.old)).outcome)
        × (tables_of sectors.new written.new durable.new ≡ (compact_on g named state drive count (tables_of sectors.old written.old durable.old)).tables) }
{
    let within = volume::checks::input_within(g, state);
    let lost = state.lost;
    let sizes = Sizes {
        sectors: sectors.len(),
        count: 0,
        bytes: 0,
    };
    if let Err(refusal) = volume::checks::opening(within, sizes, written, durable, g, named, lost) {
        return volume::checks::refused(refusal, state);
    }
    let here = volume::checks::present_drives(g, named, lost);
    if some_stale(written, g, here, state) {
        return volume::checks::refused(Refusal::Stale, state);
    }
    if !is_here(g, here, drive) {
        return volume::checks::refused(Refusal::Address, state);
    }
    let job = Compaction {
        first: g,
        here,
        drive,
    };
    compact_by_roles(sectors, written, durable, job, state, count)
}
