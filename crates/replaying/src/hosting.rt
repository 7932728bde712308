// What the host keeps, and the commands that change it alone: a new shelf, another geometry, a shortage, damage to its state.
ghost use Rattle.std.specs.Prelude.{◌≤◌};

use super::{Command, Host, Reply, Shortage};
use tables::Geometry;
use volume::{State, ZoneRecord};

// A length, less what it is short of, and never more than there is.
pub fn lend(length: usize, short: usize, most: usize) -> usize
    ensures { result ≤ most }
{
    length.saturating_sub(short).min(most)
}

// A number as one of 32 bits; one past the largest is the largest.
pub fn narrow(x: u64) -> u32 {
    u32::try_from(x).unwrap_or(u32::MAX)
}

// The bytes of so many sectors; none where a sector is larger than any drive's.
pub fn run_bytes(g: Geometry, sectors: u64) -> usize {
    if g.sector <= 4096 {
        narrow(sectors) as usize * g.sector
    } else {
        0
    }
}

// The drives that a mask names.
pub fn named_in(mask: u64) -> [bool; 8] {
    std::array::from_fn(|drive| (mask >> drive) % 2 == 1)
}

// A state that says nothing, for a host that has none.
fn blank_state() -> State {
    State {
        lost: 255,
        zones: [volume::records::blank_record(); 16],
        shares: [0; volume::MAX_SHARES],
    }
}

// A host with a shelf of so many bytes and cells, and no state.
fn empty_host(geometry: Geometry, bytes: usize, cells: usize) -> Host {
    Host {
        geometry,
        bytes,
        cells,
        held: false,
        zones: 0,
        drives: 0,
        state: blank_state(),
        owners: [0; 16],
        shortage: Shortage::default(),
    }
}

// A host before its first command.
pub fn first_host() -> Host {
    empty_host(tables::bounds::geometry_of(0, 0, 0, 0, 0), 0, 0)
}

// The geometry of a command: D, B, U, L, C.
pub fn geometry_in(c: Command) -> Geometry {
    tables::bounds::geometry_of(
        c.first as usize,
        c.second as usize,
        c.third as usize,
        c.fourth as usize,
        c.fifth as usize,
    )
}

// The host of a new shelf: with no tables where the geometry is none, or needs more than the space that there is.
pub fn fresh_host(g: Geometry, space: usize) -> Host {
    let ok = tables::bounds::valid(g);
    if !ok {
        return empty_host(g, 0, 0);
    }
    let bytes = tables::bounds::total_bytes(g);
    let cells = tables::bounds::table_cells(g);
    if bytes <= space {
        return empty_host(g, bytes, cells);
    }
    empty_host(g, 0, 0)
}

// The geometry that is handed to the calls from here on.
pub fn with_geometry(h: Host, g: Geometry) -> Host {
    Host { geometry: g, ..h }
}

// The shortage that a command announces.
fn shortage_in(c: Command) -> Shortage {
    Shortage {
        sectors: c.first as usize,
        written: c.second as usize,
        durable: c.third as usize,
        buffer: c.fourth as usize,
    }
}

// The shortage of the next command.
pub fn with_shortage(h: Host, c: Command) -> Host {
    Host {
        shortage: shortage_in(c),
        ..h
    }
}

// The shortage is that of one command alone.
pub fn without_shortage(h: Host) -> Host {
    Host {
        shortage: Shortage::default(),
        ..h
    }
}

// One zone's record in the host's state; its owner stays.
pub fn with_record(h: Host, c: Command) -> Host {
    let z = c.first as usize;
    if 16 <= z {
        return h;
    }
    let mut t = h;
    t.state.zones[z] = ZoneRecord {
        generation: c.second,
        condition: volume::numbers::condition_of(c.third, c.fourth as usize),
        owner: h.state.zones[z].owner,
    };
    t
}

// One zone's owner in the host's state.
pub fn with_owner(h: Host, c: Command) -> Host {
    let z = c.first as usize;
    if 16 <= z {
        return h;
    }
    let mut t = h;
    t.state.zones[z].owner = volume::numbers::owner_of_number(c.second);
    t.owners[z] = (c.second % 256) as u32;
    t
}

// What is left of the hosts' shares of one drive, in the host's state.
pub fn with_shares(h: Host, c: Command) -> Host {
    let d = c.first as usize;
    if 8 <= d {
        return h;
    }
    let at = d * volume::HOSTS;
    let mut t = h;
    t.state.shares[at] = narrow(c.second);
    t.state.shares[at + 1] = narrow(c.third);
    t
}

// The host with the state that a finished call left.
pub fn with_state(h: Host, s: State) -> Host {
    Host {
        held: true,
        zones: h.geometry.zones,
        drives: h.geometry.drives,
        state: s,
        owners: super::forming::owners_of(s),
        ..h
    }
}

// The lost drive in the host's state.
pub fn with_lost(h: Host, lost: usize) -> Host {
    let mut t = h;
    t.state.lost = lost;
    t
}

// What a command leaves that tells no bad place.
pub fn plain(h: Host, code: u8, shown: State) -> Reply {
    Reply {
        host: h,
        code,
        shown,
        place: volume::bad_places::no_place(),
    }
}

// What a command leaves that is no call.
pub fn quiet(h: Host) -> Reply {
    plain(h, 0, h.state)
}
