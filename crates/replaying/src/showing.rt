// What an answer line shows besides the answer's number and the checksums: a zone's condition, a zone read whole, a part that a peek gives.
use super::{Command, Glimpse, Host};
use volume::{Answer, State};

// Whether a command's line shows the host's state whole: those of format, mount, write, flush, reset and compact do.
pub fn may_keep(letter: u8) -> bool {
    matches!(letter, b'f' | b'm' | b'w' | b'u' | b'r' | b'k')
}

// A read's checksum, if it was finished.
fn glimpse_of(a: Answer, buffer: &[u8]) -> Glimpse {
    match a {
        Answer::Finished => Glimpse {
            code: 0,
            sum: super::checksum::adler_of(buffer),
        },
        Answer::Unfinished => Glimpse { code: 255, sum: 0 },
        Answer::Refused(n) => Glimpse { code: n, sum: 0 },
        Answer::BadLog(b) => Glimpse {
            code: b.number,
            sum: 0,
        },
    }
}

// A read of n sectors from the first address of zone z, under the state that a look showed.
fn read_run(
    sectors: &[u8],
    written: &[u32],
    durable: &[u32],
    buffer: &mut [u8],
    h: Host,
    c: Command,
    shown: State,
    address: u64,
    n: usize,
) -> Glimpse {
    let g = h.geometry;
    let named = super::hosting::named_in(c.first);
    let run = super::hosting::narrow(n as u64);
    let a = volume::reading::read(
        sectors, written, durable, g, named, shown, address, run, buffer,
    );
    glimpse_of(a, buffer)
}

// The first address of a zone; 0 where the geometry is none.
fn zone_start(h: Host, z: usize) -> u64 {
    let g = h.geometry;
    let ok = tables::bounds::valid(g);
    if !ok || 16 <= z {
        return 0;
    }
    (z * tables::bounds::zone_sectors(g)) as u64
}

// A read of a whole zone up to its pointer under the state that a look showed; the checksum of nothing where the pointer is 0.
pub fn read_zone(
    space: &[u8],
    written: &[u32],
    durable: &[u32],
    buffer: &mut [u8],
    h: Host,
    c: Command,
    shown: State,
    z: usize,
) -> Glimpse {
    if 16 <= z {
        return Glimpse { code: 8, sum: 0 };
    }
    let n = volume::records::pointer_of(shown.zones[z].condition);
    if n == 0 {
        return Glimpse { code: 0, sum: 1 };
    }
    let address = zone_start(h, z);
    let run = super::hosting::run_bytes(h.geometry, n as u64);
    let a = super::hosting::lend(h.bytes, 0, space.len());
    let w = super::hosting::lend(h.cells, 0, written.len());
    let d = super::hosting::lend(h.cells, 0, durable.len());
    let b = super::hosting::lend(run, 0, buffer.len());
    read_run(
        &space[..a],
        &written[..w],
        &durable[..d],
        &mut buffer[..b],
        h,
        c,
        shown,
        address,
        n,
    )
}

// Sectors that tell their own place: the bytes from 4 i on are the number 4 i.
pub fn mark_places(places: &mut [u8]) {
    let n = places.len() / 4;
    if 1048576 < n {
        return;
    }
    for i in 0..n {
        let at = 4 * i;
        tables::bytes::write_u32(places, at, at as u32);
    }
}

// The number at the beginning of a part; 0 if there is none.
fn place_in(part: &[u8]) -> u64 {
    if part.len() < 4 {
        return 0;
    }
    u64::from(tables::bytes::read_u32(part, 0))
}

// The part of the shelf's sectors that a peek gives.
fn part_shown<'a>(
    space: &'a [u8],
    written: &[u32],
    durable: &[u32],
    h: Host,
    c: Command,
) -> &'a [u8] {
    let a = super::hosting::lend(h.bytes, 0, space.len());
    let w = super::hosting::lend(h.cells, 0, written.len());
    let d = super::hosting::lend(h.cells, 0, durable.len());
    let g = h.geometry;
    let s = h.state;
    let named = super::hosting::named_in(c.first);
    volume::reading::peek(
        &space[..a],
        &written[..w],
        &durable[..d],
        g,
        named,
        s,
        c.second,
    )
}

// Where in the lent sectors the part lies that a peek gives: the same peek of sectors that tell their own place.
pub fn peek_place(places: &[u8], written: &[u32], durable: &[u32], h: Host, c: Command) -> u64 {
    let part = part_shown(places, written, durable, h, c);
    place_in(part)
}

// The checksum of the part that a peek gives.
pub fn peek_sum(space: &[u8], written: &[u32], durable: &[u32], h: Host, c: Command) -> u64 {
    let part = part_shown(space, written, durable, h, c);
    super::checksum::adler_of(part)
}

// The checksum of what a finished read left in the buffer.
pub fn read_sum(buffer: &[u8], h: Host, c: Command) -> u64 {
    let g = h.geometry;
    let run = super::hosting::run_bytes(g, c.third);
    let b = super::hosting::lend(run, 0, buffer.len());
    super::checksum::adler_of(&buffer[..b])
}

// The checksum of the shelf's sectors.
pub fn sectors_sum(space: &[u8], h: Host) -> u64 {
    let a = super::hosting::lend(h.bytes, 0, space.len());
    super::checksum::adler_of(&space[..a])
}

// The checksum of the shelf's pointers.
pub fn pointers_sum(written: &[u32], durable: &[u32], h: Host) -> u64 {
    let w = super::hosting::lend(h.cells, 0, written.len());
    let d = super::hosting::lend(h.cells, 0, durable.len());
    super::checksum::adler_of_tables(&written[..w], &durable[..d])
}
