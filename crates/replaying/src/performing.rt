// A command carried out: the tables lent as the host's shelf and its shortage say, the call or the change made.
use super::{Command, Host, Reply};

// A call that asks for a state, on tables that are lent.
fn call_with_state(
    sectors: &mut [u8],
    written: &mut [u32],
    durable: &mut [u32],
    buffer: &mut [u8],
    h: Host,
    c: Command,
) -> Reply {
    match c.letter {
        b'w' => super::calling::write(sectors, written, durable, buffer, h, c),
        b'u' => super::calling::flush(sectors, written, durable, h, c),
        b'r' => super::calling::reset(sectors, written, durable, h, c),
        b'k' => super::calling::compact(sectors, written, durable, h, c),
        b'd' => super::calling::read(sectors, written, durable, buffer, h, c),
        b'o' => super::calling::report(h, c),
        _ => super::calling::peek(sectors, written, durable, h, c),
    }
}

// A call on tables that are lent.
fn call(
    sectors: &mut [u8],
    written: &mut [u32],
    durable: &mut [u32],
    buffer: &mut [u8],
    h: Host,
    c: Command,
) -> Reply {
    match c.letter {
        b'f' => super::calling::format(sectors, written, durable, h, c),
        b'm' => super::calling::mount(sectors, written, durable, h, c),
        b'l' => super::calling::look(sectors, written, durable, h, c),
        _ if !h.held => super::calling::stateless(h),
        _ if super::forming::is_odd(h) => super::calling::malformed(h),
        _ => call_with_state(sectors, written, durable, buffer, h, c),
    }
}

// How many sectors a write or a read has.
fn run_in(c: Command) -> u64 {
    if c.letter == b'w' { c.fourth } else { c.third }
}

// The tables as long as the shelf's, less the command's shortage; the buffer as long as the run, less its shortage.
fn call_on_tables(
    space: &mut [u8],
    written: &mut [u32],
    durable: &mut [u32],
    buffer: &mut [u8],
    h: Host,
    c: Command,
) -> Reply {
    let s = h.shortage;
    let g = h.geometry;
    let run = super::hosting::run_bytes(g, run_in(c));
    let a = super::hosting::lend(h.bytes, s.sectors, space.len());
    let w = super::hosting::lend(h.cells, s.written, written.len());
    let d = super::hosting::lend(h.cells, s.durable, durable.len());
    let b = super::hosting::lend(run, s.buffer, buffer.len());
    call(
        &mut space[..a],
        &mut written[..w],
        &mut durable[..d],
        &mut buffer[..b],
        h,
        c,
    )
}

// A new shelf: sectors all zero, pointers all 0, no state.
fn new_drives(space: &mut [u8], written: &mut [u32], durable: &mut [u32], c: Command) -> Reply {
    let g = super::hosting::geometry_in(c);
    let h = super::hosting::fresh_host(g, space.len());
    space.fill(0);
    written.fill(0);
    durable.fill(0);
    super::hosting::quiet(h)
}

// A change of what the host keeps: geometry, shortage, a zone's record or owner, a drive's shares, the lost drive; of another command nothing.
fn change_host(h: Host, c: Command) -> Host {
    match c.letter {
        b'y' => super::hosting::with_geometry(h, super::hosting::geometry_in(c)),
        b'n' => super::hosting::with_shortage(h, c),
        _ if !h.held => h,
        b's' => super::hosting::with_record(h, c),
        b'i' => super::hosting::with_owner(h, c),
        b'h' => super::hosting::with_shares(h, c),
        b'x' => super::hosting::with_lost(h, c.first as usize),
        _ => h,
    }
}

// A cut of all drives of the shelf.
fn cut_tables(written: &mut [u32], durable: &mut [u32], h: Host, c: Command) {
    let w = super::hosting::lend(h.cells, 0, written.len());
    let d = super::hosting::lend(h.cells, 0, durable.len());
    let n = w.min(d);
    super::stream::cut(&mut written[..n], &mut durable[..n], c.first);
}

// An odd header, or a sector of the stream, at a zone's written pointer.
fn append_odd(sectors: &mut [u8], written: &mut [u32], buffer: &mut [u8], h: Host, c: Command) {
    let g = h.geometry;
    let drive = c.first as usize;
    let zone = c.second as usize;
    if c.letter == b'e' {
        super::damaging::odd_header(buffer, g, c.third, c.fourth, c.fifth, c.sixth);
        super::damaging::append(sectors, written, g, drive, zone, buffer);
        return;
    }
    super::stream::fill(buffer, c.third);
    super::damaging::append(sectors, written, g, drive, zone, buffer);
}

// The same, with the shelf's tables and a buffer of one sector.
fn append_to_log(space: &mut [u8], written: &mut [u32], buffer: &mut [u8], h: Host, c: Command) {
    let g = h.geometry;
    let a = super::hosting::lend(h.bytes, 0, space.len());
    let w = super::hosting::lend(h.cells, 0, written.len());
    let b = super::hosting::lend(g.sector, 0, buffer.len());
    append_odd(&mut space[..a], &mut written[..w], &mut buffer[..b], h, c);
}

// A change of the tables, by no call.
fn change_tables(
    space: &mut [u8],
    written: &mut [u32],
    durable: &mut [u32],
    buffer: &mut [u8],
    h: Host,
    c: Command,
) {
    match c.letter {
        b'c' => cut_tables(written, durable, h, c),
        b'b' => super::damaging::put_byte(space, c.first as usize, c.second),
        b't' => {
            super::damaging::put_pair(written, durable, c.first as usize, c.second, c.third);
        }
        _ => append_to_log(space, written, buffer, h, c),
    }
}

// Carries a command out.
pub fn perform(
    space: &mut [u8],
    written: &mut [u32],
    durable: &mut [u32],
    buffer: &mut [u8],
    h: Host,
    c: Command,
) -> Reply {
    match c.letter {
        b'g' => new_drives(space, written, durable, c),
        b'f' | b'm' | b'l' | b'w' | b'u' | b'r' | b'k' | b'd' | b'p' | b'o' => {
            call_on_tables(space, written, durable, buffer, h, c)
        }
        b'c' | b'b' | b't' | b'e' | b'q' => {
            change_tables(space, written, durable, buffer, h, c);
            super::hosting::quiet(h)
        }
        _ => super::hosting::quiet(change_host(h, c)),
    }
}
