// The calls: each command's numbers handed to the public call, and what the host keeps of its outcome.
use super::{Command, Host, Reply};
use volume::{Answer, BadPlace, Outcome};

// A call while there is no state.
pub fn stateless(h: Host) -> Reply {
    super::hosting::plain(h, 254, h.state)
}

// A call while the state has not its form.
pub fn malformed(h: Host) -> Reply {
    super::hosting::plain(h, 1, h.state)
}

// The bad place that an answer tells.
fn place_told(a: Answer) -> BadPlace {
    match a {
        Answer::BadLog(place) => place,
        _ => volume::bad_places::no_place(),
    }
}

// What a call leaves that hands nothing on.
fn told(h: Host, o: Outcome) -> Reply {
    Reply {
        host: h,
        code: volume::numbers::answer_number(o.answer),
        shown: o.state,
        place: place_told(o.answer),
    }
}

// The host keeps the state that a finished call left.
fn kept(h: Host, o: Outcome) -> Reply {
    if volume::numbers::answer_number(o.answer) != 0 {
        return told(h, o);
    }
    super::hosting::plain(super::hosting::with_state(h, o.state), 0, o.state)
}

// Format.
pub fn format(
    sectors: &mut [u8],
    written: &mut [u32],
    durable: &mut [u32],
    h: Host,
    c: Command,
) -> Reply {
    let g = h.geometry;
    let s = h.state;
    let named = super::hosting::named_in(c.first);
    let count = super::hosting::narrow(c.third);
    let o = volume::formatting::format(sectors, written, durable, g, named, c.second, s, count);
    kept(h, o)
}

// Mount.
pub fn mount(
    sectors: &mut [u8],
    written: &mut [u32],
    durable: &mut [u32],
    h: Host,
    c: Command,
) -> Reply {
    let g = h.geometry;
    let s = h.state;
    let named = super::hosting::named_in(c.first);
    let count = super::hosting::narrow(c.second);
    let o = mounting::mount::mount(sectors, written, durable, g, named, s, count);
    kept(h, o)
}

// Look: its state is shown and not kept.
pub fn look(sectors: &[u8], written: &[u32], durable: &[u32], h: Host, c: Command) -> Reply {
    let g = h.geometry;
    let s = h.state;
    let named = super::hosting::named_in(c.first);
    let o = volume::looking::look(sectors, written, durable, g, named, s);
    told(h, o)
}

// Write of the stream's bytes, by a host.
pub fn write(
    sectors: &mut [u8],
    written: &mut [u32],
    durable: &[u32],
    buffer: &mut [u8],
    h: Host,
    c: Command,
) -> Reply {
    let g = h.geometry;
    let s = h.state;
    let named = super::hosting::named_in(c.first);
    let host = super::hosting::narrow(c.second);
    let run = super::hosting::narrow(c.fourth);
    let count = super::hosting::narrow(c.sixth);
    super::stream::fill(buffer, c.fifth);
    let o = volume::writing::write(
        sectors, written, durable, g, named, s, host, c.third, run, buffer, count,
    );
    kept(h, o)
}

// Flush.
pub fn flush(sectors: &[u8], written: &[u32], durable: &mut [u32], h: Host, c: Command) -> Reply {
    let g = h.geometry;
    let s = h.state;
    let named = super::hosting::named_in(c.first);
    let count = super::hosting::narrow(c.second);
    let o = volume::flushing::flush(sectors, written, durable, g, named, s, count);
    kept(h, o)
}

// Reset.
pub fn reset(
    sectors: &mut [u8],
    written: &mut [u32],
    durable: &mut [u32],
    h: Host,
    c: Command,
) -> Reply {
    let g = h.geometry;
    let s = h.state;
    let named = super::hosting::named_in(c.first);
    let zone = c.second as usize;
    let count = super::hosting::narrow(c.third);
    let o = volume::resetting::reset(sectors, written, durable, g, named, s, zone, count);
    kept(h, o)
}

// Compact.
pub fn compact(
    sectors: &mut [u8],
    written: &mut [u32],
    durable: &mut [u32],
    h: Host,
    c: Command,
) -> Reply {
    let g = h.geometry;
    let s = h.state;
    let named = super::hosting::named_in(c.first);
    let drive = c.second as usize;
    let count = super::hosting::narrow(c.third);
    let o = compacting::compact(sectors, written, durable, g, named, s, drive, count);
    kept(h, o)
}

// Read into the buffer.
pub fn read(
    sectors: &[u8],
    written: &[u32],
    durable: &[u32],
    buffer: &mut [u8],
    h: Host,
    c: Command,
) -> Reply {
    let g = h.geometry;
    let s = h.state;
    let named = super::hosting::named_in(c.first);
    let run = super::hosting::narrow(c.third);
    let a = volume::reading::read(
        sectors, written, durable, g, named, s, c.second, run, buffer,
    );
    let code = volume::numbers::answer_number(a);
    super::hosting::plain(h, code, s)
}

// Peek: whether it is refused. What it gives is looked at when the answer is shown.
pub fn peek(sectors: &[u8], written: &[u32], durable: &[u32], h: Host, c: Command) -> Reply {
    let g = h.geometry;
    let s = h.state;
    let named = super::hosting::named_in(c.first);
    let peeked = volume::reading::peek_refusal(sectors, written, durable, g, named, s, c.second);
    let code = match peeked {
        Ok(()) => 0,
        Err(refusal) => refusal.number(),
    };
    super::hosting::plain(h, code, s)
}

// Report: whether it is refused. What it fills is looked at when the answer is shown.
pub fn report(h: Host, c: Command) -> Reply {
    let s = h.state;
    let l = super::listing::listed(h, c);
    let r = l.reported;
    let a = r.answer;
    let code = volume::numbers::answer_number(a);
    super::hosting::plain(h, code, s)
}
