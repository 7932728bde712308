// Replays the conformance vectors: reads a script from standard input and writes one answer line for each command. Beside src/, the file `stdin`
// holds the scripts one after the other, and `stdout` the lines that the vectors give. Other vectors need no more than these two files, as long
// as they fit the spaces below.
#![tactic(auto)]

ghost use Rattle.std.specs.Prelude.{◌≡◌, length};

use replaying::{Command, Host, Reply};
use std::{fmt, io};
use volume::{BadPlace, State};

// Space for the script.
fn script_space() -> [u8; 262144]
    ensures { 262144 ≡ length result }
{
    [0; 262144]
}

// Space for the sectors of a shelf.
fn sector_space() -> [u8; 524288]
    ensures { 524288 ≡ length result }
{
    [0; 524288]
}

// A state, as a line shows it: the lost drive, then the records of so many zones, then the shares of so many drives.
#[derive(Clone, Copy)]
struct Shown {
    state: State,
    owners: [u32; 16],
    zones: usize,
    drives: usize,
}

impl fmt::Display for Shown {
    fn fmt<W: fmt::Write>(&self, f: &mut fmt::Formatter<W>) -> fmt::Result {
        write!(f, " lost {}", self.state.lost)?;
        for (record, owner) in self.state.zones.iter().zip(&self.owners).take(self.zones) {
            let condition = volume::numbers::condition_number(record.condition);
            let pointer = volume::records::pointer_of(record.condition);
            write!(f, " {}:{condition}:{pointer}:{owner}", record.generation)?;
        }
        for shares in self
            .state
            .shares
            .chunks_exact(volume::HOSTS)
            .take(self.drives)
        {
            write!(f, " {}/{}", shares[0], shares[1])?;
        }
        Ok(())
    }
}

// What the line says of the host's state: none, the state after a call that may change it, else that it is the same.
fn show_kept(rt: &impl Print, h: Host, letter: u8) -> io::Result<()> {
    if !h.held {
        return print!(rt; " none");
    }
    if !replaying::showing::may_keep(letter) {
        return print!(rt; " same");
    }
    let owners = h.owners;
    let kept = Shown {
        state: h.state,
        owners,
        zones: h.zones,
        drives: h.drives,
    };
    print!(rt; "{kept}")
}

// What a look shows: the state, then each zone read.
fn show_look(
    rt: &impl Print,
    space: &[u8],
    written: &[u32],
    durable: &[u32],
    buffer: &mut [u8],
    r: Reply,
    c: Command,
) -> io::Result<()> {
    let h = r.host;
    let state = r.shown;
    let zones = h.geometry.zones.min(16);
    let shown = Shown {
        state,
        owners: replaying::forming::owners_of(state),
        zones,
        drives: h.geometry.drives.min(8),
    };
    print!(rt; "{shown}")?;
    for z in 0..zones {
        let zone = replaying::showing::read_zone(space, written, durable, buffer, h, c, state, z);
        print!(rt; " {zone}")?;
    }
    Ok(())
}

// The place of a bad log, which a look or a mount tells that is refused for it.
fn show_place(rt: &impl Print, b: BadPlace) -> io::Result<()> {
    if b.number == 0 {
        return Ok(());
    }
    print!(rt; " at {} {} {}", b.drive, b.zone, b.sector)
}

// What a finished look, read, peek or report adds to the line, and a refusal for a log.
fn show_rest(
    rt: &impl Print,
    space: &[u8],
    written: &[u32],
    durable: &[u32],
    buffer: &mut [u8],
    places: &[u8],
    r: Reply,
    c: Command,
) -> io::Result<()> {
    let h = r.host;
    if r.code != 0 {
        return show_place(rt, r.place);
    }
    match c.letter {
        b'l' => show_look(rt, space, written, durable, buffer, r, c),
        b'd' => {
            let sum = replaying::showing::read_sum(buffer, h, c);
            print!(rt; " {sum}")
        }
        b'p' => {
            let place = replaying::showing::peek_place(places, written, durable, h, c);
            let sum = replaying::showing::peek_sum(space, written, durable, h, c);
            print!(rt; " {place} {sum}")
        }
        b'o' => {
            let listed = replaying::listing::listed(h, c);
            let filled = replaying::listing::report_filled(listed);
            let sum = replaying::listing::list_sum(listed, c);
            print!(rt; " {filled} {sum}")
        }
        _ => Ok(()),
    }
}

// The answer line.
fn show(
    rt: &impl Print,
    space: &[u8],
    written: &[u32],
    durable: &[u32],
    buffer: &mut [u8],
    places: &[u8],
    r: Reply,
    c: Command,
) -> io::Result<()> {
    let h = r.host;
    let sectors = replaying::showing::sectors_sum(space, h);
    let pointers = replaying::showing::pointers_sum(written, durable, h);
    // as a byte, since it need not be a character
    rt.write_all(&[c.letter])?;
    print!(rt; " {} {sectors} {pointers}", r.code)?;
    show_kept(rt, h, c.letter)?;
    show_rest(rt, space, written, durable, buffer, places, r, c)?;
    println!(rt)
}

// The host after an answer: its shortage is over unless it was just announced.
fn answered(h: Host, letter: u8) -> Host {
    if letter == b'n' {
        h
    } else {
        replaying::hosting::without_shortage(h)
    }
}

// One command: carried out and answered.
fn step(
    rt: &impl Print,
    space: &mut [u8],
    written: &mut [u32],
    durable: &mut [u32],
    buffer: &mut [u8],
    places: &[u8],
    h: Host,
    c: Command,
) -> io::Result<Host> {
    let r = replaying::performing::perform(space, written, durable, buffer, h, c);
    show(rt, space, written, durable, buffer, places, r, c)?;
    Ok(answered(r.host, c.letter))
}

// The script, line after line.
fn replay(
    rt: &impl Print,
    script: &[u8],
    space: &mut [u8],
    written: &mut [u32],
    durable: &mut [u32],
    buffer: &mut [u8],
    places: &[u8],
) -> io::Result<()> {
    let mut h = replaying::hosting::first_host();
    let mut rest = script;
    // kept: where the next command begins is known only from this one, so there is no range to go over.
    while let Some((c, after)) = replaying::parsing::command_at(rest) {
        h = step(rt, space, written, durable, buffer, places, h, c)?;
        rest = after;
    }
    Ok(())
}

// All of standard input, replayed on a shelf of at most 524,288 bytes; no script of the vectors has a larger one.
fn main(rt: HostRuntime) -> io::Result<()> {
    let mut script = script_space();
    let mut input = rt.reader();
    let n = replaying::input::read_full(&mut input, &mut script)?;
    let mut space = sector_space();
    let mut places = sector_space();
    let mut buffer = [0u8; 65536];
    let mut written = [0u32; 152];
    let mut durable = [0u32; 152];
    replaying::showing::mark_places(&mut places);
    replay(
        &rt,
        &script[..n],
        &mut space,
        &mut written,
        &mut durable,
        &mut buffer,
        &places,
    )
}
