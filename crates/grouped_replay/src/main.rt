// Replays the conformance vectors of segments with grouped stripes: reads a script from standard input and writes one answer line for each command. The
// file `stdout` beside src/ holds the lines that the vectors give. `stdin` is their script without its segment of 65,536 blocks a drive, which is larger
// than a program's stack; the replays through the C edge and of the Python model have it.
#![tactic(auto)]

ghost use Rattle.std.specs.Prelude.{◌≡◌, ◌+◌, ◌≤◌, length};

use grouped::Segment;
use replaying::Command;
use std::io;

pub mod memory;

// Bytes of the blocks, the metadata, the work table and the answer.
#[derive(Clone, Copy, Default)]
struct Sizes {
    blocks: usize,
    metadata: usize,
    work: usize,
    answer: usize,
}

// What is kept between commands: the numbers by which the memory was made, those that are handed to reads, and by how much the next
// command's memory is lent too short.
#[derive(Clone, Copy)]
struct Host {
    made: Segment,
    handed: Segment,
    shortage: Sizes,
}

// What a command answers.
#[derive(Clone, Copy)]
struct Reply {
    code: u32,
    sum: u64,
}

// Space for the script.
fn script_space() -> [u8; 65536]
    ensures { 65536 ≡ length result }
{
    [0; 65536]
}

// Space for the blocks.
fn block_space() -> [u8; 90112]
    ensures { 90112 ≡ length result }
{
    [0; 90112]
}

// The answer line.
fn show(rt: &impl Print, letter: u8, r: Reply) -> io::Result<()> {
    // as a byte, since it need not be a character
    rt.write_all(&[letter])?;
    println!(rt; " {} {}", r.code, r.sum)
}

// The byte that fills the answer where nothing was read.
const UNREAD: u8 = 238;

// The blocks of all drives.
fn cells(s: Segment) -> usize
    ensures { result ≤ 1048576 }
{
    memory::product(s.blocks.min(65536), s.drives.min(8)).min(memory::NONE)
}

// How much of the memory a read is handed.
fn sizes_for(h: Host, most: Sizes) -> Sizes
    ensures { (result.blocks ≤ most.blocks) × (result.metadata ≤ most.metadata) × (result.work ≤ most.work) × (result.answer ≤ most.answer) }
{
    let s = h.made;
    let short = h.shortage;
    let n = cells(s);
    let b = memory::width_of(s);
    Sizes {
        blocks: replaying::hosting::lend(memory::product(n, b), short.blocks, most.blocks),
        metadata: replaying::hosting::lend(memory::product(n, 20), short.metadata, most.metadata),
        work: replaying::hosting::lend(memory::product(n, 8), short.work, most.work),
        answer: replaying::hosting::lend(b, short.answer, most.answer),
    }
}

// A read of the memory's first parts.
fn read_prefixes(
    blocks: &[u8],
    metadata: &[u8],
    work: &mut [u8],
    answer: &mut [u8],
    t: Sizes,
    s: Segment,
    c: Command,
) -> u32
    requires { (t.blocks ≤ length blocks.now) × (t.metadata ≤ length metadata.now) × (t.work ≤ length work.old) }
{
    match grouped::reading::read_grouped(
        &blocks[..t.blocks],
        &metadata[..t.metadata],
        &mut work[..t.work],
        s,
        replaying::hosting::named_in(c.first),
        c.second,
        answer,
    ) {
        Ok(()) => 0,
        Err(refusal) => refusal.number(),
    }
}

// A read.
fn read(
    blocks: &[u8],
    metadata: &[u8],
    work: &mut [u8],
    answer: &mut [u8],
    h: Host,
    c: Command,
) -> Reply {
    let most = Sizes {
        blocks: blocks.len(),
        metadata: metadata.len(),
        work: work.len(),
        answer: answer.len(),
    };
    let t = sizes_for(h, most);
    answer.fill(UNREAD);
    let part = &mut answer[..t.answer];
    let code = read_prefixes(blocks, metadata, work, part, t, h.handed, c);
    let sum = replaying::checksum::adler_of(part);
    Reply { code, sum }
}

// The block that a command names.
fn cell_in(s: Segment, c: Command) -> usize
    ensures { result ≤ 1048576 }
{
    memory::cell(s, memory::size(c.first), memory::size(c.second))
}

// Sets a block's metadata; the checksum.
fn put_record(blocks: &[u8], metadata: &mut [u8], s: Segment, c: Command) -> u64 {
    let k = cell_in(s, c);
    let id = replaying::hosting::narrow(c.fifth);
    memory::set_record(metadata, k, c.third, c.fourth, id);
    memory::block_sum(blocks, metadata, s, k)
}

// Sets a block's bytes; the checksum.
fn put_block(blocks: &mut [u8], metadata: &[u8], s: Segment, c: Command) -> u64 {
    let k = cell_in(s, c);
    memory::set_block(blocks, s, k, c.third);
    memory::block_sum(blocks, metadata, s, k)
}

// Sets a stripe's parity block; the checksum.
fn put_parity(blocks: &mut [u8], metadata: &mut [u8], s: Segment, c: Command) -> u64 {
    let group = memory::size(c.first);
    let id = replaying::hosting::narrow(c.second);
    let t = memory::stripe_of(s, group, id);
    memory::set_parity(blocks, metadata, s, t)
}

// What sets a block: its metadata, its bytes, or a stripe's parity block. It returns the checksum.
fn set(blocks: &mut [u8], metadata: &mut [u8], s: Segment, c: Command) -> u64 {
    match c.letter {
        b'y' => put_parity(blocks, metadata, s, c),
        b'm' => put_record(blocks, metadata, s, c),
        _ => put_block(blocks, metadata, s, c),
    }
}

// The numbers of a segment in a command.
fn segment_in(c: Command) -> Segment {
    Segment {
        drives: memory::size(c.first),
        block: memory::size(c.second),
        group: memory::size(c.third),
        blocks: memory::size(c.fourth),
    }
}

// The shortage that a command announces; a number of the work table has four bytes.
fn shortage_in(c: Command) -> Sizes {
    Sizes {
        blocks: memory::size(c.first),
        metadata: memory::size(c.second),
        work: memory::size(c.third) * 4,
        answer: memory::size(c.fourth),
    }
}

// The host after a command: a shortage is of one command alone.
fn next_host(h: Host, c: Command) -> Host {
    let mut t = h;
    t.shortage = Sizes::default();
    match c.letter {
        b'g' => {
            t.made = segment_in(c);
            t.handed = segment_in(c);
        }
        b'h' => t.handed = segment_in(c),
        b'n' => t.shortage = shortage_in(c),
        _ => {}
    }
    t
}

// Carries a command out.
fn perform(
    blocks: &mut [u8],
    metadata: &mut [u8],
    work: &mut [u8],
    answer: &mut [u8],
    h: Host,
    c: Command,
) -> Reply {
    match c.letter {
        b'r' => read(blocks, metadata, work, answer, h, c),
        b'm' | b'q' | b'y' => Reply {
            code: 0,
            sum: set(blocks, metadata, h.made, c),
        },
        b'g' => {
            blocks.fill(0);
            metadata.fill(0);
            Reply { code: 0, sum: 1 }
        }
        _ => Reply { code: 0, sum: 1 },
    }
}

// One command: carried out and answered.
fn step(
    rt: &impl Print,
    blocks: &mut [u8],
    metadata: &mut [u8],
    work: &mut [u8],
    answer: &mut [u8],
    h: Host,
    c: Command,
) -> io::Result<Host> {
    let r = perform(blocks, metadata, work, answer, h, c);
    show(rt, c.letter, r)?;
    Ok(next_host(h, c))
}

// A host before its first command.
fn first_host() -> Host {
    let none = Segment {
        drives: 0,
        block: 0,
        group: 0,
        blocks: 0,
    };
    Host {
        made: none,
        handed: none,
        shortage: Sizes::default(),
    }
}

// The script, line after line.
fn replay(
    rt: &impl Print,
    script: &[u8],
    blocks: &mut [u8],
    metadata: &mut [u8],
    work: &mut [u8],
    answer: &mut [u8],
) -> io::Result<()> {
    let mut h = first_host();
    let mut rest = script;
    // kept: where the next command begins is known only from this one, so there is no range to go over.
    while let Some((c, after)) = replaying::parsing::command_at(rest) {
        h = step(rt, blocks, metadata, work, answer, h, c)?;
        rest = after;
    }
    Ok(())
}

// All of standard input, replayed on the memory of the largest segment that is left in it.
fn main(rt: HostRuntime) -> io::Result<()> {
    let mut script = script_space();
    let mut input = rt.reader();
    let n = replaying::input::read_full(&mut input, &mut script)?;
    let mut blocks = block_space();
    let mut metadata = [0u8; 16384];
    let mut work = [0u8; 8192];
    let mut answer = [0u8; 4096];
    replay(
        &rt,
        &script[..n],
        &mut blocks,
        &mut metadata,
        &mut work,
        &mut answer,
    )
}
