// The call: one block by its address.
ghost use Rattle.std.specs.Prelude.{◌≡◌, ◌*◌, ◌≤◌, ◌<◌, length};
ghost use Rattle.grouped.specs.meaning.Segment.{total_blocks};
ghost use Rattle.grouped.specs.meaning.Reading.{later_of, newest, numbers_refused, metadata_number, request, grouped_number, grouped_left};
ghost use Rattle.grouped.specs.laws.Segment.{Valid, Sized};
ghost use Rattle.grouped.specs.places.Placed.{Placed, Found};
ghost use Rattle.grouped.specs.meaning.RefusalNumbers.{number_of};
ghost use Rattle.grouped.specs.reading.Blocks.{add_block, rebuilt_block, block_noted_at, MetadataRead};

use super::{Refusal, Segment};

// Of what was found so far and the block of drive c / N in stripe c % N the later one with the address, as one more than its number; 0 if neither has it.
fn later(
    metadata: &[u8],
    work: &[u8],
    s: Segment,
    missing: usize,
    address: u64,
    c: usize,
    found: usize,
) -> usize
    requires placed { Placed s metadata.now missing work.now }
    requires c_bound { (c < total_blocks s) × (found ≤ c) }
    ensures { result ≡ later_of s metadata.now missing address found c }
{
    let data = super::keys::is_data(s, c);
    if !data {
        return found;
    }
    let k = super::keys::block_of(work, s, missing, c);
    let key = super::keys::key_of(metadata, work, s, missing, k);
    if (key.address == super::keys::FILLER) | (key.address != address) {
        return found;
    }
    if found == 0 {
        return c + 1;
    }
    let b = super::keys::block_of(work, s, missing, found - 1);
    let old = super::keys::key_of(metadata, work, s, missing, b);
    if old.timestamp < key.timestamp {
        c + 1
    } else {
        found
    }
}

// The data block with the address and the greatest timestamp, as one more than its number; 0 if there is none.
#[tactic(auto, unfolding(crate::specs::meaning::Reading::newest))]
fn newest(metadata: &[u8], work: &[u8], s: Segment, missing: usize, address: u64) -> usize
    requires { Placed s metadata.now missing work.now }
    ensures { (result ≡ newest s metadata.now missing address) × (result ≤ total_blocks s) }
{
    let mut found = 0;
    for c in 0..super::checks::total_blocks(s) {
        found = later(metadata, work, s, missing, address, c, found);
    }
    found
}

// Adds drive d's block of stripe n by exclusive or, unless it is the missing drive.
fn add_block(
    blocks: &[u8],
    work: &[u8],
    s: Segment,
    missing: usize,
    n: usize,
    d: usize,
    answer: &mut [u8],
)
    requires valid { Valid s × Found s missing work.now }
    requires n_lt_blocks { (n < s.blocks) × (d < s.drives) × (length blocks.now ≡ total_blocks s * s.block) × (length answer.old ≡ s.block) }
    ensures { answer.new ≡ add_block s blocks.now missing work.now n d answer.old }
{
    if d == missing {
        return;
    }
    let b = s.block;
    let k = super::keys::place_of(work, s, d, n);
    let from = k * b;
    let end = from + b;
    tables::sectors::xor_into(answer, &blocks[from..end]);
}

// What the missing drive held of stripe n.
fn rebuild(blocks: &[u8], work: &[u8], s: Segment, missing: usize, n: usize, answer: &mut [u8])
    requires valid { Valid s × Found s missing work.now }
    requires n_lt_blocks { (n < s.blocks) × (length blocks.now ≡ total_blocks s * s.block) × (length answer.old ≡ s.block) }
    ensures { answer.new ≡ rebuilt_block s blocks.now missing work.now n }
{
    tables::sectors::clear(answer);
    for d in 0..s.drives {
        add_block(blocks, work, s, missing, n, d, answer);
    }
}

// The block of drive c / N in stripe c % N.
fn read_block(blocks: &[u8], work: &[u8], s: Segment, missing: usize, c: usize, answer: &mut [u8])
    requires valid { Valid s × Found s missing work.now }
    requires c_bound { (c < total_blocks s) × (length blocks.now ≡ total_blocks s * s.block) × (length answer.old ≡ s.block) }
    ensures { answer.new ≡ block_noted_at s blocks.now missing work.now c }
{
    let n = s.blocks;
    let d = c / n;
    let stripe = c % n;
    if d == missing {
        rebuild(blocks, work, s, missing, stripe, answer);
        return;
    }
    let b = s.block;
    let k = super::keys::place_of(work, s, d, stripe);
    let from = k * b;
    let end = from + b;
    tables::sectors::copy_in(answer, 0, &blocks[from..end]);
}

// What the metadata refuse, 23 or 24.
fn metadata_refusal(
    metadata: &[u8],
    work: &mut [u8],
    s: Segment,
    missing: usize,
) -> Result<(), Refusal>
    requires sized { Sized s metadata.now work.old }
    requires missing_bound { missing ≤ 255 }
    ensures { MetadataRead s metadata.now missing work.new (number_of result) }
{
    if super::places::place_all(metadata, work, s, missing) {
        return Err(Refusal::StripeLacks);
    }
    if super::heap::some_alike(metadata, work, s, missing) {
        return Err(Refusal::Alike);
    }
    Ok(())
}

// What the numbers, the lengths and the drives named refuse, 1, 2 or 4.
fn input_refusal(
    s: Segment,
    named: [bool; 8],
    blocks: usize,
    metadata: usize,
    work: usize,
    answer: usize,
) -> Result<(), Refusal>
    ensures { number_of result ≡ numbers_refused s named blocks metadata work answer }
{
    if !super::checks::valid(s) {
        return Err(Refusal::Segment);
    }
    if !super::checks::lengths_fit(s, blocks, metadata, work, answer) {
        return Err(Refusal::Length);
    }
    if super::checks::two_missing(s, named) {
        return Err(Refusal::TwoMissing);
    }
    Ok(())
}

// Reads the block of an address into the answer buffer. Refused, the answer buffer is as it was. What the work
// table holds afterwards is left open.
pub fn read_grouped(
    blocks: &[u8],
    metadata: &[u8],
    work: &mut [u8],
    s: Segment,
    named: [bool; 8],
    address: u64,
    answer: &mut [u8],
) -> Result<(), Refusal>
    ensures { (number_of result ≡ grouped_number (request s named blocks.now metadata.now (length work.old) address) answer.old)
        × (answer.new ≡ grouped_left (request s named blocks.now metadata.now (length work.old) address) answer.old) }
{
    input_refusal(
        s,
        named,
        blocks.len(),
        metadata.len(),
        work.len(),
        answer.len(),
    )?;
    let missing = super::checks::missing_drive(s, named);
    metadata_refusal(metadata, work, s, missing)?;
    let found = newest(metadata, work, s, missing, address);
    if found == 0 {
        return Err(Refusal::Unwritten);
    }
    read_block(blocks, work, s, missing, found - 1, answer);
    Ok(())
}
