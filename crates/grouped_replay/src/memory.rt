// The segment in memory: its blocks and their metadata, found, set and added up by their numbers.
ghost use Rattle.std.specs.Prelude.{◌≡◌, ◌+◌, ◌≤◌, length};

use grouped::Segment;

// A part of lent bytes.
#[derive(Clone, Copy)]
pub struct Span {
    pub from: usize,
    pub to: usize,
}

// A stripe: its group, its ID and the drive of its parity block.
#[derive(Clone, Copy)]
pub struct Stripe {
    pub group: usize,
    pub id: u32,
    pub parity: usize,
}

// More than any block's number.
pub const NONE: usize = 1048576;

// A number of the script as a size.
pub fn size(x: u64) -> usize
    ensures { result ≤ 4294967295 }
{
    replaying::hosting::narrow(x) as usize
}

// The bytes of so many blocks or records.
pub fn product(count: usize, width: usize) -> usize
    requires { (count ≤ 1048576) × (width ≤ 4096) }
    ensures { result ≤ 4294967296 }
{
    count * width
}

// The bytes of a block.
pub fn width_of(s: Segment) -> usize
    ensures { result ≤ 4096 }
{
    s.block.min(4096)
}

// Block i of drive d, counted over all drives.
pub fn cell(s: Segment, d: usize, i: usize) -> usize
    ensures { result ≤ 1048576 }
{
    let first = product(s.blocks.min(65536), d.min(8));
    (first + i.min(65536)).min(NONE)
}

// The part of a cell in bytes of which each cell has so many; an empty one if it does not lie in them.
pub fn part(bytes: usize, c: usize, width: usize) -> Span
    requires { (c ≤ 1048576) × (width ≤ 4096) }
    ensures { (result.from ≤ result.to) × (result.to ≤ bytes) × (result.to ≤ result.from + width) }
{
    let from = product(c, width);
    let to = from + width;
    if bytes < to {
        return Span { from: 0, to: 0 };
    }
    Span { from, to }
}

// Adds the first bytes of a cell's part by exclusive or, as many as the sum has.
pub fn add_part(sum: &mut [u8], bytes: &[u8], c: usize, width: usize)
    requires { (c ≤ 1048576) × (width ≤ 4096) }
{
    let n = sum.len();
    let p = part(bytes.len(), c, width);
    if p.to - p.from < n {
        return;
    }
    tables::sectors::xor_into(sum, &bytes[p.from..p.from + n]);
}

// Lays bytes over the first of a cell's part.
pub fn put_part(bytes: &mut [u8], c: usize, width: usize, src: &[u8])
    requires { (c ≤ 1048576) × (width ≤ 4096) }
{
    let n = src.len();
    let p = part(bytes.len(), c, width);
    if p.to - p.from < n {
        return;
    }
    bytes[p.from..p.from + n].copy_from_slice(src);
}

// Lays two lists of bytes one after the other.
pub fn join(both: &mut [u8], first: &[u8], second: &[u8])
    requires { length first.now + length second.now ≤ length both.old }
{
    let n = first.len();
    both[..n].copy_from_slice(first);
    both[n..n + second.len()].copy_from_slice(second);
}

// The checksum of two lists of bytes, one after the other.
pub fn joined_sum(first: &[u8], second: &[u8]) -> u64
    requires { (length first.now ≤ 4096) × (length second.now ≤ 20) }
{
    let end = first.len() + second.len();
    let mut both = [0u8; 4116];
    join(&mut both, first, second);
    replaying::checksum::adler_of(&both[..end])
}

// The checksum of a block and its metadata.
pub fn block_sum(blocks: &[u8], metadata: &[u8], s: Segment, c: usize) -> u64
    requires { c ≤ 1048576 }
{
    let b = width_of(s);
    let p = part(blocks.len(), c, b);
    let q = part(metadata.len(), c, 20);
    joined_sum(&blocks[p.from..p.to], &metadata[q.from..q.to])
}

// A block's metadata.
pub fn set_record(metadata: &mut [u8], c: usize, address: u64, timestamp: u64, id: u32)
    requires { c ≤ 1048576 }
{
    let q = part(metadata.len(), c, 20);
    if q.to - q.from < 20 {
        return;
    }
    tables::bytes::write_u64(metadata, q.from, address);
    tables::bytes::write_u64(metadata, q.from + 8, timestamp);
    tables::bytes::write_u32(metadata, q.from + 16, id);
}

// A block's bytes: those of a seed's stream.
pub fn set_block(blocks: &mut [u8], s: Segment, c: usize, seed: u64)
    requires { c ≤ 1048576 }
{
    let b = width_of(s);
    let p = part(blocks.len(), c, b);
    replaying::stream::fill(&mut blocks[p.from..p.to], seed);
}

// Whether a block's metadata have an ID.
pub fn has_id(metadata: &[u8], c: usize, id: u32) -> bool
    requires { c ≤ 1048576 }
{
    let q = part(metadata.len(), c, 20);
    20 <= q.to - q.from && tables::bytes::read_u32(metadata, q.from + 16) == id
}

// The first block with an ID in a group of a drive.
pub fn find(metadata: &[u8], s: Segment, d: usize, group: usize, id: u32) -> usize
    ensures { result ≤ 1048576 }
{
    let g = s.group.min(256);
    let first = cell(s, d, product(group.min(65536), g));
    for i in 0..g {
        let k = (first + i).min(NONE);
        if has_id(metadata, k, id) {
            return k;
        }
    }
    NONE
}

// Adds a drive's block of a stripe and its address and timestamp, unless it is the parity block. It says whether the drive has a block of the stripe.
pub fn add_drive(
    blocks: &[u8],
    metadata: &[u8],
    s: Segment,
    t: Stripe,
    d: usize,
    block: &mut [u8],
    record: &mut [u8],
) -> bool {
    let b = width_of(s);
    let k = find(metadata, s, d, t.group, t.id);
    if k == NONE {
        return false;
    }
    if d != t.parity {
        add_part(block, blocks, k, b);
        add_part(record, metadata, k, 20);
    }
    true
}

// The same for all drives.
pub fn add_drives(
    blocks: &[u8],
    metadata: &[u8],
    s: Segment,
    t: Stripe,
    block: &mut [u8],
    record: &mut [u8],
) -> bool {
    let mut whole = true;
    for d in 0..s.drives {
        whole &= add_drive(blocks, metadata, s, t, d, block, record);
    }
    whole
}

// The stripe with an ID in a group.
pub fn stripe_of(s: Segment, group: usize, id: u32) -> Stripe {
    let k = product(group.min(65536), s.group.min(256)) + id as usize;
    Stripe {
        group,
        id,
        parity: k.checked_rem(s.drives).unwrap_or(0),
    }
}

// A stripe's parity block, made from its blocks on the other drives in two buffers of zeros, and the checksum; 1 if a drive has none.
pub fn make_parity(
    blocks: &mut [u8],
    metadata: &mut [u8],
    s: Segment,
    t: Stripe,
    block: &mut [u8],
    record: &mut [u8],
) -> u64 {
    let b = width_of(s);
    let whole = add_drives(blocks, metadata, s, t, block, record);
    if !whole {
        return 1;
    }
    let to = find(metadata, s, t.parity, t.group, t.id);
    put_part(blocks, to, b, block);
    put_part(metadata, to, 20, record);
    block_sum(blocks, metadata, s, to)
}

// The same, with the buffers.
pub fn set_parity(blocks: &mut [u8], metadata: &mut [u8], s: Segment, t: Stripe) -> u64 {
    let b = width_of(s);
    let mut block = [0u8; 4096];
    let mut record = [0u8; 16];
    make_parity(blocks, metadata, s, t, &mut block[..b], &mut record)
}
