// The read of a segment with grouped stripes for C (crate grouped). It keeps nothing between calls and stores nothing but its answer; the work table's bytes
// are scratch.
ghost use Rattle.std.specs.Prelude.{◌≡◌, length};
ghost use Rattle.zrv.specs.meaning.EdgeCalls.{answered};
ghost use Rattle.zrv.specs.meaning.GroupedEdge.{segment_of, grouped_edge};

use grouped::Segment;

// The segment of the call's first four numbers.
fn segment(drives: u32, block_bytes: u32, group: u32, blocks_per_drive: u32) -> Segment
    ensures { result ≡ segment_of drives block_bytes group blocks_per_drive }
{
    Segment {
        drives: drives as usize,
        block: block_bytes as usize,
        group: group as usize,
        blocks: blocks_per_drive as usize,
    }
}

// Read of the block with an address, into the answer buffer.
#[unsafe(no_mangle)]
pub extern "C" fn zrv_grouped_read(
    drives: u32,
    block_bytes: u32,
    group: u32,
    blocks_per_drive: u32,
    named: u32,
    address: u64,
    blocks: &[u8],
    metadata: &[u8],
    work: &mut [u8],
    answer: &mut [u8],
) -> u64
    ensures { answered result answer.new
        ≡ grouped_edge (segment_of drives block_bytes group blocks_per_drive) named address blocks.now metadata.now (length work.old) answer.old }
{
    let s = segment(drives, block_bytes, group, blocks_per_drive);
    let here = super::input::named_drives(named);
    match grouped::reading::read_grouped(blocks, metadata, work, s, here, address, answer) {
        Ok(()) => 0,
        Err(refusal) => refusal.number() as u64,
    }
}
