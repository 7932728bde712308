// Refusals 1, 2 and 4: the numbers of a segment, the lengths of what is lent, the drives named.
ghost use Rattle.std.specs.Prelude.{◌≡◌, ◌≤◌};
ghost use Rattle.tables.specs.meaning.Below.{count_below};
ghost use Rattle.tables.specs.meaning.GeometryTest.{all};
ghost use Rattle.grouped.specs.meaning.Segment.{segment_bounds, is_segment, total_blocks, ranges_fit, is_missing, two_missing, missing_drive};
ghost use Rattle.grouped.specs.laws.Segment.{Valid};

use super::Segment;

fn in_ranges(s: Segment) -> bool
    ensures { result ≡ all (segment_bounds s) }
{
    (3 <= s.drives)
        & ((s.drives <= 8)
            & (tables::bounds::size_ok(s.block)
                & ((1 <= s.group) & ((s.group <= 256) & (s.blocks <= 65536)))))
}

// Whether every bound holds and the segment is whole groups.
pub fn valid(s: Segment) -> bool
    ensures { result ≡ is_segment s }
{
    let ok = in_ranges(s);
    if !ok {
        return false;
    }
    let g = s.group;
    let n = s.blocks;
    n % g == 0
}

// The blocks of all drives.
pub fn total_blocks(s: Segment) -> usize
    requires { Valid s }
    ensures { (result ≡ total_blocks s) × (result ≤ 524288) }
{
    let d = s.drives;
    let n = s.blocks;
    d * n
}

// Refusal 2: whether everything lent has its length, in bytes.
pub fn lengths_fit(s: Segment, blocks: usize, metadata: usize, work: usize, answer: usize) -> bool
    requires { Valid s }
    ensures { result ≡ ranges_fit s blocks metadata work answer }
{
    let cells = total_blocks(s);
    let b = s.block;
    (blocks == cells * b) & ((metadata == cells * 20) & ((work == cells * 8) & (answer == b)))
}

// How many drives are not named.
fn count_missing(s: Segment, named: [bool; 8]) -> usize
    requires { Valid s }
    ensures { result ≡ count_below (is_missing named) s.drives }
{
    let mut k = 0;
    for d in 0..s.drives {
        if !named[d] {
            k += 1;
        }
    }
    k
}

// Refusal 4: whether more than one drive is not named.
pub fn two_missing(s: Segment, named: [bool; 8]) -> bool
    requires { Valid s }
    ensures { result ≡ two_missing s named }
{
    let k = count_missing(s, named);
    1 < k
}

// The drive that is not named; 255 if every drive is.
#[tactic(auto, unfolding(crate::specs::meaning::Segment::missing_drive))]
pub fn missing_drive(s: Segment, named: [bool; 8]) -> usize
    requires { Valid s }
    ensures { (result ≡ missing_drive s named) × (result ≤ 255) }
{
    let mut x = 255;
    for d in 0..s.drives {
        if !named[d] {
            x = d;
        }
    }
    x
}
