// Where each stripe's blocks lie, in the work table's first half: for drive d and stripe n its number d * N + n is one more than the block's offset on the
// drive. Refusal 23.
ghost use Rattle.std.specs.Prelude.{◌≡◌, ◌&&◌, not, ℕ, ◌+◌, ◌*◌, ◌≤◌, ◌<◌, length, eqb};
ghost use Rattle.tables.specs.meaning.Below.{any_below};
ghost use Rattle.grouped.specs.meaning.Segment.{total_blocks};
ghost use Rattle.grouped.specs.meaning.Stripes.{wrong_drive, wrong_i_ds};
ghost use Rattle.grouped.specs.laws.Segment.{Valid, Sized};
ghost use Rattle.grouped.specs.laws.Words.{word};
ghost use Rattle.grouped.specs.places.Places.{note_place, placed_drive, Noted};

use super::Segment;

// A number of the work table.
pub fn get(work: &[u8], i: usize) -> usize
    requires { i * 4 + 4 ≤ length work.now }
    ensures { (result ≡ word work.now i) × (result < 4294967296) }
{
    let w = tables::bytes::read_u32(work, i * 4);
    tables::bounds::widen(w)
}

// Block i of drive d, counted over all drives.
pub fn cell_of(s: Segment, d: usize, i: usize) -> usize
    requires valid { Valid s }
    requires d_lt_drives { (d < s.drives) × (i < s.blocks) }
    ensures { (result ≡ d * s.blocks + i) × (result < total_blocks s) × (result < 524288) }
{
    let n = s.blocks;
    d * n + i
}

// Notes block i of drive d as its stripe's, unless its stripe ID is none.
fn note_place(metadata: &[u8], work: &mut [u8], s: Segment, d: usize, i: usize)
    requires sized { Sized s metadata.now work.old }
    requires d_lt_drives { (d < s.drives) × (i < s.blocks) }
    ensures { work.new ≡ note_place s metadata.now d i work.old }
{
    let g = s.group;
    let from = cell_of(s, d, i);
    let id = tables::bytes::read_u32(metadata, from * 20 + 16);
    let k = tables::bounds::widen(id);
    if g <= k {
        return;
    }
    let to = cell_of(s, d, i / g * g + k);
    tables::bytes::write_u32(work, to * 4, (i + 1) as u32);
}

// Notes every block of a drive.
fn place_drive(metadata: &[u8], work: &mut [u8], s: Segment, d: usize)
    requires sized { Sized s metadata.now work.old }
    requires d_lt_drives { d < s.drives }
    ensures { work.new ≡ placed_drive s metadata.now d s.blocks work.old }
{
    for i in 0..s.blocks {
        note_place(metadata, work, s, d, i);
    }
}

// Whether some stripe has no block on a drive.
fn drive_lacks(work: &[u8], s: Segment, d: usize) -> bool
    requires valid { Valid s }
    requires d_lt_drives { (d < s.drives) × (length work.now ≡ total_blocks s * 8) }
    ensures { result ≡ any_below (λ (n : ℕ). eqb (word work.now (d * s.blocks + n)) 0) s.blocks }
{
    let mut lacks = false;
    for i in 0..s.blocks {
        lacks = lacks | (get(work, cell_of(s, d, i)) == 0);
    }
    lacks
}

// Notes every block of a drive that is not missing; whether it lacks one.
fn place_present(metadata: &[u8], work: &mut [u8], s: Segment, missing: usize, d: usize) -> bool
    requires sized { Sized s metadata.now work.old }
    requires d_lt_drives { (d < s.drives) × Noted s metadata.now missing d work.old }
    ensures { (result ≡ (not (eqb d missing) && wrong_drive s metadata.now d)) × Noted s metadata.now missing (d + 1) work.new }
{
    if d == missing {
        return false;
    }
    place_drive(metadata, work, s, d);
    drive_lacks(work, s, d)
}

// Refusal 23: notes where all blocks lie; whether some present drive lacks a stripe ID in some group. Where one is lacking another is there twice, and the
// other way round.
#[tactic(auto, unfolding(crate::specs::meaning::Stripes::wrong_i_ds))]
pub fn place_all(metadata: &[u8], work: &mut [u8], s: Segment, missing: usize) -> bool
    requires { Sized s metadata.now work.old }
    ensures { (result ≡ wrong_i_ds s metadata.now missing) × Noted s metadata.now missing s.drives work.new }
{
    tables::sectors::clear(work);
    let mut lacks = false;
    for d in 0..s.drives {
        lacks = lacks | place_present(metadata, work, s, missing, d);
    }
    lacks
}
