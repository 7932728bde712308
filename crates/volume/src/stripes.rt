// Stripes that are written whole, with every drive present, room for all of it and a budget that covers its stores: unit after unit is copied to its place,
// and the row of parity grows by it in the same pass. What is laid so is what its stores lay, one after the other (specs: `stripe-made`); where one of
// them would not be made, the stripe is written sector by sector.
ghost use Rattle.std.specs.Prelude.{◌≡◌, true, List, ℕ, ◌+◌, ◌-◌, ◌*◌, ◌≤◌, ◌<◌, length, take, drop, get_or};
ghost use Rattle.tables.specs.meaning.Basics.{pick};
ghost use Rattle.tables.specs.meaning.Below.{all_below};
ghost use Rattle.tables.specs.meaning.Geometry.{Valid, physical_zones, cells, stripe_sectors, zone_sectors};
ghost use Rattle.tables.specs.meaning.Lists.{overlay};
ghost use Rattle.tables.specs.meaning.Phases.{on_present};
ghost use Rattle.tables.specs.meaning.Placement.{unit_drive};
ghost use Rattle.tables.specs.meaning.Tables.{cell};
ghost use Rattle.tables.specs.meaning.Xor.{xor_bytes};
ghost use Rattle.tables.specs.laws.Made.{MadeAppends};
ghost use Rattle.tables.specs.laws.Overlays.{PartsIn};
ghost use Rattle.tables.specs.laws.Within.{Apart};
ghost use Rattle.volume.specs.meaning.Calls.{data_stores};
ghost use Rattle.volume.specs.meaning.CallContracts.{is_set};
ghost use Rattle.volume.specs.stripes.UnitStores.{units_passed};
ghost use Rattle.volume.specs.stripes.WholeStripe.{stripe_unit_place};
ghost use Rattle.volume.specs.stripes.StripeDue.{Fitting, laid_of, room_for, stripe_due, stripe_at, StripeReady, NewFrom};

use super::rows::Extent;
use tables::units::Parts;
use tables::{Geometry, MAX_DRIVES, units};

// Such a stripe: the geometry that its stores go by, its physical zone, the drive of its parity, and where its bytes begin in the write's buffer.
#[derive(Clone, Copy)]
pub struct Stripe {
    pub geometry: Geometry,
    pub zone: usize,
    pub parity: usize,
    pub from: usize,
}

// Where unit j goes. The parity is unit D - 1.
fn place_of(written: &[u32], s: Stripe, j: usize) -> usize
    requires valid { Valid s.geometry }
    requires zone_bound { (s.zone < physical_zones s.geometry) × (s.parity < s.geometry.drives) × (j < s.geometry.drives) × (length written.now ≡ cells s.geometry)
        × (get_or written.now (cell s.geometry (unit_drive s.geometry.drives s.parity j) s.zone) 0 < s.geometry.capacity) }
    ensures { result ≡ stripe_unit_place s.geometry s.zone s.parity written.now j }
{
    let d = tables::placement::unit_drive(s.geometry.drives, s.parity, j);
    tables::stores::next_byte(written, s.geometry, d, s.zone)
}

// Lays a unit at `to`, and adds it to the row, or begins the row with it.
fn put_unit(sectors: &mut [u8], to: usize, row: usize, unit: &[u8], first: bool)
    requires { (to + length unit.now ≤ length sectors.old) × (row + length unit.now ≤ length sectors.old) × Apart to row (length unit.now) }
    ensures { sectors.new ≡ overlay (overlay sectors.old to unit.now) row (pick first unit.now (xor_bytes (take (length unit.now) (drop row sectors.old)) unit.now)) }
{
    if first {
        units::lay_unit(sectors, to, row, unit);
        return;
    }
    units::add_unit(sectors, to, row, unit);
}

// The same with three units.
fn put_three_units(sectors: &mut [u8], parts: Parts, a: &[u8], b: &[u8], c: &[u8], first: bool)
    requires { (length b.now ≡ length a.now) × (length c.now ≡ length a.now) × PartsIn (length sectors.old) (length a.now) parts }
    ensures { sectors.new ≡ overlay (overlay (overlay (overlay sectors.old parts.first a.now) parts.second b.now) parts.third c.now) parts.row
        (xor_bytes (xor_bytes (pick first a.now (xor_bytes (take (length a.now) (drop parts.row sectors.old)) a.now)) b.now) c.now) }
{
    if first {
        units::lay_three_units(sectors, parts, a, b, c);
        return;
    }
    units::add_three_units(sectors, parts, a, b, c);
}

// The next units from unit j on: three in one pass where there are so many, else one. Gives the unit after them. (Whatever the bytes xs were before the
// stripe: if the sectors hold its first j units, they now hold those below m.)
fn put_units(sectors: &mut [u8], written: &[u32], buffer: &[u8], s: Stripe, j: usize) -> usize
    requires valid { Valid s.geometry }
    requires fitting { Fitting s sectors.old written.now buffer.now × (j + 1 < s.geometry.drives) }
    ensures { (j < result) × (result < s.geometry.drives) × ((xs : List ℕ) → length xs ≡ length sectors.old → sectors.old ≡ laid_of s written.now buffer.now xs j → sectors.new ≡ laid_of s written.now buffer.now xs result) }
{
    let n = s.geometry.unit * s.geometry.sector;
    let last = s.geometry.drives - 1;
    let row = place_of(written, s, last);
    let to = place_of(written, s, j);
    let a = s.from + j * n;
    let b = a + n;
    if last < j + 3 {
        put_unit(sectors, to, row, &buffer[a..b], j == 0);
        return j + 1;
    }
    let second = place_of(written, s, j + 1);
    let third = place_of(written, s, j + 2);
    let c = b + n;
    let d = c + n;
    let parts = Parts {
        first: to,
        second,
        third,
        row,
    };
    put_three_units(
        sectors,
        parts,
        &buffer[a..b],
        &buffer[b..c],
        &buffer[c..d],
        j == 0,
    );
    j + 3
}

// All of its units, and the row.
fn lay_stripe(sectors: &mut [u8], written: &[u32], buffer: &[u8], s: Stripe)
    requires valid { Valid s.geometry }
    requires fitting { Fitting s sectors.old written.now buffer.now }
    ensures { sectors.new ≡ laid_of s written.now buffer.now sectors.old (s.geometry.drives - 1) }
{
    let last = s.geometry.drives - 1;
    let mut j = 0;
    // kept: the steps differ, since put_units takes one unit or three and says where it stopped; a `for` has one step.
    while j < last {
        j = put_units(sectors, written, buffer, s, j);
    }
}

// The written pointers past all of them.
fn pass_units(written: &mut [u32], s: Stripe)
    requires valid { Valid s.geometry }
    requires zone_bound { (s.zone < physical_zones s.geometry) × (s.parity < s.geometry.drives) × (length written.old ≡ cells s.geometry)
        × ((j : ℕ) → j < s.geometry.drives → get_or written.old (cell s.geometry (unit_drive s.geometry.drives s.parity j) s.zone) 0 + s.geometry.unit ≤ s.geometry.capacity) }
    ensures { written.new ≡ units_passed s.geometry s.zone (unit_drive s.geometry.drives s.parity) written.old s.geometry.drives }
{
    for j in 0..s.geometry.drives {
        let d = tables::placement::unit_drive(s.geometry.drives, s.parity, j);
        tables::stores::advance_by(written, s.geometry, d, s.zone, s.geometry.unit);
    }
}

// Whether every drive is present and has room for a unit in a zone.
fn room_for_units(written: &[u32], g: Geometry, here: [bool; MAX_DRIVES], zone: usize) -> bool
    requires valid { Valid g }
    requires zone_bound { (zone < physical_zones g) × (length written.now ≡ cells g) }
    ensures { result ≡ all_below (room_for g here written.now zone) g.drives }
{
    let most = g.capacity - g.unit;
    (0..g.drives).all(|d| here[d] & (super::zone_checks::written_at(written, g, d, zone) <= most))
}

// Whether a stripe begins at address a and is written whole.
pub fn stripe_due(written: &[u32], known: Extent, a: usize, budget: u64) -> bool
    requires valid { Valid known.to }
    requires zone_lt_zones { (known.zone < known.to.zones) × (known.end ≤ zone_sectors known.to) × (a < known.end) × (length written.now ≡ cells known.to) }
    ensures { result ≡ stripe_due known written.now a budget }
{
    let end = known.end;
    let k = tables::bounds::stripe_sectors(known.to);
    if end < a + k {
        return false;
    }
    let stores = known.to.drives * known.to.unit;
    let begins = a % k == 0;
    let alone = begins & ((stores as u64) < budget);
    if !alone {
        return false;
    }
    let here = known.here;
    room_for_units(written, known.to, here, tables::DATA_ZONES + known.zone)
}

// The stripe that begins at address a.
fn stripe_at(known: Extent, a: usize) -> Stripe
    requires valid { Valid known.to }
    requires zone_lt_zones { (known.zone < known.to.zones) × (a ≤ zone_sectors known.to) × (known.below ≤ a) }
    ensures { result ≡ stripe_at known a }
{
    let below = known.below;
    let k = tables::bounds::stripe_sectors(known.to);
    let parity = tables::placement::parity_drive(known.to.drives, known.zone, a / k);
    let geometry = known.to;
    Stripe {
        geometry,
        zone: tables::DATA_ZONES + known.zone,
        parity,
        from: (a - below) * known.to.sector,
    }
}

// It is written: what is left of the budget. (Whatever the content S is below the write: from there on it is the buffer.)
pub fn write_stripe(
    sectors: &mut [u8],
    written: &mut [u32],
    buffer: &[u8],
    known: Extent,
    a: usize,
    budget: u64,
) -> u64
    requires valid { Valid known.to }
    requires stripe_ready { StripeReady known sectors.old written.old buffer.now a × (stripe_due known written.old a budget ≡ true) }
    ensures { (S : ℕ → List ℕ) → NewFrom known buffer.now S
        → MadeAppends known.to budget result (on_present (is_set known.here) (data_stores known.to.drives known.to.unit known.zone S a (stripe_sectors known.to))) sectors.old written.old sectors.new written.new }
{
    let s = stripe_at(known, a);
    lay_stripe(sectors, written, buffer, s);
    pass_units(written, s);
    let stores = known.to.drives * known.to.unit;
    budget - stores as u64
}
