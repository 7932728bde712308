// Where the sectors of a logical zone lie, and what a pointer needs of each drive (document 01, "Placement").
ghost use Rattle.std.specs.Prelude.{◌≡◌, ◌≢◌, ◌+◌, ◌*◌, ◌-◌, ◌/◌, ◌≤◌, ◌<◌};
ghost use Rattle.tables.specs.meaning.Placement.{parity_drive, unit_drive, unit_of, drive_of, sector_of, address_at, needed};
ghost use Rattle.tables.specs.meaning.Geometry.{Valid, zone_sectors, first_drive_of};
ghost use Rattle.tables.specs.laws.StripeAt.{stripe_at, needed_of};

use super::Geometry;

// The drive that holds the parity of a stripe.
pub fn parity_drive(d: usize, zone: usize, stripe: usize) -> usize
    requires { (1 ≤ d) × (d ≤ 8) × (zone ≤ 16) × (stripe ≤ 65536) }
    ensures { (result ≡ parity_drive d zone stripe) × (result < d) }
{
    (zone + stripe + d - 1) % d
}

// The drive that holds unit j of a stripe whose parity drive is p.
pub fn unit_drive(d: usize, p: usize, j: usize) -> usize
    requires { (1 ≤ d) × (d ≤ 8) × (p < d) × (j < d) }
    ensures { (result ≡ unit_drive d p j) × (result < d) }
{
    let n = p + 1 + j;
    if n < d { n } else { n - d }
}

// The unit that a drive holds of a stripe whose parity drive is p.
pub fn unit_of(d: usize, p: usize, drive: usize) -> usize
    requires { (1 ≤ d) × (d ≤ 8) × (p < d) × (drive < d) }
    ensures { (result ≡ unit_of d p drive) × (result < d) }
{
    if p < drive {
        drive - (p + 1)
    } else {
        drive + d - (p + 1)
    }
}

// The drive of the first unit of a zone's stripe 0.
pub fn first_drive(g: Geometry, zone: usize) -> usize
    requires valid { Valid g }
    requires zone_lt_zones { zone < g.zones }
    ensures { (result ≡ first_drive_of g zone) × (result < g.drives) }
{
    let d = g.drives;
    let p = parity_drive(d, zone, 0);
    unit_drive(d, p, 0)
}

// The drive of the sector at an address of a zone.
pub fn drive_of(g: Geometry, zone: usize, a: usize) -> usize
    requires valid { Valid g }
    requires zone_lt_zones { (zone < g.zones) × (a ≤ zone_sectors g) }
    ensures { (result ≡ drive_of g.drives g.unit zone a) × (result < g.drives) }
{
    let d = g.drives;
    let u = g.unit;
    let k = (d - 1) * u;
    let p = parity_drive(d, zone, a / k);
    unit_drive(d, p, a % k / u)
}

// The sector there, counted from the physical zone's first.
pub fn sector_of(g: Geometry, a: usize) -> usize
    requires valid { Valid g }
    requires a_bound { a ≤ zone_sectors g }
    ensures { result ≡ sector_of g.drives g.unit a }
{
    let d = g.drives;
    let u = g.unit;
    let k = (d - 1) * u;
    a / k * u + a % k % u
}

// The address at a sector of a drive that is not the parity drive there.
pub fn address_at(g: Geometry, zone: usize, drive: usize, x: usize) -> usize
    requires valid { Valid g }
    requires zone_lt_zones { (zone < g.zones) × (drive < g.drives) × (x < g.capacity) × (drive ≢ parity_drive g.drives zone (x / g.unit)) }
    ensures { (result ≡ address_at g.drives g.unit zone drive x) × (result < zone_sectors g) }
{
    let d = g.drives;
    let u = g.unit;
    let s = x / u;
    let p = parity_drive(d, zone, s);
    let j = unit_of(d, p, drive);
    s * ((d - 1) * u) + (j * u + x % u)
}

// A pointer's stripe, the sectors of it below the pointer, and its parity drive.
#[derive(Clone, Copy)]
pub struct StripeAt {
    pub stripe: usize,
    pub fill: usize,
    pub parity: usize,
}

// Where a zone's pointer n lies.
pub fn stripe_at(g: Geometry, zone: usize, n: usize) -> StripeAt
    requires valid { Valid g }
    requires zone_lt_zones { (zone < g.zones) × (n ≤ zone_sectors g) }
    ensures { result ≡ stripe_at g.drives g.unit zone n }
{
    let d = g.drives;
    let u = g.unit;
    let k = (d - 1) * u;
    let stripe = n / k;
    let fill = n % k;
    let parity = parity_drive(d, zone, stripe);
    StripeAt {
        stripe,
        fill,
        parity,
    }
}

// The sectors that a pointer needs of a drive.
pub fn needed_of(g: Geometry, at: StripeAt, drive: usize) -> usize
    requires valid { Valid g }
    requires stripe_bound { (at.stripe ≤ 65536) × (at.parity < g.drives) × (drive < g.drives) }
    ensures { result ≡ needed_of g.drives g.unit at drive }
{
    if drive == at.parity {
        return at.stripe * g.unit;
    }
    let j = unit_of(g.drives, at.parity, drive);
    at.stripe * g.unit + at.fill.saturating_sub(j * g.unit).min(g.unit)
}

// The same of a zone's pointer n.
pub fn sectors_needed(g: Geometry, zone: usize, n: usize, drive: usize) -> usize
    requires valid { Valid g }
    requires zone_lt_zones { (zone < g.zones) × (n ≤ zone_sectors g) × (drive < g.drives) }
    ensures { (result ≡ needed g.drives g.unit zone n drive) × (result ≤ g.capacity) }
{
    let at = stripe_at(g, zone, n);
    needed_of(g, at, drive)
}
