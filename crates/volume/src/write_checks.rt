// Refusals 7 to 12, 18 and 19 of a write, and 15: what its first stripe needs. No store is made before the last of them has passed.
ghost use Rattle.std.specs.Prelude.{◌≡◌, ◌≤◌, ◌<◌, length};
ghost use Rattle.tables.specs.meaning.Geometry.{Valid, zone_sectors, cells};
ghost use Rattle.volume.specs.meaning.RefusalNumbers.{number_of};
ghost use Rattle.volume.specs.meaning.State.{pointer_in};
ghost use Rattle.volume.specs.meaning.Refusals.{gone_before};
ghost use Rattle.volume.specs.meaning.CallContracts.{is_set};
ghost use Rattle.volume.specs.looking.Knowing.{Readable, read_device};
ghost use Rattle.volume.specs.writing.WriteChecks.{run_number, zone_number};

use super::writing::Run;
use super::{Condition, Refusal, Zone};
use tables::Geometry;

// Refusals 9 to 12 of a write of `count` sectors from `offset` of a zone.
fn run_refusal(g: Geometry, c: Condition, offset: usize, count: usize) -> Result<(), Refusal>
    requires valid { Valid g }
    requires offset_bound { (offset < zone_sectors g) × (count < 4294967296) }
    ensures { number_of result ≡ run_number g c offset count }
{
    let most = tables::bounds::zone_sectors(g);
    if (count == 0) | (most < offset + count) {
        return Err(Refusal::Run);
    }
    let n = super::records::pointer_of(c);
    if offset != n {
        return Err(Refusal::Order);
    }
    let sealed = super::records::is_sealed(c);
    if sealed {
        return Err(Refusal::Sealed);
    }
    let worn = super::records::is_worn(c);
    if worn {
        return Err(Refusal::Worn);
    }
    Ok(())
}

// Refusal 15: whether the stripe's parity drive is here and one of the stripe's earlier sectors is not known.
pub fn gone_before(sectors: &[u8], written: &[u32], zone: Zone, n: usize) -> bool
    requires valid { Valid zone.geometry }
    requires readable { Readable zone.geometry zone.here sectors.now written.now zone.number × (n ≤ zone_sectors zone.geometry) }
    ensures { result ≡ gone_before zone.geometry (is_set zone.here) (read_device zone.geometry sectors.now written.now) zone.number zone.generation n }
{
    let here = zone.here;
    let k = tables::bounds::stripe_sectors(zone.geometry);
    let s = n / k;
    let p = tables::placement::parity_drive(zone.geometry.drives, zone.number, s);
    let present = here[p];
    if !present {
        return false;
    }
    let start = s * k;
    let held = super::knowing::all_held(
        written,
        zone.geometry,
        here,
        zone.number,
        start,
        n - start,
    );
    if held {
        return false;
    }
    let limit = super::knowing::seal_limit(
        sectors,
        written,
        zone.geometry,
        here,
        zone.number,
        zone.generation,
    );
    super::reading::some_gone(sectors, written, zone, limit, start, n - start)
}

// Refusals 7 to 12, 18 and 19 of a write to a zone that there is, in condition c.
pub fn zone_refusal(written: &[u32], run: Run, c: Condition) -> Result<(), Refusal>
    requires valid { Valid run.zone.geometry }
    requires number_lt_zones { (run.zone.number < run.zone.geometry.zones) × (length written.now ≡ cells run.zone.geometry) × (pointer_in c ≤ zone_sectors run.zone.geometry) }
    requires pointer_bound { (run.pointer < zone_sectors run.zone.geometry) × (run.count < 4294967296) }
    ensures { number_of result ≡ zone_number run c written.now }
{
    let g = run.zone.geometry;
    let here = run.zone.here;
    let stale = super::zone_checks::is_stale(written, g, here, c, run.zone.number);
    if stale {
        return Err(Refusal::Stale);
    }
    let allowance = run.allowance;
    let known = allowance.known;
    if !known {
        return Err(Refusal::Address);
    }
    run_refusal(g, c, run.pointer, run.count)?;
    allowance.limits
}
