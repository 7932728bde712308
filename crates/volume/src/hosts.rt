// Two hosts use the drives (document 02, 2.6). What the state says of the host of a write: whether there is such a host, refusals 18 and 19, and what is left of
// its share of the parity log that gets the write's entry.
ghost use Rattle.std.specs.Prelude.{◌≡◌, ◌-◌, ◌≤◌, ◌<◌};
ghost use Rattle.tables.specs.meaning.Basics.{pick};
ghost use Rattle.tables.specs.meaning.Geometry.{Valid};
ghost use Rattle.volume.specs.meaning.State.{owner_of, is_owner, share_at};
ghost use Rattle.volume.specs.meaning.Hosts.{limit_of};
ghost use Rattle.volume.specs.meaning.CallContracts.{view_state};
ghost use Rattle.volume.specs.laws.StateHeld.{shares_less};
ghost use Rattle.volume.specs.writing.Allowances.{counts_within, counts_at, adds_at, open_zones_of, limits_at, host_limits, allowance_of};

use super::{Condition, HOSTS, MAX_SHARES, Owner, Refusal, State, ZoneRecord};
use tables::Geometry;

// So many zones the hosts may hold open together; so many host 0, and so many host 1.
pub const MOST_OPEN: usize = 14;

pub const MOST_OF_HOST_0: usize = 14;

pub const MOST_OF_HOST_1: usize = 4;

// What a write's host may do: whether there is such a host; refusal 18 or 19; and what is left of its share of the drive that gets
// the entry. A write that would leave its zone, or has no host, is refused before these are asked: then neither applies, and the share is 0.
#[derive(Clone, Copy)]
pub struct Allowance {
    pub known: bool,
    pub limits: Result<(), Refusal>,
    pub share: usize,
}

// How many zones count to a host, and how many in all.
#[derive(Clone, Copy)]
pub struct OpenZones {
    pub own: usize,
    pub all: usize,
}

// A host that there is, as a zone's owner.
pub fn owner_of(host: usize) -> Owner
    ensures { result ≡ owner_of host }
{
    if host == 0 {
        Owner::Host0
    } else {
        Owner::Host1
    }
}

pub fn is_owner(host: usize, owner: Owner) -> bool
    ensures { result ≡ is_owner host owner }
{
    matches!((host, owner), (0, Owner::Host0) | (1, Owner::Host1))
}

// Whether a zone in this condition counts: it is open with its pointer below its end, at `most` sectors.
pub fn counts(c: Condition, most: usize) -> bool
    ensures { result ≡ counts_within most c }
{
    matches!(c, Condition::Open(n) if n < most)
}

// Whether a zone with this record counts to a host.
pub fn counts_to(r: ZoneRecord, most: usize, host: usize) -> bool
    ensures { result ≡ counts_at most host r }
{
    counts(r.condition, most) && is_owner(host, r.owner)
}

// Whether a write that ends at a pointer of a zone with this record gives its host one zone more. If not, refusals 18 and 19 do not apply.
pub fn adds_zone(r: ZoneRecord, most: usize, host: usize, end: usize) -> bool
    ensures { result ≡ adds_at most host end r }
{
    end < most && !counts_to(r, most, host)
}

// The zones that count.
fn open_zones(g: Geometry, state: State, host: usize) -> OpenZones
    requires { Valid g }
    ensures { result ≡ open_zones_of g (view_state state) host }
{
    let most = tables::bounds::zone_sectors(g);
    let mut own = 0;
    let mut all = 0;
    for z in 0..g.zones {
        let zone = state.zones[z];
        if counts_to(zone, most, host) {
            own += 1;
        }
        if counts(zone.condition, most) {
            all += 1;
        }
    }
    OpenZones { own, all }
}

// How many zones a host may hold open.
fn limit_of(host: usize) -> usize
    ensures { result ≡ limit_of host }
{
    if host == 0 {
        MOST_OF_HOST_0
    } else {
        MOST_OF_HOST_1
    }
}

// Refusals 18 and 19 of a write that gives its host one zone more, by those that count. `counted`: whether its zone counts already.
pub fn limit_refusal(host: usize, zones: OpenZones, counted: bool) -> Result<(), Refusal>
    ensures { result ≡ limits_at host zones counted }
{
    let limit = limit_of(host);
    let own = zones.own;
    let all = zones.all;
    if limit <= own {
        return Err(Refusal::HostLimit);
    }
    if !counted & (MOST_OPEN <= all) {
        return Err(Refusal::OpenLimit);
    }
    Ok(())
}

// Refusals 18 and 19 of a write by a host that ends at a pointer of zone z.
fn host_refusal(g: Geometry, state: State, host: usize, z: usize, end: usize) -> Result<(), Refusal>
    requires valid { Valid g }
    requires z_lt_zones { z < g.zones }
    ensures { result ≡ host_limits g (view_state state) host z end }
{
    let most = tables::bounds::zone_sectors(g);
    let zones = state.zones;
    let r = zones[z];
    let adds = adds_zone(r, most, host, end);
    if !adds {
        return Ok(());
    }
    let c = r.condition;
    let counted = counts(c, most);
    let zones_open = open_zones(g, state, host);
    limit_refusal(host, zones_open, counted)
}

// Where a host's share of a drive stands among the shares.
pub fn share_place(drive: usize, host: usize) -> usize
    requires { (drive < 8) × (host < 2) }
    ensures { (result ≡ share_at drive host) × (result < 16) }
{
    drive * HOSTS + host
}

// What is left of a share once so many sectors are taken.
fn share_left(share: u32, taken: u32) -> u32
    ensures { result ≡ share - taken }
{
    if taken <= share { share - taken } else { 0 }
}

// The shares with so many sectors off a host's share of a drive.
pub fn shares_less(
    shares: [u32; MAX_SHARES],
    drive: usize,
    host: usize,
    taken: usize,
) -> [u32; MAX_SHARES]
    requires { (drive < 8) × (host < 2) × (taken ≤ 17) }
    ensures { result ≡ shares_less shares (share_at drive host) taken }
{
    let at = share_place(drive, host);
    let mut out = shares;
    out[at] = share_left(out[at], taken as u32);
    out
}

// What the state says of the host of a write that ends at a pointer of zone z. Where the zone is the host's already, or the write reaches the zone's end, no
// other zone is looked at.
pub fn allowance_of(g: Geometry, state: State, host: usize, z: usize, end: usize) -> Allowance
    requires valid { Valid g }
    requires z_lt_zones { z < g.zones }
    ensures { result ≡ allowance_of g (view_state state) host z end }
{
    let most = tables::bounds::zone_sectors(g);
    let known = host < HOSTS;
    let asked = known & (end <= most);
    if !asked {
        return Allowance {
            known,
            limits: Ok(()),
            share: 0,
        };
    }
    let limits = host_refusal(g, state, host, z, end);
    let entry = super::write_room::entry_drive(g, z, end);
    let at = share_place(entry.drive, host);
    let shares = state.shares;
    let share = shares[at] as usize;
    Allowance {
        known,
        limits,
        share,
    }
}
