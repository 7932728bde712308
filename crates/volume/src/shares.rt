// The hosts' shares of the drives' parity logs (document 02, 2.6): each has half of what a log has unused past the reserve, which the entries of a mount need.
ghost use Rattle.std.specs.Prelude.{◌≡◌, true, ◌≤◌, ◌<◌, length};
ghost use Rattle.tables.specs.meaning.Basics.{pick};
ghost use Rattle.tables.specs.meaning.Below.{tabulate};
ghost use Rattle.tables.specs.meaning.Geometry.{Valid, cells};
ghost use Rattle.volume.specs.meaning.State.{max_shares};
ghost use Rattle.volume.specs.meaning.CallContracts.{is_set};
ghost use Rattle.volume.specs.meaning.Emptying.{reserve};
ghost use Rattle.volume.specs.meaning.Hosts.{half_past, fresh_shares};
ghost use Rattle.volume.specs.looking.ShownState.{HereBelow, parity_unused, share_on, shares_on};

use super::roles::LogPlaces;
use super::{HOSTS, MAX_SHARES};
use tables::{Geometry, MAX_DRIVES};

// The sectors of a parity log that no write may take.
pub fn reserve_of(g: Geometry) -> usize
    requires { Valid g }
    ensures { result ≡ reserve g }
{
    let l = g.zones;
    let u = g.unit;
    l * (1 + u) + u
}

// A host's share of a log with so many sectors unused.
pub fn half_past(g: Geometry, unused: usize) -> u32
    requires valid { Valid g }
    requires unused_le_capacity { unused ≤ g.capacity }
    ensures { result ≡ half_past g unused }
{
    let kept = reserve_of(g);
    let past = unused.saturating_sub(kept);
    (past / 2) as u32
}

// How many sectors of a drive's parity log are unused; none where the drive lacks one.
pub fn parity_unused(pointers: &[u32], places: LogPlaces, drive: usize) -> usize
    requires valid { Valid places.geometry }
    requires drive_lt_drives { (drive < places.geometry.drives) × (length pointers.now ≡ cells places.geometry) }
    ensures { (result ≡ parity_unused places pointers.now drive) × (result ≤ places.geometry.capacity) }
{
    let no_parity = places.no_parity;
    let lacks = no_parity[drive];
    if lacks {
        return 0;
    }
    let n = super::drive_logs::zone_pointer(pointers, places.geometry, drive, logs::PARITY_LOG);
    let c = places.geometry.capacity;
    c - n
}

// A host's share of a drive's parity log; none where the drive is not here.
fn share_of(pointers: &[u32], places: LogPlaces, here: bool, drive: usize) -> u32
    requires valid { Valid places.geometry }
    requires drive_lt_drives { (here ≡ true → drive < places.geometry.drives) × (length pointers.now ≡ cells places.geometry) }
    ensures { result ≡ share_on places here pointers.now drive }
{
    if !here {
        return 0;
    }
    let unused = parity_unused(pointers, places, drive);
    half_past(places.geometry, unused)
}

// The shares of the drives that are here, by where their logs lie and the written pointers.
pub fn shares_of(pointers: &[u32], places: LogPlaces, here: [bool; MAX_DRIVES]) -> [u32; MAX_SHARES]
    requires valid { Valid places.geometry }
    requires here_below { HereBelow places.geometry here × (length pointers.now ≡ cells places.geometry) }
    ensures { result ≡ tabulate (shares_on places here pointers.now) max_shares }
{
    std::array::from_fn(|i| share_of(pointers, places, here[i / HOSTS], i / HOSTS))
}

// The shares of the drives that are here, where every parity log is empty.
pub fn fresh_shares(g: Geometry, here: [bool; MAX_DRIVES]) -> [u32; MAX_SHARES]
    requires { Valid g }
    ensures { result ≡ tabulate (fresh_shares g (is_set here)) max_shares }
{
    let half = half_past(g, g.capacity);
    std::array::from_fn(|i| if here[i / HOSTS] { half } else { 0 })
}
