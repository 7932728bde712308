// What the volume asks of a walked log: each function folds one question over it (`asking`), of the log in one physical zone of one drive.
ghost use Rattle.std.specs.Prelude.{◌≡◌, ◌⊎◌, true, false, [], ◌+◌, ◌*◌, ◌≤◌, ◌<◌, get_or};
ghost use Rattle.tables.specs.meaning.Lists.{any_of};
ghost use Rattle.tables.specs.meaning.LittleEndian.{read_le};
ghost use Rattle.tables.specs.meaning.Geometry.{Valid};
ghost use Rattle.logs.specs.code.WalkCode.{InLog, log_sectors};
ghost use Rattle.logs.specs.meaning.Walk.{walk_log};
ghost use Rattle.logs.specs.meaning.Heads.{last_lost, labelled, array_in, generation_in, is_reset, is_seal, is_seal_at, least_seal, ends_at, first_closing};
ghost use Rattle.logs.specs.laws.Heads.{is_counters, ends_within};
ghost use Rattle.logs.specs.code.Query.{log_heads, first_seen, torn_seen};
ghost use Rattle.logs.specs.code.QueryLaws.{SmallSeen};
ghost use Rattle.logs.specs.code.Folding.{reset_found, seal_found, seal_at_found, within_found};
ghost use Rattle.logs.specs.declared.Found.TheVariants.{Bad};
ghost use Rattle.logs.specs.code.KeptLabel.{last_label_seen, label_kept, LabelFits};
ghost use Rattle.logs.specs.laws.Places.{last_place};

use super::asking::fold_log;
use super::{Found, Log, WalkEnd};
use tables::Geometry;

// The lost drive of the last label of a drive's general log; 255 if there is none.
pub fn last_lost(sectors: &[u8], g: Geometry, log: Log) -> usize
    requires valid { Valid g }
    requires in_log { InLog g log.drive log.zone log.written sectors.now }
    ensures { (result ≡ last_lost 255 (log_heads g log.drive false log.zone log.written sectors.now))
        × ((result < g.drives) ⊎ (result ≡ 255)) }
{
    fold_log(sectors, g, log, false, 255, |lost, _, f| match f {
        Found::Label(drive, _) => drive,
        _ => lost,
    })
}

// The place of the last counters, counted from 1; 0 if there are none.
pub fn last_counters(sectors: &[u8], g: Geometry, log: Log) -> usize
    requires valid { Valid g }
    requires in_log { InLog g log.drive log.zone log.written sectors.now }
    ensures { (result ≡ last_place g is_counters 0 0 (log_heads g log.drive false log.zone log.written sectors.now))
        × (result ≤ log.written) }
{
    fold_log(sectors, g, log, false, 0, |last, place, f| match f {
        Found::Counters => place + 1,
        _ => last,
    })
}

// Whether what was found is a reset of a zone and generation.
fn is_reset(f: Found, z: usize, generation: u64) -> bool
    ensures { result ≡ reset_found z generation f }
{
    matches!(f, Found::Resets(y, n) if y == z && n == generation)
}

// Whether there is a reset of a zone and generation.
pub fn has_reset(sectors: &[u8], g: Geometry, log: Log, z: usize, generation: u64) -> bool
    requires valid { Valid g }
    requires in_log { InLog g log.drive log.zone log.written sectors.now }
    ensures { result ≡ any_of (is_reset z generation) (log_heads g log.drive false log.zone log.written sectors.now) }
{
    fold_log(sectors, g, log, false, false, |told, _, f| {
        told || is_reset(f, z, generation)
    })
}

// Whether what was found is a seal of a zone and generation.
fn is_seal(f: Found, z: usize, generation: u64) -> bool
    ensures { result ≡ seal_found z generation f }
{
    matches!(f, Found::Seal(y, _, n) if y == z && n == generation)
}

// Whether there is a seal of a zone and generation.
pub fn has_seal(sectors: &[u8], g: Geometry, log: Log, z: usize, generation: u64) -> bool
    requires valid { Valid g }
    requires in_log { InLog g log.drive log.zone log.written sectors.now }
    ensures { result ≡ any_of (is_seal z generation) (log_heads g log.drive false log.zone log.written sectors.now) }
{
    fold_log(sectors, g, log, false, false, |told, _, f| {
        told || is_seal(f, z, generation)
    })
}

// Whether what was found is one with just that pointer.
fn is_seal_at(f: Found, z: usize, generation: u64, pointer: usize) -> bool
    ensures { result ≡ seal_at_found z generation pointer f }
{
    matches!(f, Found::Seal(y, q, n) if y == z && n == generation && q == pointer)
}

// Whether there is one with just that pointer.
pub fn has_seal_at(
    sectors: &[u8],
    g: Geometry,
    log: Log,
    z: usize,
    generation: u64,
    pointer: usize,
) -> bool
    requires valid { Valid g }
    requires in_log { InLog g log.drive log.zone log.written sectors.now }
    ensures { result ≡ any_of (is_seal_at z generation pointer) (log_heads g log.drive false log.zone log.written sectors.now) }
{
    fold_log(sectors, g, log, false, false, |told, _, f| {
        told || is_seal_at(f, z, generation, pointer)
    })
}

// The least pointer of the seals of a zone and generation, and of `most`.
pub fn least_seal(
    sectors: &[u8],
    g: Geometry,
    log: Log,
    z: usize,
    generation: u64,
    most: usize,
) -> usize
    requires valid { Valid g }
    requires in_log { InLog g log.drive log.zone log.written sectors.now }
    ensures { (result ≡ least_seal z generation most (log_heads g log.drive false log.zone log.written sectors.now))
        × (result ≤ most) }
{
    fold_log(sectors, g, log, false, most, |least, _, f| match f {
        Found::Seal(_, pointer, _) => {
            if is_seal(f, z, generation) {
                least.min(pointer)
            } else {
                least
            }
        }
        _ => least,
    })
}

// Whether what was found is a partial parity entry of a zone and generation that ends past `low` and at most at `high`.
fn ends_within(f: Found, g: Geometry, z: usize, generation: u64, low: usize, high: usize) -> bool
    requires valid { Valid g }
    requires small_seen { SmallSeen g f }
    ensures { result ≡ within_found g z generation low high f }
{
    let Found::Partial(y, s, fill, n) = f else {
        return false;
    };
    let end = s * tables::bounds::stripe_sectors(g) + fill;
    y == z && n == generation && low < end && end <= high
}

// The place, counted from 1, of the last whole partial parity entry of a zone and generation that ends past `low` and at most at `high`;
// 0 if there is none. Its rows follow it.
pub fn last_partial(
    sectors: &[u8],
    g: Geometry,
    log: Log,
    z: usize,
    generation: u64,
    low: usize,
    high: usize,
) -> usize
    requires valid { Valid g }
    requires in_log { InLog g log.drive log.zone log.written sectors.now }
    ensures { (result ≡ last_place g (ends_within g z generation low high) 0 0 (log_heads g log.drive true log.zone log.written sectors.now))
        × (result ≤ log.written) }
{
    fold_log(sectors, g, log, true, 0, |last, place, f| {
        if ends_within(f, g, z, generation, low, high) {
            place + 1
        } else {
            last
        }
    })
}

// Whether there is one that ends just at a pointer.
pub fn has_partial_at(
    sectors: &[u8],
    g: Geometry,
    log: Log,
    z: usize,
    generation: u64,
    pointer: usize,
) -> bool
    requires valid { Valid g }
    requires in_log { InLog g log.drive log.zone log.written sectors.now × (0 < pointer) }
    ensures { result ≡ any_of (ends_at g z generation pointer) (log_heads g log.drive true log.zone log.written sectors.now) }
{
    let low = pointer - 1;
    0 < last_partial(sectors, g, log, z, generation, low, pointer)
}

// The generation that the last counters give zone z; 0 if there are none.
pub fn last_generation(sectors: &[u8], g: Geometry, log: Log, z: usize) -> u64
    requires valid { Valid g }
    requires in_log { InLog g log.drive log.zone log.written sectors.now × (z < g.zones) }
    ensures { result ≡ generation_in z (log_heads g log.drive false log.zone log.written sectors.now) }
{
    let place = last_counters(sectors, g, log);
    if place == 0 {
        return 0;
    }
    generation_at(sectors, g, log, place - 1, z)
}

// The number that the sector p of a log has where counters have zone z's generation.
pub fn generation_at(sectors: &[u8], g: Geometry, log: Log, p: usize, z: usize) -> u64
    requires valid { Valid g }
    requires in_log { InLog g log.drive log.zone log.written sectors.now × (p < log.written) × (z < g.zones) }
    ensures { result ≡ read_le 8 (get_or (log_sectors g log.drive log.zone sectors.now log.written) p []) (32 + 8 * z) }
{
    let b = g.sector;
    let at = tables::stores::byte_at(g, log.drive, log.zone, p);
    let end = at + b;
    tables::bytes::read_u64(&sectors[at..end], 32 + 8 * z)
}

// What the first whole entry is; nothing if there is none.
pub fn first_entry(sectors: &[u8], g: Geometry, log: Log, parity: bool) -> Found
    requires valid { Valid g }
    requires in_log { InLog g log.drive log.zone log.written sectors.now }
    ensures { result ≡ first_seen (log_heads g log.drive parity log.zone log.written sectors.now) }
{
    match super::walking::next_entry(sectors, g, log, parity, 0) {
        Ok((f, _)) => f,
        Err(_) => Found::Bad,
    }
}

// Whether a drive's general log begins with a label.
pub fn begins_labelled(sectors: &[u8], g: Geometry, log: Log) -> bool
    requires valid { Valid g }
    requires in_log { InLog g log.drive log.zone log.written sectors.now }
    ensures { result ≡ labelled (log_heads g log.drive false log.zone log.written sectors.now) }
{
    matches!(first_entry(sectors, g, log, false), Found::Label(_, _))
}

// The array number of that label; 0 if there is none.
pub fn first_array(sectors: &[u8], g: Geometry, log: Log) -> u64
    requires valid { Valid g }
    requires in_log { InLog g log.drive log.zone log.written sectors.now }
    ensures { result ≡ array_in (log_heads g log.drive false log.zone log.written sectors.now) }
{
    if let Found::Label(_, array) = first_entry(sectors, g, log, false) {
        array
    } else {
        0
    }
}

// The entry that is torn; nothing if none is. Its rows that are there reach from its place to the written pointer.
pub fn torn_entry(sectors: &[u8], g: Geometry, log: Log, parity: bool) -> Found
    requires valid { Valid g }
    requires in_log { InLog g log.drive log.zone log.written sectors.now }
    ensures { result ≡ torn_seen (walk_log g log.drive parity (log_sectors g log.drive log.zone sectors.now log.written)).last }
{
    let drive = log.drive;
    let zone = log.zone;
    let n = log.written;
    let w = super::walking::walk_log(sectors, g, drive, zone, parity, n);
    let WalkEnd::Torn(p) = w else {
        return Found::Bad;
    };
    super::walking::judge_at(sectors, g, drive, zone, parity, n, p)
}

// The generation of the first closing entry; 0 if there is none. The walk goes no further than that entry.
pub fn first_closing(sectors: &[u8], g: Geometry, log: Log, parity: bool) -> u64
    requires valid { Valid g }
    requires in_log { InLog g log.drive log.zone log.written sectors.now }
    ensures { result ≡ first_closing (log_heads g log.drive parity log.zone log.written sectors.now) }
{
    let mut p = 0;
    // kept: where the next entry begins is known only from this one, so there is no range to go over.
    while let Ok((f, q)) = super::walking::next_entry(sectors, g, log, parity, p) {
        if let Found::Closing(generation) = f {
            return generation;
        }
        p = q;
    }
    0
}

// The last label of a drive's general log; nothing if there is none.
fn last_label(sectors: &[u8], g: Geometry, log: Log) -> Found
    requires valid { Valid g }
    requires in_log { InLog g log.drive log.zone log.written sectors.now }
    ensures { result ≡ last_label_seen Bad (log_heads g log.drive false log.zone log.written sectors.now) }
{
    fold_log(sectors, g, log, false, Found::Bad, |last, _, f| match f {
        Found::Label(_, _) => f,
        _ => last,
    })
}

// The label that is kept of a general log that is emptied: its last one, with the array number with which the log begins; nothing if it has none.
pub fn kept_label(sectors: &[u8], g: Geometry, log: Log) -> Found
    requires valid { Valid g }
    requires in_log { InLog g log.drive log.zone log.written sectors.now }
    ensures { (result ≡ label_kept (log_heads g log.drive false log.zone log.written sectors.now)) × LabelFits result }
{
    let first = first_entry(sectors, g, log, false);
    let Found::Label(lost, own) = last_label(sectors, g, log) else {
        return Found::Bad;
    };
    if let Found::Label(_, array) = first {
        Found::Label(lost, array)
    } else {
        Found::Label(lost, own)
    }
}
