// A mount's counters: "if any zone is empty or the present drives' last counters differ, on each present drive one counters entry with the
// zones' generations, every empty zone's raised by 1".
ghost use Rattle.std.specs.Prelude.{◌≡◌, ◌&&◌, not, [], ℕ, ◌+◌, ◌*◌, ◌<◌, length, get_or, eqb};
ghost use Rattle.tables.specs.meaning.Below.{any_below, all_below};
ghost use Rattle.tables.specs.meaning.LittleEndian.{same_bytes, read_le};
ghost use Rattle.tables.specs.meaning.Geometry.{Valid, cells, total_bytes};
ghost use Rattle.tables.specs.meaning.Phases.{on_present};
ghost use Rattle.tables.specs.laws.Made.{MadeAppends};
ghost use Rattle.logs.specs.code.WalkCode.{InLog, log_sectors};
ghost use Rattle.logs.specs.meaning.Heads.{last_counters};
ghost use Rattle.volume.specs.meaning.State.{is_empty};
ghost use Rattle.volume.specs.meaning.Rules.{general_heads};
ghost use Rattle.volume.specs.meaning.Mount.{next_generation, counters_differ, counter_step};
ghost use Rattle.volume.specs.meaning.CallContracts.{is_set};
ghost use Rattle.mounting.specs.MountLook.{shown_by, LookWithin};
ghost use Rattle.mounting.specs.MountGenerations.{filled, counters_due};
ghost use Rattle.mounting.specs.MountSteps.{CountersReady};
ghost use Rattle.volume.specs.looking.Knowing.{read_device};
ghost use Rattle.volume.specs.checks.Records.{zone_look};

use super::Basis;
use logs::Log;
use tables::{Geometry, MAX_DRIVES, MAX_ZONES};
use volume::Look;

// Whether a zone is shown empty.
fn zone_empty(g: Geometry, look: Look, z: usize) -> bool
    requires valid { Valid g }
    requires z_lt_zones { z < g.zones }
    ensures { result ≡ is_empty (zone_look look z).condition }
{
    volume::records::is_empty(look.zones[z].condition)
}

fn any_empty(g: Geometry, look: Look) -> bool
    requires { Valid g }
    ensures { result ≡ any_below (λ (z : ℕ). is_empty (zone_look look z).condition) g.zones }
{
    (0..g.zones).any(|z| zone_empty(g, look, z))
}

// A zone's generation in the new counters.
fn next_generation(g: Geometry, look: Look, z: usize) -> u64
    requires valid { Valid g }
    requires z_lt_zones { (z < g.zones) × LookWithin g look }
    ensures { result ≡ next_generation (shown_by look) z }
{
    let generation = look.zones[z].generation;
    if zone_empty(g, look, z) {
        generation + 1
    } else {
        generation
    }
}

fn next_generations(g: Geometry, look: Look) -> [u64; MAX_ZONES]
    requires valid { Valid g }
    requires look_within { LookWithin g look }
    ensures { result ≡ filled (next_generation (shown_by look)) g.zones }
{
    let mut next = [0u64; MAX_ZONES];
    for z in 0..g.zones {
        next[z] = next_generation(g, look, z);
    }
    next
}

// Whether the counters at two places of two drives' logs give every zone the same generation.
fn same_generations(sectors: &[u8], g: Geometry, a: Log, p: usize, b: Log, q: usize) -> bool
    requires valid { Valid g }
    requires in_log { InLog g a.drive a.zone a.written sectors.now × (p < a.written) × InLog g b.drive b.zone b.written sectors.now × (q < b.written) }
    ensures { result ≡ all_below (λ (z : ℕ). eqb (read_le 8 (get_or (log_sectors g a.drive a.zone sectors.now a.written) p []) (32 + 8 * z)) (read_le 8 (get_or (log_sectors g b.drive b.zone sectors.now b.written) q []) (32 + 8 * z))) g.zones }
{
    (0..g.zones).all(|z| {
        logs::folds::generation_at(sectors, g, a, p, z)
            == logs::folds::generation_at(sectors, g, b, q, z)
    })
}

// Whether two drives have the same last counters. A drive without counters differs from one with them.
fn same_counters(sectors: &[u8], pointers: &[u32], g: Geometry, d: usize, e: usize) -> bool
    requires valid { Valid g }
    requires d_lt_drives { (d < g.drives) × (e < g.drives) × (length sectors.now ≡ total_bytes g) × (length pointers.now ≡ cells g) }
    ensures { result ≡ same_bytes (last_counters [] (general_heads g (read_device g sectors.now pointers.now) d)) (last_counters [] (general_heads g (read_device g sectors.now pointers.now) e)) }
{
    let n = super::log_headers::sectors_then(pointers, g, d, logs::GENERAL_LOG);
    let m = super::log_headers::sectors_then(pointers, g, e, logs::GENERAL_LOG);
    let a = Log {
        drive: d,
        zone: logs::GENERAL_LOG,
        written: n,
    };
    let b = Log {
        drive: e,
        zone: logs::GENERAL_LOG,
        written: m,
    };
    let p = logs::folds::last_counters(sectors, g, a);
    let q = logs::folds::last_counters(sectors, g, b);
    if p == 0 {
        return q == 0;
    }
    if q == 0 {
        return false;
    }
    same_generations(sectors, g, a, p - 1, b, q - 1)
}

// Whether drive e is here and its last counters are not drive d's.
fn differs_from(
    sectors: &[u8],
    pointers: &[u32],
    g: Geometry,
    here: [bool; MAX_DRIVES],
    d: usize,
    e: usize,
) -> bool
    requires valid { Valid g }
    requires d_lt_drives { (d < g.drives) × (e < g.drives) × (length sectors.now ≡ total_bytes g) × (length pointers.now ≡ cells g) }
    ensures { result ≡ is_set here e && not (same_bytes (last_counters [] (general_heads g (read_device g sectors.now pointers.now) d)) (last_counters [] (general_heads g (read_device g sectors.now pointers.now) e))) }
{
    here[e] && !same_counters(sectors, pointers, g, d, e)
}

fn any_differs(
    sectors: &[u8],
    pointers: &[u32],
    g: Geometry,
    here: [bool; MAX_DRIVES],
    d: usize,
) -> bool
    requires valid { Valid g }
    requires d_lt_drives { (d < g.drives) × (length sectors.now ≡ total_bytes g) × (length pointers.now ≡ cells g) }
    ensures { result ≡ any_below (λ (e : ℕ). is_set here e && not (same_bytes (last_counters [] (general_heads g (read_device g sectors.now pointers.now) d)) (last_counters [] (general_heads g (read_device g sectors.now pointers.now) e)))) g.drives }
{
    (0..g.drives).any(|e| differs_from(sectors, pointers, g, here, d, e))
}

// Whether drive d is here and some drive's last counters are not its.
fn differs_at(
    sectors: &[u8],
    pointers: &[u32],
    g: Geometry,
    here: [bool; MAX_DRIVES],
    d: usize,
) -> bool
    requires valid { Valid g }
    requires d_lt_drives { (d < g.drives) × (length sectors.now ≡ total_bytes g) × (length pointers.now ≡ cells g) }
    ensures { result ≡ is_set here d && any_below (λ (e : ℕ). is_set here e && not (same_bytes (last_counters [] (general_heads g (read_device g sectors.now pointers.now) d)) (last_counters [] (general_heads g (read_device g sectors.now pointers.now) e)))) g.drives }
{
    here[d] && any_differs(sectors, pointers, g, here, d)
}

// Whether the last counters of the drives that are here differ.
pub fn counters_differ(
    sectors: &[u8],
    pointers: &[u32],
    g: Geometry,
    here: [bool; MAX_DRIVES],
) -> bool
    requires valid { Valid g }
    requires sectors_len { (length sectors.now ≡ total_bytes g) × (length pointers.now ≡ cells g) }
    ensures { result ≡ counters_differ g (is_set here) (read_device g sectors.now pointers.now) }
{
    (0..g.drives).any(|d| differs_at(sectors, pointers, g, here, d))
}

// Whether new counters are due.
#[tactic(auto, unfolding(crate::specs::MountGenerations::counters_due))]
fn counters_due(g: Geometry, look: Look, differ: bool) -> bool
    requires { Valid g }
    ensures { result ≡ counters_due g look differ }
{
    any_empty(g, look) || differ
}

// The counters of the step, if they are due.
pub fn store_counters(sectors: &mut [u8], written: &mut [u32], basis: Basis, budget: u64) -> u64
    requires valid { Valid basis.geometry }
    requires counters_ready { CountersReady basis.geometry basis.look sectors.old written.old }
    ensures { MadeAppends basis.geometry budget result (on_present (is_set basis.here) (counter_step basis.geometry (shown_by basis.look) basis.differ)) sectors.old written.old sectors.new written.new }
{
    let here = basis.here;
    let due = counters_due(basis.geometry, basis.look, basis.differ);
    if !due {
        return budget;
    }
    let next = next_generations(basis.geometry, basis.look);
    volume::resetting::log_counters(sectors, written, basis.geometry, here, &next, budget)
}
