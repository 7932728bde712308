// What the two logs of one drive say, read in the tables. A written pointer past its zone's end counts as one at the end, so that every
// function here has an answer whatever the pointers are.
ghost use Rattle.std.specs.Prelude.{◌≡◌, ◌||◌, ◌≤◌, ◌<◌, length};
ghost use Rattle.tables.specs.meaning.Geometry.{Valid, physical_zones, cells};
ghost use Rattle.tables.specs.meaning.Lists.{any_of};
ghost use Rattle.logs.specs.meaning.Heads.{labelled, array_in, generation_in, is_reset, is_seal, ends_past};
ghost use Rattle.logs.specs.meaning.Entry.{Entry};
ghost use Rattle.logs.specs.code.QueryLaws.{SmallSeen};
ghost use Rattle.volume.specs.meaning.Rules.{general_heads, parity_entries, parity_ending, ending_past};
ghost use Rattle.volume.specs.looking.DriveLogs.{Sized, zone_pointer, log_in, says_lost, past_seen};
ghost use Rattle.volume.specs.looking.Knowing.{read_device};

use logs::{Found, Log};
use tables::Geometry;

// How many sectors a zone of a drive has.
pub fn zone_pointer(written: &[u32], g: Geometry, drive: usize, zone: usize) -> usize
    requires valid { Valid g }
    requires drive_lt_drives { (drive < g.drives) × (zone < physical_zones g) × (length written.now ≡ cells g) }
    ensures { (result ≡ zone_pointer g written.now drive zone) × (result ≤ g.capacity) }
{
    let at = tables::stores::cell_of(g, drive, zone);
    let n = tables::bounds::widen(written[at]);
    let c = g.capacity;
    n.min(c)
}

// The log in a physical zone of a drive.
pub fn log_in(written: &[u32], g: Geometry, drive: usize, zone: usize) -> Log
    requires valid { Valid g }
    requires drive_lt_drives { (drive < g.drives) × (zone < physical_zones g) × (length written.now ≡ cells g) }
    ensures { result ≡ log_in g written.now drive zone }
{
    let n = zone_pointer(written, g, drive, zone);
    Log {
        drive,
        zone,
        written: n,
    }
}

// Whether the general log begins with a label.
pub fn begins_labelled(sectors: &[u8], written: &[u32], g: Geometry, drive: usize) -> bool
    requires valid { Valid g }
    requires sized { Sized g sectors.now written.now × (drive < g.drives) }
    ensures { result ≡ labelled (general_heads g (read_device g sectors.now written.now) drive) }
{
    let log = log_in(written, g, drive, logs::GENERAL_LOG);
    logs::folds::begins_labelled(sectors, g, log)
}

// The array number of that label; 0 if there is none.
pub fn first_array(sectors: &[u8], written: &[u32], g: Geometry, drive: usize) -> u64
    requires valid { Valid g }
    requires sized { Sized g sectors.now written.now × (drive < g.drives) }
    ensures { result ≡ array_in (general_heads g (read_device g sectors.now written.now) drive) }
{
    let log = log_in(written, g, drive, logs::GENERAL_LOG);
    logs::folds::first_array(sectors, g, log)
}

// The drive that the log's last label says is lost; 255 if it names none or the log does not begin with a label.
pub fn says_lost(sectors: &[u8], written: &[u32], g: Geometry, drive: usize) -> usize
    requires valid { Valid g }
    requires sized { Sized g sectors.now written.now × (drive < g.drives) }
    ensures { result ≡ says_lost (general_heads g (read_device g sectors.now written.now) drive) }
{
    let has_say = begins_labelled(sectors, written, g, drive);
    if !has_say {
        return 255;
    }
    let log = log_in(written, g, drive, logs::GENERAL_LOG);
    logs::folds::last_lost(sectors, g, log)
}

// The generation that the last counters give zone z; 0 if there are none.
pub fn last_generation(sectors: &[u8], written: &[u32], g: Geometry, drive: usize, z: usize) -> u64
    requires valid { Valid g }
    requires sized { Sized g sectors.now written.now × (drive < g.drives) × (z < g.zones) }
    ensures { result ≡ generation_in z (general_heads g (read_device g sectors.now written.now) drive) }
{
    let log = log_in(written, g, drive, logs::GENERAL_LOG);
    logs::folds::last_generation(sectors, g, log, z)
}

// Whether the general log has a reset of a zone and generation.
pub fn has_reset(
    sectors: &[u8],
    written: &[u32],
    g: Geometry,
    drive: usize,
    z: usize,
    generation: u64,
) -> bool
    requires valid { Valid g }
    requires sized { Sized g sectors.now written.now × (drive < g.drives) }
    ensures { result ≡ any_of (is_reset z generation) (general_heads g (read_device g sectors.now written.now) drive) }
{
    let log = log_in(written, g, drive, logs::GENERAL_LOG);
    logs::folds::has_reset(sectors, g, log, z, generation)
}

// Whether it has a seal of a zone and generation.
pub fn has_seal(
    sectors: &[u8],
    written: &[u32],
    g: Geometry,
    drive: usize,
    z: usize,
    generation: u64,
) -> bool
    requires valid { Valid g }
    requires sized { Sized g sectors.now written.now × (drive < g.drives) }
    ensures { result ≡ any_of (is_seal z generation) (general_heads g (read_device g sectors.now written.now) drive) }
{
    let log = log_in(written, g, drive, logs::GENERAL_LOG);
    logs::folds::has_seal(sectors, g, log, z, generation)
}

// Whether what was found is a partial parity entry of a zone and generation that ends past pointer q.
fn found_past(f: Found, g: Geometry, z: usize, generation: u64, q: usize) -> bool
    requires valid { Valid g }
    requires small_seen { SmallSeen g f }
    ensures { result ≡ past_seen g z generation q f }
{
    let k = tables::bounds::stripe_sectors(g);
    match f {
        Found::Partial(y, s, fill, n) => y == z && n == generation && q < s * k + fill,
        _ => false,
    }
}

// Whether a partial parity entry of a zone and generation, whole or torn, ends past pointer q.
pub fn entry_past(
    sectors: &[u8],
    written: &[u32],
    g: Geometry,
    drive: usize,
    z: usize,
    generation: u64,
    q: usize,
) -> bool
    requires valid { Valid g }
    requires sized { Sized g sectors.now written.now × (drive < g.drives) }
    ensures { result ≡ any_of (λ (e : Entry). ends_past g z generation q e.head) (parity_entries g (read_device g sectors.now written.now) drive)
        || ending_past g z generation q (parity_ending g (read_device g sectors.now written.now) drive) }
{
    let log = log_in(written, g, drive, logs::PARITY_LOG);
    let most = tables::bounds::zone_sectors(g);
    let place = logs::folds::last_partial(sectors, g, log, z, generation, q, most);
    let f = logs::folds::torn_entry(sectors, g, log, true);
    let torn = found_past(f, g, z, generation, q);
    (place != 0) | torn
}
