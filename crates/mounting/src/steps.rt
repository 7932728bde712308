// The steps of a mount, one function each, "with a flush of all present drives after each step that stored"; a step that stored has spent of the
// budget. Each relies on the same things (`Restoring`) and leaves them so for the next (`StepMade`); `restore_steps` is the list of steps 3 to 9 in
// their order.
ghost use Rattle.std.specs.Prelude.{◌≡◌, length};
ghost use Rattle.tables.specs.meaning.Lists.{concat};
ghost use Rattle.tables.specs.meaning.Geometry.{Valid, cells};
ghost use Rattle.tables.specs.meaning.Tables.{tables_of};
ghost use Rattle.tables.specs.laws.Made.{Made};
ghost use Rattle.volume.specs.meaning.Mount.{with_flush};
ghost use Rattle.volume.specs.meaning.Rules.{parity_entries};
ghost use Rattle.volume.specs.meaning.CallContracts.{is_set};
ghost use Rattle.mounting.specs.MountTables.{FlushedAfter};
ghost use Rattle.mounting.specs.MountHeaders.{headers_by};
ghost use Rattle.mounting.specs.MountValues.{shown_at, Restoring};
ghost use Rattle.mounting.specs.MountSteps.{torn_rows_by, fills_by, StepMade, ZonesReset, CountersMade, CountersReady, ZonesRestored, Restored};
ghost use Rattle.mounting.specs.MountLastEntries.{Entering, entry_stores_below};
ghost use Rattle.volume.specs.looking.Knowing.{read_device};
ghost use Rattle.volume.specs.looking.HiddenLogs.{hidden_logs};

use super::Basis;
use super::counters::store_counters;
use super::log_headers::{HeaderKind, log_headers};
use tables::{Geometry, MAX_DRIVES};
use volume::roles::LogPlaces;

// The flush after a step, if the step stored: it had `before` and left `rest`.
pub fn flush_after(
    written: &[u32],
    durable: &mut [u32],
    g: Geometry,
    here: [bool; MAX_DRIVES],
    before: u64,
    rest: u64,
) -> u64
    requires valid { Valid g }
    requires written_len { (length written.now ≡ cells g) × (length durable.old ≡ cells g) }
    ensures { FlushedAfter g (is_set here) before rest result written.now durable.old durable.new }
{
    if rest == before {
        return rest;
    }
    volume::flushing::flush_all(written, durable, g, here, rest)
}

// 3, 4 and 7. A step of headers of one kind on the general logs: "a new label on each present drive whose last doesn't name the lost one; type 3
// again on both its drives for each zone emptied by rule 3; .. the seal at its pointer of each zone shown sealed, on each present drive lacking it".
fn header_step(
    kind: HeaderKind,
    sectors: &mut [u8],
    written: &mut [u32],
    durable: &mut [u32],
    pointers: &[u32],
    basis: Basis,
    budget: u64,
) -> u64
    requires valid { Valid basis.geometry }
    requires restoring { Restoring basis.geometry basis.here basis.look pointers.now (tables_of sectors.old written.old durable.old) }
    ensures { StepMade basis.geometry basis.here basis.look pointers.now budget result (headers_by basis.geometry kind basis.look)
        (tables_of sectors.old written.old durable.old) (tables_of sectors.new written.new durable.new) }
{
    let here = basis.here;
    let n = super::log_headers::header_zones(kind, basis.geometry);
    let rest = log_headers(kind, sectors, written, pointers, basis, n, budget);
    flush_after(written, durable, basis.geometry, here, budget, rest)
}

// 5. "Resets of those zones and of unclean ones with pointer 0, worn zones excepted".
fn zone_reset_step(written: &mut [u32], durable: &mut [u32], basis: Basis, budget: u64) -> u64
    requires valid { Valid basis.geometry }
    requires written_len { (length written.old ≡ cells basis.geometry) × (length durable.old ≡ cells basis.geometry) }
    ensures { ZonesReset basis.geometry basis.here basis.look budget result written.old durable.old written.new durable.new }
{
    let here = basis.here;
    let rest = super::zones::reset_zones(
        written,
        durable,
        basis.geometry,
        here,
        basis.look,
        budget,
    );
    flush_after(written, durable, basis.geometry, here, budget, rest)
}

// 6. The counters, "every empty zone's raised by 1".
fn counter_step(
    sectors: &mut [u8],
    written: &mut [u32],
    durable: &mut [u32],
    basis: Basis,
    budget: u64,
) -> u64
    requires valid { Valid basis.geometry }
    requires counters_ready { CountersReady basis.geometry basis.look sectors.old written.old × (length durable.old ≡ cells basis.geometry) }
    ensures { CountersMade basis.geometry basis.here basis.look basis.differ budget result
        (tables_of sectors.old written.old durable.old) (tables_of sectors.new written.new durable.new) }
{
    let here = basis.here;
    let rest = store_counters(sectors, written, basis, budget);
    flush_after(written, durable, basis.geometry, here, budget, rest)
}

// 8. "Rows missing from torn entries".
fn torn_row_step(
    sectors: &mut [u8],
    written: &mut [u32],
    durable: &mut [u32],
    pointers: &[u32],
    basis: Basis,
    budget: u64,
) -> u64
    requires valid { Valid basis.geometry }
    requires restoring { Restoring basis.geometry basis.here basis.look pointers.now (tables_of sectors.old written.old durable.old) }
    ensures { StepMade basis.geometry basis.here basis.look pointers.now budget result (torn_rows_by basis.geometry basis.here basis.look)
        (tables_of sectors.old written.old durable.old) (tables_of sectors.new written.new durable.new) }
{
    let here = basis.here;
    let rest = super::torn::complete_logs(sectors, written, pointers, basis, budget);
    flush_after(written, durable, basis.geometry, here, budget, rest)
}

// 9. "Sectors missing below the pointer, and parity of complete stripes".
fn fill_step(
    sectors: &mut [u8],
    written: &mut [u32],
    durable: &mut [u32],
    pointers: &[u32],
    basis: Basis,
    budget: u64,
) -> u64
    requires valid { Valid basis.geometry }
    requires restoring { Restoring basis.geometry basis.here basis.look pointers.now (tables_of sectors.old written.old durable.old) }
    ensures { StepMade basis.geometry basis.here basis.look pointers.now budget result (fills_by basis.geometry basis.here basis.look)
        (tables_of sectors.old written.old durable.old) (tables_of sectors.new written.new durable.new) }
{
    let here = basis.here;
    let rest = super::fill::fill_drives(sectors, written, pointers, basis, budget);
    flush_after(written, durable, basis.geometry, here, budget, rest)
}

// 11. "A type 4 entry at each pointer inside a stripe that by then has no whole current one ending there". The logs lie now where `to` says; `starts` is
// scratch: a copy of the written pointers.
pub fn entry_step(
    sectors: &mut [u8],
    written: &mut [u32],
    durable: &mut [u32],
    pointers: &[u32],
    starts: &mut [u32],
    basis: Basis,
    to: LogPlaces,
    budget: u64,
) -> u64
    requires valid { Valid basis.geometry }
    requires entering { Entering basis.geometry to.geometry basis.here basis.look pointers.now (hidden_logs to written.old to.geometry.drives) sectors.old written.old
        × ((length durable.old ≡ cells basis.geometry) × (length starts.old ≡ cells basis.geometry)) }
    ensures { Made to.geometry budget result (concat (with_flush basis.geometry (is_set basis.here) (entry_stores_below basis.geometry basis.look
        (shown_at basis.geometry basis.here basis.look sectors.old pointers.now) (parity_entries to.geometry (read_device to.geometry sectors.old (hidden_logs to written.old to.geometry.drives))) basis.geometry.drives)))
        (tables_of sectors.old written.old durable.old) (tables_of sectors.new written.new durable.new) }
{
    let here = basis.here;
    volume::roles::hide_lacking(written, starts, to);
    let rest = super::entries::log_entries(
        sectors,
        written,
        pointers,
        starts,
        basis,
        to.geometry,
        budget,
    );
    flush_after(written, durable, to.geometry, here, budget, rest)
}

// Steps 3 to 6: the labels, the resets and the counters.
fn restore_zones(
    sectors: &mut [u8],
    written: &mut [u32],
    durable: &mut [u32],
    pointers: &[u32],
    basis: Basis,
    budget: u64,
) -> u64
    requires valid { Valid basis.geometry }
    requires restoring { Restoring basis.geometry basis.here basis.look pointers.now (tables_of sectors.old written.old durable.old) }
    ensures { ZonesRestored basis pointers.now budget result (tables_of sectors.old written.old durable.old) (tables_of sectors.new written.new durable.new) }
{
    let label = HeaderKind::Label;
    let rest = header_step(label, sectors, written, durable, pointers, basis, budget);
    let reset = HeaderKind::Reset;
    let rest = header_step(reset, sectors, written, durable, pointers, basis, rest);
    let rest = zone_reset_step(written, durable, basis, rest);
    counter_step(sectors, written, durable, basis, rest)
}

// Steps 3 to 9, by the mount's look.
pub fn restore_steps(
    sectors: &mut [u8],
    written: &mut [u32],
    durable: &mut [u32],
    pointers: &[u32],
    basis: Basis,
    budget: u64,
) -> u64
    requires valid { Valid basis.geometry }
    requires restoring { Restoring basis.geometry basis.here basis.look pointers.now (tables_of sectors.old written.old durable.old) }
    ensures { Restored basis pointers.now budget result (tables_of sectors.old written.old durable.old) (tables_of sectors.new written.new durable.new) }
{
    let rest = restore_zones(sectors, written, durable, pointers, basis, budget);
    let seal = HeaderKind::Seal;
    let rest = header_step(seal, sectors, written, durable, pointers, basis, rest);
    let rest = torn_row_step(sectors, written, durable, pointers, basis, rest);
    fill_step(sectors, written, durable, pointers, basis, rest)
}
