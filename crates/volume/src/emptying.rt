// A log that lacks room is emptied into its drive's spare zone: "all present drives are flushed, and the lacking log's entries still needed .. are
// copied, zones ascending, into that drive's spare zone. Then comes a closing entry of type 6 .. A flush follows, then the old zone is reset and becomes
// the spare." The old log is read where the drive's logs lay (`from`), below a copy of the written pointers of the call's start; the new one is written
// where they lie from then on (`to`): it is the log there, and the old one the spare.
ghost use Rattle.std.specs.Prelude.{◌≡◌, true, false, ◌≤◌, ◌<◌, length, take, [], ◌∷◌, map};
ghost use Rattle.tables.specs.meaning.Geometry.{Valid, cells, total_bytes};
ghost use Rattle.tables.specs.meaning.Device.{append};
ghost use Rattle.tables.specs.meaning.Tables.{tables_of};
ghost use Rattle.tables.specs.laws.Made.{Made, MadeAppends, store_if};
ghost use Rattle.logs.specs.meaning.Entry.{kind_of_log, counters, closing, encode};
ghost use Rattle.logs.specs.meaning.Copies.{kept_label};
ghost use Rattle.logs.specs.code.WalkCode.{InLog};
ghost use Rattle.logs.specs.code.Query.{log_heads};
ghost use Rattle.volume.specs.declared.emptying.HeaderCopy.TheVariants.{Seal};
ghost use Rattle.volume.specs.meaning.Rules.{general_heads};
ghost use Rattle.volume.specs.meaning.Emptying.{new_general_size};
ghost use Rattle.volume.specs.looking.DriveLogs.{Sized};
ghost use Rattle.volume.specs.looking.Knowing.{read_device};
ghost use Rattle.volume.specs.emptying.Shape.{SameShape};
ghost use Rattle.volume.specs.emptying.Moving.{Copying};
ghost use Rattle.volume.specs.emptying.EmptyingStores.{end_stores, emptied_to};
ghost use Rattle.volume.specs.emptying.GeneralCopies.{by_generations, copy_due, copy_of, copy_for, copies_below, copied_headers, label_count, old_heads, headers_on};

use logs::{Found, Log};
use tables::{Geometry, MAX_DRIVES};

// The zone that is neither log (specs: `spare_zone`).
pub const SPARE_ZONE: usize = 2;

// What an emptying goes by: the geometry with the logs as they lay and as they lie afterwards, the drives that are here, the drive whose log is
// emptied, and the generation of its new log.
#[derive(Clone, Copy)]
pub struct Emptying {
    pub from: Geometry,
    pub to: Geometry,
    pub here: [bool; MAX_DRIVES],
    pub drive: usize,
    pub generation: u64,
}

// The headers that are copied zone by zone.
#[derive(Clone, Copy)]
pub enum HeaderCopy {
    Seal,
    Reset,
}

// Whether a general log has a header of a kind, zone and generation.
fn copy_due(
    kind: HeaderCopy,
    sectors: &[u8],
    g: Geometry,
    log: Log,
    z: usize,
    generation: u64,
) -> bool
    requires valid { Valid g }
    requires in_log { InLog g log.drive log.zone log.written sectors.now }
    ensures { result ≡ copy_due kind generation (log_heads g log.drive false log.zone log.written sectors.now) z }
{
    match kind {
        HeaderCopy::Seal => logs::folds::has_seal(sectors, g, log, z, generation),
        HeaderCopy::Reset => logs::folds::has_reset(sectors, g, log, z, generation),
    }
}

// Writes the seal that is copied of a zone: the least one of its generation.
fn write_seal_copy(out: &mut [u8], sectors: &[u8], g: Geometry, log: Log, z: usize, generation: u64)
    requires valid { Valid g }
    requires in_log { InLog g log.drive log.zone log.written sectors.now × (length out.old ≡ g.sector) × (z < g.zones) }
    ensures { out.new ≡ encode g log.drive (copy_of g Seal generation (log_heads g log.drive false log.zone log.written sectors.now) z) }
{
    let most = tables::bounds::zone_sectors(g);
    let pointer = logs::folds::least_seal(sectors, g, log, z, generation, most);
    logs::headers::write_seal(out, g, log.drive, z, pointer, generation);
}

// Writes the header of a kind that is copied of a zone.
fn write_copy(
    kind: HeaderCopy,
    out: &mut [u8],
    sectors: &[u8],
    g: Geometry,
    log: Log,
    z: usize,
    generation: u64,
)
    requires valid { Valid g }
    requires in_log { InLog g log.drive log.zone log.written sectors.now × (length out.old ≡ g.sector) × (z < g.zones) }
    ensures { out.new ≡ encode g log.drive (copy_of g kind generation (log_heads g log.drive false log.zone log.written sectors.now) z) }
{
    match kind {
        HeaderCopy::Seal => write_seal_copy(out, sectors, g, log, z, generation),
        HeaderCopy::Reset => logs::headers::write_reset(out, g, log.drive, z, generation),
    }
}

// Copies the header of a kind of one zone, if the old log has one.
fn copy_header(
    kind: HeaderCopy,
    sectors: &mut [u8],
    written: &mut [u32],
    pointers: &[u32],
    e: Emptying,
    z: usize,
    generation: u64,
    budget: u64,
) -> u64
    requires valid { Valid e.from }
    requires copying { Copying false e pointers.now sectors.old written.old × (z < e.from.zones) }
    ensures { MadeAppends e.to budget result (headers_on e (copy_for e.from kind generation (old_heads e sectors.old pointers.now) z)) sectors.old written.old sectors.new written.new }
{
    let log = super::drive_logs::log_in(pointers, e.from, e.drive, logs::GENERAL_LOG);
    if !copy_due(kind, sectors, e.from, log, z, generation) {
        return budget;
    }
    let mut header = [0u8; 4096];
    let b = e.from.sector;
    write_copy(kind, &mut header[..b], sectors, e.from, log, z, generation);
    tables::stores::append_counted(
        sectors,
        written,
        e.to,
        true,
        e.drive,
        logs::GENERAL_LOG,
        &header[..b],
        budget,
    )
}

// Copies those of all zones, ascending.
fn copy_headers(
    kind: HeaderCopy,
    sectors: &mut [u8],
    written: &mut [u32],
    pointers: &[u32],
    e: Emptying,
    generations: &[u64],
    budget: u64,
) -> u64
    requires valid { Valid e.from }
    requires copying { Copying false e pointers.now sectors.old written.old × (e.from.zones ≤ length generations.now) }
    ensures { MadeAppends e.to budget result (headers_on e (copies_below e.from kind generations.now (old_heads e sectors.old pointers.now) e.from.zones)) sectors.old written.old sectors.new written.new }
{
    let mut rest = budget;
    for z in 0..e.from.zones {
        rest = copy_header(kind, sectors, written, pointers, e, z, generations[z], rest);
    }
    rest
}

// Copies the old log's last label, with the array number with which the log begins.
fn copy_label(
    sectors: &mut [u8],
    written: &mut [u32],
    pointers: &[u32],
    e: Emptying,
    budget: u64,
) -> u64
    requires valid { Valid e.from }
    requires copying { Copying false e pointers.now sectors.old written.old }
    ensures { MadeAppends e.to budget result (headers_on e (kept_label (old_heads e sectors.old pointers.now))) sectors.old written.old sectors.new written.new }
{
    let drive = e.drive;
    let log = super::drive_logs::log_in(pointers, e.from, drive, logs::GENERAL_LOG);
    let kept = logs::folds::kept_label(sectors, e.from, log);
    match kept {
        Found::Bad => budget,
        Found::Label(lost, array) => {
            super::logging::append_label(sectors, written, e.to, true, drive, lost, array, budget)
        }
        Found::Counters => budget,
        Found::Resets(_, _) => budget,
        Found::Partial(_, _, _, _) => budget,
        Found::Seal(_, _, _) => budget,
        Found::Closing(_) => budget,
    }
}

// The counters of the new log: the generations in force.
fn copy_counters(
    sectors: &mut [u8],
    written: &mut [u32],
    e: Emptying,
    generations: &[u64],
    budget: u64,
) -> u64
    requires valid { Valid e.to }
    requires drive_lt_drives { (e.drive < e.to.drives) × (e.to.zones ≤ length generations.now) × (length sectors.old ≡ total_bytes e.to) × (length written.old ≡ cells e.to) × SameShape e.from e.to }
    ensures { MadeAppends e.to budget result (headers_on e (counters (take e.from.zones generations.now) ∷ [])) sectors.old written.old sectors.new written.new }
{
    super::logging::append_counters(sectors, written, e.to, true, e.drive, generations, budget)
}

// The copies: "last label, counters with the zones' generations as now in force, each zone's least current seal, then one current reset of each".
pub fn copy_general(
    sectors: &mut [u8],
    written: &mut [u32],
    pointers: &[u32],
    e: Emptying,
    generations: &[u64],
    budget: u64,
) -> u64
    requires valid { Valid e.from }
    requires copying { Copying false e pointers.now sectors.old written.old × (e.from.zones ≤ length generations.now) }
    ensures { MadeAppends e.to budget result (headers_on e (copied_headers e generations.now pointers.now sectors.old)) sectors.old written.old sectors.new written.new }
{
    let rest = copy_label(sectors, written, pointers, e, budget);
    let rest = copy_counters(sectors, written, e, generations, rest);
    let seal = HeaderCopy::Seal;
    let rest = copy_headers(seal, sectors, written, pointers, e, generations, rest);
    let reset = HeaderCopy::Reset;
    copy_headers(reset, sectors, written, pointers, e, generations, rest)
}

// How many headers of a kind are copied of a general log.
fn count_copies(
    kind: HeaderCopy,
    sectors: &[u8],
    g: Geometry,
    log: Log,
    generations: &[u64],
) -> usize
    requires valid { Valid g }
    requires in_log { InLog g log.drive log.zone log.written sectors.now × (g.zones ≤ length generations.now) }
    ensures { (result ≡ length (copies_below g kind generations.now (log_heads g log.drive false log.zone log.written sectors.now) g.zones)) × (result ≤ 16) }
{
    let mut count = 0;
    for z in 0..g.zones {
        if copy_due(kind, sectors, g, log, z, generations[z]) {
            count += 1;
        }
    }
    count
}

// Whether there is a label, as a number.
fn label_count(f: Found) -> usize
    ensures { (result ≡ label_count f) × (result ≤ 1) }
{
    match f {
        Found::Bad => 0,
        Found::Label(_, _) => 1,
        Found::Counters => 0,
        Found::Resets(_, _) => 0,
        Found::Partial(_, _, _, _) => 0,
        Found::Seal(_, _, _) => 0,
        Found::Closing(_) => 0,
    }
}

// How many sectors a drive's general log has once it is emptied: its copies and the closing entry.
pub fn general_size(
    sectors: &[u8],
    pointers: &[u32],
    g: Geometry,
    drive: usize,
    generations: &[u64],
) -> usize
    requires valid { Valid g }
    requires sized { Sized g sectors.now pointers.now × (drive < g.drives) × (g.zones ≤ length generations.now) }
    ensures { result ≡ new_general_size g (by_generations generations.now) (general_heads g (read_device g sectors.now pointers.now) drive) }
{
    let log = super::drive_logs::log_in(pointers, g, drive, logs::GENERAL_LOG);
    let kept = logs::folds::kept_label(sectors, g, log);
    let labels = label_count(kept);
    let seal = HeaderCopy::Seal;
    let seals = count_copies(seal, sectors, g, log, generations);
    let reset = HeaderCopy::Reset;
    let resets = count_copies(reset, sectors, g, log, generations);
    labels + 2 + seals + resets
}

// The zone of the log of a kind.
pub fn log_zone(parity: bool) -> usize
    ensures { result ≡ kind_of_log parity }
{
    if parity {
        logs::PARITY_LOG
    } else {
        logs::GENERAL_LOG
    }
}

// The closing entry of a new log.
fn append_closing(
    sectors: &mut [u8],
    written: &mut [u32],
    g: Geometry,
    drive: usize,
    parity: bool,
    generation: u64,
    budget: u64,
) -> u64
    requires valid { Valid g }
    requires drive_lt_drives { (drive < g.drives) × (length sectors.old ≡ total_bytes g) × (length written.old ≡ cells g) }
    ensures { MadeAppends g budget result (store_if true (append drive (kind_of_log parity) (encode g drive (closing (kind_of_log parity) generation)))) sectors.old written.old sectors.new written.new }
{
    let mut buffer = [0u8; 4096];
    let b = g.sector;
    let zone = log_zone(parity);
    logs::headers::write_closing(&mut buffer[..b], g, drive, parity, generation);
    tables::stores::append_counted(sectors, written, g, true, drive, zone, &buffer[..b], budget)
}

// What follows the copies: the closing entry, a flush, and the reset of the old log's zone.
pub fn end_emptying(
    sectors: &mut [u8],
    written: &mut [u32],
    durable: &mut [u32],
    e: Emptying,
    parity: bool,
    budget: u64,
) -> u64
    requires valid { Valid e.to }
    requires drive_lt_drives { (e.drive < e.to.drives) × (length sectors.old ≡ total_bytes e.to) × (length written.old ≡ cells e.to) × (length durable.old ≡ cells e.to) × SameShape e.from e.to }
    ensures { Made e.to budget result (end_stores e parity) (tables_of sectors.old written.old durable.old) (tables_of sectors.new written.new durable.new) }
{
    let here = e.here;
    let closed = append_closing(
        sectors,
        written,
        e.to,
        e.drive,
        parity,
        e.generation,
        budget,
    );
    let flushed = super::flushing::flush_all(written, durable, e.to, here, closed);
    tables::stores::reset_counted(written, durable, e.to, true, e.drive, SPARE_ZONE, flushed)
}

// Empties a drive's general log into its spare zone.
pub fn empty_general(
    sectors: &mut [u8],
    written: &mut [u32],
    durable: &mut [u32],
    pointers: &[u32],
    e: Emptying,
    generations: &[u64],
    budget: u64,
) -> u64
    requires valid { Valid e.from }
    requires copying { Copying false e pointers.now sectors.old written.old × (e.from.zones ≤ length generations.now) × (length durable.old ≡ cells e.from) }
    ensures { Made e.to budget result (emptied_to e false (map (encode e.from e.drive) (copied_headers e generations.now pointers.now sectors.old)))
        (tables_of sectors.old written.old durable.old) (tables_of sectors.new written.new durable.new) }
{
    let here = e.here;
    let flushed = super::flushing::flush_all(written, durable, e.to, here, budget);
    let copied = copy_general(sectors, written, pointers, e, generations, flushed);
    end_emptying(sectors, written, durable, e, false, copied)
}
