// The reader of a log: it is laid over the zone's own sectors, holds a reference to their bytes and copies none. The prover covers no function
// over a struct that holds a reference. So these are thin, with no loop or branch, and proved by hand over the contracts of the covered
// `walk_zone` and `step_in_zone`; and a caller of `legal_end` or `next_step`, whose parameters are plain, is covered again.
ghost use Rattle.std.specs.Prelude.{◌≡◌, ◌≤◌};
ghost use Rattle.tables.specs.meaning.Geometry.{Valid};
ghost use Rattle.logs.specs.code.ZoneWalk.{InZone, LegalEnd, step_in_zone};

use super::{Found, WalkEnd};
use tables::Geometry;

// A log in its zone: the zone's bytes, the drive, whether it is a parity log, and the zone's written pointer.
#[derive(Clone, Copy)]
pub struct LogReader<'a> {
    pub bytes: &'a [u8],
    pub geometry: Geometry,
    pub drive: usize,
    pub parity: bool,
    pub written: usize,
}

// Lays a reader over a zone's bytes.
pub fn lay<'a>(
    bytes: &'a [u8],
    geometry: Geometry,
    drive: usize,
    parity: bool,
    written: usize,
) -> LogReader<'a>
    ensures { (result.bytes ≡ bytes.entry) × ((result.geometry ≡ geometry) × ((result.drive ≡ drive) × ((result.parity ≡ parity) × (result.written ≡ written)))) }
{
    LogReader {
        bytes,
        geometry,
        drive,
        parity,
        written,
    }
}

// Where the legal part of the reader's log ends, and why.
pub fn walk<'a>(r: LogReader<'a>) -> WalkEnd
    requires { Valid r.geometry × InZone r.geometry r.written r.bytes.now }
    ensures { LegalEnd r.entry.geometry r.entry.drive r.entry.parity r.entry.written r.entry.bytes.now result }
{
    super::walking::walk_zone(r.bytes, r.geometry, r.drive, r.parity, r.written)
}

// One step of the walk of the reader's log, at sector p.
pub fn step<'a>(r: LogReader<'a>, p: usize) -> Result<(Found, usize), WalkEnd>
    requires { Valid r.geometry × (InZone r.geometry r.written r.bytes.now × (p ≤ r.written)) }
    ensures { result ≡ step_in_zone r.entry.geometry r.entry.drive r.entry.parity r.entry.written r.entry.bytes.now p }
{
    super::walking::step_in_zone(r.bytes, r.geometry, r.drive, r.parity, r.written, p)
}

// The walk, for a caller with plain parameters.
pub fn legal_end(
    bytes: &[u8],
    geometry: Geometry,
    drive: usize,
    parity: bool,
    written: usize,
) -> WalkEnd
    requires { Valid geometry × InZone geometry written bytes.now }
    ensures { LegalEnd geometry drive parity written bytes.now result }
{
    walk(lay(bytes, geometry, drive, parity, written))
}

// The step, for a caller with plain parameters.
pub fn next_step(
    bytes: &[u8],
    geometry: Geometry,
    drive: usize,
    parity: bool,
    written: usize,
    p: usize,
) -> Result<(Found, usize), WalkEnd>
    requires { Valid geometry × (InZone geometry written bytes.now × (p ≤ written)) }
    ensures { result ≡ step_in_zone geometry drive parity written bytes.now p }
{
    step(lay(bytes, geometry, drive, parity, written), p)
}
