// A write and a read by what the state says of one zone, for callers that hold the state in another form (the C edge: as bytes) and would have to read all of
// it. The write is made where it needs nothing else of the state, which is where it needs no log but that of its entry; the read never does.
ghost use Rattle.std.specs.Prelude.{◌≡◌, false, ◌<◌};
ghost use Rattle.tables.specs.meaning.Geometry.{Valid, zone_sectors};
ghost use Rattle.volume.specs.meaning.RefusalNumbers.{number_of};
ghost use Rattle.volume.specs.checks.ByRecord.{RecordFits};
ghost use Rattle.volume.specs.writing.Writing.{write_asked};
ghost use Rattle.volume.specs.writing.WriteByRecord.{recorded_of, WrittenBy};
ghost use Rattle.volume.specs.reading.ReadByRecord.{ReadBy};

use super::checks::Sizes;
use super::hosts::Allowance;
use super::write_directly::WriteMade;
use super::writing::Run;
use super::{Refusal, Zone, ZoneRecord};
use tables::{Geometry, MAX_DRIVES};

// What a call on one zone takes of its input beside the tables: the geometry, the drives named, of the state the lost drive and the record of the
// address's zone, and whether refusal 3 applies.
#[derive(Clone, Copy)]
pub struct ByRecord {
    pub geometry: Geometry,
    pub named: [bool; MAX_DRIVES],
    pub lost: usize,
    pub record: ZoneRecord,
    pub bad: bool,
}

// Of a write that was made, what is left of its budget of stores, and of the state that it hands on the lost drive, the zone's pointer, and the drive where
// its entry is off its host's share, with the entry's sectors.
#[derive(Clone, Copy)]
pub struct Recorded {
    pub rest: u64,
    pub lost: usize,
    pub pointer: usize,
    pub drive: usize,
    pub taken: usize,
}

// What is told of a write that was made.
fn recorded_of(run: Run, made: WriteMade) -> Recorded
    requires valid { Valid run.zone.geometry }
    requires pointer_bound { (run.pointer < zone_sectors run.zone.geometry) × (run.count < 4294967296) }
    ensures { result ≡ recorded_of run made }
{
    let here = run.zone.here;
    let entry = made.entry;
    let pointer = run.pointer + run.count;
    let absent = super::checks::left_out(run.zone.geometry, here);
    Recorded {
        rest: made.rest,
        lost: absent,
        pointer,
        drive: entry.drive,
        taken: entry.sectors,
    }
}

// The write of `run` sectors from an address, out of a buffer, by a host that may do so much. If it is not made, nothing has changed.
pub fn write_record(
    sectors: &mut [u8],
    written: &mut [u32],
    by: ByRecord,
    host: u32,
    allowance: Allowance,
    address: u64,
    run: u32,
    buffer: &[u8],
    count: u32,
) -> Option<Recorded>
    requires valid { Valid by.geometry }
    requires record_fits { RecordFits by written.old }
    ensures { WrittenBy by (write_asked host address run buffer.now) allowance count sectors.old written.old sectors.new written.new result }
{
    let g = by.geometry;
    let named = by.named;
    let record = by.record;
    let c = record.condition;
    let sizes = Sizes {
        sectors: sectors.len(),
        count: run as u64,
        bytes: buffer.len(),
    };
    if super::checks::opened(g, named, by.lost, sizes, by.bad).is_err() {
        return None;
    }
    let number = super::reading::zone_of(g, address);
    if g.zones <= number {
        return None;
    }
    let here = super::checks::present_drives(g, named, by.lost);
    let zone = Zone {
        geometry: g,
        here,
        number,
        generation: record.generation,
    };
    let pointer = super::reading::offset_of(g, address);
    let asked = Run {
        zone,
        pointer,
        count: run as usize,
        host: host as usize,
        allowance,
    };
    match super::write_directly::write_alone(sectors, written, asked, c, buffer, count) {
        Ok(Some(made)) => Some(recorded_of(asked, made)),
        Ok(None) => None,
        Err(_) => None,
    }
}

// The read of `count` sectors from an address: accepted, the buffer holds them.
pub fn read_record(
    sectors: &[u8],
    written: &[u32],
    by: ByRecord,
    address: u64,
    count: u32,
    out: &mut [u8],
) -> Result<(), Refusal>
    requires valid { Valid by.geometry }
    requires record_fits { RecordFits by written.now }
    ensures { ReadBy by address count sectors.now written.now out.old (number_of result) out.new }
{
    let g = by.geometry;
    let named = by.named;
    let record = by.record;
    let c = record.condition;
    let sizes = Sizes {
        sectors: sectors.len(),
        count: count as u64,
        bytes: out.len(),
    };
    super::checks::opened(g, named, by.lost, sizes, by.bad)?;
    let number = super::reading::zone_of(g, address);
    let zones = g.zones;
    if zones <= number {
        return Err(Refusal::Address);
    }
    let here = super::checks::present_drives(g, named, by.lost);
    let zone = Zone {
        geometry: g,
        here,
        number,
        generation: record.generation,
    };
    let offset = super::reading::offset_of(g, address);
    super::reading::read_zone(sectors, written, zone, c, offset, count as usize, out)
}
