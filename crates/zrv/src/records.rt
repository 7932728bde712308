// A write and a read by the record of one zone: all that they take of the state's bytes, and of the table of durable pointers only refusal 3. So a call that
// touches one zone reads and writes little more than that zone's part of the state. A write takes one share too; where it gives its host one zone more, it takes all
// records.
ghost use Rattle.std.specs.Prelude.{◌≡◌, false, ◌+◌, ◌-◌, ◌*◌, ◌<◌, length};
ghost use Rattle.tables.specs.meaning.Geometry.{Valid, cells};
ghost use Rattle.volume.specs.meaning.Refusals.{zone_of, offset_of};
ghost use Rattle.volume.specs.meaning.CallContracts.{record_at, view_state};
ghost use Rattle.volume.specs.writing.Allowances.{allowance_of};
ghost use Rattle.zrv.specs.meaning.EdgeCalls.{ranges};
ghost use Rattle.zrv.specs.meaning.Bytes.{state_bytes, state_from};
ghost use Rattle.zrv.specs.laws.ByRecord.{record_in, InputTaken, handed_record, WrittenAs};

use tables::Geometry;
use volume::by_record::{ByRecord, Recorded};
use volume::hosts::Allowance;
use volume::{Condition, HOSTS, ZoneRecord};

// What is asked of a write beside its ranges.
#[derive(Clone, Copy)]
pub struct WriteCall {
    pub geometry: Geometry,
    pub named: [bool; 8],
    pub host: u32,
    pub address: u64,
    pub run: u32,
    pub count: u32,
}

// What a call takes of its input for the zone of an address.
pub fn record_of(
    g: Geometry,
    named: [bool; 8],
    state: &[u8],
    written: &[u32],
    durable: &[u8],
    address: u64,
) -> ByRecord
    requires valid { Valid g }
    requires logs_value { (g.logs ≡ 0) × (length state.now ≡ state_bytes) × (length written.now ≡ cells g) × (length durable.now ≡ cells g * 4) }
    ensures { result ≡ record_in g named state.now written.now durable.now address }
{
    let bad = super::words::pointers_bad(g, named, written, durable);
    let z = volume::reading::zone_of(g, address);
    let record = super::state::record_at(g, state, z);
    let lost = tables::bytes::read_u64(state, 0) as usize;
    ByRecord {
        geometry: g,
        named,
        lost,
        record,
        bad,
    }
}

// What the state says of the host of a write of `run` sectors from an address, in zone z, whose record this is. Where the zone is the host's already, or the write
// reaches the zone's end, no other record is read.
fn allowance_in(
    g: Geometry,
    state: &[u8],
    record: ZoneRecord,
    z: usize,
    host: u32,
    address: u64,
    run: u32,
) -> Allowance
    requires valid { Valid g }
    requires state_len { (length state.now ≡ state_bytes) × (z < g.zones) × (host < 2) × («record» ≡ record_at (state_from g state.now) z) }
    ensures { result ≡ allowance_of g (view_state (state_from g state.now)) host z (offset_of g address + run) }
{
    let by = host as usize;
    let most = tables::bounds::zone_sectors(g);
    let end = volume::reading::offset_of(g, address) + run as usize;
    let adds = volume::hosts::adds_zone(record, most, by, end);
    if adds | (most < end) {
        let whole = super::state::state_from(g, state);
        return volume::hosts::allowance_of(g, whole, by, z, end);
    }
    let entry = volume::write_room::entry_drive(g, z, end);
    let at = volume::hosts::share_place(entry.drive, by);
    let share = super::state::share_at(state, at);
    Allowance {
        known: true,
        limits: Ok(()),
        share: share as usize,
    }
}

// A share with so many sectors off it.
fn share_less(share: u32, taken: usize) -> u32
    ensures { result ≡ share - taken }
{
    (share as usize).saturating_sub(taken) as u32
}

// What a write by a host that was made returns; finished, it leaves the lost drive, the record of zone z and the host's share in the state's bytes.
fn hand_record(tried: Recorded, host: u32, generation: u64, z: usize, state: &mut [u8]) -> u64
    requires { (length state.old ≡ state_bytes) × (z < 16) × (host < 2) × (tried.drive < 8) }
    ensures { handed_record tried host generation z state.old result state.new }
{
    let rest = tried.rest;
    if rest == 0 {
        return 255;
    }
    let by = host as usize;
    let lost = tried.lost;
    let pointer = tried.pointer;
    let taken = tried.taken;
    let at = volume::hosts::share_place(tried.drive, by);
    let old = super::state::share_at(state, at);
    let share = share_less(old, taken);
    let owner = volume::hosts::owner_of(by);
    super::state::put_parts(
        state,
        lost,
        z,
        ZoneRecord {
            generation,
            condition: Condition::Open(pointer),
            owner,
        },
        at,
        share,
    );
    0
}

// A write by a host that there is, in a zone that there is, if it needs nothing else of the state: what the call returns.
fn write_in_zone(
    asked: WriteCall,
    z: usize,
    sectors: &mut [u8],
    written: &mut [u8],
    durable: &[u8],
    state: &mut [u8],
    buffer: &[u8],
) -> Option<u64>
    requires input_taken { InputTaken asked.geometry state.old (length written.old) (length durable.now) }
    requires z_value { (z ≡ zone_of asked.geometry asked.address) × (z < asked.geometry.zones) × (asked.host < 2) }
    ensures { WrittenAs asked buffer.now (ranges sectors.old written.old durable.now state.old) result (ranges sectors.new written.new durable.now state.new) }
{
    let g = asked.geometry;
    let named = asked.named;
    let host = asked.host;
    let address = asked.address;
    let run = asked.run;
    let count = asked.count;
    let n = tables::bounds::table_cells(g);
    let mut w = [0u32; 152];
    let ws = &mut w[..n];
    super::words::table_from(written, ws);
    let by = record_of(g, named, state, ws, durable, address);
    let record = by.record;
    let allowed = allowance_in(g, state, record, z, host, address, run);
    let made = volume::by_record::write_record(
        sectors, ws, by, host, allowed, address, run, buffer, count,
    )?;
    super::words::table_to(ws, written);
    Some(hand_record(made, host, record.generation, z, state))
}

// A write that passed the tests of its input, if it needs nothing else of the state. If it is not made, nothing has changed.
pub fn write_by_record(
    asked: WriteCall,
    sectors: &mut [u8],
    written: &mut [u8],
    durable: &[u8],
    state: &mut [u8],
    buffer: &[u8],
) -> Option<u64>
    requires { InputTaken asked.geometry state.old (length written.old) (length durable.now) }
    ensures { WrittenAs asked buffer.now (ranges sectors.old written.old durable.now state.old) result (ranges sectors.new written.new durable.now state.new) }
{
    let g = asked.geometry;
    let zones = g.zones;
    let host = asked.host as usize;
    let z = volume::reading::zone_of(g, asked.address);
    if (zones <= z) | (HOSTS <= host) {
        return None;
    }
    write_in_zone(asked, z, sectors, written, durable, state, buffer)
}
