// The C edge's tables: little-endian 32-bit numbers, drive by drive, zone by zone (document 01: "state and tables pass as bytes").
ghost use Rattle.std.specs.Prelude.{◌≡◌, ◌&&◌, ◌*◌, ◌<◌, length};
ghost use Rattle.tables.specs.meaning.Below.{any_below};
ghost use Rattle.tables.specs.meaning.Geometry.{Valid, physical_zones, cells};
ghost use Rattle.tables.specs.meaning.Tables.{pointer_bad, pointers_bad};
ghost use Rattle.zrv.specs.meaning.Bytes.{table_from, table_to};
ghost use Rattle.zrv.specs.laws.EdgeCalls.{Scratch};

use tables::Geometry;

// The table that the bytes hold.
pub fn table_from(bytes: &[u8], table: &mut [u32])
    requires { length bytes.now ≡ length table.old * 4 }
    ensures { table.new ≡ table_from (length table.old) bytes.now }
{
    for (i, word) in table.iter_mut().enumerate() {
        *word = tables::bytes::read_u32(bytes, i * 4);
    }
}

// Both tables that the bytes hold.
pub fn tables_from(g: Geometry, written: &[u8], durable: &[u8], w: &mut [u32], d: &mut [u32])
    requires { Scratch g written.now durable.now w.old d.old }
    ensures { (w.new ≡ table_from (cells g) written.now) × (d.new ≡ table_from (cells g) durable.now) }
{
    table_from(written, w);
    table_from(durable, d);
}

// The bytes of a table.
pub fn table_to(table: &[u32], bytes: &mut [u8])
    requires { length bytes.old ≡ length table.now * 4 }
    ensures { bytes.new ≡ table_to table.now }
{
    for (i, word) in table.iter().enumerate() {
        tables::bytes::write_u32(bytes, i * 4, *word);
    }
}

// Refusal 3 on one drive, whose durable pointers are still bytes.
fn drive_bad(g: Geometry, d: usize, written: &[u32], durable: &[u8]) -> bool
    requires valid { Valid g }
    requires logs_value { (g.logs ≡ 0) × (d < g.drives) × (length written.now ≡ cells g) × (length durable.now ≡ cells g * 4) }
    ensures { result ≡ any_below (pointer_bad g written.now (table_from (cells g) durable.now) d) (physical_zones g) }
{
    let row = tables::stores::row_of(g, d);
    let mut bad = false;
    for y in 0..g.zones + tables::DATA_ZONES {
        let at = row + y;
        let durable_at = tables::bytes::read_u32(durable, at * 4);
        bad |= (g.capacity < written[at] as usize) | (written[at] < durable_at);
    }
    bad
}

// Refusal 3: whether a named drive has a pointer that no drive can have.
#[tactic(auto, unfolding(tables::specs::meaning::Tables::pointers_bad))]
pub fn pointers_bad(g: Geometry, named: [bool; 8], written: &[u32], durable: &[u8]) -> bool
    requires valid { Valid g }
    requires logs_value { (g.logs ≡ 0) × (length written.now ≡ cells g) × (length durable.now ≡ cells g * 4) }
    ensures { result ≡ pointers_bad g named written.now (table_from (cells g) durable.now) }
{
    let mut bad = false;
    for d in 0..g.drives {
        bad |= named[d] && drive_bad(g, d, written, durable);
    }
    bad
}
