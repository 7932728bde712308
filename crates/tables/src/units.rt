// Units of a stripe copied to their places and added to its row of parity, in one pass.
ghost use Rattle.std.specs.Prelude.{◌≡◌, ◌+◌, ◌≤◌, length, take, drop};
ghost use Rattle.tables.specs.meaning.Lists.{overlay};
ghost use Rattle.tables.specs.meaning.Xor.{xor_bytes};
ghost use Rattle.tables.specs.laws.Within.{Apart};
ghost use Rattle.tables.specs.laws.Overlays.{PartsIn};

// Where three units and the row lie, in one slice. No two of the parts meet.
#[derive(Clone, Copy)]
pub struct Parts {
    pub first: usize,
    pub second: usize,
    pub third: usize,
    pub row: usize,
}

// Lays a unit at `to`, and as the first of a row at `row`.
pub fn lay_unit(bytes: &mut [u8], to: usize, row: usize, a: &[u8])
    requires { (to + length a.now ≤ length bytes.old) × (row + length a.now ≤ length bytes.old) × Apart to row (length a.now) }
    ensures { bytes.new ≡ overlay (overlay bytes.old to a.now) row a.now }
{
    for (i, &x) in a.iter().enumerate() {
        bytes[to + i] = x;
        bytes[row + i] = x;
    }
}

// Lays it there and adds it to the row.
pub fn add_unit(bytes: &mut [u8], to: usize, row: usize, a: &[u8])
    requires { (to + length a.now ≤ length bytes.old) × (row + length a.now ≤ length bytes.old) × Apart to row (length a.now) }
    ensures { bytes.new ≡ overlay (overlay bytes.old to a.now) row (xor_bytes (take (length a.now) (drop row bytes.old)) a.now) }
{
    for (i, &x) in a.iter().enumerate() {
        let before = bytes[row + i];
        bytes[to + i] = x;
        bytes[row + i] = before ^ x;
    }
}

// Lays three units, and their exclusive or as the first of a row.
pub fn lay_three_units(bytes: &mut [u8], parts: Parts, a: &[u8], b: &[u8], c: &[u8])
    requires { (length b.now ≡ length a.now) × (length c.now ≡ length a.now) × PartsIn (length bytes.old) (length a.now) parts }
    ensures { bytes.new ≡ overlay (overlay (overlay (overlay bytes.old parts.first a.now) parts.second b.now) parts.third c.now) parts.row (xor_bytes (xor_bytes a.now b.now) c.now) }
{
    for i in 0..a.len() {
        let (x, y, z) = (a[i], b[i], c[i]);
        bytes[parts.first + i] = x;
        bytes[parts.second + i] = y;
        bytes[parts.third + i] = z;
        bytes[parts.row + i] = x ^ y ^ z;
    }
}

// Lays them and adds them to the row.
pub fn add_three_units(bytes: &mut [u8], parts: Parts, a: &[u8], b: &[u8], c: &[u8])
    requires { (length b.now ≡ length a.now) × (length c.now ≡ length a.now) × PartsIn (length bytes.old) (length a.now) parts }
    ensures { bytes.new ≡ overlay (overlay (overlay (overlay bytes.old parts.first a.now) parts.second b.now) parts.third c.now) parts.row (xor_bytes (xor_bytes (xor_bytes (take (length a.now) (drop parts.row bytes.old)) a.now) b.now) c.now) }
{
    for i in 0..a.len() {
        let (before, x, y, z) = (bytes[parts.row + i], a[i], b[i], c[i]);
        bytes[parts.first + i] = x;
        bytes[parts.second + i] = y;
        bytes[parts.third + i] = z;
        bytes[parts.row + i] = before ^ x ^ y ^ z;
    }
}
