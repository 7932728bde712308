// Adler-32: two sums modulo 65,521, the second of the first one's values.
ghost use Rattle.std.specs.Prelude.{◌≡◌, ◌<◌};
ghost use Rattle.replaying.specs.Adler.{Small};

use super::Sums;

// Before the first byte.
pub fn start_sums() -> Sums
    ensures { Small result }
{
    Sums { low: 1, high: 0 }
}

// With one byte more.
fn add_byte(s: Sums, byte: u64) -> Sums
    requires { Small s × (byte < 256) }
    ensures { Small result }
{
    let low = (s.low + byte) % 65521;
    let high = (s.high + low) % 65521;
    Sums { low, high }
}

// The checksum that the sums stand for.
pub fn sum_number(s: Sums) -> u64
    requires { Small s }
{
    s.high * 65536 + s.low
}

// With all bytes of a list.
fn sum_bytes(s: Sums, bytes: &[u8]) -> Sums
    requires { Small s }
    ensures { Small result }
{
    let mut t = s;
    for byte in bytes {
        t = add_byte(t, u64::from(*byte));
    }
    t
}

// With the eight bytes of a number, the lowest first.
pub fn add_number(s: Sums, n: u64) -> Sums
    requires { Small s }
    ensures { Small result }
{
    sum_bytes(s, &n.to_le_bytes())
}

// With the four bytes of each pointer of a table, the lowest first.
fn sum_words(s: Sums, table: &[u32]) -> Sums
    requires { Small s }
    ensures { Small result }
{
    let mut t = s;
    for pointer in table {
        t = sum_bytes(t, &pointer.to_le_bytes());
    }
    t
}

// The checksum of a list of bytes.
pub fn adler_of(bytes: &[u8]) -> u64 {
    sum_number(sum_bytes(start_sums(), bytes))
}

// The checksum of both tables of pointers, as little-endian numbers.
pub fn adler_of_tables(written: &[u32], durable: &[u32]) -> u64 {
    let sums = sum_words(start_sums(), written);
    sum_number(sum_words(sums, durable))
}
