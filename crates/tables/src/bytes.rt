// Little-endian numbers in a list of bytes.
ghost use Rattle.std.specs.Prelude.{◌≡◌, ◌+◌, ◌≤◌, ◌<◌, length};
ghost use Rattle.tables.specs.meaning.LittleEndian.{read_le};
ghost use Rattle.tables.specs.laws.LittleEndian.{write_le};

// A byte as a number, below 256.
pub fn wide(x: u8) -> u64
    ensures { (result ≡ x) × (result < 256) }
{
    x as u64
}

// The number in the four bytes from `at`.
pub fn read_u32(s: &[u8], at: usize) -> u32
    requires { at + 4 ≤ length s.now }
    ensures { result ≡ read_le 4 s.now at }
{
    u32::from_le_bytes([s[at], s[at + 1], s[at + 2], s[at + 3]])
}

// Writes n as four bytes from `at`.
pub fn write_u32(s: &mut [u8], at: usize, n: u32)
    requires { at + 4 ≤ length s.old }
    ensures { s.new ≡ write_le 4 s.old at n }
{
    s[at..at + 4].copy_from_slice(&n.to_le_bytes());
}

// The number in the eight bytes from `at`.
pub fn read_u64(s: &[u8], at: usize) -> u64
    requires { at + 8 ≤ length s.now }
    ensures { result ≡ read_le 8 s.now at }
{
    u64::from_le_bytes([
        s[at],
        s[at + 1],
        s[at + 2],
        s[at + 3],
        s[at + 4],
        s[at + 5],
        s[at + 6],
        s[at + 7],
    ])
}

// Writes n as eight bytes from `at`.
pub fn write_u64(s: &mut [u8], at: usize, n: u64)
    requires { at + 8 ≤ length s.old }
    ensures { s.new ≡ write_le 8 s.old at n }
{
    s[at..at + 8].copy_from_slice(&n.to_le_bytes());
}
