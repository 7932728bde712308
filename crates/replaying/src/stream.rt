// The stream of a seed, and the power cut that is drawn from it.
ghost use Rattle.std.specs.Prelude.{◌≡◌, ◌<◌, length};

// The stream's number before its first.
fn seed_start(seed: u64) -> u64
    ensures { result < 2147483648 }
{
    seed % 2147483648
}

// The stream's next number.
fn next_draw(x: u64) -> u64
    requires { x < 2147483648 }
    ensures { result < 2147483648 }
{
    (x * 1103515245 + 12345) % 2147483648
}

// The byte of a number of the stream.
fn draw_byte(x: u64) -> u8 {
    ((x / 65536) % 256) as u8
}

// Fills a buffer with the stream's bytes.
pub fn fill(out: &mut [u8], seed: u64) {
    let mut x = seed_start(seed);
    for byte in out.iter_mut() {
        x = next_draw(x);
        *byte = draw_byte(x);
    }
}

// A pointer after a cut: the durable one, or one between it and the written one.
fn cut_pointer(written: u32, durable: u32, x: u64) -> u32 {
    if written < durable {
        return durable;
    }
    let gap = (written - durable) as u64 + 1;
    durable + ((x / 65536) % gap) as u32
}

// A power cut over tables of one length: of what is not durable each zone keeps as much as the stream says.
pub fn cut(written: &mut [u32], durable: &mut [u32], seed: u64)
    requires { length written.old ≡ length durable.old }
{
    let mut x = seed_start(seed);
    for (w, d) in written.iter_mut().zip(durable) {
        x = next_draw(x);
        let pointer = cut_pointer(*w, *d, x);
        *w = pointer;
        *d = pointer;
    }
}
