// The script as it comes in.
ghost use Rattle.std.specs.Prelude.{◌≤◌, length, IfOk};

use std::io;
use std::io::Read;

// Reads to the end of the input, or until the space is full; how many bytes were read.
pub fn read_full(input: &mut impl Read, space: &mut [u8]) -> io::Result<usize>
    ensures { IfOk result (λ n. n ≤ length space.new) }
{
    let mut n = 0;
    for _ in 0..u64::MAX {
        let got = input.read(&mut space[n..])?;
        if got == 0 {
            break;
        }
        n += got;
    }
    Ok(n)
}
