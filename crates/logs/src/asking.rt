// One loop over the whole entries of a log that carries a value from entry to entry.
ghost use Rattle.std.specs.Prelude.{◌≡◌, ℕ};
ghost use Rattle.tables.specs.meaning.Geometry.{Valid};
ghost use Rattle.logs.specs.declared.Found.{Found};
ghost use Rattle.logs.specs.code.WalkCode.{InLog};
ghost use Rattle.logs.specs.code.Query.{log_heads};
ghost use Rattle.logs.specs.code.Folding.{fold_heads, Callable, Runs};

use super::{Found, Log};
use tables::Geometry;

// A fold over all whole entries of a log: the step is told the value so far, the sector where an entry begins, and what the entry is. Where
// it computes a function `run`, the fold is that function's (specs: `fold_heads`). Its steps are the walk (specs: `steps-are-the-walk`).
pub fn fold_log<T: Copy, F: Fn(T, usize, Found) -> T>(
    sectors: &[u8],
    g: Geometry,
    log: Log,
    parity: bool,
    start: T,
    step: F,
) -> T
    requires valid { Valid g }
    requires in_log { InLog g log.drive log.zone log.written sectors.now }
    requires callable { Callable g (F.pre step) }
    ensures { (run : T → ℕ → Found → T) → Runs g (F.post step) run → result ≡ fold_heads g run 0 start (log_heads g log.drive parity log.zone log.written sectors.now) }
{
    let mut x = start;
    let mut p = 0;
    // kept: where the next entry begins is known only from this one, so there is no range to go over.
    while let Ok((f, q)) = super::walking::next_entry(sectors, g, log, parity, p) {
        x = step(x, p, f);
        p = q;
    }
    x
}
