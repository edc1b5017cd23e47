// The items of a model by number, and what is asked of them. An item that is not there is blank.

ghost use Rattle.std.specs.Prelude.{◌≡◌, ◌+◌, ◌*◌, min};
ghost use Rattle.model_format.specs.Model as model;

use crate::Thread;
use crate::limits::{MAX_EACH, MAX_TIMES, MAX_TRANSITIONS};

// The mark of a critical thread.
const CRITICAL: u8 = 1;

// The place of an atom or assignment j of transition k; past the room always the first place past it, so that no sum wraps.
pub fn place(k: usize, j: usize) -> usize
    ensures { result ≡ min (k * model.max_each + j) model.max_times }
{
    if MAX_TRANSITIONS <= k || MAX_TIMES <= j {
        return MAX_TIMES;
    }
    MAX_TIMES.min(k * MAX_EACH + j)
}

// Bit `mode` of a mask.
pub fn in_mode(mask: u8, mode: u8) -> bool
    ensures { result ≡ model.in_mode mask mode }
{
    mode < 8 && (mask >> mode) % 2 == 1
}

pub fn is_critical(x: Thread) -> bool
    ensures { result ≡ model.is_critical x }
{
    x.critical == CRITICAL
}

pub fn critical_in(x: Thread, mode: u8) -> bool
    ensures { result ≡ model.critical_in x mode }
{
    is_critical(x) && in_mode(x.modes, mode)
}
