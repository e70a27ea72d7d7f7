// A number of a file that has to lie within its field.
ghost use Rattle.std.specs.Prelude.{◌≡◌, ◌≤◌, IfOk};
ghost use Rattle.wire.specs.Fields.{field};

use crate::number::number_at;
use crate::refusal::{Cause, Refusal};

// The number at `at`, which lies from `low` to `high`, and where it ends.
// Bytes and place stay apart in this public call, and in `number_at`; `Reader` has them together.
pub fn read_field(bytes: &[u8], at: usize, low: u16, high: u16) -> Result<(u16, usize), Refusal>
    ensures value { result ≡ field bytes.now at low high }
    ensures within { IfOk result (λ p. (low ≤ p.0) × (p.0 ≤ high)) }
{
    let (n, next) = number_at(bytes, at)?;
    if n < low || n > high {
        return Err(Cause::OutsideField.at(at));
    }
    Ok((n, next))
}
