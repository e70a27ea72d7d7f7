// Numbers in groups of seven bits, lowest group first.
ghost use Rattle.std.specs.Prelude.{◌≡◌, IfOk, MatchResult};
ghost use Rattle.wire.specs.Number.{Begins, RefusedNumber, Shortest, Written, groups, read_number, value, refusal, number_at, Puts};

use crate::refusal::{Cause, Refusal};

// The largest third group: 65,535 has 3 there.
const LAST_GROUP: u8 = 3;

// The number at the front of `bytes`, and what follows it.
#[tactic(auto, using(crate::proofs::Shortest::shortest, crate::proofs::Groups::one, crate::proofs::Groups::two, crate::proofs::Groups::three))]
pub fn read_number(bytes: &[u8]) -> Result<(u16, &[u8]), Cause>
    ensures reads { MatchResult result (λ p. read_number bytes.now ≡ value p.0 p.1.now) (λ e. read_number bytes.now ≡ refusal e) }
    ensures means { MatchResult result (λ p. Begins bytes.now p.0 p.1.now) (λ e. RefusedNumber bytes.now e) }
    ensures shortest { Shortest }
{
    match bytes {
        [] => Err(Cause::BytesRunOut),
        [a, rest @ ..] if *a < 128 => Ok((u16::from(*a), rest)),
        [_] => Err(Cause::BytesRunOut),
        [_, 0, ..] => Err(Cause::NotANumber),
        [a, b, rest @ ..] if *b < 128 => Ok((u16::from(*a - 128) + 128 * u16::from(*b), rest)),
        [_, _] => Err(Cause::BytesRunOut),
        [a, b, c, rest @ ..] => {
            if *c == 0 || *c > LAST_GROUP {
                Err(Cause::NotANumber)
            } else {
                Ok((
                    u16::from(*a - 128) + 128 * u16::from(*b - 128) + 16384 * u16::from(*c),
                    rest,
                ))
            }
        }
    }
}

// The number that begins at `at`, and where it ends.
#[tactic(auto, unfolding(crate::specs::Number::number_at))]
pub fn number_at(bytes: &[u8], at: usize) -> Result<(u16, usize), Refusal>
    ensures { result ≡ number_at bytes.now at }
{
    let Some(from) = bytes.get(at..) else {
        return Err(Cause::BytesRunOut.at(at));
    };
    match read_number(from) {
        Ok((n, rest)) => Ok((n, bytes.len() - rest.len())),
        Err(cause) => Err(cause.at(at)),
    }
}

// Writes the bytes from `at` on and says where they end; where they do not fit, writes nothing.
fn put(out: &mut [u8], at: usize, bytes: &[u8]) -> Result<usize, Refusal>
    ensures { Puts out.old out.new at bytes.now result }
{
    let room = out.len();
    if at > room || bytes.len() > room - at {
        return Err(Cause::OutputTooShort.at(0));
    }
    let end = at + bytes.len();
    out[at..end].copy_from_slice(bytes);
    Ok(end)
}

// Writes `n` from `at` on and says where it ends; where it does not fit, writes nothing.
#[tactic(auto, using(crate::proofs::Shortest::shortest, crate::proofs::Written::written))]
pub fn write_number(out: &mut [u8], at: usize, n: u16) -> Result<usize, Refusal>
    ensures writes { Puts out.old out.new at (groups n) result }
    ensures reads_back { IfOk result (λ e. Written out.old out.new at n e) }
    ensures shortest { Shortest }
{
    match n {
        0..=127 => put(out, at, &[n as u8]),
        128..=16383 => put(out, at, &[(n % 128 + 128) as u8, (n / 128) as u8]),
        _ => put(
            out,
            at,
            &[
                (n % 128 + 128) as u8,
                (n / 128 % 128 + 128) as u8,
                (n / 16384) as u8,
            ],
        ),
    }
}
