// What a host lends as a number: the kind of a period.

ghost use Rattle.std.specs.Prelude.{◌≡◌};
ghost use Rattle.compress.specs.Said.{said_of};
ghost use Rattle.periodic.specs.host_numbers.Numbers.{period_said, host_mindiff, host_copy};

use compress::{Refusal, Uv};

// A period, as a host lends it: its kind, 0 for an absent one and 1 for a number, and the number.
#[derive(Clone, Copy)]
pub struct LentPeriod {
    pub kind: u32,
    pub number: f64,
}

impl LentPeriod {
    // The period, where its kind is known. The number of an absent one is no input. No TryFrom for Option<f64>: each call would name that type.
    pub fn known(self) -> Result<Option<f64>, Refusal>
        ensures { said_of (λ p. p) result ≡ period_said self.kind self.number }
    {
        match self.kind {
            0 => Ok(None),
            1 => Ok(Some(self.number)),
            _ => Err(Refusal::Malformed),
        }
    }
}

// Unwrapping, where the period's kind is known; else its refusal, ahead of every other.
pub fn unwrap_asked(u: f64, u0: f64, period: LentPeriod) -> Result<f64, Refusal>
    ensures { said_of (λ x. x) result ≡ host_mindiff u u0 period.kind period.number }
{
    crate::get_mindiff(u, u0, period.known()?)
}

// The nearest copy, where both kinds are known.
pub fn copy_asked(p: Uv, q: Uv, u: LentPeriod, v: LentPeriod) -> Result<Uv, Refusal>
    ensures { said_of (λ x. x) result ≡ host_copy p q u.kind u.number v.kind v.number }
{
    let up = u.known()?;
    let vp = v.known()?;
    crate::nearest_copy(p, q, up, vp)
}
