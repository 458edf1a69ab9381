// Where an edge is cut: k eighths of the way along the range of its curve (document 02, A.3). A k is a number, as a host hands it in, and its cause is
// judged once, by a call: the bound holds for every number, so that no function that cuts an edge asks for a k from 1 to 7.

ghost use Rattle.std.specs.Prelude.{◌≡◌, IfOk};
ghost use Rattle.floats.specs.Exact.{Within};
ghost use Rattle.compress.specs.Refusals.{cause_of};
ghost use Rattle.compress.specs.Said.{said_of};
ghost use Rattle.cutting.specs.parameter.Eighths.{eighths_cause, Parameter, cut_parameter_said};

use compress::{Checked, Curve, Refusal};

// 18 for a k outside 1 to 7.
pub fn eighths_cause(k: u32) -> Checked
    ensures { cause_of result ≡ eighths_cause k }
{
    checks::cause_when((k < 1) | (k > 7), Refusal::EighthsOutOfRange)
}

// The parameter at which a curve is cut, which never leaves the curve's range.
pub fn parameter(c: Curve, k: u32) -> f64
    ensures { Parameter k c result }
{
    let (t0, t1) = c.range();
    floats::cut_parameter(t0, t1, k)
}

// The parameter at which a curve from t0 to t1 is cut, for a caller who has the two alone.
pub fn cut_parameter(t0: f64, t1: f64, k: u32) -> Result<f64, Refusal>
    ensures said { said_of (λ t. t) result ≡ cut_parameter_said k t0 t1 }
    ensures within { IfOk result (λ t. Within t0 t1 t) }
{
    checks::range(t0, t1)?;
    eighths_cause(k)?;
    Ok(floats::cut_parameter(t0, t1, k))
}
