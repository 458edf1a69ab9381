// The calls for hosts that take periods: unwrapping and the nearest copy. A period is lent as a kind, 0 absent and 1 given, and a number.
ghost use Rattle.periodic.specs.host_numbers.Numbers.{host_mindiff, host_copy};
ghost use Rattle.codes.specs.Told.{Told, uv_of};

use compress::Uv;
use periodic::host_numbers::LentPeriod;

// u, moved by whole periods to where it is nearest to u0. 0: done, and `out` holds the number.
// Else the number of the refusal, and `out` is not changed.
#[unsafe(no_mangle)]
pub extern "C" fn kaugrenna_get_mindiff(
    u: f64,
    u0: f64,
    period_kind: u32,
    period: f64,
    out: &mut f64,
) -> i32
    ensures { Told (host_mindiff u u0 period_kind period) out.old out.new result }
{
    let period = LentPeriod {
        kind: period_kind,
        number: period,
    };
    codes::tell(periodic::host_numbers::unwrap_asked(u, u0, period), out)
}

// Of the copies of q, moved by whole periods, the first that is nearest to p. 0: done, and the two places hold the copy.
// Else the number of the refusal, and neither place is changed.
#[unsafe(no_mangle)]
pub extern "C" fn kaugrenna_nearest_copy(
    pu: f64,
    pv: f64,
    qu: f64,
    qv: f64,
    u_kind: u32,
    u_period: f64,
    v_kind: u32,
    v_period: f64,
    u_out: &mut f64,
    v_out: &mut f64,
) -> i32
    ensures { Told (host_copy (uv_of pu pv) (uv_of qu qv) u_kind u_period v_kind v_period)
        (uv_of u_out.old v_out.old) (uv_of u_out.new v_out.new) result }
{
    let p = Uv { u: pu, v: pv };
    let q = Uv { u: qu, v: qv };
    let u = LentPeriod {
        kind: u_kind,
        number: u_period,
    };
    let v = LentPeriod {
        kind: v_kind,
        number: v_period,
    };
    codes::tell_uv(periodic::host_numbers::copy_asked(p, q, u, v), u_out, v_out)
}
