// The call for hosts that tells where an edge would be cut.
ghost use Rattle.healing.specs.Host.{HostCutParameter};

// The parameter k eighths of the way from t0 to t1, at which the closed-edge pass cuts. 0: done, and `t_out` holds it, never outside t0 to t1.
// Else the number of the refusal, and `t_out` is not changed.
#[unsafe(no_mangle)]
pub extern "C" fn kaugrenna_cut_parameter(t0: f64, t1: f64, k: u32, t_out: &mut f64) -> i32
    ensures { HostCutParameter k t0 t1 t_out.old t_out.new result }
{
    codes::tell(cutting::parameter::cut_parameter(t0, t1, k), t_out)
}
