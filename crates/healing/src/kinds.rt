// The calls for hosts on the kind of a wire: the kind of one, and the sorting of wires into open and closed ones.
ghost use Rattle.wire_kinds.specs.Kinds.{sort_wires};
ghost use Rattle.codes.specs.Told.{Told, uv_of};
ghost use Rattle.healing.specs.Host.{HostSort, host_kind};

use compress::Uv;
use wire_kinds::LentEnds;

// The kind of a wire, from its first point, its last point and its area. 0: done, and `kind_out` holds 0 for Positive, 1 for Negative
// and 2 for NotClosed. Else the number of the refusal, and `kind_out` is not changed.
#[unsafe(no_mangle)]
pub extern "C" fn kaugrenna_boundary_type(
    u0: f64,
    v0: f64,
    u1: f64,
    v1: f64,
    area: f64,
    kind_out: &mut u32,
) -> i32
    ensures { Told (host_kind (uv_of u0 v0) (uv_of u1 v1) area) kind_out.old kind_out.new result }
{
    let a = Uv { u: u0, v: v0 };
    let b = Uv { u: u1, v: v1 };
    let answer = wire_kinds::boundary_type(a, b, area);
    codes::tell(answer.map(u32::from), kind_out)
}

// The numbers of the two open wires and of the closed ones, both in given order, to the front of their slices. 0: done, and `closed_out`
// holds how many are closed. -1: not exactly two are open. Else the number of the refusal. After -1 and a refusal nothing lent is changed.
#[unsafe(no_mangle)]
pub extern "C" fn kaugrenna_sort_wires(
    ends: &[f64],
    wires: usize,
    open: &mut [u32],
    closed: &mut [u32],
    closed_out: &mut usize,
) -> i32
    ensures { HostSort (sort_wires ends.now wires «open».old closed.old) closed_out.old closed_out.new «open».new closed.new result }
{
    let ends = LentEnds {
        floats: ends,
        count: wires,
    };
    let answer = wire_kinds::sort_wires(&ends, open, closed);
    codes::tell_if(answer, closed_out)
}
