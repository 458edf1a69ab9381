// The cuts of one edge: how they lie in their slice, their causes, and whether their parameters rise.

ghost use Rattle.std.specs.Prelude.{◌≡◌, ◌+◌, ◌*◌, ◌≤◌, length};
ghost use Rattle.compress.specs.Refusals.{cause_of};
ghost use Rattle.edge_cuts.specs.cuts.Cuts.{floats_per_cut, cut_at, cuts_in, cut_cause, cuts_cause, rising};

use compress::{Checked, Refusal, Xyz};

// How many floats a cut has: the parameter, x, y, z.
const FLOATS_PER_CUT: usize = 4;

// A cut: the parameter on the edge's curve, and the point there.
#[derive(Clone, Copy)]
pub struct Cut {
    pub t: f64,
    pub point: Xyz,
}

// The cuts of one edge, as a host lends them: the edge's number, four floats for each cut, and how many they are said to be.
#[derive(Clone, Copy)]
pub struct EdgeCuts<'a> {
    pub edge: u32,
    pub floats: &'a [f64],
    pub count: usize,
}

// ---- the cuts

// Causes 4 and 5 of a cut on a curve from t0 to t1.
fn cut_cause(t0: f64, t1: f64, c: Cut) -> Checked
    ensures { cause_of result ≡ cut_cause t0 t1 c }
{
    checks::lower(checks::parameter(t0, t1, c.t), checks::point(c.point))
}

impl EdgeCuts<'_> {
    // The cut of row i.
    pub fn at(&self, i: usize) -> Cut
        requires { i * floats_per_cut + floats_per_cut ≤ length self.now.floats.now }
        ensures { result ≡ cut_at self.now.floats.now i }
    {
        let a = i * FLOATS_PER_CUT;
        Cut {
            t: self.floats[a],
            point: Xyz::read(self.floats, a + 1),
        }
    }

    // Causes 1, 4 and 5 of all cuts, on a curve from t0 to t1. The edge's number is judged where its table is lent, and gives the curve.
    pub fn cause(&self, t0: f64, t1: f64) -> Checked
        ensures { cause_of result ≡ cuts_cause t0 t1 self.now.floats.now self.now.count }
    {
        if self.count > self.floats.len() / FLOATS_PER_CUT {
            return Err(Refusal::Malformed);
        }
        checks::lowest_cause(self.count, |i| cut_cause(t0, t1, self.at(i)))
    }

    // The parameters rise strictly: each is below the next one.
    pub fn rises(&self) -> bool
        requires { self.now.count * floats_per_cut ≤ length self.now.floats.now }
        ensures { result ≡ rising (cuts_in self.now) }
    {
        for i in 1..self.count {
            let below = self.at(i - 1).t < self.at(i).t;
            if !below {
                return false;
            }
        }
        true
    }
}
