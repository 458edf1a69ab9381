// Document 000, `split_closed_faces.rs`: kind of wire, sorting of wires.
#![tactic(auto)]

ghost use Rattle.std.specs.Prelude.{◌≡◌, true, false, ◌+◌, ◌-◌, ◌*◌, ◌≤◌, length, take};
ghost use Rattle.compress.specs.Refusals.{cause_of};
ghost use Rattle.compress.specs.Said.{said_of, said_if};
ghost use Rattle.wire_kinds.specs.Kinds.{floats_per_wire, boundary_number, is_closed, boundary_type, kind_cause_of, boundary_type_said, ends_at, type_at, is_open, wanted_below, sort_cause, unsorted, sort_wires};

use compress::{Checked, Refusal, Uv};

// ---- kind of wire

// `BoundaryType`.
#[derive(Clone, Copy, PartialEq, Eq)]
pub enum BoundaryType {
    Positive = 0,
    Negative = 1,
    NotClosed = 2,
}

// The number of a kind of wire, as a host is told it.
impl From<BoundaryType> for u32 {
    ghost from_gives = { λ t n. n ≡ boundary_number t };

    fn from(t: BoundaryType) -> u32 {
        t as u32
    }
}

// The first point, the last point and the area of a wire.
#[derive(Clone, Copy)]
struct Ends {
    first: Uv,
    last: Uv,
    area: f64,
}

// Squared distances of the ends below this are closed.
const CLOSING: f64 = 1.0e-3;

fn is_closed(a: Uv, b: Uv) -> bool
    ensures { result ≡ is_closed a b }
{
    floats::distance2_uv(a, b) < CLOSING
}

fn kind_of(wire: Ends) -> BoundaryType
    ensures { result ≡ boundary_type wire.first wire.last wire.area }
{
    if !is_closed(wire.first, wire.last) {
        BoundaryType::NotClosed
    } else if wire.area > 0.0 {
        BoundaryType::Positive
    } else {
        BoundaryType::Negative
    }
}

fn kind_cause(wire: Ends) -> Checked
    ensures { cause_of result ≡ kind_cause_of wire.first wire.last wire.area }
{
    checks::lower(
        checks::uv(wire.first),
        checks::lower(checks::uv(wire.last), checks::float(wire.area)),
    )
}

// `boundary_type` of a wire, from its first point, its last point and its area.
pub fn boundary_type(a: Uv, b: Uv, area: f64) -> Result<BoundaryType, Refusal>
    ensures { said_of (λ t. t) result ≡ boundary_type_said a b area }
{
    let wire = Ends {
        first: a,
        last: b,
        area,
    };
    kind_cause(wire)?;
    Ok(kind_of(wire))
}

// ---- sorting of wires

// How many floats a wire has: u, v of its first and of its last end, and its area.
const FLOATS_PER_WIRE: usize = 5;

// The ends of wires, as a host lends them: a row of floats each, and how many wires they are said to be. No trait over these rows, those of cuts and those
// of a divisor: a row has five floats, four, or two and a number in a second slice, each has its own causes, and `checks::lowest_cause` is the loop of all. Nor a
// `rows::tables::Row`, which has numbers in each row, is written too, and is one of at most 4,096.
#[derive(Clone, Copy)]
pub struct LentEnds<'a> {
    pub floats: &'a [f64],
    pub count: usize,
}

impl LentEnds<'_> {
    // The wire of row i.
    fn at(&self, i: usize) -> Ends
        requires { i * floats_per_wire + floats_per_wire ≤ length self.now.floats.now }
        ensures { result ≡ ends_at self.now.floats.now i }
    {
        let floats = self.floats;
        let a = i * FLOATS_PER_WIRE;
        Ends {
            first: Uv::read(floats, a),
            last: Uv::read(floats, a + 2),
            area: floats[a + 4],
        }
    }

    // Causes 1 and 4 of all wires.
    fn cause(&self) -> Checked
        ensures { cause_of result ≡ sort_cause self.now.floats.now self.now.count }
    {
        if self.count > 64 || self.floats.len() < self.count * FLOATS_PER_WIRE {
            return Err(Refusal::Malformed);
        }
        checks::lowest_cause(self.count, |i| kind_cause(self.at(i)))
    }

    // Wire i is open.
    fn is_open(&self, i: usize) -> bool
        requires { i * floats_per_wire + floats_per_wire ≤ length self.now.floats.now }
        ensures { result ≡ is_open (type_at self.now.floats.now i) }
    {
        kind_of(self.at(i)) == BoundaryType::NotClosed
    }

    // The numbers of the open wires, and of the closed ones, both in order, to the front of their slices; how many are open.
    fn gather(&self, opens: &mut [u32], closed: &mut [u32]) -> usize
        requires wires_in { (self.now.count ≤ 64) × (self.now.count * floats_per_wire ≤ length self.now.floats.now) }
        requires room { (self.now.count ≤ length opens.old) × (self.now.count ≤ length closed.old) }
        ensures at_most { result ≤ self.now.count }
        ensures open_count { result ≡ length (wanted_below self.now.floats.now true self.now.count) }
        ensures closed_count { self.now.count - result ≡ length (wanted_below self.now.floats.now false self.now.count) }
        ensures opens_after { take result opens.new ≡ wanted_below self.now.floats.now true self.now.count }
        ensures closed_after { take (self.now.count - result) closed.new ≡ wanted_below self.now.floats.now false self.now.count }
    {
        // How many are open is the place of the next one, and i - at are closed. Slices and no ArrayVec, by a rule of the project: what hosts link
        // stands on std alone (docs/DECISIONS.md).
        let mut at: usize = 0;
        for i in 0..self.count {
            if self.is_open(i) {
                opens[at] = i as u32;
                at += 1;
            } else {
                closed[i - at] = i as u32;
            }
        }
        at
    }

    fn sort_checked(&self, opens: &mut [u32], closed: &mut [u32]) -> Result<Option<usize>, Refusal>
        requires { sort_cause self.now.floats.now self.now.count ≡ 0 }
        ensures { let ends = self.now in
            unsorted (said_if (λ n. n) result) opens.new closed.new ≡ sort_wires ends.floats.now ends.count opens.old closed.old }
    {
        let mut found = [0u32; 64];
        let mut rest = [0u32; 64];
        let n = self.gather(&mut found, &mut rest);
        let k = self.count - n;
        if n != 2 {
            return Ok(None);
        }
        if opens.len() < 2 || closed.len() < k {
            return Err(Refusal::NoRoom);
        }
        opens[..2].copy_from_slice(&found[..2]);
        closed[..k].copy_from_slice(&rest[..k]);
        Ok(Some(k))
    }
}

// The sorting of wires: the numbers of the two open ones, and of the closed ones, both in given order. The answer is how many are closed,
// or "none".
pub fn sort_wires(
    ends: &LentEnds,
    opens: &mut [u32],
    closed: &mut [u32],
) -> Result<Option<usize>, Refusal>
    ensures { unsorted (said_if (λ n. n) result) opens.new closed.new ≡
        sort_wires ends.now.floats.now ends.now.count opens.old closed.old }
{
    ends.cause()?;
    ends.sort_checked(opens, closed)
}
