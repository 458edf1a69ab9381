// Uses and wires as they are written in the notation of document 01, and how often a use stands among others.

ghost use Rattle.std.specs.Prelude.{◌≡◌, ◌==◌, count_by, drop, get_or, take};

use rows::lent;
use std::fmt;

// The entry at i, or 0 past the end, as the definition `get_or` has it.
pub fn at(s: &[u32], i: usize) -> u32
    ensures { result ≡ get_or s.now i 0 }
{
    s.get(i).copied().unwrap_or(0)
}

// The first n entries, or all where they are fewer.
pub fn first(s: &[u32], n: usize) -> &[u32]
    ensures { result.now ≡ take n s.now }
{
    &s[..n.min(s.len())]
}

// The entries behind the first n, or none where they are fewer.
pub fn past(s: &[u32], n: usize) -> &[u32]
    ensures { result.now ≡ drop n s.now }
{
    &s[n.min(s.len())..]
}

// A use: the edge number, and + or -.
#[derive(Clone, Copy)]
pub struct Use(pub u32);

impl fmt::Display for Use {
    fn fmt<W: fmt::Write>(&self, f: &mut fmt::Formatter<W>) -> fmt::Result {
        let edge = self.0 / 2;
        let sign = if self.0 % 2 == 0 { '+' } else { '-' };
        write!(f, "{edge}{sign}")
    }
}

// The uses of a wire, each with a space before it.
#[derive(Clone, Copy)]
pub struct Wire<'a>(pub &'a [u32]);

impl fmt::Display for Wire<'_> {
    fn fmt<W: fmt::Write>(&self, f: &mut fmt::Formatter<W>) -> fmt::Result {
        for &u in self.0 {
            let written = Use(u);
            write!(f, " {written}")?;
        }
        Ok(())
    }
}

// Wires, a stroke between them.
#[derive(Clone, Copy)]
pub struct Wires<'a>(pub lent::Wires<'a>);

impl fmt::Display for Wires<'_> {
    #[tactic(auto, using(compress::proofs::Wires::length_wires))]
    fn fmt<W: fmt::Write>(&self, f: &mut fmt::Formatter<W>) -> fmt::Result {
        for (k, uses) in self.0.each().enumerate() {
            if k != 0 {
                write!(f, " |")?;
            }
            let wire = Wire(uses);
            write!(f, "{wire}")?;
        }
        Ok(())
    }
}

// ---- the tally

// How often a use stands among others.
pub fn places(uses: &[u32], u: u32) -> usize
    ensures { result ≡ count_by (λ v. v == u) uses.now }
{
    uses.iter().filter(|v| **v == u).count()
}
