// Tables of records, as a host lends them: a slice of numbers, a slice of floats, and how many rows they are said to hold.
ghost use Rattle.std.specs.Prelude.{◌≡◌, true, ℕ, List, Float, ◌+◌, ◌*◌, ◌/◌, ◌≤◌, ◌<◌, leb, length};
ghost use Rattle.compress.specs.Layout.{Layout, put};
ghost use Rattle.compress.specs.Records.{front_at};
ghost use Rattle.compress.specs.Rows.{numbers_per_edge, floats_per_edge, numbers_per_vertex, floats_per_vertex, HasEdge, HasRow, edge_at, edge_number_layout, edge_float_layout, vertex_at, vertex_number_layout, vertex_float_layout};
ghost use Rattle.compress.specs.Shell.{rows_fit};
ghost use Rattle.rows.specs.Places.{SameTable};
ghost use Rattle.std.proofs.Common.{rules};

use compress::{
    Edge, FLOATS_PER_EDGE, FLOATS_PER_VERTEX, NUMBERS_PER_EDGE, NUMBERS_PER_VERTEX, Vertex,
};
use std::marker::PhantomData;

// A record that has a row of numbers and a row of floats.
pub trait Row: Copy {
    ghost NUMBERS: { ℕ };

    ghost FLOATS: { ℕ };

    // What rows hold, and how a record lies in its row.
    ghost row_at: { List ℕ → List Float → ℕ → Self };

    ghost number_layout: { Layout ℕ Self };

    ghost float_layout: { Layout Float Self };

    // How many numbers, and how many floats, a row has.
    const NUMBERS: usize;

    const FLOATS: usize;

    // The record of row i.
    fn read(numbers: &[u32], floats: &[f64], i: usize) -> Self
        requires { HasRow NUMBERS FLOATS numbers.now floats.now i }
        ensures { result ≡ row_at numbers.now floats.now i };

    // The record is written to row i.
    fn write(self, numbers: &mut [u32], floats: &mut [f64], i: usize)
        requires { HasRow NUMBERS FLOATS numbers.old floats.old i }
        ensures numbers_after { numbers.new ≡ put number_layout numbers.old i self }
        ensures floats_after { floats.new ≡ put float_layout floats.old i self };

    // A row is short, and has cells of both kinds.
    ghost short: { (NUMBERS ≤ 8) × (FLOATS ≤ 8) };

    ghost filled: { (0 < NUMBERS) × (0 < FLOATS) };
}

impl Row for Edge {
    ghost NUMBERS = { numbers_per_edge };

    ghost FLOATS = { floats_per_edge };

    ghost row_at = { edge_at };

    ghost number_layout = { edge_number_layout };

    ghost float_layout = { edge_float_layout };

    const NUMBERS: usize = NUMBERS_PER_EDGE;

    const FLOATS: usize = FLOATS_PER_EDGE;

    fn read(numbers: &[u32], floats: &[f64], i: usize) -> Edge {
        compress::edge_at(numbers, floats, i)
    }

    fn write(self, numbers: &mut [u32], floats: &mut [f64], i: usize) {
        crate::put_edge(numbers, floats, i, self);
    }

    ghost short = { Prim.search rules };

    ghost filled = { Prim.search rules };
}

impl Row for Vertex {
    ghost NUMBERS = { numbers_per_vertex };

    ghost FLOATS = { floats_per_vertex };

    ghost row_at = { vertex_at };

    ghost number_layout = { vertex_number_layout };

    ghost float_layout = { vertex_float_layout };

    const NUMBERS: usize = NUMBERS_PER_VERTEX;

    const FLOATS: usize = FLOATS_PER_VERTEX;

    fn read(numbers: &[u32], floats: &[f64], i: usize) -> Vertex {
        compress::vertex_at(numbers, floats, i)
    }

    fn write(self, numbers: &mut [u32], floats: &mut [f64], i: usize) {
        crate::put_vertex(numbers, floats, i, self);
    }

    ghost short = { Prim.search rules };

    ghost filled = { Prim.search rules };
}

// A table, to be read. Nothing is checked of it here. The count stays beside the slices in this and in the other lent structs: where it is above what
// was lent, that is cause 1 (the C interface). Where a row is read or written its caller answers for `HasRow`, and no ghost field does: a table is
// made before its count is judged, and rows past the count are written.
#[derive(Clone, Copy)]
pub struct Table<'a, R> {
    pub numbers: &'a [u32],
    pub floats: &'a [f64],
    pub count: usize,
    pub of: PhantomData<R>,
}

impl<'a, R: Row> Table<'a, R> {
    pub fn new(numbers: &'a [u32], floats: &'a [f64], count: usize) -> Table<'a, R>
        ensures numbers_value { result.numbers.now ≡ numbers.now }
        ensures floats_value { result.floats.now ≡ floats.now }
        ensures count_value { result.count ≡ count }
    {
        Table {
            numbers,
            floats,
            count,
            of: PhantomData,
        }
    }

    // The record of row i.
    pub fn at(&self, i: usize) -> R
        requires { HasRow R.NUMBERS R.FLOATS self.now.numbers.now self.now.floats.now i }
        ensures { result ≡ R.row_at self.now.numbers.now self.now.floats.now i }
    {
        R::read(self.numbers, self.floats, i)
    }

    // n rows are within their bound, and a place is lent for each of their cells.
    pub fn fits(&self, n: usize) -> bool
        ensures { result ≡ rows_fit R.NUMBERS R.FLOATS self.now.numbers.now self.now.floats.now n }
    {
        if n > 4096 {
            return false;
        }
        n * R::NUMBERS <= self.numbers.len() && n * R::FLOATS <= self.floats.len()
    }

    // How many rows there is room for behind those that the table is said to hold, until a slice or the bound is full.
    pub fn room(&self) -> usize
        requires { rows_fit R.NUMBERS R.FLOATS self.now.numbers.now self.now.floats.now self.now.count ≡ true }
        ensures { (k : ℕ) → leb k result ≡ rows_fit R.NUMBERS R.FLOATS self.now.numbers.now self.now.floats.now (self.now.count + k) }
    {
        let rows = (self.numbers.len() / R::NUMBERS).min(self.floats.len() / R::FLOATS);
        rows.min(4096) - self.count
    }
}

impl Table<'_, Edge> {
    // The front of a use.
    pub fn front(&self, u: u32) -> u32
        requires { HasEdge self.now.numbers.now self.now.floats.now (u / 2) }
        ensures { result ≡ front_at (edge_at self.now.numbers.now self.now.floats.now) u }
    {
        compress::front_at(self.numbers, self.floats, u)
    }
}

// The vertices, and the edges between them, to be read.
#[derive(Clone, Copy)]
pub struct Tables<'a> {
    pub vertices: Table<'a, Vertex>,
    pub edges: Table<'a, Edge>,
}

// A table, to be written. Two types for what is read and what is written, here and of wires, as std's iterators have them. A shell is two of these and
// wires, and no struct of the three: tried with one lifetime and with three, and at the end of the loan the check did not know what the slices hold.
#[derive(Drop)]
pub struct TableMut<'a, R> {
    pub numbers: &'a mut [u32],
    pub floats: &'a mut [f64],
    pub count: usize,
    pub of: PhantomData<R>,
}

impl<'a, R: Row> TableMut<'a, R> {
    pub fn new(numbers: &'a mut [u32], floats: &'a mut [f64], count: usize) -> TableMut<'a, R>
        ensures numbers_value { result.numbers.now ≡ numbers.old }
        ensures floats_value { result.floats.now ≡ floats.old }
        ensures count_value { result.count ≡ count }
        ensures same_numbers { result.numbers.ghost_name ≡ numbers.entry.ghost_name }
        ensures same_floats { result.floats.ghost_name ≡ floats.entry.ghost_name }
    {
        TableMut {
            numbers,
            floats,
            count,
            of: PhantomData,
        }
    }

    // The table as it is now, to be read.
    pub fn view(&self) -> Table<'_, R>
        ensures numbers_value { result.numbers.now ≡ self.now.numbers.now }
        ensures floats_value { result.floats.now ≡ self.now.floats.now }
        ensures count_value { result.count ≡ self.now.count }
    {
        Table::new(self.numbers, self.floats, self.count)
    }

    // The record is written to row i.
    pub fn put(&mut self, i: usize, record: R)
        requires { HasRow R.NUMBERS R.FLOATS self.old.numbers.now self.old.floats.now i }
        ensures numbers_after { self.new.numbers.now ≡ put R.number_layout self.old.numbers.now i «record» }
        ensures floats_after { self.new.floats.now ≡ put R.float_layout self.old.floats.now i «record» }
        ensures same { SameTable self.old self.new }
    {
        record.write(self.numbers, self.floats, i);
    }
}
