// The buffers that calls share: a table of rows, two buffers of numbers, and the tables and wires of a shell.
ghost use Rattle.std.specs.Prelude.{◌≡◌, ◌≤◌, OnOk};
ghost use Rattle.stored.specs.Compared.{Compares, Keeps};

use crate::stored_cells::{Buffer, Cell};
use crate::{Damaged, Reader};
use rows::lent::{Wires, WiresMut};
use rows::tables::{Row, TableMut};

// What these read from the list, and the numbers and answers of other crates, is read by a function or method each, with the clause `keeps`, and compared
// with `compares`: of the reader before and after, so no field can say it. A trait would state it once, and have as many members, for types of other crates.

// How many vertices and edges a call was told.
#[derive(Clone, Copy)]
pub struct Counts {
    pub vertices: usize,
    pub edges: usize,
}

// The lengths of two buffers.
#[derive(Clone, Copy)]
pub struct Lengths {
    pub first: usize,
    pub second: usize,
    pub ghost bound: { (first ≤ 512) × (second ≤ 512) },
}

// Two buffers.
#[derive_where(Clone, Copy; A: Copy, B: Copy)]
#[derive_where(Default; A: Cell, B: Cell)]
pub struct Buffers<A, B> {
    pub first: Buffer<A>,
    pub second: Buffer<B>,
}

// A table of rows: its numbers, and its floats.
pub type Table = Buffers<u32, f64>;

// Two buffers of numbers, as the uses and the lengths of wires.
pub type Pair = Buffers<u32, u32>;

// The two tables of a shell, and its wires or two stretches of uses.
#[derive(Clone, Copy, Default)]
pub struct Shell {
    pub vertices: Table,
    pub edges: Table,
    pub wires: Pair,
}

impl Counts {
    pub fn read(list: &mut Reader<'_>) -> Result<Counts, Damaged>
        ensures keeps { Keeps list.old list.new }
    {
        let vertices = usize::next(list)?;
        let edges = usize::next(list)?;
        Ok(Counts { vertices, edges })
    }
}

impl Lengths {
    pub fn read(list: &mut Reader<'_>) -> Result<Lengths, Damaged>
        ensures keeps { Keeps list.old list.new }
    {
        let first = list.next_length()?;
        let second = list.next_length()?;
        Ok(Lengths { first, second })
    }
}

impl<A: Cell, B: Cell> Buffers<A, B> {
    // Reads both buffers, the length of each before its cells.
    pub fn read(&mut self, list: &mut Reader<'_>) -> Result<(), Damaged>
        ensures keeps { Keeps list.old list.new }
    {
        self.first.read(list)?;
        self.second.read(list)
    }

    // Reads the cells of both buffers, which have these lengths.
    pub fn fill(&mut self, list: &mut Reader<'_>, n: Lengths) -> Result<(), Damaged>
        ensures first_count { OnOk result (self.new.first.count ≡ n.first) }
        ensures second_count { OnOk result (self.new.second.count ≡ n.second) }
        ensures keeps { Keeps list.old list.new }
    {
        self.first.fill(list, n.first)?;
        self.second.fill(list, n.second)
    }

    // Compares both buffers with the list.
    pub fn compare(&self, list: &mut Reader<'_>) -> Result<(), Damaged>
        ensures compares { Compares list.old list.new }
    {
        self.first.compare(list)?;
        self.second.compare(list)
    }
}

impl Table {
    ghost use Rattle.stored.specs.stored_cells.Buffers.{cells_of};

    // The table as it is lent to a call, said to have `count` rows.
    pub fn lent<R: Row>(&self, count: usize) -> rows::tables::Table<'_, R>
        ensures numbers_value { result.numbers.now ≡ cells_of self.now.first }
        ensures floats_value { result.floats.now ≡ cells_of self.now.second }
        ensures count_value { result.count ≡ count }
    {
        rows::tables::Table::new(self.first.cells(), self.second.cells(), count)
    }

    // The same, to be written.
    pub fn lent_mut<R: Row>(&mut self, count: usize) -> TableMut<'_, R>
        ensures numbers_value { result.numbers.now ≡ cells_of self.old.first }
        ensures floats_value { result.floats.now ≡ cells_of self.old.second }
        ensures count_value { result.count ≡ count }
    {
        TableMut::new(self.first.cells_mut(), self.second.cells_mut(), count)
    }
}

impl Pair {
    ghost use Rattle.stored.specs.stored_cells.Buffers.{cells_of};

    // The wires as they are lent to a call, said to be `count`.
    pub fn lent(&self, count: usize) -> Wires<'_>
        ensures uses_value { result.uses.now ≡ cells_of self.now.first }
        ensures lengths_value { result.lengths.now ≡ cells_of self.now.second }
        ensures count_value { result.count ≡ count }
    {
        Wires {
            uses: self.first.cells(),
            lengths: self.second.cells(),
            count,
        }
    }

    // The same, to be written.
    pub fn lent_mut(&mut self, count: usize) -> WiresMut<'_>
        ensures uses_value { result.uses.now ≡ cells_of self.old.first }
        ensures lengths_value { result.lengths.now ≡ cells_of self.old.second }
        ensures count_value { result.count ≡ count }
    {
        WiresMut {
            uses: self.first.cells_mut(),
            lengths: self.second.cells_mut(),
            count,
        }
    }
}

impl Shell {
    pub fn read(&mut self, list: &mut Reader<'_>) -> Result<(), Damaged>
        ensures keeps { Keeps list.old list.new }
    {
        self.vertices.read(list)?;
        self.edges.read(list)?;
        self.wires.read(list)
    }

    // Compares the shell with the list.
    pub fn compare(&self, list: &mut Reader<'_>) -> Result<(), Damaged>
        ensures compares { Compares list.old list.new }
    {
        self.vertices.compare(list)?;
        self.edges.compare(list)?;
        self.wires.compare(list)
    }
}
