// Document 01's worked cases that are run, K14 to K19: a line for each, with its name and `same` where the whole answer, lent buffers
// included, is document 01's, else `other`.
#![tactic(auto)]

use compress::{NUMBERS_PER_EDGE, Refusal, Uv};
use printing::Onward;
use rows::lent::{Stretch, Wires, WiresMut};
use rows::tables::{Table, TableMut};
use split::seams::Divisor;
use std::io;
use wire_kinds::BoundaryType;

// The edges of K9: 0 = (0, 2), 1 = (0, 1), 2 = (1, 0), 3 = (2, 3), 4 = (3, 2), spans of curve 0, all square.
const K9: [u32; 25] = [
    0, 2, 0, 0, 0, 0, 1, 0, 0, 0, 1, 0, 0, 0, 0, 2, 3, 0, 0, 0, 3, 2, 0, 0, 0,
];

// A row for each: the size of the array is a number of its own, as a type's argument is not worked out.
const _: () = prove!(25 == 5 * NUMBERS_PER_EDGE);

// "K14: list of one vertex: 9." K9's edges and wire, as the face and to be rebuilt; every buffer holds 99 and is left.
fn is_k14_same() -> bool {
    let wire = Wires {
        uses: &[2u32, 4, 0, 6, 8, 1],
        lengths: &[6],
        count: 1,
    };
    let mut numbers = K9;
    let mut floats = [0.0f64; 36];
    let mut uses = [99u32; 8];
    let mut lengths = [99u32; 8];
    let answer = split::split_boundaries_by_divisor(
        4,
        &mut TableMut::new(&mut numbers, &mut floats, 5),
        &wire,
        &wire,
        &Divisor {
            vertices: &[3],
            points: &[0.0, 0.0],
            count: 1,
        },
        &mut uses,
        &mut lengths,
        7,
    );
    let tables_left = numbers == K9 && floats == [0.0; 36];
    let wires_left = uses == [99; 8] && lengths == [99; 8];
    answer.err() == Some(Refusal::OddDivisor) && tables_left && wires_left
}

// The join of K15 and K16, over K9's edges, with the new wire 0+ 0-, v0 0 and v1 2. The cells past the new wire hold 99.
fn join_pipe(
    first: &[u32],
    second: &[u32],
    uses: &mut [u32],
    lengths: &mut [u32],
) -> Result<Option<usize>, Refusal> {
    let floats = [0.0f64; 30];
    let edges = Table::new(&K9, &floats, 5);
    let first = Stretch {
        uses: first,
        count: 2,
    };
    let second = Stretch {
        uses: second,
        count: 2,
    };
    let mut wires = WiresMut {
        uses,
        lengths,
        count: 1,
    };
    join::connect_open_boundaries(4, &edges, &first, &second, &mut wires, 0, 2)
}

// "K15: K9's edges; open 1+ 2+ and 3+ 4+; new wire 0+ 0-; v0 0, v1 2: result 0- 1+ 2+ 0+ 3+ 4+."
fn is_k15_same() -> bool {
    let mut uses = [0u32, 1, 99, 99, 99, 99, 99, 99];
    let mut lengths = [2u32, 99];
    let answer = join_pipe(&[2, 4], &[6, 8], &mut uses, &mut lengths);
    answer == Ok(Some(6)) && uses == [1, 2, 4, 0, 6, 8, 99, 99] && lengths == [6, 99]
}

// "K16: open wires in the other order: none."
fn is_k16_same() -> bool {
    let mut uses = [0u32, 1, 99, 99, 99, 99, 99, 99];
    let mut lengths = [2u32, 99];
    let answer = join_pipe(&[6, 8], &[2, 4], &mut uses, &mut lengths);
    answer == Ok(None) && uses == [0, 1, 99, 99, 99, 99, 99, 99] && lengths == [2, 99]
}

// The kind of a wire whose ends are d apart.
fn kind_of(d: f64, area: f64) -> Result<BoundaryType, Refusal> {
    let first = Uv { u: 0.0, v: 0.0 };
    let last = Uv { u: d, v: 0.0 };
    wire_kinds::boundary_type(first, last, area)
}

// "K17: ends 0.03125 apart are closed (0.0009765625), Positive for area 1."
fn is_k17_same() -> bool {
    kind_of(0.03125, 1.0) == Ok(BoundaryType::Positive)
}

// "K18: 0.032 apart are not (0.001024)."
fn is_k18_same() -> bool {
    kind_of(0.032, 1.0) == Ok(BoundaryType::NotClosed)
}

// "K19: equal ends and area 0 are Negative."
fn is_k19_same() -> bool {
    kind_of(0.0, 0.0) == Ok(BoundaryType::Negative)
}

// The line of a case.
fn write_case(rt: &impl Print, name: &str, is_same: bool) -> io::Result<()> {
    let answer = if is_same { "same" } else { "other" };
    println!(rt; "{name} {answer}")
}

fn write_cases(rt: &impl Print) -> io::Result<()> {
    let cases = [
        ("K14", is_k14_same()),
        ("K15", is_k15_same()),
        ("K16", is_k16_same()),
        ("K17", is_k17_same()),
        ("K18", is_k18_same()),
        ("K19", is_k19_same()),
    ];
    for (name, is_same) in cases {
        write_case(rt, name, is_same)?;
    }
    Ok(())
}

// A line that cannot be written is passed over, and is not told; those behind it are still written.
fn main(rt: HostRuntime) {
    let _ = write_cases(&Onward(rt));
}
