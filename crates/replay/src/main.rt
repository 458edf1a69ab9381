// Replays a stored list of answers of the Rust library against the port, and writes how many calls answer the same.
//
// The list comes on standard input, as words of eight bytes, the lowest byte first. A record is the number of a call, what the
// call was handed, and what it answered and left. The length of a buffer stands before its cells; in the records of
// split_closed_edges the lengths of all six stand before the cells of all. The number 0 ends the list. Behind it stands a second
// list, of altered records: in each, one word of what the call answered and left is another, so none of them is the same.
#![tactic(auto)]

mod replay_cut;
mod replay_join;
mod replay_numbers;
mod replay_pass;
mod replay_search;
mod replay_split;

ghost use Rattle.std.specs.Prelude.{◌≡◌, OnErr};
ghost use Rattle.stored.specs.Compared.{Compares};

use crate::replay_numbers::sorting;
use printing::Onward;
use replay_split::Lent;
use replay_tally::{Part, Run};
use stored::stored_cells::Buffer;
use stored::stored_records::tables::Shell;
use stored::{Damaged, Reader};

// How many bytes of the list are at hand: the 61,440 that a record may have, and more than half as many again. What is left of them moves to the front
// where it is fewer than a record may have, so with few more than those that would be every few records.
const BUFFER: usize = 98304;

// The buffers that records are read into, made once for the run, since to clear them for each takes longer than most calls: a shell or parts of it,
// floats beside it, and what a split is lent.
#[derive(Clone, Copy, Default)]
struct Buffers {
    shell: Shell,
    floats: Buffer<f64>,
    lent: Lent,
}

// Replays the call with this number. A list with any other number is damaged.
// The number is matched here, since each arm reads another record. The names in `replay_tally` are in this order: an enum of the calls
// with TryFrom and Display would be four lists of eleven in place of the two. No table of functions: none may take a `Reader`, which holds a reference.
fn replay(list: &mut Reader<'_>, b: &mut Buffers, number: u64) -> Result<(), Damaged>
    ensures compares { Compares list.old list.new }
{
    match number {
        1 => replay_pass::replay_pass(list, &mut b.shell),
        2 => replay_numbers::replay_unwrap(list),
        3 => replay_numbers::replay_copy(list),
        4 => replay_numbers::replay_kind(list),
        5 => sorting::replay_sort(list, &mut b.floats, &mut b.shell.wires),
        6 => replay_search::replay_correction(list, &mut b.shell),
        7 => replay_search::replay_divisor(list, &mut b.shell),
        8 => replay_cut::replay_cut(list, &mut b.shell, &mut b.floats),
        9 => replay_join::replay_join(list, &mut b.shell, &mut b.lent.face),
        10 => replay_split::replay_split(list, &mut b.shell, &mut b.lent),
        11 => replay_cut::replay_cuts(list, &mut b.shell, &mut b.floats),
        _ => Err(Damaged),
    }
}

// Reads on in the list, and replays the next record. Where the list is damaged nothing is counted.
fn step(list: &mut Reader<'_>, b: &mut Buffers, run: &mut Run) -> Result<(), Damaged>
    ensures { OnErr result (run.new ≡ run.old) }
{
    list.refill()?;
    let number = list.next()?;
    if number == 0 {
        run.end_list();
        return Ok(());
    }
    replay(list, b, number)?;
    run.count(number, list.is_same);
    Ok(())
}

// Replays both lists.
// The turns have a number, which no run uses up: a proved loop has to end, and `forever` brings the bound Wait, which is not allowed here.
fn replay_lists(list: &mut Reader<'_>, b: &mut Buffers, run: &mut Run) -> Result<(), Damaged> {
    for _ in 0..u64::MAX {
        if run.part == Part::Ended {
            break;
        }
        step(list, b, run)?;
    }
    Ok(())
}

// Replays the lists, and writes the tallies, or where the list is damaged.
fn write_replay(rt: &Onward<impl Print>) -> std::io::Result<()> {
    let mut buf = [0; BUFFER];
    let mut buffers = Buffers::default();
    let mut run = Run::new();
    match replay_lists(&mut Reader::new(&mut buf), &mut buffers, &mut run) {
        Ok(()) => run.write(rt),
        Err(Damaged) => run.write_damage(rt),
    }
}

// A line that cannot be written is passed over, and is not told; those behind it are still written.
fn main(rt: HostRuntime) {
    let _ = write_replay(&Onward(rt));
}
