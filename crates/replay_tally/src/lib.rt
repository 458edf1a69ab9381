// How far a replay is: the place in the lists, and how many calls answered the same.
#![tactic(auto)]

ghost use Rattle.std.specs.Prelude.{◌≡◌, IsOk};
ghost use Rattle.replay_tally.specs.declared.Part.TheVariants.{Stored};
ghost use Rattle.replay_tally.specs.Parts.{altered_after, counted, part_behind};

use printing::Onward;
use std::{fmt, io};

// How many kinds of calls there are.
const CALLS: usize = 11;

// The names of the calls, in the order of their numbers from 1.
const NAMES: [&str; CALLS] = [
    "split_closed_edges",
    "get_mindiff",
    "nearest_copy",
    "boundary_type",
    "sort_wires",
    "nearest_correction",
    "find_non_simple_wire_divisor",
    "cut_edge_by_intersections",
    "connect_open_boundaries",
    "split_boundaries_by_divisor",
    "cut_edge_at_points",
];

// How many calls of a name were replayed, and how many of them answered and left the same.
#[derive(Clone, Copy)]
pub struct Tally {
    pub name: &'static str,
    pub calls: u64,
    pub same: u64,
}

// Which list the records are of, or that both are at their end.
#[derive(Clone, Copy, PartialEq, Eq)]
pub enum Part {
    Stored,
    Altered,
    Ended,
}

// How far the replay is: the number of the next record from 1, a tally for each kind of call, one for all altered records, and
// which list is being replayed.
#[derive(Clone, Copy)]
pub struct Run {
    pub record: u64,
    pub tallies: [Tally; CALLS],
    pub altered: Tally,
    pub part: Part,
}

impl Tally {
    // The tally before anything is counted.
    fn of(name: &'static str) -> Tally {
        Tally {
            name,
            calls: 0,
            same: 0,
        }
    }

    // One more call.
    fn count(&mut self, is_same: bool)
        ensures { self.new ≡ counted self.old is_same }
    {
        self.calls = self.calls.saturating_add(1);
        if is_same {
            self.same = self.same.saturating_add(1);
        }
    }
}

impl fmt::Display for Tally {
    fn fmt<W: fmt::Write>(&self, f: &mut fmt::Formatter<W>) -> fmt::Result {
        let Tally { name, calls, same } = *self;
        write!(f, "{name}: {calls} calls, {same} same")
    }
}

impl Run {
    // The run before anything is read.
    pub fn new() -> Run
        ensures { result.part ≡ Stored }
    {
        Run {
            record: 1,
            tallies: NAMES.map(Tally::of),
            altered: Tally::of("altered"),
            part: Part::Stored,
        }
    }

    // The run at the end of a list: the altered records come next, and behind them nothing.
    pub fn end_list(&mut self)
        ensures part_after { self.new.part ≡ part_behind self.old.part }
        ensures tallies_value { self.new.tallies ≡ self.old.tallies }
        ensures altered_value { self.new.altered ≡ self.old.altered }
        ensures record_value { self.new.record ≡ self.old.record }
    {
        self.part = match self.part {
            Part::Stored => Part::Altered,
            Part::Altered | Part::Ended => Part::Ended,
        };
    }

    // One more call with this number is counted. The altered records have a tally of their own.
    pub fn count(&mut self, number: u64, is_same: bool)
        ensures part_value { self.new.part ≡ self.old.part }
        ensures altered_value { self.new.altered ≡ altered_after self.old.part self.old.altered is_same }
    {
        match self.part {
            Part::Stored => {
                if let Some(k) = number.checked_sub(1)
                    && let Some(tally) = self.tallies.get_mut(k as usize)
                {
                    tally.count(is_same);
                }
            }
            Part::Altered | Part::Ended => self.altered.count(is_same),
        }
        self.record = self.record.saturating_add(1);
    }

    // Writes how many calls answered the same: a line for each kind of call, and one for the altered records.
    pub fn write(&self, rt: &Onward<impl Print>) -> io::Result<()>
        ensures { IsOk result }
    {
        for tally in &self.tallies {
            println!(rt; "{tally}")?;
        }
        rt.println(self.altered)
    }

    // Writes at which record the list is damaged.
    pub fn write_damage(&self, rt: &Onward<impl Print>) -> io::Result<()>
        ensures { IsOk result }
    {
        let number = self.record;
        println!(rt; "the list is damaged at record {number}")
    }
}
