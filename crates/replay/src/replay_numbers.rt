// Replays one stored call of those on points and wires alone: get_mindiff, nearest_copy, boundary_type and sort_wires.

pub mod sorting;

ghost use Rattle.stored.specs.Compared.{Compares, Keeps};

use compress::Uv;
use periodic::host_numbers::LentPeriod;
use stored::stored_cells::Cell;
use stored::stored_records::answers::Answer;
use stored::{Damaged, Reader};

// ---- what a call was handed

fn read_point(list: &mut Reader<'_>) -> Result<Uv, Damaged>
    ensures keeps { Keeps list.old list.new }
{
    let u = f64::next(list)?;
    let v = f64::next(list)?;
    Ok(Uv { u, v })
}

// A kind above those of 32 bits is as unknown as the largest of these.
fn read_period(list: &mut Reader<'_>) -> Result<LentPeriod, Damaged>
    ensures keeps { Keeps list.old list.new }
{
    let kind = list.next()?;
    let number = f64::next(list)?;
    Ok(LentPeriod {
        kind: u32::try_from(kind).unwrap_or(u32::MAX),
        number,
    })
}

// ---- get_mindiff and nearest_copy

// Replays get_mindiff.
pub fn replay_unwrap(list: &mut Reader<'_>) -> Result<(), Damaged>
    ensures compares { Compares list.old list.new }
{
    let u = f64::next(list)?;
    let u0 = f64::next(list)?;
    let period = read_period(list)?;
    let answer = periodic::host_numbers::unwrap_asked(u, u0, period);
    Answer::from(answer.map(|u| [u])).compare(list)
}

// Replays nearest_copy.
pub fn replay_copy(list: &mut Reader<'_>) -> Result<(), Damaged>
    ensures compares { Compares list.old list.new }
{
    let p = read_point(list)?;
    let q = read_point(list)?;
    let u = read_period(list)?;
    let v = read_period(list)?;
    let answer = periodic::host_numbers::copy_asked(p, q, u, v);
    Answer::from(answer.map(|copy| [copy.u, copy.v])).compare(list)
}

// ---- boundary_type

// Replays boundary_type.
pub fn replay_kind(list: &mut Reader<'_>) -> Result<(), Damaged>
    ensures compares { Compares list.old list.new }
{
    let first = read_point(list)?;
    let last = read_point(list)?;
    let area = f64::next(list)?;
    let answer = wire_kinds::boundary_type(first, last, area);
    Answer::from(answer.map(|kind| [u32::from(kind)])).compare(list)
}
