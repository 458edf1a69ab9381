// The whole way of a burner pipe: from the shell as a drawing office sends it to the contours that the torch follows. Each step is
// a call of the port, and what it answers is written in the notation of document 01. The word k=1 to k=7 says how many
// eighths of the way round the rims are cut; without a word it is four, the middle.
#![tactic(auto)]

mod pipe_ends;
mod pipe_join;
mod pipe_rims;
mod pipe_seam;
mod pipe_words;

use pipe_shell::{Shell, Stop, pipe_tally, writing};
use printing::Onward;
use std::io;
use std::process::ExitCode;

// The rims are cut and joined with a seam to one wire.
fn join(rt: &Onward<impl Print>, pipe: &Shell, k: u32) -> Result<Shell, Stop> {
    let cut = pipe_rims::cut_rims(rt, pipe, k)?;
    pipe_ends::sort(rt, &cut)?;
    let ends = pipe_ends::nearest_ends(rt, &cut)?;
    let seamed = pipe_seam::split_seam(rt, &cut, ends, k)?;
    pipe_join::join_rims(rt, &cut.wires, &seamed, ends)
}

// The wire is divided along the vertices that the search finds.
fn divide(rt: &Onward<impl Print>, joined: &Shell, k: u32) -> Result<Shell, Stop> {
    let divisor = pipe_ends::search(rt, joined)?;
    pipe_seam::split_again(rt, joined, divisor, k)
}

// The way of the pipe, up to the contours.
fn heal(rt: &Onward<impl Print>, k: u32) -> Result<(), Stop> {
    let pipe = pipe_shell::burner_pipe();
    writing::write_shell(rt, &pipe, 0)?;
    let joined = join(rt, &pipe, k)?;
    let divided = divide(rt, &joined, k)?;
    pipe_tally::write_contours(rt, &divided)?;
    pipe_tally::write_kept(rt, &joined, &divided)?;
    Ok(())
}

// The way, with the line above it. It ends where the printer answers an error, as that of `main` never does.
fn write_way(rt: &Onward<impl Print>, k: u32) -> io::Result<()> {
    println!(rt; "burner pipe, radius 1, height 4:")?;
    match heal(rt, k) {
        Ok(()) => Ok(()),
        Err(stop) => writing::write_stop(rt, stop),
    }
}

fn main(rt: HostRuntime) -> ExitCode {
    let Some(k) = pipe_words::eighths_asked(&rt) else {
        let _ = eprintln!(rt; "usage: pipe [k=N] (N from 1 to 7)");
        return ExitCode::from(2);
    };
    // What cannot be written is passed over, and is not told; what stands behind it is still written.
    let _ = write_way(&Onward(rt), k);
    ExitCode::SUCCESS
}
