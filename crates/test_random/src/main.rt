//! Runs the engine on random steps, and has a judge of the history judge every reply.
//!
//! That the history allows each reply of the engine is proved (`session_core`), and that the judge allows exactly such replies
//! (`judge`). This program tries the compiled engine. What the history leaves to an engine is compared with the engine's pages and
//! ids. At the first reply that is not as it has to be it says where that is and ends with status 1. It ends so too where a kind
//! of reply never came.
#![tactic(auto)]

mod bodies;
mod counts;
mod draw;
mod generator;
mod passage;
mod rings;
mod run;

use bodies::Bodies;
use counts::Counts;
use generator::Generator;
use run::{RUNS, do_run};
use side_by_side::Views;
use std::alloc::Global;
use std::io;
use std::process::ExitCode;

// Whether each kind came.
fn report(rt: &impl Print, counts: &Counts) -> io::Result<bool> {
    let steps = counts.steps();
    println!(rt; "{steps} steps, each reply as the history has it")?;
    let Views { views, rows } = counts.views();
    println!(rt; "{views} views of sessions with {rows} rows, each as the history has it")?;
    counts.print(rt)?;
    if let Some(name) = counts.missing() {
        println!(rt; "never, or too seldom: {name}")?;
        return Ok(false);
    }
    Ok(true)
}

// Whether each reply was as the history has it, and each kind came.
fn do_all_runs(rt: &impl Print, alloc: Global) -> io::Result<bool> {
    let bodies = Bodies::draw(alloc, &mut Generator::new(RUNS))?;
    let mut counts = Counts::new();
    for run in 0..RUNS {
        if let Err(failure) = do_run(alloc, &bodies, run, &mut counts) {
            println!(rt; "run {run}: {failure:?}")?;
            return Ok(false);
        }
    }
    report(rt, &counts)
}

fn main(rt: HostRuntime) -> ExitCode {
    match do_all_runs(&rt, rt.alloc()) {
        Ok(true) => ExitCode::SUCCESS,
        _ => ExitCode::from(1),
    }
}
