//! The command-line shell of the heap.
//!
//! Why it is built so: docs/DECISIONS.md, under its name.
#![tactic(auto)]

use script::{Command, ShellFault, USAGE, command_of, inspect_script, run_script, threads_script};
use std::env;
use std::io::ErrorKind;
use std::process::ExitCode;

fn usage(rt: &impl Eprint) -> ExitCode {
    let _ = rt.eprintln(USAGE);
    ExitCode::from(1)
}

fn fails(rt: &impl Eprint, fault: ShellFault) -> ExitCode {
    let _ = rt.eprintln(fault);
    ExitCode::from(fault.status())
}

fn ends(rt: &impl Eprint, ended: Result<(), ShellFault>) -> ExitCode {
    match ended {
        Ok(()) => ExitCode::SUCCESS,
        Err(fault) => fails(rt, fault),
    }
}

fn run(rt: &HostRuntime) -> ExitCode {
    let (ended, _) = run_script(rt.alloc(), &mut rt.stdin(), &mut rt.stdout());
    ends(rt, ended)
}

fn inspect(rt: &HostRuntime) -> ExitCode {
    let (ended, _) = inspect_script(rt.alloc(), &mut rt.stdin(), &mut rt.stdout());
    ends(rt, ended)
}

fn main(rt: HostRuntime) -> ExitCode {
    let mut words = match env::args(&rt) {
        Ok(words) => words,
        Err(e) if e.kind() == ErrorKind::OutOfMemory => return fails(&rt, ShellFault::NoMemory),
        // a word that is no text
        Err(_) => return usage(&rt),
    };
    let _ = words.next();
    let (first, second) = (words.next(), words.next());
    match command_of(first.as_deref(), second.as_deref()) {
        Command::Run => run(&rt),
        Command::Threads => {
            let (ended, _) = threads_script(&rt, rt.alloc(), &mut rt.stdin(), &mut rt.stdout());
            ends(&rt, ended)
        }
        Command::Inspect => inspect(&rt),
        Command::Usage => usage(&rt),
    }
}
