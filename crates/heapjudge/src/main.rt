//! Judges a transcript on standard input: is each answer in it allowed?
//!
//! Why it is built so: docs/DECISIONS.md, under its name.
#![tactic(auto)]

use clap::{Arg, ArgAction, ArgMatches, Command, Error};
use std::alloc::{AllocError, Global};
use std::env;
use std::io::ErrorKind;
use std::process::ExitCode;
use transcript::{Begins, Fault, Until, judge_transcript};

// The status where an answer is not allowed.
const WRONG: u8 = 4;

fn flag<'a>(alloc: Global, name: &'a str, help: &'a str) -> Arg<'a> {
    Arg::new(alloc, name)
        .long(name)
        .help(help)
        .action(ArgAction::SetTrue)
}

fn command<'a>(alloc: Global) -> Result<Command<'a>, AllocError> {
    let statement = flag(alloc, "statement", "Judge each session as one by statement");
    let snapshot = flag(alloc, "snapshot", "Judge each session as one by snapshot").conflicts_with(
        "statement",
    )?;
    Command::new(alloc, "heapjudge")
        .version("0.4")
        .about("Reads a transcript and says whether each answer in it is allowed")
        .arg(statement)?
        .arg(snapshot)?
        .arg(flag(
            alloc,
            "all",
            "Judge on after a wrong answer, as if what is due had been given",
        ))
}

fn begins_of(matches: &ArgMatches) -> Begins {
    if matches.get_flag("statement") {
        Begins::ByStatement
    } else if matches.get_flag("snapshot") {
        Begins::BySnapshot
    } else {
        Begins::AsWritten
    }
}

fn until_of(matches: &ArgMatches) -> Until {
    if matches.get_flag("all") {
        Until::End
    } else {
        Until::FirstWrong
    }
}

fn fails(rt: &impl Eprint, fault: Fault) -> ExitCode {
    let _ = rt.eprintln(fault);
    ExitCode::from(fault.status())
}

// Help and the version are shown; a wrong word is named.
fn explains(rt: &(impl Print + Eprint), error: &Error) -> ExitCode {
    let _ = error.print(rt);
    if error.use_stderr() {
        ExitCode::from(1)
    } else {
        ExitCode::SUCCESS
    }
}

fn judges(rt: &HostRuntime, begins: Begins, until: Until) -> ExitCode {
    let (judged, _) = judge_transcript(
        rt.alloc(),
        begins,
        until,
        &mut rt.stdin(),
        &mut rt.stdout(),
    );
    match judged {
        Ok(true) => ExitCode::SUCCESS,
        Ok(false) => ExitCode::from(WRONG),
        Err(fault) => fails(rt, fault),
    }
}

fn main(rt: HostRuntime) -> ExitCode {
    let alloc = rt.alloc();
    let words = match env::args(&rt) {
        Ok(words) => words,
        Err(e) if e.kind() == ErrorKind::OutOfMemory => return fails(&rt, Fault::NoMemory),
        // a word that is no text
        Err(_) => return ExitCode::from(1),
    };
    let Ok(words) = words.collect::<Vec<String>>(alloc) else {
        return fails(&rt, Fault::NoMemory);
    };
    let Ok(command) = command(alloc) else {
        return fails(&rt, Fault::NoMemory);
    };
    match command.try_get_matches_from(words.as_slice()) {
        Ok(matches) => judges(&rt, begins_of(&matches), until_of(&matches)),
        Err(error) => explains(&rt, &error),
    }
}
