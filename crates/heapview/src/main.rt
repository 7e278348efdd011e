//! A heap that can be looked into: scripts with looks, as a run, as a journal, as a talk, as a picture, or as a story.
//!
//! Why it is built so: docs/DECISIONS.md, under its name.
#![tactic(auto)]

use clap::error::ErrorKind as Mistake;
use clap::{Arg, ArgAction, ArgMatches, Command, Error};
use std::alloc::{AllocError, Global};
use std::env;
use std::io::ErrorKind;
use std::process::ExitCode;
use stories::{DrawFault, StoryFault, draw, tell_story};
use viewing::{ShellFault, run_views, talk};

fn fails(rt: &impl Eprint, fault: ShellFault) -> ExitCode {
    let _ = rt.eprintln(fault);
    ExitCode::from(fault.status())
}

fn ends(rt: &impl Eprint, ended: Result<(), ShellFault>) -> ExitCode {
    match ended {
        Ok(()) => ExitCode::SUCCESS,
        Err(fault) => fails(rt, fault),
    }
}

// The word draw, and what may stand behind it.
fn drawing<'a>(alloc: Global) -> Result<Command<'a>, AllocError> {
    let line = Arg::new(alloc, "line")
        .long("line")
        .value_name("N")
        .help("Draws the table behind line N")
        .value_parser(clap::value_parser!(u32).range(1..));
    let page = Arg::new(alloc, "page")
        .long("page")
        .value_name("P")
        .help("Draws page P, and others that are named so")
        .action(ArgAction::Append)
        .value_parser(clap::value_parser!(u32));
    Command::new(alloc, "draw")
        .about("Runs one, and writes a picture of the table as SVG")
        .arg(line)?
        .arg(page)
}

// A word that stands alone, and what it does.
fn word<'a>(alloc: Global, name: &'a str, about: &'a str) -> Command<'a> {
    Command::new(alloc, name).about(about)
}

// The words that the program knows. (Each is made where it is handed on, so none has to be given up where memory is refused.)
fn command<'a>(alloc: Global) -> Result<Command<'a>, AllocError> {
    Command::new(alloc, "heapview")
        .version("0.4")
        .about("Runs scripts from standard input over a heap that can be looked into")
        .subcommand_required(true)
        .arg_required_else_help(true)
        .subcommand(word(
            alloc,
            "run",
            "Answers a script of heapsh that may have looks",
        ))?
        .subcommand(word(
            alloc,
            "journal",
            "Answers one, and writes each line behind > before its answer",
        ))?
        .subcommand(word(
            alloc,
            "talk",
            "Asks for each line, and says what was expected; help lists the lines",
        ))?
        .subcommand(drawing(alloc)?)?
        .subcommand(word(
            alloc,
            "story",
            "Runs one, and writes its story as a page of HTML",
        ))
}

// Says what is wrong with the words, with status 1; or help or the version, as asked for.
fn tells(rt: &HostRuntime, error: &Error) -> ExitCode {
    match error.print(rt) {
        Ok(()) if error.exit_code() == 0 => ExitCode::SUCCESS,
        Ok(()) => ExitCode::from(1),
        Err(_) => fails(rt, ShellFault::Output),
    }
}

// The pages that are named.
fn pages_of(rt: &HostRuntime, matches: &ArgMatches<'_>) -> Result<Vec<u32>, AllocError> {
    let mut pages = Vec::new(rt.alloc());
    if let Some(numbers) = matches.get_many::<u32>("page") {
        for number in numbers {
            if let Ok(number) = number {
                pages.push(number)?;
            }
        }
    }
    Ok(pages)
}

fn ends_drawing(rt: &impl Eprint, ended: Result<(), DrawFault>) -> ExitCode {
    match ended {
        Ok(()) => ExitCode::SUCCESS,
        Err(fault) => {
            let _ = rt.eprintln(fault);
            ExitCode::from(fault.status())
        }
    }
}

fn draws(rt: &HostRuntime, matches: &ArgMatches<'_>) -> ExitCode {
    let Ok(pages) = pages_of(rt, matches) else {
        return fails(rt, ShellFault::NoMemory);
    };
    let most = matches
        .get_one::<u32>("line")
        .unwrap_or(u32::MAX)
        .saturating_sub(1);
    let (ended, _) = draw(
        rt.alloc(),
        &mut rt.stdin(),
        &mut rt.stdout(),
        most,
        pages.as_slice(),
    );
    ends_drawing(rt, ended)
}

fn ends_story(rt: &impl Eprint, ended: Result<(), StoryFault>) -> ExitCode {
    match ended {
        Ok(()) => ExitCode::SUCCESS,
        Err(fault) => {
            let _ = rt.eprintln(fault);
            ExitCode::from(fault.status())
        }
    }
}

fn tells_story(rt: &HostRuntime) -> ExitCode {
    let (ended, _) = tell_story(rt.alloc(), &mut rt.stdin(), &mut rt.stdout());
    ends_story(rt, ended)
}

fn runs(rt: &HostRuntime, matches: &ArgMatches<'_>) -> ExitCode {
    let (ended, _) = match matches.subcommand() {
        Some(("draw", of)) => return draws(rt, of),
        Some(("story", _)) => return tells_story(rt),
        Some(("journal", _)) => run_views(rt.alloc(), &mut rt.stdin(), &mut rt.stdout(), true),
        Some(("talk", _)) => talk(rt.alloc(), &mut rt.stdin(), &mut rt.stdout()),
        _ => run_views(rt.alloc(), &mut rt.stdin(), &mut rt.stdout(), false),
    };
    ends(rt, ended)
}

fn main(rt: HostRuntime) -> ExitCode {
    let alloc = rt.alloc();
    let words: Vec<String> = match env::args(&rt) {
        Ok(words) => match words.collect(alloc) {
            Ok(words) => words,
            Err(_) => return fails(&rt, ShellFault::NoMemory),
        },
        Err(e) if e.kind() == ErrorKind::OutOfMemory => return fails(&rt, ShellFault::NoMemory),
        Err(_) => {
            let _ = rt.eprintln("heapview: a word is no text");
            return ExitCode::from(1);
        }
    };
    let command = match command(alloc) {
        Ok(command) => command,
        Err(_) => return fails(&rt, ShellFault::NoMemory),
    };
    match command.try_get_matches_from(words.as_slice()) {
        Ok(matches) => runs(&rt, &matches),
        Err(error) if error.kind() == Mistake::OutOfMemory => fails(&rt, ShellFault::NoMemory),
        Err(error) => tells(&rt, &error),
    }
}
