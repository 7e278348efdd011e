//! Judges three histories of two sessions by snapshot: write skew, which is allowed, and a lost update and a dirty read, which are not.
#![tactic(auto)]

use arrayvec::ArrayVec;
use calls::{Reply, Row, RowIn, Step};
use judge::{Due, Judge, Ruling, judge_all};
use std::alloc::{AllocError, Global};
use std::io;
use std::process::ExitCode;

/// What was asked for, and what was answered, in turn.
#[derive(Drop)]
struct Told {
    steps: Vec<Step>,
    replies: Vec<Reply>,
}

impl Told {
    fn new(alloc: Global) -> Told {
        Told {
            steps: Vec::new(alloc),
            replies: Vec::new(alloc),
        }
    }

    fn tell(&mut self, step: Step, reply: Reply) -> Result<(), AllocError> {
        self.steps.push(step)?;
        self.replies.push(reply)?;
        Ok(())
    }
}

fn row_in(alloc: Global, key: u64, value: i64) -> RowIn {
    RowIn {
        key,
        cols: [value, 0, 0, 0],
        body: Vec::new(alloc),
    }
}

fn found_row(key: u64, value: i64) -> Reply {
    Reply::Found(Some(Row {
        key,
        cols: [value, 0, 0, 0],
        body: ArrayVec::new(),
    }))
}

/// Session 0 commits a row of key 1 and one of key 2. Then both sessions begin.
fn both_begin(alloc: Global) -> Result<Told, AllocError> {
    let mut told = Told::new(alloc);
    told.tell(Step::Begin(0), Reply::Done)?;
    told.tell(Step::Insert(0, row_in(alloc, 1, 10)), Reply::Done)?;
    told.tell(Step::Insert(0, row_in(alloc, 2, 20)), Reply::Done)?;
    told.tell(Step::Commit(0), Reply::Committed)?;
    told.tell(Step::Begin(0), Reply::Done)?;
    told.tell(Step::Begin(1), Reply::Done)?;
    Ok(told)
}

/// Each reads the key that the other writes.
fn write_skew(alloc: Global) -> Result<Told, AllocError> {
    let mut told = both_begin(alloc)?;
    told.tell(Step::Get(0, 1), found_row(1, 10))?;
    told.tell(Step::Get(1, 2), found_row(2, 20))?;
    told.tell(Step::Update(0, row_in(alloc, 2, 21)), Reply::Done)?;
    told.tell(Step::Update(1, row_in(alloc, 1, 11)), Reply::Done)?;
    told.tell(Step::Commit(0), Reply::Committed)?;
    told.tell(Step::Commit(1), Reply::Committed)?;
    Ok(told)
}

/// Session 1 writes over what session 0 has committed since.
fn lost_update(alloc: Global) -> Result<Told, AllocError> {
    let mut told = both_begin(alloc)?;
    told.tell(Step::Update(0, row_in(alloc, 1, 11)), Reply::Done)?;
    told.tell(Step::Commit(0), Reply::Committed)?;
    told.tell(Step::Update(1, row_in(alloc, 1, 12)), Reply::Done)?;
    told.tell(Step::Commit(1), Reply::Committed)?;
    Ok(told)
}

/// Session 1 reads what session 0 has not committed.
fn dirty_read(alloc: Global) -> Result<Told, AllocError> {
    let mut told = both_begin(alloc)?;
    told.tell(Step::Update(0, row_in(alloc, 1, 11)), Reply::Done)?;
    told.tell(Step::Get(1, 1), found_row(1, 11))?;
    Ok(told)
}

/// Prints which rule the answer breaks, and what is due.
fn tell_why(
    rt: &impl Print,
    alloc: Global,
    judge: &mut Judge,
    step: &Step,
    reply: &Reply,
) -> io::Result<()> {
    if let Ok(Ruling::Broken) = judge.judge(step, reply) {
        if let Ok(why) = judge.why(alloc, step, reply) {
            println!(rt; "rule {:?}", why.rule)?;
            return match &why.due {
                Due::Alone(due) => println!(rt; "due {due:?}"),
                Due::Or(due) => println!(rt; "due {due:?}, or what is left open"),
                Due::Open => println!(rt; "due is left open"),
            };
        }
    }
    Ok(())
}

fn judge_told(rt: &impl Print, alloc: Global, name: &str, told: &Told) -> io::Result<()> {
    let (steps, replies) = (told.steps.as_slice(), told.replies.as_slice());
    if steps.len() != replies.len() {
        return println!(rt; "{name}: a step without an answer");
    }
    let Ok(mut judge) = Judge::new(alloc, [false; 4]) else {
        return println!(rt; "{name}: no memory");
    };
    match judge_all(&mut judge, steps, replies) {
        Ok(n) => match (steps.get(n), replies.get(n)) {
            (Some(step), Some(reply)) => {
                println!(rt; "{name}: {n} are allowed, and not the next")?;
                tell_why(rt, alloc, &mut judge, step, reply)
            }
            _ => println!(rt; "{name}: all {n} are allowed"),
        },
        Err(_) => println!(rt; "{name}: no memory"),
    }
}

fn judge_each(rt: &impl Print, alloc: Global) -> io::Result<()> {
    judge_told(rt, alloc, "write skew", &write_skew(alloc)?)?;
    judge_told(rt, alloc, "lost update", &lost_update(alloc)?)?;
    judge_told(rt, alloc, "dirty read", &dirty_read(alloc)?)
}

fn main(rt: HostRuntime) -> ExitCode {
    match judge_each(&rt, rt.alloc()) {
        Ok(()) => ExitCode::SUCCESS,
        Err(_) => ExitCode::from(1),
    }
}
