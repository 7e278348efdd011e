//! Steps, each done to a subject or asked of it, beside what has to come of it.
//!
//! A test is proved like any function, and what each call promises is carried to its end. So a test is a table of steps, and
//! what a step calls is told to nobody.

use std::alloc::{AllocError, Global};
use std::test::Fail;

/// A step of a table.
pub trait Step {
    /// What it is done to, or asked of.
    type Subject;

    /// Does the step, and says whether that has come of it which had to.
    fn is_so(&self, alloc: Global, subject: &mut Self::Subject) -> Result<bool, AllocError>;
}

/// The place of the first step that comes out otherwise.
fn first_wrong<S: Step>(
    alloc: Global,
    subject: &mut S::Subject,
    steps: &[S],
) -> Result<Option<usize>, AllocError> {
    for (at, step) in steps.iter().enumerate() {
        if !step.is_so(alloc, subject)? {
            return Ok(Some(at));
        }
    }
    Ok(None)
}

/// Does all steps in turn, and fails at the first that comes out otherwise.
pub fn run<S: Step>(alloc: Global, mut subject: S::Subject, steps: &[S]) -> Result<(), Fail>
where
    S::Subject: Drop,
{
    match first_wrong(alloc, &mut subject, steps)? {
        None => Ok(()),
        Some(at) => Err(Fail::new(format_args!(
            "step {at} of the table, counted from 0, comes out otherwise"
        ))),
    }
}
