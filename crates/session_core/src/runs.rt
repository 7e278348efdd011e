//! A list of steps, from the empty table.

ghost use Rattle.std.specs.Prelude.{IfOk, IfErr, OnErr};
ghost use Rattle.history.specs.World.{beginning};
ghost use Rattle.refinement.specs.Allowed.{IsRun, after, IsLawful};
ghost use Rattle.session_core.specs.Runs.{RepliesLead, Ran, WantsMemory, FirstRunFault};

use crate::engine::Engine;
use calls::{Reply, Settings, SettingsFault, Step};
use std::alloc::{AllocError, Global};
use thiserror::Error;

/// Why a list of steps was not run to its end.
#[derive(Clone, Copy, Debug, PartialEq, Eq, Error)]
pub enum RunFault {
    /// A setting is out of its range.
    #[error("a setting is out of its range")]
    Settings(SettingsFault),
    /// Memory was refused.
    #[error("there is no memory")]
    NoMemory,
}

impl Engine {
    /// Does the steps one after another, and gives their replies. Memory is wanted before the first step, for the list of the
    /// replies, and before a step with a body, for its copy; else each reply has its place.
    fn replies_to(&mut self, alloc: Global, steps: &[Step]) -> Result<Vec<Reply>, AllocError>
        ensures led { IfOk result
            (λ replies. RepliesLead self.old steps.now replies.items self.new) }
        ensures wanted { OnErr result (WantsMemory self.old steps.now self.new) }
    {
        let mut replies = match Vec::with_capacity(alloc, steps.len()) {
            Ok(replies) => replies,
            Err(fault) => return Err(fault),
        };
        for step in steps {
            let copy = match step.copy(alloc) {
                Ok(copy) => copy,
                Err(fault) => return Err(fault),
            };
            replies.push_reserved(self.step(copy));
        }
        Ok(replies)
    }
}

/// Runs the steps on a new engine of these settings. The replies are a run of the history from its beginning; so the first
/// committer wins, and no two open sessions have written one key. They are those that [`Engine::step`] gives, one after another.
/// The fault is the first setting that is out of its range, or NoMemory, where all are in theirs. The memory that was refused is
/// for the engine, for the list of the replies, or for the copy of a step with a body.
pub fn run(alloc: Global, settings: Settings, steps: &[Step]) -> Result<Vec<Reply>, RunFault>
    ensures run { IfOk result
        (λ replies. IsRun (beginning settings.indexed) steps.now replies.items) }
    ensures ran { IfOk result (λ replies. Ran settings steps.now replies.items) }
    ensures lawful { IfOk result
        (λ replies. IsLawful (after (beginning settings.indexed) steps.now replies.items)) }
    ensures fault { IfErr result (λ fault. FirstRunFault settings fault) }
{
    let mut engine = match Engine::new(alloc, settings) {
        Ok(engine) => engine,
        Err(SettingsFault::NoMemory) => return Err(RunFault::NoMemory),
        Err(fault) => return Err(RunFault::Settings(fault)),
    };
    match engine.replies_to(alloc, steps) {
        Ok(replies) => Ok(replies),
        Err(_) => Err(RunFault::NoMemory),
    }
}
