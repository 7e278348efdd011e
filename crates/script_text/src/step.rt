//! The text of a step.

ghost use Rattle.std.specs.Prelude.{◌≡◌, ◌++◌, codes, OnOk};
ghost use Rattle.script_text.specs.Grammar.{spaced, step_text, key_words, plan_words, range_words, bounds_words, row_words, with_feed};
ghost use Rattle.script_text.specs.Workers.{noted_text};

use crate::answer::{body, columns};
use crate::entries::spaced_value;
use crate::growth::{RefusedGrowth, extend, push};
use crate::page::{label, spaced_number};
use crate::plan::put_actions;
use calls::{Mode, PlanIn, RowIn, Step};

// A verb, a session, and a key, how many rows or a page.
#[tactic(auto, unfolding(crate::specs::Answers::labelled))]
fn key(out: &mut Vec<u8>, verb: &[u8], s: u8, key: u64) -> Result<(), RefusedGrowth>
    ensures { OnOk result
        (out.new.items ≡ out.old.items ++ (verb.now ++ spaced (key_words s key))) }
{
    label(out, verb, u64::from(s))?;
    spaced_number(out, key)
}

// A verb, a session and a row.
#[tactic(auto, unfolding(crate::specs::Answers::labelled))]
fn row(out: &mut Vec<u8>, verb: &[u8], s: u8, row: &RowIn) -> Result<(), RefusedGrowth>
    ensures { OnOk result
        (out.new.items ≡ out.old.items ++ (verb.now ++ spaced (row_words s row.now))) }
{
    label(out, verb, u64::from(s))?;
    spaced_number(out, row.key)?;
    columns(out, row.cols.as_slice())?;
    body(out, row.body.as_slice())
}

// A session, an index and two bounds.
#[tactic(auto, unfolding(crate::specs::Answers::labelled))]
fn range(out: &mut Vec<u8>, s: u8, index: u8, low: i128, high: i128) -> Result<(), RefusedGrowth>
    ensures { OnOk result
        (out.new.items
        ≡ out.old.items ++ (codes "openindex" ++ spaced (range_words s index low high))) }
{
    label(out, b"openindex", u64::from(s))?;
    spaced_number(out, u64::from(index))?;
    spaced_value(out, low)?;
    spaced_value(out, high)
}

// A session and two bounds of keys.
#[tactic(auto, unfolding(crate::specs::Answers::labelled))]
fn bounds(out: &mut Vec<u8>, s: u8, low: i128, high: i128) -> Result<(), RefusedGrowth>
    ensures { OnOk result
        (out.new.items
        ≡ out.old.items ++ (codes "openkeys" ++ spaced (bounds_words s low high))) }
{
    label(out, b"openkeys", u64::from(s))?;
    spaced_value(out, low)?;
    spaced_value(out, high)
}

// A page and a plan.
#[tactic(auto, unfolding(crate::specs::Answers::labelled))]
fn plan(out: &mut Vec<u8>, page: u32, plan: &PlanIn) -> Result<(), RefusedGrowth>
    ensures { OnOk result
        (out.new.items ≡ out.old.items ++ (codes "apply" ++ spaced (plan_words page plan.now))) }
{
    label(out, b"apply", u64::from(page))?;
    spaced_number(out, plan.change)?;
    put_actions(out, plan.actions.as_slice())
}

#[tactic(auto, unfolding(crate::specs::Answers::labelled))]
fn text(out: &mut Vec<u8>, step: &Step) -> Result<(), RefusedGrowth>
    ensures { OnOk result (out.new.items ≡ out.old.items ++ step_text step.now) }
{
    match step {
        Step::Begin(s) => label(out, b"begin", u64::from(*s)),
        Step::BeginReadCommitted(s) => label(out, b"beginrc", u64::from(*s)),
        Step::Get(s, k) => key(out, b"get", *s, *k),
        Step::Insert(s, new) => row(out, b"insert", *s, new),
        Step::Update(s, new) => row(out, b"update", *s, new),
        Step::Delete(s, k) => key(out, b"delete", *s, *k),
        Step::Savepoint(s) => label(out, b"savepoint", u64::from(*s)),
        Step::RollbackTo(s) => label(out, b"rollbackto", u64::from(*s)),
        Step::Release(s) => label(out, b"release", u64::from(*s)),
        Step::Commit(s) => label(out, b"commit", u64::from(*s)),
        Step::Abort(s) => label(out, b"abort", u64::from(*s)),
        Step::OpenIndex(s, index, low, high) => range(out, *s, *index, *low, *high),
        Step::OpenHeap(s) => label(out, b"openheap", u64::from(*s)),
        Step::OpenKeys(s, low, high) => bounds(out, *s, *low, *high),
        Step::Next(s, count) => key(out, b"next", *s, u64::from(*count)),
        Step::Close(s) => label(out, b"close", u64::from(*s)),
        Step::TakePage(s, page) => key(out, b"takepage", *s, u64::from(*page)),
        Step::Prune(page) => label(out, b"prune", u64::from(*page)),
        Step::ApplyPlan(page, new) => plan(out, *page, new),
        Step::VacuumBegin(Mode::Normal) => extend(out, b"vacuum begin normal"),
        Step::VacuumBegin(Mode::Aggressive) => extend(out, b"vacuum begin aggressive"),
        Step::VacuumStep => extend(out, b"vacuum step"),
        Step::VacuumCancel => extend(out, b"vacuum cancel"),
        Step::CreateIndex(column) => label(out, b"createindex", u64::from(*column)),
    }
}

/// Adds the line that notes a step.
pub fn tell_step(out: &mut Vec<u8>, step: &Step) -> Result<(), RefusedGrowth>
    ensures { OnOk result (out.new.items ≡ out.old.items ++ with_feed (noted_text step.now)) }
{
    extend(out, b"> ")?;
    text(out, step)?;
    push(out, b'\n')
}
