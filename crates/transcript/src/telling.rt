//! What is said of a transcript.

ghost use Rattle.std.specs.Prelude.{◌≡◌, ◌++◌, OnOk, Some, codes};
ghost use Rattle.std.specs.Fmt.{decimal};
ghost use Rattle.script_text.specs.Grammar.{with_feed};
ghost use Rattle.transcript.specs.Showing.{due_text, other_holder_text, rule_words as rule_words_of, shown_line, commit_text, reads_text, why_text, writer_text};
ghost use Rattle.transcript.specs.Transcripts.{allowed_text, end_text, wrong_text};

use crate::showing::Shown;
use judge::{Due, Rule, Why};
use script_text::{RefusedGrowth, extend, put_unsigned, tell_reply};

fn put_number(out: &mut Vec<u8>, n: usize) -> Result<(), RefusedGrowth>
    ensures { OnOk result (out.new.items ≡ out.old.items ++ decimal n) }
{
    put_unsigned(out, n as u64)
}

// A word or words, and a number behind them.
fn put_words(out: &mut Vec<u8>, words: &[u8], n: u64) -> Result<(), RefusedGrowth>
    ensures { OnOk result (out.new.items ≡ out.old.items ++ (words.now ++ decimal n)) }
{
    extend(out, words)?;
    put_unsigned(out, n)
}

// The same, and a line feed.
fn put_count(out: &mut Vec<u8>, words: &[u8], n: u64) -> Result<(), RefusedGrowth>
    ensures { OnOk result
        (out.new.items ≡ out.old.items ++ (words.now ++ with_feed (decimal n))) }
{
    put_words(out, words, n)?;
    extend(out, b"\n")
}

// Words and a number, and others behind them.
fn put_both(
    out: &mut Vec<u8>,
    words: &[u8],
    n: u64,
    others: &[u8],
    m: u64,
) -> Result<(), RefusedGrowth>
    ensures { OnOk result
        (out.new.items
        ≡ out.old.items ++ (words.now ++ (decimal n ++ (others.now ++ decimal m)))) }
{
    put_words(out, words, n)?;
    put_words(out, others, m)
}

fn put_left_open(out: &mut Vec<u8>, left_open: usize) -> Result<(), RefusedGrowth>
    ensures { OnOk result
        (out.new.items ≡ out.old.items ++ (codes ", left open " ++ with_feed (decimal left_open))) }
{
    put_count(out, b", left open ", left_open as u64)
}

// All answers are allowed, to so many steps; so many of them are refusals that are left open.
pub(crate) fn tell_allowed(
    out: &mut Vec<u8>,
    allowed: usize,
    left_open: usize,
) -> Result<(), RefusedGrowth>
    ensures { OnOk result (out.new.items ≡ out.old.items ++ allowed_text allowed left_open) }
{
    extend(out, b"allowed ")?;
    put_number(out, allowed)?;
    put_left_open(out, left_open)
}

// So many are wrong.
pub(crate) fn tell_end(
    out: &mut Vec<u8>,
    wrong: usize,
    allowed: usize,
    left_open: usize,
) -> Result<(), RefusedGrowth>
    ensures { OnOk result (out.new.items ≡ out.old.items ++ end_text wrong allowed left_open) }
{
    extend(out, b"wrong ")?;
    put_number(out, wrong)?;
    extend(out, b", ")?;
    tell_allowed(out, allowed, left_open)
}

// A line, and a word or words before it.
fn put_line(out: &mut Vec<u8>, words: &[u8], line: &[u8]) -> Result<(), RefusedGrowth>
    ensures { OnOk result
        (out.new.items ≡ out.old.items ++ (words.now ++ with_feed line.now)) }
{
    extend(out, words)?;
    extend(out, line)?;
    extend(out, b"\n")
}

fn put_rule(out: &mut Vec<u8>, rule: Rule) -> Result<(), RefusedGrowth>
    ensures { OnOk result (out.new.items ≡ out.old.items ++ rule_words_of rule) }
{
    match rule {
        Rule::OrderOfTests => extend(out, b"order of tests"),
        Rule::OneSnapshot => extend(out, b"one snapshot"),
        Rule::Statement => extend(out, b"statement"),
        Rule::OwnWrites => extend(out, b"own writes"),
        Rule::ViewOfAWrite => extend(out, b"view of a write"),
        Rule::FirstCommitterWins => extend(out, b"first committer wins"),
        Rule::OneWriter => extend(out, b"one writer"),
        Rule::Ring => extend(out, b"ring"),
        Rule::Cursor => extend(out, b"cursor"),
        Rule::Savepoint => extend(out, b"savepoint"),
        Rule::Commit => extend(out, b"commit"),
        Rule::Index => extend(out, b"index"),
        Rule::Vacuum => extend(out, b"vacuum"),
        Rule::NoRefusal => extend(out, b"no refusal"),
    }
}

fn put_due(out: &mut Vec<u8>, due: &Due) -> Result<(), RefusedGrowth>
    ensures { OnOk result (out.new.items ≡ out.old.items ++ due_text due.now) }
{
    match due {
        Due::Alone(answer) => {
            extend(out, b"due ")?;
            tell_reply(out, answer)
        }
        Due::Or(answer) => {
            extend(out, b"allowed ")?;
            tell_reply(out, answer)
        }
        Due::Open => extend(out, b"allowed more than one answer\n"),
    }
}

fn put_why(out: &mut Vec<u8>, why: &Why) -> Result<(), RefusedGrowth>
    ensures { OnOk result (out.new.items ≡ out.old.items ++ why_text why.now) }
{
    put_due(out, &why.due)?;
    extend(out, b"rule ")?;
    put_rule(out, why.rule)?;
    extend(out, b"\n")
}

#[tactic(auto, unfolding(crate::specs::Showing::commit_text))]
fn put_commit(out: &mut Vec<u8>, n: usize, key: u64) -> Result<(), RefusedGrowth>
    ensures { OnOk result (out.new.items ≡ out.old.items ++ commit_text n key) }
{
    extend(out, b"; commit ")?;
    put_number(out, n)?;
    extend(out, b" wrote key ")?;
    put_unsigned(out, key)?;
    extend(out, b" last")
}

fn put_no_commit(out: &mut Vec<u8>, key: u64) -> Result<(), RefusedGrowth>
    ensures { OnOk result
        (out.new.items ≡ out.old.items ++ (codes "; no commit wrote key " ++ decimal key)) }
{
    put_words(out, b"; no commit wrote key ", key)
}

// Who wrote the key last. Commits are counted from 0.
fn put_writer(out: &mut Vec<u8>, key: u64, writer: Option<usize>) -> Result<(), RefusedGrowth>
    ensures { OnOk result (out.new.items ≡ out.old.items ++ writer_text key writer) }
{
    match writer {
        Some(n) => put_commit(out, n, key),
        None => put_no_commit(out, key),
    }
}

fn put_holder(out: &mut Vec<u8>, holder: Option<u8>) -> Result<(), RefusedGrowth>
    ensures { OnOk result (out.new.items ≡ out.old.items ++ other_holder_text holder) }
{
    match holder {
        Some(o) => {
            extend(out, b"; session ")?;
            put_unsigned(out, u64::from(o))?;
            extend(out, b" holds it\n")
        }
        None => extend(out, b"\n"),
    }
}

#[tactic(auto, unfolding(crate::specs::Showing::reads_text))]
fn put_reads(out: &mut Vec<u8>, session: u8, reads: usize) -> Result<(), RefusedGrowth>
    ensures { OnOk result (out.new.items ≡ out.old.items ++ reads_text session reads) }
{
    put_both(
        out,
        b"shown session ",
        u64::from(session),
        b" reads commits below ",
        reads as u64,
    )
}

fn put_line_shown(out: &mut Vec<u8>, shown: &Shown) -> Result<(), RefusedGrowth>
    ensures { OnOk result
        (out.new.items ≡ out.old.items ++ shown_line (Some shown.now)) }
{
    put_reads(out, shown.session, shown.reads)?;
    put_writer(out, shown.key, shown.writer)?;
    put_holder(out, shown.holder)
}

fn put_shown(out: &mut Vec<u8>, shown: &Option<Shown>) -> Result<(), RefusedGrowth>
    ensures { OnOk result (out.new.items ≡ out.old.items ++ shown_line shown.now) }
{
    match shown {
        Some(shown) => put_line_shown(out, shown),
        None => Ok(()),
    }
}

// The answer to the line of this number is not allowed, and why.
pub(crate) fn tell_wrong(
    out: &mut Vec<u8>,
    number: usize,
    asked: &[u8],
    answer: &[u8],
    why: &Why,
    shown: &Option<Shown>,
) -> Result<(), RefusedGrowth>
    ensures { OnOk result
        (out.new.items
        ≡ out.old.items ++ wrong_text number asked.now answer.now why.now shown.now) }
{
    extend(out, b"line ")?;
    put_number(out, number)?;
    put_line(out, b": ", asked)?;
    put_line(out, b"answered ", answer)?;
    put_why(out, why)?;
    put_shown(out, shown)
}
