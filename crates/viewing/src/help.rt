//! Help for somebody who types lines: how each is spelled, with an example.

use script_text::{RefusedGrowth, cut, extend, push};

// All lines, as docs/script.md and docs/looks.md have them: how each is spelled, and an example.
static SPELLINGS: [(&str, &str); 36] = [
    (
        "heap PAGES STOP MIN FIRST DEAD COLS",
        "heap 4 1000 0 3 4096 0000",
    ),
    ("begin S", "begin 0"),
    ("beginrc S", "beginrc 1"),
    ("get S K", "get 0 1"),
    ("insert S K C0 C1 C2 C3 BODY", "insert 0 1 5 0 0 0 -"),
    (
        "update S K C0 C1 C2 C3 BODY",
        "update 0 1 6 0 0 0 68656c6c6f",
    ),
    ("delete S K", "delete 0 1"),
    ("savepoint S", "savepoint 0"),
    ("rollbackto S", "rollbackto 0"),
    ("release S", "release 0"),
    ("commit S", "commit 0"),
    ("abort S", "abort 0"),
    ("openindex S I LOW HIGH", "openindex 0 1 -5 5"),
    ("openheap S", "openheap 0"),
    ("openkeys S LOW HIGH", "openkeys 0 1 9"),
    ("next S N", "next 0 10"),
    ("close S", "close 0"),
    ("takepage S P", "takepage 0 0"),
    ("createindex C", "createindex 0"),
    ("prune P", "prune 0"),
    ("apply P CHANGE A ..", "apply 0 5 r1:3 u2"),
    ("vacuum begin normal", "vacuum begin normal"),
    ("vacuum begin aggressive", "vacuum begin aggressive"),
    ("vacuum step", "vacuum step"),
    ("vacuum finish", "vacuum finish"),
    ("vacuum cancel", "vacuum cancel"),
    ("vacuum", "vacuum"),
    ("ids", "ids"),
    ("page P", "page 0"),
    ("entries I", "entries 0"),
    ("explain S K", "explain 0 1"),
    ("session S", "session 0"),
    ("horizon", "horizon"),
    ("fate P SLOT", "fate 0 1"),
    ("plan P", "plan 0"),
    ("help", "help"),
];

// Adds how a line is spelled, and an example.
fn tell_spelling(text: &mut Vec<u8>, words: &str, example: &str) -> Result<(), RefusedGrowth> {
    extend(text, words.as_bytes())?;
    extend(text, b"   as in: ")?;
    extend(text, example.as_bytes())?;
    push(text, b'\n')
}

/// Adds all lines, each with an example.
pub(crate) fn tell_help(text: &mut Vec<u8>) -> Result<(), RefusedGrowth> {
    for (words, example) in SPELLINGS.as_slice() {
        tell_spelling(text, words, example)?;
    }
    Ok(())
}

/// Adds how the first line is spelled, which makes the heap.
pub(crate) fn tell_heap_expected(text: &mut Vec<u8>) -> Result<(), RefusedGrowth> {
    extend(text, b"not understood; the first line makes a heap: ")?;
    tell_spelling(text, SPELLINGS[0].0, SPELLINGS[0].1)
}

// The first word of a line.
fn verb_of(line: &[u8]) -> &[u8] {
    match cut(line) {
        Some((word, _)) => word,
        None => line,
    }
}

/// Adds what was expected in the place of a wrong line: by its first word, the lines that begin so.
pub(crate) fn tell_expected(text: &mut Vec<u8>, line: &[u8]) -> Result<(), RefusedGrowth> {
    let verb = verb_of(line);
    let before = text.len();
    for (words, example) in SPELLINGS.as_slice() {
        if verb_of(words.as_bytes()) == verb {
            extend(text, b"not understood; expected: ")?;
            tell_spelling(text, words, example)?;
        }
    }
    if text.len() == before {
        extend(text, b"not understood; help lists the lines\n")?;
    }
    Ok(())
}

/// Adds that a line was too long, or had no end.
pub(crate) fn tell_too_long(text: &mut Vec<u8>) -> Result<(), RefusedGrowth> {
    extend(
        text,
        b"not read: a line has at most 4096 bytes, and a line feed behind them\n",
    )
}
