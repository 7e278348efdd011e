//! A transcript that is judged to its first wrong answer, and to its end.

use std::alloc::Global;
use transcript::{Begins, Until, judge_transcript};

/// Session 0 writes a key that was committed since it began, and commits.
static TEXT: &str =
    "heap 4 1000 0 3 64 0000\n> begin 0\nok\n> begin 1\nok\n> insert 1 1 5 0 0 0 -\nok\n> commit 1\ncommitted\n> insert 0 1 6 0 0 0 -\nok\n> commit 0\ncommitted\n";

static FIRST: &str =
    "line 10: insert 0 1 6 0 0 0 -\nanswered ok\ndue error 6 Conflict\nrule first committer wins\nshown session 0 reads commits below 0; commit 0 wrote key 1 last\n";

static REST: &str =
    "line 12: commit 0\nanswered committed\ndue rolled back\nrule commit\nwrong 2, allowed 4, left open 0\n";

// What is said, if some answer is wrong.
fn said(alloc: Global, until: Until) -> Option<Vec<u8>> {
    let mut reader = TEXT.as_bytes();
    let mut out = Vec::new(alloc);
    let (judged, _) = judge_transcript(alloc, Begins::AsWritten, until, &mut reader, &mut out);
    match judged {
        Ok(false) => Some(out),
        _ => None,
    }
}

#[test]
fn tells_the_first_wrong_answer(rt: HostRuntime) {
    match said(rt.alloc(), Until::FirstWrong) {
        Some(out) => assert!(rt; out.as_slice() == FIRST.as_bytes()),
        None => assert!(rt; false, "nothing is wrong"),
    }
}

#[test]
fn tells_each_wrong_answer(rt: HostRuntime) {
    match said(rt.alloc(), Until::End) {
        Some(out) => {
            assert_eq!(rt; out.len(), FIRST.len() + REST.len());
            assert!(rt; out.starts_with(FIRST.as_bytes()));
            assert!(rt; out.ends_with(REST.as_bytes()));
        }
        None => assert!(rt; false, "nothing is wrong"),
    }
}
