//! Replies that are read, and spelled again.

use calls::{Refusal, Reply};
use reply_text::{cut, cut_at, reply_at};
use script_text::tell_reply;
use std::alloc::Global;

/// A text of each kind.
static TEXTS: [&str; 12] = [
    "ok",
    "none",
    "row 1 5 -7 0 0 6869",
    "committed",
    "rolled back",
    "rows 2\nrow 1 0 0 0 0 -\nrow 2 0 0 0 0 00",
    "keys 2\nkey 1\nkey 18446744073709551615",
    "end",
    "heap 4294967295",
    "ended 7",
    "error 7 Busy 255",
    "error 25 IndexBusy",
];

// Is it spelled so again?
fn is_read(alloc: Global, text: &[u8]) -> bool {
    let Ok(Some(reply)) = reply_at(alloc, text) else {
        return false;
    };
    let mut told = Vec::new(alloc);
    match tell_reply(&mut told, &reply) {
        Ok(()) => cut_at(told.as_slice(), b'\n').is_some() && told.starts_with(text),
        Err(_) => false,
    }
}

#[test]
fn reads_a_reply_of_each_kind(rt: HostRuntime) {
    for text in TEXTS {
        assert!(rt; is_read(rt.alloc(), text.as_bytes()), "{text}");
    }
}

// Is it the row of key 1 with these values?
fn is_hi(reply: &Reply) -> bool {
    match reply {
        Reply::Found(Some(row)) => {
            row.key == 1
                && row.cols[0] == 5
                && row.cols[1] == -7
                && row.body.as_slice() == b"hi".as_slice()
        }
        _ => false,
    }
}

#[test]
fn reads_the_values_of_a_row(rt: HostRuntime) {
    match reply_at(rt.alloc(), b"row 1 5 -7 0 0 6869") {
        Ok(Some(reply)) => assert!(rt; is_hi(&reply)),
        _ => assert!(rt; false, "no row"),
    }
}

#[test]
fn reads_who_holds_a_key(rt: HostRuntime) {
    match reply_at(rt.alloc(), b"error 7 Busy 3") {
        Ok(Some(Reply::Refused(Refusal::Busy(o)))) => assert_eq!(rt; o, 3),
        _ => assert!(rt; false, "nobody"),
    }
}

#[test]
fn reads_no_other_text(rt: HostRuntime) {
    for text in [
        "",
        "yes",
        "error 7 Busy",
        "row 01 0 0 0 0 -",
        "rows 2\nrow 1 0 0 0 0 -",
    ] {
        match reply_at(rt.alloc(), text.as_bytes()) {
            Ok(None) => {}
            _ => assert!(rt; false, "{text}"),
        }
    }
}

#[test]
fn cuts_a_word(rt: HostRuntime) {
    match cut(b"rolled back") {
        Some((word, rest)) => assert!(rt;
            word == b"rolled".as_slice() && rest == b"back".as_slice()
        ),
        None => assert!(rt; false, "no word"),
    }
}
