//! What a call answers, and the number that C has for it.

ghost use Rattle.std.specs.Prelude.{◌≡◌};
ghost use Rattle.c_handles.specs.CallStatus.{status_of_reply, status_of_found, status_of_fault, number_of_refusal, number_of_status};
ghost use Rattle.session_steps.specs.Replies.{reply_to};
ghost use Rattle.c_handles.specs.CallStatus.{NumbersDiffer, RefusalsAreHigh};

use session_core::{Ack, Refusal, Reply, SettingsFault};

/// What a call answers. A new refusal is a line in [`of_refusal`], a new reply one in [`CallStatus::of_reply`], each with its twin in
/// `specs/CallStatus.antt`: all that a step may answer goes through these.
#[derive(Clone, Copy)]
pub enum CallStatus {
    /// The step was done, and there is nothing else to say.
    Done,
    /// There is a row, and it was written to the place that was named.
    Found,
    /// There is no row, and the place is as it was.
    NoRow,
    /// What the session wrote is part of the history.
    Committed,
    /// The transaction was rolled back.
    RolledBack,
    /// The cursor hands out rows or keys, or the ticket has rows.
    Rows,
    /// The cursor has handed out all its rows.
    End,
    /// The vacuum did a part of its work, and goes on.
    Worked,
    /// The vacuum has ended.
    Ended,
    /// The step was not done.
    Refused(Refusal),
    /// The handle has no engine.
    NoEngine,
    /// The handle has an engine already.
    HasEngine,
    /// There is no place for a row, for a page, for all rows or for a picture.
    NoPlace,
    /// The ticket has no page.
    NoTicket,
    /// The ticket has a page already.
    HasTicket,
    /// More pages were asked for than a picture has.
    TooManyPages,
    /// The setting `max_pages` is out of its range.
    BadMaxPages,
    /// The setting `stop_age` is.
    BadStopAge,
    /// The setting `freeze_min_age` is.
    BadFreezeMinAge,
    /// The setting `first_xid` is.
    BadFirstXid,
    /// The setting `dead_limit` is.
    BadDeadLimit,
}

/// The number of a refusal.
fn of_refusal(refusal: Refusal) -> u32
    ensures { result ≡ number_of_refusal refusal }
{
    match refusal {
        Refusal::NotOpen => 16,
        Refusal::AlreadyOpen => 17,
        Refusal::Failed => 18,
        Refusal::AlreadyThere => 19,
        Refusal::NotThere => 20,
        Refusal::Conflict => 21,
        Refusal::CursorOpen => 22,
        Refusal::NoCursor => 23,
        Refusal::TooDeep => 24,
        Refusal::NoSavepoint => 25,
        Refusal::TooLarge => 26,
        Refusal::NoRoom => 27,
        Refusal::NeedsFreeze => 28,
        Refusal::BadBounds => 29,
        Refusal::NoMemory => 30,
        Refusal::NoSuchPage => 31,
        Refusal::NoSuchIndex => 32,
        Refusal::NoSuchSession => 33,
        Refusal::VacuumRunning => 34,
        Refusal::NoVacuum => 35,
        Refusal::IndexTooNew => 36,
        Refusal::IndexBusy => 37,
        Refusal::Deadlock => 38,
        Refusal::Stale => 39,
        Refusal::Busy(session) => 256 + session as u32,
    }
}

impl CallStatus {
    /// The status of a reply.
    pub fn of_reply(reply: &Reply) -> CallStatus
        ensures { result ≡ status_of_reply reply.now }
    {
        match reply {
            Reply::Done => CallStatus::Done,
            Reply::Found(Some(_)) => CallStatus::Found,
            Reply::Found(None) => CallStatus::NoRow,
            Reply::Committed => CallStatus::Committed,
            Reply::RolledBack => CallStatus::RolledBack,
            Reply::Rows(_) | Reply::Keys(_) => CallStatus::Rows,
            Reply::End => CallStatus::End,
            Reply::Worked(_) => CallStatus::Worked,
            Reply::Ended(_) => CallStatus::Ended,
            Reply::Refused(refusal) => CallStatus::Refused(*refusal),
        }
    }

    /// The status of an answer that has no row.
    pub fn of_answer(answer: Result<Ack, Refusal>) -> CallStatus
        ensures { result ≡ status_of_reply (reply_to answer) }
    {
        match answer {
            Ok(Ack::Done) => CallStatus::Done,
            Ok(Ack::Committed) => CallStatus::Committed,
            Ok(Ack::RolledBack) => CallStatus::RolledBack,
            Err(refusal) => CallStatus::Refused(refusal),
        }
    }

    /// The status of an answer that says whether there is a row.
    pub fn of_found(answer: Result<bool, Refusal>) -> CallStatus
        ensures { result ≡ status_of_found answer }
    {
        match answer {
            Ok(true) => CallStatus::Found,
            Ok(false) => CallStatus::NoRow,
            Err(refusal) => CallStatus::Refused(refusal),
        }
    }

    /// The status of a fault of the settings.
    pub fn of_fault(fault: SettingsFault) -> CallStatus
        ensures { result ≡ status_of_fault fault }
    {
        match fault {
            SettingsFault::MaxPages => CallStatus::BadMaxPages,
            SettingsFault::StopAge => CallStatus::BadStopAge,
            SettingsFault::FreezeMinAge => CallStatus::BadFreezeMinAge,
            SettingsFault::FirstXid => CallStatus::BadFirstXid,
            SettingsFault::DeadLimit => CallStatus::BadDeadLimit,
            SettingsFault::NoMemory => CallStatus::Refused(Refusal::NoMemory),
        }
    }

    /// The number that C has for it.
    pub fn number(self) -> u32
        ensures { result ≡ number_of_status self }
    {
        match self {
            CallStatus::Done => 0,
            CallStatus::Found => 1,
            CallStatus::NoRow => 2,
            CallStatus::Committed => 3,
            CallStatus::RolledBack => 4,
            CallStatus::Rows => 5,
            CallStatus::End => 6,
            CallStatus::Worked => 7,
            CallStatus::Ended => 8,
            CallStatus::Refused(refusal) => of_refusal(refusal),
            CallStatus::NoEngine => 48,
            CallStatus::HasEngine => 49,
            CallStatus::NoPlace => 50,
            CallStatus::NoTicket => 51,
            CallStatus::HasTicket => 52,
            CallStatus::TooManyPages => 53,
            CallStatus::BadMaxPages => 64,
            CallStatus::BadStopAge => 65,
            CallStatus::BadFreezeMinAge => 66,
            CallStatus::BadFirstXid => 67,
            CallStatus::BadDeadLimit => 68,
        }
    }
}

/// No two statuses have one number. It does nothing; its contract is the law.
pub fn numbers_differ()
    ensures { NumbersDiffer }
{}

/// A status says that something was refused exactly where its number is 16 or more. It does nothing; its contract is the law.
pub fn refusals_are_high()
    ensures { RefusalsAreHigh }
{}
