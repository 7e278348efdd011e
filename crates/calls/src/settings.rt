//! The settings of an engine.

ghost use Rattle.std.specs.Prelude.{◌≡◌, IfSome, None, ◌↔◌};
ghost use Rattle.calls.specs.Words.{AreSettings, FirstFault};

use thiserror::Error;
use tuple_header::COLUMNS;

/// What an engine is made with.
#[derive(Clone, Copy, Debug, PartialEq, Eq)]
pub struct Settings {
    /// How many pages the table may have: 1 to 65,536.
    pub max_pages: u32,
    /// How far from the oldest remembered id no id is given any more: 1 to 2,144,483,648.
    pub stop_age: u32,
    /// A vacuum freezes what was made by an id more numbers than this before the next one: 0 to 1,000,000,000.
    pub freeze_min_age: u32,
    /// The first id that is given: 3 to 4,294,967,295.
    pub first_xid: u32,
    /// How many dead slots a vacuum collects before it goes through the indexes: 1 to 4096.
    pub dead_limit: u32,
    /// Which columns have an index.
    pub indexed: [bool; COLUMNS],
}

/// Why an engine is not made: the first setting that is out of its range (see [`Settings`]), or memory.
#[derive(Clone, Copy, Debug, PartialEq, Eq, Error)]
pub enum SettingsFault {
    /// `max_pages`.
    #[error("the number of pages is not from 1 to 65536")]
    MaxPages,
    /// `stop_age`.
    #[error("the stop age is not from 1 to 2144483648")]
    StopAge,
    /// `freeze_min_age`.
    #[error("the freeze minimum is over 1000000000")]
    FreezeMinAge,
    /// `first_xid`.
    #[error("the first id is below 3")]
    FirstXid,
    /// `dead_limit`.
    #[error("the limit of dead slots is not from 1 to 4096")]
    DeadLimit,
    /// All are in range, and memory was refused.
    #[error("there is no memory")]
    NoMemory,
}

impl Settings {
    /// The first setting that is out of its range.
    pub fn fault(&self) -> Option<SettingsFault>
        ensures fault { IfSome result (λ fault. FirstFault self.now fault) }
        ensures none { (result ≡ None) ↔ AreSettings self.now }
    {
        if self.max_pages < 1 || self.max_pages > 65_536 {
            return Some(SettingsFault::MaxPages);
        }
        if self.stop_age < 1 || self.stop_age > 2_144_483_648 {
            return Some(SettingsFault::StopAge);
        }
        if self.freeze_min_age > 1_000_000_000 {
            return Some(SettingsFault::FreezeMinAge);
        }
        if self.first_xid < 3 {
            return Some(SettingsFault::FirstXid);
        }
        if self.dead_limit < 1 || self.dead_limit > 4096 {
            return Some(SettingsFault::DeadLimit);
        }
        None
    }
}
