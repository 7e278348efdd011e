//! Settings that an engine can have.

ghost use Rattle.std.specs.Prelude.{◌≡◌, ◌<◌, ◌≤◌};
ghost use Rattle.calls.specs.Words.{AreSettings};

use crate::settings::Settings;
use std::marker::Model;

/// Settings that are in their ranges.
#[derive(Drop)]
pub struct CheckedSettings {
    settings: Settings,
}

impl Model for CheckedSettings {
    ghost use Rattle.calls.specs.declared.settings.Settings.{Settings};
    ghost use Rattle.calls.specs.Words.{AreSettings};

    ghost Value = { Settings };

    ghost view = { λ c. c.settings };

    ghost invariant = { λ c. AreSettings c.settings };
}

impl CheckedSettings {
    /// These settings, each of which is in its range.
    pub fn new(settings: Settings) -> Self
        requires { AreSettings settings }
        ensures { result ≡ settings }
    {
        CheckedSettings { settings }
    }

    /// How many dead slots a vacuum collects at most.
    pub fn dead_limit(&self) -> u32
        ensures value { result ≡ self.now.dead_limit }
        ensures some { 0 < result }
        ensures few { result ≤ 4096 }
    {
        self.settings.dead_limit
    }

    /// How old an id has to be before it is frozen.
    pub fn freeze_min_age(&self) -> u32
        ensures { result ≡ self.now.freeze_min_age }
    {
        self.settings.freeze_min_age
    }
}
