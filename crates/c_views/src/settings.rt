//! The settings of an engine, as C writes them.

ghost use Rattle.std.specs.Prelude.{◌≡◌};
ghost use Rattle.c_views.specs.Settings.{settings_of};

use session_core::Settings;
use tuple_header::COLUMNS;

/// What an engine is made with: see [`Settings`], whose fields these are.
#[repr(C)]
#[derive(Clone, Copy)]
pub struct SandpiperSettings {
    pub max_pages: u32,
    pub stop_age: u32,
    pub freeze_min_age: u32,
    pub first_xid: u32,
    pub dead_limit: u32,
    pub indexed: [bool; COLUMNS],
}

/// The same settings.
pub fn settings_of(settings: &SandpiperSettings) -> Settings
    ensures { result ≡ settings_of settings.now }
{
    Settings {
        max_pages: settings.max_pages,
        stop_age: settings.stop_age,
        freeze_min_age: settings.freeze_min_age,
        first_xid: settings.first_xid,
        dead_limit: settings.dead_limit,
        indexed: settings.indexed,
    }
}
