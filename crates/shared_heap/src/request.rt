//! The request of a run.

ghost use Rattle.std.specs.Prelude.{List, []};
ghost use Rattle.calls.specs.declared.settings.Settings.{Settings};
ghost use Rattle.shared_heap.specs.declared.line.WorkerLine.{WorkerLine};

use std::marker::Brand;

/// The settings and the lists that a run was asked for. Each run has its own.
pub(crate) trait Request {
    /// The settings.
    ghost settings: { Settings };

    /// The lists.
    ghost lists: { List (List WorkerLine) };
}

impl Request for Brand {
    ghost settings = { record {
      max_pages = 1;
      stop_age = 1;
      freeze_min_age = 0;
      first_xid = 3;
      dead_limit = 1;
      indexed = [];
    } };

    ghost lists = { [] };
}
