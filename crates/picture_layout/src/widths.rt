//! How wide the columns of a picture have to be, in characters, and what stands before what.

use shape_list::{EntryShape, SessionShape, Shape, VersionShape};
use xid_circle::Xid;

/// What is known of a picture before anything of it has a place.
#[derive(Clone, Copy, Drop)]
pub(crate) struct Widths {
    /// The ids that are shown.
    pub(crate) ids: u32,
    /// Those of them before the horizon.
    pub(crate) ids_before_horizon: u32,
    /// The longest of these.
    pub(crate) id: u32,
    /// The open sessions, and the longest line of one.
    pub(crate) sessions: u32,
    pub(crate) session: u32,
    /// The longest word in each column of a box.
    pub(crate) xmin: u32,
    pub(crate) xmax: u32,
    pub(crate) key: u32,
    pub(crate) cols: u32,
    pub(crate) body: u32,
    // The longest word beside an arrow of each index; 0 where there is none.
    label: [u32; 5],
    are_open: [bool; 64],
}

/// How many digits a number has.
fn digits(number: u128) -> u32 {
    let mut rest = number;
    let mut count = 1u32;
    for _ in 0..39 {
        if rest < 10 {
            return count;
        }
        rest /= 10;
        count = count.saturating_add(1);
    }
    count
}

/// How many characters a number with its sign has.
fn signed_digits(number: i128) -> u32 {
    let sign = if number < 0 { 1 } else { 0 };
    digits(number.unsigned_abs()).saturating_add(sign)
}

/// How wide so many characters are.
pub(crate) fn pixels(characters: u32) -> u32 {
    characters.saturating_mul(15) / 2
}

/// How many of the first of these are so.
fn count_before(are: &[bool], place: usize) -> u32 {
    let mut count = 0u32;
    for (i, is) in are.iter().enumerate() {
        if *is && i < place {
            count = count.saturating_add(1);
        }
    }
    count
}

impl Widths {
    fn new() -> Widths {
        Widths {
            ids: 0,
            ids_before_horizon: 0,
            id: 1,
            sessions: 0,
            session: 0,
            xmin: 1,
            xmax: 1,
            key: 1,
            cols: 8,
            body: 1,
            label: [0; 5],
            are_open: [false; 64],
        }
    }

    /// How wide the words beside the arrows of the indexes before this one are, in pixels.
    pub(crate) fn labels_before(&self, index: u8) -> u32 {
        let mut width = 0u32;
        for (i, characters) in self.label.iter().enumerate() {
            if i < usize::from(index) && *characters > 0 {
                width = width.saturating_add(pixels(*characters).saturating_add(14));
            }
        }
        width
    }

    /// How many open sessions have lower numbers.
    pub(crate) fn sessions_before(&self, s: u8) -> u32 {
        count_before(self.are_open.as_slice(), usize::from(s))
    }

    fn note_session(&mut self, session: &SessionShape) {
        let fails = if session.failed { 15 } else { 0 };
        let waits = if session.waits_for.is_some() { 25 } else { 0 };
        self.sessions = self.sessions.saturating_add(1);
        self.session = self.session.max(66 + fails + waits);
        self.are_open[usize::from(session.session % 64)] = true;
    }

    fn note_version(&mut self, version: &VersionShape) {
        let mut cols = 0u32;
        for c in &version.cols {
            cols = cols.saturating_add(signed_digits(i128::from(*c)).saturating_add(1));
        }
        let start = version.body_start.len();
        let rest = if start < version.body_bytes { 15 } else { 0 };
        self.xmin = self.xmin.max(digits(u128::from(version.header.xmin.0)));
        self.xmax = self.xmax.max(digits(u128::from(version.header.xmax.0)));
        self.key = self.key.max(digits(u128::from(version.key)));
        self.cols = self.cols.max(cols);
        self.body = self.body.max((start as u32).saturating_add(rest));
    }

    fn note_entry(&mut self, of: &EntryShape) {
        let word = if of.index == 0 { 4 } else { 10 };
        let characters = signed_digits(of.entry.value).saturating_add(word);
        let i = usize::from(of.index % 5);
        self.label[i] = self.label[i].max(characters);
    }

    fn note(&mut self, shape: &Shape) {
        match shape {
            Shape::Id(id) => {
                self.ids = self.ids.saturating_add(1);
                self.id = self.id.max(digits(u128::from(id.id.0)));
            }
            Shape::Session(session) => self.note_session(session),
            Shape::Entry(of) => self.note_entry(of),
            Shape::Slot(slot) => {
                if let Some(version) = &slot.version {
                    self.note_version(version);
                }
            }
            _ => {}
        }
    }
}

/// The horizon, if it is shown.
fn horizon_in(shapes: &[Shape]) -> Option<Xid> {
    for shape in shapes {
        if let Shape::Horizon(horizon) = shape {
            return Some(horizon.horizon);
        }
    }
    None
}

/// How many ids stand before this one.
fn ids_before(shapes: &[Shape], x: Option<Xid>) -> u32 {
    let mut count = 0u32;
    for shape in shapes {
        if let Shape::Id(id) = shape {
            if x == Some(id.id) {
                return count;
            }
            count = count.saturating_add(1);
        }
    }
    count
}

/// What is known of a picture of these shapes.
pub(crate) fn widths_of(shapes: &[Shape]) -> Widths {
    let mut widths = Widths::new();
    for shape in shapes {
        widths.note(shape);
    }
    widths.ids_before_horizon = ids_before(shapes, horizon_in(shapes));
    widths
}
