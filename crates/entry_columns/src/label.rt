//! Labels: what entries are sorted by before their places.

ghost use Rattle.std.specs.Prelude.{◌≡◌, ◌↔◌, ℕ, ℤ, Bool, true, false, pos, IsTrue};
ghost use Rattle.entry_columns.specs.Fits.{FitsLabel};

/// The value and the key of an entry, in as few bytes as they take.
pub trait Label: Copy {
    // whether it is of an index by key
    ghost is_by_key: { Bool };

    // whether it is of one by a column, where the value and the key have 32 bits each
    ghost is_narrow: { Bool };

    ghost value_of: { Self → ℤ };

    ghost key_of: { Self → ℕ };

    /// Whether there is a label of this value and this key.
    fn fits(value: i128, key: u64) -> bool
        ensures { IsTrue result ↔ FitsLabel is_by_key is_narrow value key };

    /// The label of this value and this key.
    fn new(value: i128, key: u64) -> Self
        requires { FitsLabel is_by_key is_narrow value key }
        ensures value { value_of result ≡ value }
        ensures key { key_of result ≡ key };

    /// The value that orders the entries first.
    fn value(&self) -> i128
        ensures { result ≡ value_of self.now };

    /// The key of the row that the entry is for.
    fn key(&self) -> u64
        ensures { result ≡ key_of self.now };
}

/// Of an index by key: the value is the key.
#[derive(Clone, Copy, Debug)]
pub struct KeyLabel {
    both: u64,
}

impl Label for KeyLabel {
    ghost is_by_key = { true };

    ghost is_narrow = { false };

    ghost value_of = { λ label. pos label.both };

    ghost key_of = { λ label. label.both };

    fn fits(value: i128, key: u64) -> bool {
        value == key as i128
    }

    #[inline(always)]
    fn new(_value: i128, key: u64) -> Self {
        KeyLabel { both: key }
    }

    #[inline(always)]
    fn value(&self) -> i128 {
        self.key() as i128
    }

    #[inline(always)]
    fn key(&self) -> u64 {
        self.both
    }
}

/// Of an index by a column: the value is the column's.
#[derive(Clone, Copy, Debug)]
pub struct ColumnLabel {
    value: i64,
    key: u64,
}

impl Label for ColumnLabel {
    ghost is_by_key = { false };

    ghost is_narrow = { false };

    ghost value_of = { λ label. label.value };

    ghost key_of = { λ label. label.key };

    fn fits(value: i128, _key: u64) -> bool {
        i64::try_from(value).is_ok()
    }

    #[inline(always)]
    fn new(value: i128, key: u64) -> Self {
        ColumnLabel {
            value: value as i64,
            key,
        }
    }

    #[inline(always)]
    fn value(&self) -> i128 {
        self.value as i128
    }

    #[inline(always)]
    fn key(&self) -> u64 {
        self.key
    }
}

/// Of an index by a column, where the value and the key have 32 bits each.
#[derive(Clone, Copy, Debug)]
pub struct NarrowLabel {
    value: i32,
    key: u32,
}

impl Label for NarrowLabel {
    ghost is_by_key = { false };

    ghost is_narrow = { true };

    ghost value_of = { λ label. label.value };

    ghost key_of = { λ label. label.key };

    fn fits(value: i128, key: u64) -> bool {
        i32::try_from(value).is_ok() && u32::try_from(key).is_ok()
    }

    #[inline(always)]
    fn new(value: i128, key: u64) -> Self {
        NarrowLabel {
            value: value as i32,
            key: key as u32,
        }
    }

    #[inline(always)]
    fn value(&self) -> i128 {
        self.value as i128
    }

    #[inline(always)]
    fn key(&self) -> u64 {
        u64::from(self.key)
    }
}
