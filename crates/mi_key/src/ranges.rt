//! Intervals of keys.
ghost use Rattle.std.specs.Prelude.{◌≡◌, ◌&&◌, ℕ};
ghost use Rattle.mi_key.specs.Ranges.{is_within};

use crate::Key;

/// The keys from one key to another, ends included; none where the first is the greater.
#[derive(Clone, Copy, Debug, PartialEq, Eq)]
pub struct Interval {
    /// The least key.
    pub from: Key,
    /// The greatest key.
    pub to: Key,
}

impl Interval {
    /// Whether the key lies in the interval.
    pub fn has(&self, key: &Key) -> bool
        ensures { result ≡ is_within self.now key.now }
    {
        self.from <= *key && *key <= self.to
    }

    /// The keys that both intervals have.
    pub fn meet(&self, other: &Interval) -> Interval
        ensures { (key : ℕ) → is_within result key ≡ (is_within self.now key && is_within other.now key) }
    {
        Interval {
            from: self.from.max(other.from),
            to: self.to.min(other.to),
        }
    }
}
