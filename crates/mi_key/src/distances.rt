//! The keys of one cell with distances in an interval.
ghost use Rattle.std.specs.Prelude.{◌≡◌, ℕ, ◌<◌, ◌≤◌, ◌^◌};
ghost use Rattle.mi_key.specs.Keys.{parts_of};
ghost use Rattle.mi_key.specs.Ranges.{is_within, stands_between};

use crate::{Interval, Key};
use mi_base::Id;

/// All keys of a cluster with a distance from `lo` to `hi`, ends included.
pub fn interval(cluster: u32, lo: u32, hi: u32) -> Interval
    requires cluster { cluster < 2 ^ 31 }
    requires order { lo ≤ hi }
    requires distance { hi < 2 ^ 27 }
    ensures { (key : ℕ) → is_within result key ≡ stands_between cluster lo hi (parts_of key) }
{
    let (Ok(least), Ok(greatest)) = (Id::new(0), Id::new((1 << 40) - 1)) else {
        unreachable!();
    };
    Interval {
        from: Key::make(cluster, lo, least, 0),
        to: Key::make(cluster, hi, greatest, (1 << 30) - 1),
    }
}
