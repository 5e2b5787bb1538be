//! Where the way of a key goes on from a page, and a visit of one page.
ghost use Rattle.std.specs.Prelude.{◌≡◌, ◌<◌, ◌≤◌};
ghost use Rattle.std.specs.List.{AllByRecursion};
ghost use Rattle.mi_page.specs.Entries.{shown_in};
ghost use Rattle.mi_solo.specs.Seeking.{AnswersVisit, HasSibling, ReadsOn, offered_of};
ghost use Rattle.mi_solo.specs.Ways.{GoesOn};

use mi_key::{Interval, Key, Sieve};
use mi_page::Page;
use mi_world::Visit;

/// Where the way of a key goes on.
#[derive(Clone, Copy, Debug, PartialEq, Eq)]
pub enum Way {
    /// At a page one level lower.
    Down { page: u32 },
    /// At the right sibling.
    Right { page: u32 },
    /// The key lies in the page.
    Here,
}

/// Where the way of a key goes on from a page, to its page of a level.
pub fn seek(page: &Page, level: u32, key: Key) -> Way
    requires above { level ≤ page.now.level }
    requires low { level < page.now.level → page.now.low ≤ key }
    requires sibling { HasSibling page.now }
    ensures { GoesOn page.now level key result }
{
    if level < page.level() {
        return Way::Down {
            page: page.child(key),
        };
    }
    if let Some(high) = page.high() {
        if high <= key {
            let Some(next) = page.right() else {
                unreachable!();
            };
            return Way::Right { page: next };
        }
    }
    Way::Here
}

/// The page on which a reader goes on up to a key, if it goes on.
pub fn next_page(page: &Page, to: Key) -> Option<u32>
    requires { HasSibling page.now }
    ensures { ReadsOn page.now to result }
{
    if let Some(high) = page.high() {
        if high <= to {
            return page.right();
        }
    }
    None
}

/// Offers what the page shows of an interval.
pub fn visit_page<S: Sieve>(page: &Page, range: &Interval, updates: u32, sieve: &mut S) -> Visit
    requires low { 0 < page.now.level → page.now.low ≤ range.now.from }
    requires sibling { HasSibling page.now }
    requires spare { 32 ≤ S.spare sieve.old }
    requires takes { page.now.level ≡ 0 → AllByRecursion (S.takes sieve.old) (shown_in range.now updates page.now.entries) }
    ensures told { AnswersVisit page.now range.now result }
    ensures offered { S.offered sieve.old (offered_of page.now range.now updates result) sieve.new }
{
    match seek(page, 0, range.from) {
        Way::Down { page } => Visit::Down { page },
        Way::Right { page } => Visit::Right { page },
        Way::Here => {
            page.offer(range, updates, sieve);
            Visit::Read {
                next: next_page(page, range.to),
            }
        }
    }
}
