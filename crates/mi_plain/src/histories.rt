//! Holds a transcript against the plain program, event by event.

use crate::asked::Asked;
use crate::replies::{Printed, Unread, holds, number_at, numbers_of, read_sessions, same};
use crate::scans::{Scans, Setting, place};
use std::alloc::Global;
use std::test::Fail;

impl<'a> Scans<'a> {
    /// What an operation is answered here, unless it is accepted.
    fn answer(&self, alloc: Global, asked: Asked) -> Result<String, Fail> {
        let Scans {
            updates,
            splits,
            ..
        } = self;
        match asked {
            Asked::Insert { id, .. } if self.objects.contains_key(&id) => {
                Ok(format!(in alloc; "present,{updates},{splits}\n")?)
            }
            Asked::Delete { id } if !self.objects.contains_key(&id) => {
                Ok(format!(in alloc; "absent,{updates},{splits}\n")?)
            }
            Asked::Range { radius, query } => self.range(alloc, radius, query),
            Asked::Nearest { count, query } => self.nearest(alloc, count as usize, query),
            _ => Err("an update that could be accepted is refused".into()),
        }
    }

    /// The leaf is one above the greatest depth with so many objects.
    fn may_split(&self, leaf: &str, least: usize) -> bool {
        let is_above = (leaf.len() / 2).saturating_add(1) < self.setting.levels;
        is_above && self.leaves.contains_key(leaf) && self.count(leaf) >= least
    }

    /// Enters an accepted update.
    fn enter(&mut self, alloc: Global, asked: Asked) -> Result<(), Fail> {
        self.updates = self.updates.saturating_add(1);
        match asked {
            Asked::Insert { id, point } => {
                let placed = place(alloc, self.setting.pivots, point)?;
                let crowd = self.setting.cell.saturating_mul(4);
                for leaf in self.leaves.keys() {
                    let text = leaf.as_str();
                    let is_here = placed.permutation.as_str().starts_with(text);
                    if is_here && self.may_split(text, crowd) {
                        return Err("a crowded leaf takes one more".into());
                    }
                }
                self.widen(&placed);
                match self.objects.insert(id, placed)? {
                    Some(_) => Err("a live identifier is inserted".into()),
                    None => Ok(()),
                }
            }
            Asked::Delete { id } => match self.objects.remove(&id) {
                Some(_) => Ok(()),
                None => Err("an identifier that isn't live is deleted".into()),
            },
            _ => Err("a query enters nothing".into()),
        }
    }
}

/// The operation whose reply tells this number of an update, with its session and its number.
fn accepted(sessions: &[Vec<Printed>], update: u64) -> Result<(usize, usize, Asked), Fail> {
    for (session, replies) in sessions.iter().enumerate() {
        for (place, printed) in replies.as_slice().iter().enumerate() {
            if printed.is_accepted && printed.numbers.as_slice().first() == Some(&update) {
                return Ok((session, place.saturating_add(1), printed.asked));
            }
        }
    }
    Err("no reply tells an update".into())
}

/// Each reply whose position has so many events is what a scan there gives.
fn check_position(
    alloc: Global,
    scans: &Scans<'_>,
    sessions: &[Vec<Printed>],
    events: u64,
) -> Result<(), Fail> {
    for replies in sessions {
        for printed in replies.as_slice() {
            if printed.position == Some(events) {
                let wanted = scans.answer(alloc, printed.asked)?;
                same(printed.text.as_str(), wanted.as_str())?;
            }
        }
    }
    Ok(())
}

/// Reads the history, holds each event against what may follow those before it, and each reply
/// against a scan at its position. Gives the number of events up to each update.
fn check_history(
    alloc: Global,
    lines: &mut Unread<'_>,
    scans: &mut Scans<'_>,
    sessions: &[Vec<Printed>],
) -> Result<Vec<u64>, Fail> {
    let head = numbers_of(alloc, lines.next()?)?;
    let events = number_at(head.as_slice(), 0)?.saturating_add(number_at(head.as_slice(), 1)?);
    let mut ends = Vec::new(alloc);
    check_position(alloc, scans, sessions, 0)?;
    for event in 0..events {
        let line = lines.next()?;
        if let Some(leaf) = line.strip_prefix("split,") {
            let least = scans.setting.cell.saturating_add(1);
            holds(scans.may_split(leaf, least), "a leaf is split too early")?;
            scans.split(alloc, leaf)?;
        } else {
            let (session, op, asked) = accepted(sessions, scans.updates.saturating_add(1))?;
            let wanted = asked.event(alloc, session, op)?;
            same(line, wanted.as_str())?;
            scans.enter(alloc, asked)?;
            ends.push(event.saturating_add(1))?;
        }
        check_position(alloc, scans, sessions, event.saturating_add(1))?;
    }
    let told = [scans.updates, scans.splits];
    holds(
        head.as_slice() == told.as_slice(),
        "another history is told",
    )?;
    Ok(ends)
}

/// What a session was told never lies before what it was told earlier.
fn check_order(replies: &[Printed], ends: &[u64]) -> Result<(), Fail> {
    let mut front = 0u64;
    for printed in replies {
        if let Some(position) = printed.position {
            holds(front <= position, "an answer lies before an earlier one")?;
            front = position;
        }
        if printed.is_accepted {
            let update = number_at(printed.numbers.as_slice(), 0)?;
            let place = update.checked_sub(1).ok_or("a number from 1")? as usize;
            let end = ends.get(place).copied().ok_or("an update of the history")?;
            holds(front < end, "an update lies before an earlier answer")?;
            front = end;
        }
    }
    Ok(())
}

/// Reads the cells and the entries.
fn check_cells(alloc: Global, lines: &mut Unread<'_>, scans: &Scans<'_>) -> Result<(), Fail> {
    let wanted = scans.cells_text(alloc)?;
    for line in wanted.as_str().lines() {
        same(lines.next()?, line)?;
    }
    let objects = scans.objects.len();
    let entries = format!(in alloc; "entries,{objects}")?;
    same(lines.next()?, entries.as_str())
}

/// No leaf is left that is to be split.
fn check_splits(scans: &Scans<'_>) -> Result<(), Fail> {
    let least = scans.setting.cell.saturating_add(1);
    for leaf in scans.leaves.keys() {
        holds(
            !scans.may_split(leaf.as_str(), least),
            "a leaf is to be split",
        )?;
    }
    Ok(())
}

/// Where an operation was refused for want of room, there is none.
fn check_refusals(
    scans: &Scans<'_>,
    sessions: &[Vec<Printed>],
    has_pages: bool,
) -> Result<(), Fail> {
    let has_updates = scans.updates != scans.setting.updates;
    for replies in sessions {
        for printed in replies.as_slice() {
            let text = printed.text.as_str();
            holds(
                !text.starts_with("full,") || !has_updates,
                "updates are left",
            )?;
            holds(
                !text.starts_with("nopages,") || !has_pages,
                "pages are left",
            )?;
        }
    }
    Ok(())
}

/// Reads the cells, the entries and the pages.
fn check_end(
    alloc: Global,
    lines: &mut Unread<'_>,
    scans: &Scans<'_>,
    sessions: &[Vec<Printed>],
) -> Result<(), Fail> {
    check_cells(alloc, lines, scans)?;
    let pages = numbers_of(alloc, lines.next()?)?;
    let taken = number_at(pages.as_slice(), 0)?;
    let limit = number_at(pages.as_slice(), 1)?;
    holds(taken <= limit, "too many pages")?;
    if taken < limit {
        check_splits(scans)?;
    }
    check_refusals(scans, sessions, taken != limit)?;
    holds(lines.is_empty(), "one line too many")
}

/// The whole transcript is that of one history.
pub fn check_transcript(
    alloc: Global,
    setting: &Setting,
    scripts: &[Vec<Asked>],
    text: &str,
) -> Result<(), Fail> {
    let mut all = Vec::new(alloc);
    for line in text.lines() {
        all.push(line)?;
    }
    let mut lines = Unread::new(all.as_slice());
    let sessions = read_sessions(alloc, &mut lines, scripts)?;
    let sessions = sessions.as_slice();
    let mut scans = Scans::new(alloc, setting)?;
    let ends = check_history(alloc, &mut lines, &mut scans, sessions)?;
    for replies in sessions {
        check_order(replies.as_slice(), ends.as_slice())?;
    }
    check_end(alloc, &mut lines, &scans, sessions)
}
