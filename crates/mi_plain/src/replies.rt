//! The replies of a transcript.

use crate::asked::Asked;
use std::alloc::Global;
use std::test::Fail;

/// The reply to an operation: its first line, and this line with its rows.
#[derive(Drop)]
pub struct Printed {
    pub asked: Asked,
    pub numbers: Vec<u64>,
    pub text: String,
    /// How many events its position has, where it has one.
    pub position: Option<u64>,
    pub is_accepted: bool,
}

/// The lines of a transcript that are still to be read.
#[derive(Drop)]
pub struct Unread<'a> {
    lines: &'a [&'a str],
    at: usize,
}

impl<'a> Unread<'a> {
    /// All lines.
    pub fn new(lines: &'a [&'a str]) -> Self {
        Unread { lines, at: 0 }
    }

    /// No line is left.
    pub fn is_empty(&self) -> bool {
        self.at >= self.lines.len()
    }

    /// The next line.
    pub fn next(&mut self) -> Result<&'a str, Fail> {
        let line = self.lines.get(self.at).copied().ok_or("one line more")?;
        self.at = self.at.saturating_add(1);
        Ok(line)
    }
}

/// The numbers behind the first word of a line.
pub fn numbers_of(alloc: Global, line: &str) -> Result<Vec<u64>, Fail> {
    let mut numbers = Vec::new(alloc);
    for field in line.split(',').skip(1) {
        numbers.push(field.parse::<u64>()?)?;
    }
    Ok(numbers)
}

/// The number at this place behind the first word.
pub fn number_at(numbers: &[u64], place: usize) -> Result<u64, Fail> {
    Ok(numbers.get(place).copied().ok_or("one number more")?)
}

/// An error that tells both texts, unless what was found is what is wanted.
pub fn same(found: &str, wanted: &str) -> Result<(), Fail> {
    if found == wanted {
        Ok(())
    } else {
        Err(Fail::new(format_args!("{found} in place of {wanted}")))
    }
}

/// An error with these words, unless it holds.
pub fn holds(it: bool, what: &'static str) -> Result<(), Fail> {
    if it { Ok(()) } else { Err(Fail::new(what)) }
}

/// Reads the reply to an operation.
fn read_reply(alloc: Global, lines: &mut Unread<'_>, asked: Asked) -> Result<Printed, Fail> {
    let head = lines.next()?;
    let numbers = numbers_of(alloc, head)?;
    let mut text = format!(in alloc; "{head}\n")?;
    let is_query = head.starts_with("range,") || head.starts_with("nearest,");
    if is_query {
        for _ in 0..number_at(numbers.as_slice(), 2)? {
            let row = lines.next()?;
            let row = format!(in alloc; "{row}\n")?;
            text.push_str(row.as_str())?;
        }
    }
    let has_position = is_query || head.starts_with("present,") || head.starts_with("absent,");
    let position = if has_position {
        let updates = number_at(numbers.as_slice(), 0)?;
        Some(updates.saturating_add(number_at(numbers.as_slice(), 1)?))
    } else {
        None
    };
    Ok(Printed {
        asked,
        numbers,
        text,
        position,
        is_accepted: head.starts_with("stored,") || head.starts_with("removed,"),
    })
}

/// Reads the replies of all sessions.
pub fn read_sessions(
    alloc: Global,
    lines: &mut Unread<'_>,
    scripts: &[Vec<Asked>],
) -> Result<Vec<Vec<Printed>>, Fail> {
    let mut sessions = Vec::new(alloc);
    for (session, script) in scripts.iter().enumerate() {
        let head = format!(in alloc; "session,{session}")?;
        same(lines.next()?, head.as_str())?;
        let mut replies = Vec::new(alloc);
        for asked in script.as_slice() {
            replies.push(read_reply(alloc, lines, *asked)?)?;
        }
        sessions.push(replies)?;
    }
    Ok(sessions)
}
