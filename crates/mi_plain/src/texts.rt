//! Texts of many like lines, and the words of a call.

use std::alloc::Global;
use std::test::Fail;

/// Lines that are written once for each number from the first to the last. In them `#` is the
/// number, and `@` its place from 1.
pub type Lines = &'static [(&'static str, u64, u64)];

/// A line with its number and its place.
fn line(alloc: Global, form: &str, number: u64, place: u64) -> Result<String, Fail> {
    let mut text = String::new(alloc);
    for letter in form.chars() {
        match letter {
            '#' => text.push_str(format!(in alloc; "{number}")?.as_str())?,
            '@' => text.push_str(format!(in alloc; "{place}")?.as_str())?,
            letter => text.push(letter)?,
        }
    }
    Ok(text)
}

pub fn text_of(alloc: Global, lines: Lines) -> Result<String, Fail> {
    let mut text = String::new(alloc);
    for (form, first, last) in lines {
        for number in *first..last.saturating_add(1) {
            let place = number.saturating_sub(*first).saturating_add(1);
            text.push_str(line(alloc, form, number, place)?.as_str())?;
        }
    }
    Ok(text)
}

/// The words of a call.
pub fn words_of(alloc: Global, words: &[&str]) -> Result<Vec<String>, Fail> {
    let mut all = Vec::new(alloc);
    for word in words {
        all.push(String::from_str(alloc, *word)?)?;
    }
    Ok(all)
}
