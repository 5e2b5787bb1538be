//! The words of the command that makes a workload.

use super::calls::USAGE;
use mi_call::{make_call, mindex};
use mi_outside::{MemoryFiles, MemorySink, OpenGate};
use mi_plain::words_of;
use std::test::Fail;

/// Numbers as they may be written, and the first line of the figures.
static SEEDS: [(&str, &str); 6] = [
    ("0", "seed,0\n"),
    ("-0", "seed,0\n"),
    ("+1", "seed,1\n"),
    ("007", "seed,7\n"),
    ("00000000000000000012", "seed,12\n"),
    ("18446744073709551615", "seed,18446744073709551615\n"),
];

/// Words that are no number of 64 bits.
static OTHERS: [&str; 7] = [
    "",
    "x",
    "-1",
    "+-1",
    "1.0",
    "18446744073709551616",
    "000000000000000000012",
];

#[test]
fn a_workload_has_a_number_of_64_bits(rt: HostRuntime) -> Result<(), Fail> {
    let alloc = rt.alloc();
    for (word, line) in &SEEDS {
        let words = words_of(alloc, &["make", *word])?;
        let mut out = MemorySink::new(alloc, 1000, &[], 1000)?;
        assert_eq!(rt; make_call(alloc, words.as_slice(), &mut out), 0);
        assert!(rt; out.bytes().starts_with(line.as_bytes()), "{line}");
    }
    for word in &OTHERS {
        let words = words_of(alloc, &["make", *word])?;
        let mut out = MemorySink::new(alloc, 1000, &[], 1000)?;
        assert_eq!(rt; make_call(alloc, words.as_slice(), &mut out), 1);
        assert_eq!(rt; out.bytes(), USAGE.as_bytes());
    }
    Ok(())
}

#[test]
fn a_workload_has_no_other_word(rt: HostRuntime) -> Result<(), Fail> {
    let alloc = rt.alloc();
    let forms: [&[&str]; 3] = [&["make"], &["make", "1", "2"], &["Make", "1"]];
    for form in forms {
        let words = words_of(alloc, form)?;
        let mut files = MemoryFiles::new(alloc, &[])?;
        let mut out = MemorySink::new(alloc, 1000, &[], 1000)?;
        let gate = OpenGate::new();
        let status = mindex(&rt, alloc, words.as_slice(), &mut files, &mut out, &gate);
        assert_eq!(rt; status, 1);
        assert_eq!(rt; out.bytes(), USAGE.as_bytes());
    }
    Ok(())
}

#[test]
fn a_usage_line_that_is_cut_off_is_a_failed_write(rt: HostRuntime) -> Result<(), Fail> {
    let alloc = rt.alloc();
    let words = words_of(alloc, &["make", "one"])?;
    let mut out = MemorySink::new(alloc, 8, &[3], 1000)?;
    assert_eq!(rt; make_call(alloc, words.as_slice(), &mut out), 5);
    assert_eq!(rt; out.bytes(), "usage: mindex re".as_bytes());
    Ok(())
}

/// The figures of the workload of number 1.
const FIRST: &str =
    "seed,1\nupdates,5100\nsplits,14\ncells,150\nentries,4900\npages,288,4100\nqueries,300\nrows,2975\nopened,30702\ndistances,419866\n";

#[test]
fn a_workload_has_the_same_figures_each_time(rt: HostRuntime) -> Result<(), Fail> {
    let alloc = rt.alloc();
    let words = words_of(alloc, &["make", "1"])?;
    for _ in 0..2 {
        let mut out = MemorySink::new(alloc, 1000, &[], 1000)?;
        assert_eq!(rt; make_call(alloc, words.as_slice(), &mut out), 0);
        assert_eq!(rt; out.bytes(), FIRST.as_bytes());
    }
    Ok(())
}
