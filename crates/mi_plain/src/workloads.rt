//! Workloads of several sessions, drawn by a fixed rule, and their files.

use crate::asked::Asked;
use crate::scans::Setting;
use std::alloc::Global;
use std::test::Fail;

/// Pivots whose distances from a point differ by even and by odd numbers.
pub static SETTINGS: [Setting; 5] = [
    Setting {
        pivots: &[],
        levels: 0,
        cell: 1,
        updates: 1000,
    },
    Setting {
        pivots: &[[1, 0]],
        levels: 1,
        cell: 1,
        updates: 1000,
    },
    Setting {
        pivots: &[[0, 0], [9, -8], [-9, 9], [3, 2]],
        levels: 4,
        cell: 1,
        updates: 1000,
    },
    Setting {
        pivots: &[[5, 4], [-5, 5], [5, 4], [-5, -5], [0, 1]],
        levels: 3,
        cell: 2,
        updates: 1000,
    },
    Setting {
        pivots: &[[10, 0], [0, 9], [-10, 0], [0, -9], [1, 1], [0, 0]],
        levels: 2,
        cell: 2,
        updates: 60,
    },
];

/// The settings as a file.
pub fn settings_text(alloc: Global, setting: &Setting, pages: u32) -> Result<String, Fail> {
    let mut text = String::from_str(alloc, "metric,l1\ndims,2\n")?;
    for [x, y] in setting.pivots {
        let line = format!(in alloc; "pivot,{x},{y}\n")?;
        text.push_str(line.as_str())?;
    }
    let Setting {
        levels,
        cell,
        updates,
        ..
    } = setting;
    let sizes = format!(in alloc;
        "levels,{levels}\ncell,{cell}\nupdates,{updates}\npages,{pages}\n"
    )?;
    text.push_str(sizes.as_str())?;
    Ok(text)
}

/// A script as a file.
pub fn script_text(alloc: Global, script: &[Asked]) -> Result<String, Fail> {
    let mut records = String::new(alloc);
    for asked in script {
        let record = asked.record(alloc)?;
        records.push_str(record.as_str())?;
    }
    Ok(records)
}

/// The next number of a fixed rule.
fn advance(state: u64) -> u64 {
    state
        .wrapping_mul(6364136223846793005)
        .wrapping_add(1442695040888963407)
}

/// A script of so many operations by a fixed rule, half of them inserts.
fn script_of(alloc: Global, state: &mut u64, length: usize) -> Result<Vec<Asked>, Fail> {
    let mut script = Vec::new(alloc);
    for _ in 0..length {
        *state = advance(*state);
        let number = (*state >> 33) % 120;
        let point = [
            ((*state >> 40) % 21) as i64 - 10,
            ((*state >> 50) % 21) as i64 - 10,
        ];
        script.push(match *state >> 60 {
            0..=3 => Asked::Delete { id: number },
            4 | 5 => Asked::Range {
                radius: (number % 14) as i64,
                query: point,
            },
            6 | 7 => Asked::Nearest {
                count: number % 12 + 1,
                query: point,
            },
            _ => Asked::Insert { id: number, point },
        })?;
    }
    Ok(script)
}

/// A schedule of so many records by a fixed rule, for at most four sessions and the splitter.
fn schedule_of(
    alloc: Global,
    state: &mut u64,
    sessions: u64,
    length: usize,
) -> Result<String, Fail> {
    let mut schedule = String::new(alloc);
    for _ in 0..length {
        *state = advance(*state);
        let actor = (*state >> 33) % 5;
        let count = (*state >> 45) % 30;
        let line = match (actor < sessions, count) {
            (true, 0) => format!(in alloc; "{actor},op\n")?,
            (true, _) => format!(in alloc; "{actor},{count}\n")?,
            (false, 0) => String::from_str(alloc, "splitter,op\n")?,
            (false, _) => format!(in alloc; "splitter,{count}\n")?,
        };
        schedule.push_str(line.as_str())?;
    }
    Ok(schedule)
}

/// Scripts of sessions under a schedule, all by a fixed rule.
#[derive(Drop)]
pub struct Workload {
    pub schedule: String,
    pub scripts: Vec<Vec<Asked>>,
}

/// A workload of so many sessions, each with so many operations.
pub fn drawn(alloc: Global, sessions: u64, length: usize, seed: u64) -> Result<Workload, Fail> {
    let mut state = seed;
    let mut scripts = Vec::new(alloc);
    for _ in 0..sessions {
        scripts.push(script_of(alloc, &mut state, length)?)?;
    }
    Ok(Workload {
        schedule: schedule_of(alloc, &mut state, sessions, 200)?,
        scripts,
    })
}
