//! Schedules.
ghost use Rattle.std.specs.Prelude.{◌≡◌, ◌≤◌, Ok, IfOk, IfErr};
ghost use Rattle.csv.specs.Records.{fields_of};
ghost use Rattle.mi_input.specs.Faults.{IsFaultOf, ReadsAs};
ghost use Rattle.mi_input.specs.Schedules.{IsScheduleOf, actor_in, item_after, item_in, names_actor, schedule_in, take_in, turns_of, within_turns};

use crate::faults::{InputFault, Reason};
use crate::fields::field;
use crate::numbers::{count, number, whole};
use crate::records::Records;
use csv::ByteRecord;
use mi_base::{Actor, MAX_ITEMS, MAX_TURNS, Schedule, ScheduleItem, Take};
use std::alloc::Global;

/// The greatest number of turns that one item counts out.
const MAX_TAKE: u64 = 1_000_000;

// The field is the splitter's name or has the form of a number.
fn names_actor(field: &[u8]) -> bool
    ensures { result ≡ names_actor field.now }
{
    field == b"splitter".as_slice() || number(field).is_some()
}

#[tactic(auto, unfolding(crate::specs::Schedules::actor_in))]
fn actor_of(sessions: u32, field: &[u8]) -> Result<Actor, Reason>
    ensures { result ≡ actor_in sessions field.now }
{
    if field == b"splitter".as_slice() {
        return Ok(Actor::Splitter);
    }
    let number = whole(field, 0, i64::from(sessions) - 1)? as u32;
    Ok(Actor::Session { number })
}

#[tactic(auto, unfolding(crate::specs::Schedules::take_in))]
fn take_of(field: &[u8]) -> Result<Take, Reason>
    ensures { result ≡ take_in field.now }
{
    if field == b"op".as_slice() {
        return Ok(Take::Operation);
    }
    let count = count(field, 1, MAX_TAKE)? as u32;
    Ok(Take::Turns { count })
}

// The item in the record of this number.
#[tactic(auto, unfolding(crate::specs::Schedules::item_in))]
fn item_of(sessions: u32, number: u32, fields: &ByteRecord) -> Result<ScheduleItem, Reason>
    ensures { result ≡ item_in sessions number (fields_of fields.now) }
{
    if !names_actor(field(fields, 0)) {
        return Err(Reason::Word);
    }
    if number as usize > MAX_ITEMS {
        return Err(Reason::Limit);
    }
    if fields.len() != 2 {
        return Err(Reason::Fields);
    }
    let actor = actor_of(sessions, field(fields, 0))?;
    let take = take_of(field(fields, 1))?;
    Ok(ScheduleItem { actor, take })
}

// How many turns are counted out.
fn turns_of(take: Take) -> u64
    ensures turns { result ≡ turns_of take }
    ensures small { result ≤ 4294967295 }
{
    match take {
        Take::Turns { count } => u64::from(count),
        Take::Operation => 0,
    }
}

// The item, unless the turns before it and its own are too many.
fn within_turns(turns: u64, item: ScheduleItem) -> Result<ScheduleItem, Reason>
    requires { turns ≤ MAX_TURNS }
    ensures { result ≡ within_turns turns item }
{
    if turns + turns_of(item.take) > MAX_TURNS {
        return Err(Reason::Limit);
    }
    Ok(item)
}

// The item in the record of this number, after so many turns.
fn next_item(
    sessions: u32,
    number: u32,
    turns: u64,
    fields: &ByteRecord,
) -> Result<ScheduleItem, Reason>
    requires { turns ≤ MAX_TURNS }
    ensures { result ≡ item_after sessions turns number (fields_of fields.now) }
{
    within_turns(turns, item_of(sessions, number, fields)?)
}

fn schedule_of(alloc: Global, bytes: &[u8], sessions: u32) -> Result<Schedule, InputFault>
    ensures { ReadsAs (λ schedule. schedule) result (schedule_in sessions bytes.now) }
{
    let mut records = Records::new(alloc, bytes)?;
    let mut schedule = Schedule::new(alloc);
    let mut turns = 0;
    while let Some(fields) = records.current() {
        match next_item(sessions, records.number(), turns, fields) {
            Ok(item) => {
                turns += turns_of(item.take);
                schedule.push(item)?;
            }
            Err(why) => return Err(records.fault(why)),
        }
        records.advance()?;
    }
    Ok(schedule)
}

/// The schedule for so many sessions in a file of these bytes. Its counts together are at most 100,000,000.
pub fn read_schedule(alloc: Global, bytes: &[u8], sessions: u32) -> Result<Schedule, InputFault>
    ensures ok { IfOk result (λ schedule. schedule_in sessions bytes.now ≡ Ok schedule) }
    ensures schedule { IfOk result (IsScheduleOf sessions) }
    ensures err { IfErr result (IsFaultOf (schedule_in sessions bytes.now)) }
{
    schedule_of(alloc, bytes, sessions)
}
