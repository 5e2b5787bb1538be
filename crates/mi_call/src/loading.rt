//! Reads the files of a call, in the order of the words.
ghost use Rattle.std.specs.Prelude.{◌≡◌, ◌≤◌, IfOk, None, Some, length, map};
ghost use Rattle.std.specs.String.{string_bytes};
ghost use Rattle.mi_base.specs.declared.limits.TheConstants.{MAX_SESSIONS};
ghost use Rattle.mi_base.specs.Configuration.{metric_space};
ghost use Rattle.mi_base.specs.Scripts.{IsScriptOver};
ghost use Rattle.mi_input.specs.Schedules.{IsScheduleOf, schedule_in};
ghost use Rattle.mi_input.specs.Scripts.{script_in};
ghost use Rattle.mi_input.specs.Settings.{settings_in};
ghost use Rattle.mi_outside.specs.Outside.{KeepsContents};
ghost use Rattle.mi_call.specs.Inputs.{in_file, settings_from};
ghost use Rattle.mi_call.specs.Loading.{HasItsMetric, HasMetric, Loads, LoadsAll, LoadsScripts, MayReplay, MayRun, fault_stop};
ghost use Rattle.mi_call.specs.Loading.{inputs_in, measured_settings, refusal_stop, scheduled_in, seen_as};

use crate::refusals::{Refusal, Stop};
use mi_base::{Schedule, Script, Sequence, Settings};
use mi_input::{InputFault, Reason, read_schedule, read_script, read_settings};
use mi_outside::{Files, ReadRefusal};
use mi_table::{AnyMetric, TableFault};
use std::alloc::Global;

/// The scripts of all sessions.
pub type Scripts = Sequence<Script>;

/// Settings whose metric is there.
#[derive(Drop)]
struct Measured {
    settings: Settings,
    metric: AnyMetric,
}

impl Measured {
    /// The same with scripts.
    fn loaded(self, scripts: Scripts) -> Loaded
        ensures { result ≡ record { settings = self.settings; metric = self.metric; scripts = scripts } }
    {
        Loaded {
            settings: self.settings,
            metric: self.metric,
            scripts,
        }
    }
}

/// What a call runs.
#[derive(Drop)]
pub struct Loaded {
    pub settings: Settings,
    pub metric: AnyMetric,
    pub scripts: Scripts,
}

/// What a call runs after a schedule.
#[derive(Drop)]
pub struct Scheduled {
    pub loaded: Loaded,
    pub schedule: Schedule,
}

/// A file that is too large has no record that is looked at.
fn stop_of(file: u32, refusal: ReadRefusal) -> Stop
    ensures { result ≡ refusal_stop file refusal }
{
    match refusal {
        ReadRefusal::Failed => Stop::Unread { file },
        ReadRefusal::TooLarge => Stop::Refused(Refusal::Record {
            file,
            number: 0,
            why: Reason::Large,
        }),
        ReadRefusal::Memory => Stop::Memory,
    }
}

fn fault_of(file: u32, fault: InputFault) -> Stop
    ensures { result ≡ fault_stop file fault }
{
    match fault {
        InputFault::Bad { number, why } => Stop::Refused(Refusal::Record { file, number, why }),
        InputFault::Memory => Stop::Memory,
    }
}

/// Reads the settings, which are the first file.
fn load_settings<F: Files>(alloc: Global, name: &str, files: &mut F) -> Result<Settings, Stop>
    ensures loads { Loads (F.state files.old) (F.state files.new) name.now 0 (in_file 0 settings_in) result }
    ensures contents { KeepsContents (F.state files.old) (F.state files.new) }
{
    let mut bytes = Vec::new(alloc);
    match files.read(name, &mut bytes) {
        Ok(()) => match read_settings(alloc, bytes.as_slice()) {
            Ok(settings) => Ok(settings),
            Err(fault) => Err(fault_of(0, fault)),
        },
        Err(refusal) => Err(stop_of(0, refusal)),
    }
}

/// Reads the schedule, the second file, for so many sessions.
fn load_schedule<F: Files>(
    alloc: Global,
    name: &str,
    sessions: u32,
    files: &mut F,
) -> Result<Schedule, Stop>
    ensures loads { Loads (F.state files.old) (F.state files.new) name.now 1 (in_file 1 (schedule_in sessions)) result }
    ensures contents { KeepsContents (F.state files.old) (F.state files.new) }
    ensures schedule { IfOk result (IsScheduleOf sessions) }
{
    let mut bytes = Vec::new(alloc);
    match files.read(name, &mut bytes) {
        Ok(()) => match read_schedule(alloc, bytes.as_slice(), sessions) {
            Ok(schedule) => Ok(schedule),
            Err(fault) => Err(fault_of(1, fault)),
        },
        Err(refusal) => Err(stop_of(1, refusal)),
    }
}

/// Reads a script, whose name is at this place among the names.
fn load_script<F: Files>(
    alloc: Global,
    name: &str,
    file: u32,
    settings: &Settings,
    files: &mut F,
) -> Result<Script, Stop>
    ensures loads { Loads (F.state files.old) (F.state files.new) name.now file (in_file file (script_in settings.now)) result }
    ensures contents { KeepsContents (F.state files.old) (F.state files.new) }
    ensures script { IfOk result (IsScriptOver (metric_space settings.now)) }
{
    let mut bytes = Vec::new(alloc);
    match files.read(name, &mut bytes) {
        Ok(()) => match read_script(alloc, bytes.as_slice(), settings) {
            Ok(script) => Ok(script),
            Err(fault) => Err(fault_of(file, fault)),
        },
        Err(refusal) => Err(stop_of(file, refusal)),
    }
}

/// Reads the scripts in their order, the first of which stands at this place among the names.
fn load_scripts<F: Files>(
    alloc: Global,
    names: &[String],
    first: u32,
    settings: &Settings,
    files: &mut F,
) -> Result<Scripts, Stop>
    requires few { length names.now ≤ MAX_SESSIONS }
    requires first { first ≤ 2 }
    ensures loads { LoadsScripts settings.now first (map string_bytes names.now) (F.state files.old) (F.state files.new) result }
    ensures contents { KeepsContents (F.state files.old) (F.state files.new) }
{
    let mut scripts = Scripts::new(alloc);
    for name in names {
        let file = first + scripts.len() as u32;
        let script = load_script(alloc, name.as_str(), file, settings, files)?;
        scripts.push(script)?;
    }
    Ok(scripts)
}

/// The metric of the settings, unless their table has a fault.
fn metric_of(alloc: Global, settings: &Settings) -> Result<AnyMetric, Stop>
    ensures { HasMetric settings.now result }
{
    match AnyMetric::of(alloc, settings) {
        Ok(metric) => Ok(metric),
        Err(TableFault::Memory) => Err(Stop::Memory),
        Err(fault) => Err(Stop::Refused(Refusal::Table(fault))),
    }
}

/// Reads the settings and makes their metric, before any other file is read.
fn load_measured<F: Files>(alloc: Global, name: &str, files: &mut F) -> Result<Measured, Stop>
    ensures loads { Loads (F.state files.old) (F.state files.new) name.now 0 settings_from (seen_as measured_settings result) }
    ensures contents { KeepsContents (F.state files.old) (F.state files.new) }
    ensures metric { IfOk result HasItsMetric }
{
    let settings = load_settings(alloc, name, files)?;
    let metric = metric_of(alloc, &settings)?;
    Ok(Measured { settings, metric })
}

/// Reads the settings and the scripts, each before the next.
pub fn load<F: Files>(
    alloc: Global,
    settings_name: &str,
    script_names: &[String],
    files: &mut F,
) -> Result<Loaded, Stop>
    requires some { 1 ≤ length script_names.now }
    requires few { length script_names.now ≤ MAX_SESSIONS }
    ensures loads { LoadsAll (record { settings = settings_name.now; schedule = None; scripts = map string_bytes script_names.now }) (F.state files.old) (F.state files.new) (seen_as inputs_in result) }
    ensures contents { KeepsContents (F.state files.old) (F.state files.new) }
    ensures may { IfOk result MayRun }
{
    let measured = load_measured(alloc, settings_name, files)?;
    let scripts = load_scripts(alloc, script_names, 1, &measured.settings, files)?;
    Ok(measured.loaded(scripts))
}

/// Reads the settings, the schedule and the scripts, each before the next.
pub fn load_scheduled<F: Files>(
    alloc: Global,
    settings_name: &str,
    schedule_name: &str,
    script_names: &[String],
    files: &mut F,
) -> Result<Scheduled, Stop>
    requires some { 1 ≤ length script_names.now }
    requires few { length script_names.now ≤ MAX_SESSIONS }
    ensures loads { LoadsAll (record { settings = settings_name.now; schedule = Some schedule_name.now; scripts = map string_bytes script_names.now }) (F.state files.old) (F.state files.new) (seen_as scheduled_in result) }
    ensures contents { KeepsContents (F.state files.old) (F.state files.new) }
    ensures may { IfOk result MayReplay }
{
    let measured = load_measured(alloc, settings_name, files)?;
    let sessions = script_names.len() as u32;
    let schedule = load_schedule(alloc, schedule_name, sessions, files)?;
    let scripts = load_scripts(alloc, script_names, 2, &measured.settings, files)?;
    Ok(Scheduled {
        loaded: measured.loaded(scripts),
        schedule,
    })
}
