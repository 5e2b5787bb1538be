//! Tests of what comes in and goes out: settings, scripts and schedules, workloads, transcripts, files and sinks.
#![tactic(auto)]

#[cfg(test)]
mod edges;
#[cfg(test)]
mod inputs;
#[cfg(test)]
mod texts;
#[cfg(test)]
mod workloads;
