//! The command that chooses pivots among the objects of a script.
ghost use Rattle.std.specs.Prelude.{◌≡◌, ◌<◌, ◌≤◌, ℕ, All, IfOk, IfSome, IsSome, IsTrue, length, map, option_map};
ghost use Rattle.std.specs.List.{AllByRecursion};
ghost use Rattle.std.specs.String.{string_bytes};
ghost use Rattle.mi_base.specs.declared.limits.TheConstants.{MAX_OPS, MAX_PIVOTS};
ghost use Rattle.mi_base.specs.Scripts.{IsScriptOver};
ghost use Rattle.mi_base.specs.Space.{MetricSpace};
ghost use Rattle.mi_choose.specs.Farthest.{IsFarthestFirst};
ghost use Rattle.mi_outside.specs.Outside.{KeepsContents};
ghost use Rattle.mi_call.specs.Calls.{Answered, Answers};
ghost use Rattle.mi_call.specs.Choosing.{ChooseCompletes, ChooseSays, Proposed, choose_words_in, objects_of};
ghost use Rattle.mi_call.specs.Loading.{MayRun, inputs_in};

use crate::endings::{ended, stopped};
use crate::loading::{Loaded, load};
use crate::proposals::send_choice;
use crate::statuses::Status;
use crate::texts::{send_memory, send_usage};
use mi_base::{MAX_PIVOTS, NoMemory, Op, Script, Steps, VectorList};
use mi_choose::{Choice, choose};
use mi_input::count;
use mi_metric::Metric;
use mi_outside::{Files, Sink};
use std::alloc::Global;
use std::marker::Brand;
use std::sync::ledger::{Blank, Ledger};

/// The vectors of the insert records, in their order.
fn objects_of(alloc: Global, script: &Script) -> Result<VectorList, NoMemory>
    ensures value { IfOk result (λ objects. objects ≡ objects_of script.now) }
    ensures fit { (m : MetricSpace) → IsScriptOver m script.now → IfOk result (λ objects. AllByRecursion (λ v. IsTrue (m.fits v)) objects) }
    ensures few { (m : MetricSpace) → IsScriptOver m script.now → IfOk result (λ objects. length objects ≤ MAX_OPS) }
{
    let mut objects = VectorList::new(alloc);
    for op in script.as_slice() {
        if let Op::Insert { vector, .. } = op {
            objects.push(vector.copy())?;
        }
    }
    Ok(objects)
}

/// The choice among the objects, with the counter that this blank opens.
fn choose_with<M: Metric, L: Ledger>(
    alloc: Global,
    metric: &M,
    objects: &VectorList,
    count: u32,
    blank: Blank,
) -> Result<Choice, NoMemory>
    requires name { blank.name ≡ L.name }
    requires parts { blank.parts ≡ L.parts }
    requires some_parts { 0 < blank.parts }
    requires objects { AllByRecursion (λ v. IsTrue ((M.space metric.now).fits v)) objects.now }
    requires few { length objects.now ≤ MAX_OPS }
    requires some { 1 ≤ count }
    requires most { count ≤ MAX_PIVOTS }
    ensures choice { IfOk result (IsFarthestFirst (M.space metric.now) objects.now count) }
    ensures places { IfOk result (λ choice. All (λ place. place < length objects.now) choice.chosen) }
{
    let mut steps = Steps::<L>::new(blank);
    choose(alloc, metric, objects, count, &mut steps)
}

/// The choice among the objects.
fn choice_of<M: Metric>(
    alloc: Global,
    metric: &M,
    objects: &VectorList,
    count: u32,
) -> Result<Choice, NoMemory>
    requires objects { AllByRecursion (λ v. IsTrue ((M.space metric.now).fits v)) objects.now }
    requires few { length objects.now ≤ MAX_OPS }
    requires some { 1 ≤ count }
    requires most { count ≤ MAX_PIVOTS }
    ensures choice { IfOk result (IsFarthestFirst (M.space metric.now) objects.now count) }
    ensures places { IfOk result (λ choice. All (λ place. place < length objects.now) choice.chosen) }
{
    choose_with::<M, Brand>(alloc, metric, objects, count, Blank::new(1))
}

/// Chooses among the objects of the script, and sends what comes of it: the choice, or the line of
/// want of memory.
fn propose<S: Sink>(alloc: Global, inputs: &Loaded, count: u32, out: &mut S) -> Status
    requires may { MayRun inputs.now }
    requires some { 1 ≤ count }
    requires most { count ≤ MAX_PIVOTS }
    ensures { Proposed (inputs_in inputs.now) count (S.state out.old) (S.state out.new) result }
{
    let Ok(objects) = objects_of(alloc, inputs.scripts.at(0)) else {
        return ended(Status::NoMemory, send_memory(out));
    };
    match choice_of(alloc, &inputs.metric, &objects, count) {
        Ok(choice) => ended(Status::Done, send_choice(&objects, &choice, out)),
        Err(NoMemory) => ended(Status::NoMemory, send_memory(out)),
    }
}

/// How many pivots are wanted at most, where the words are the command, two names and this number.
fn count_in_words(words: &[String]) -> Option<u32>
    ensures served { result ≡ option_map (λ w. w.count) (choose_words_in (map string_bytes words.now)) }
    ensures four { IsSome result → length words.now ≡ 4 }
    ensures some { IfSome result (λ count. 1 ≤ count) }
    ensures most { IfSome result (λ count. count ≤ MAX_PIVOTS) }
{
    if words.len() != 4 || words[0].as_str() != "choose" {
        return None;
    }
    match count(words[3].as_bytes(), 1, MAX_PIVOTS as u64) {
        Ok(number) => Some(number as u32),
        Err(_) => None,
    }
}

fn answer_choose<F: Files, S: Sink>(
    alloc: Global,
    words: &[String],
    files: &mut F,
    out: &mut S,
) -> Status
    ensures answers { Answers (ChooseSays (choose_words_in (map string_bytes words.now))) (F.state files.old) (F.state files.new) (S.state out.old) (S.state out.new) result }
    ensures contents { KeepsContents (F.state files.old) (F.state files.new) }
{
    let Some(count) = count_in_words(words) else {
        return ended(Status::Usage, send_usage(out));
    };
    match load(alloc, words[1].as_str(), &words[2..3], files) {
        Ok(inputs) => propose(alloc, &inputs, count, out),
        Err(stop) => stopped(stop, out),
    }
}

/// Chooses pivots among the objects of a script. The words are those behind the program's name.
pub fn choose_call<F: Files, S: Sink>(
    alloc: Global,
    words: &[String],
    files: &mut F,
    out: &mut S,
) -> u8
    // What is said, and which status and which bytes come of it.
    ensures answered { Answered (ChooseSays (choose_words_in (map string_bytes words.now))) (F.state files.old) (F.state files.new) (S.state out.old) (S.state out.new) result }
    // Of good inputs the choice is told.
    ensures complete { ChooseCompletes (choose_words_in (map string_bytes words.now)) (F.state files.old) (F.state files.new) (S.state out.old) (S.state out.new) result }
    ensures contents { KeepsContents (F.state files.old) (F.state files.new) }
{
    answer_choose(alloc, words, files, out).number()
}
