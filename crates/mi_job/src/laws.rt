//! What is true of jobs and of the splitter at every view. The functions do nothing.
ghost use Rattle.std.specs.Prelude.{◌≡◌, ◌≤◌, ◌<◌, ◌+◌, ◌⊎◌, ℕ, ℤ, Bool, List, None, Some, true, length};
ghost use Rattle.mi_base.specs.declared.records.Op.{Op as AnOp};
ghost use Rattle.mi_base.specs.declared.records.Op.TheVariants.{Range, Nearest};
ghost use Rattle.mi_base.specs.declared.records.Reply.{Reply as AReply};
ghost use Rattle.mi_base.specs.Configuration.{metric_space, space_of};
ghost use Rattle.mi_base.specs.History.{Entered};
ghost use Rattle.mi_base.specs.Scripts.{IsOpOver};
ghost use Rattle.mi_base.specs.Space.{Space};
ghost use Rattle.mi_legal.specs.Work.{Works, WorksNearest};
ghost use Rattle.mi_world.specs.View.{Others, View};
ghost use Rattle.mi_split.specs.Splitting.{split_most};
ghost use Rattle.mi_job.specs.declared.care.Care.{Care as ACare};
ghost use Rattle.mi_job.specs.declared.care.CareTurn.{CareTurn as ACareTurn};
ghost use Rattle.mi_job.specs.declared.care.CareTurn.TheVariants as told;
ghost use Rattle.mi_job.specs.declared.job.Job.{Job as AJob};
ghost use Rattle.mi_job.specs.declared.turns.JobTurn.{JobTurn as ATurn};
ghost use Rattle.mi_job.specs.declared.turns.JobTurn.TheVariants.{Done, Held, More};
ghost use Rattle.mi_job.specs.Caring as caring;
ghost use Rattle.mi_job.specs.Claims.{ClaimsNone};
ghost use Rattle.mi_job.specs.Jobs.{Begun, Ended, Ready, Since, Ticked, Ticks, Turned, asked, job_most, left, op_number, since_in};
ghost use Rattle.mi_job.specs.Wanting.{IsRefused, LacksRoom, is_no_pages, lacks, wants};

/// A job is ready where its actor claims nothing, if its operation fits and was measured for these settings.
pub fn jobs_begin()
    ensures told { (job : AJob) (o : AnOp) (number : ℕ) (v : View) → Begun job o number (space_of v.settings) → (asked job ≡ o) × (op_number job ≡ number) × (since_in job v ≡ length v.seen) }
    ensures ready { (job : AJob) (o : AnOp) (number : ℕ) (v : View)
        → Begun job o number (space_of v.settings) → IsOpOver (metric_space v.settings) o → ClaimsNone v → Ready job v }
    ensures since { (job : AJob) (o : AnOp) (number : ℕ) (v : View)
        → Begun job o number (space_of v.settings) → Since v.own (length v.seen) v.owes v.early job v }
    ensures ticked { (job : AJob) (o : AnOp) (number : ℕ) (space : Space) (v : View) (k : ℕ) → Begun job o number space → Ticked k job v k }
{}

/// Each section of a job keeps what is so since its first, and as many steps are taken as distances are computed.
pub fn jobs_go_on()
    ensures since { (own : List Entered) (from : ℕ) (owed : ℕ → Bool) (early : Bool) (old new : AJob) (v w : View) (answer : ATurn)
        → Turned old v answer new w → Since own from owed early old v → Since own from owed early new w }
    ensures more { (first : ℕ) (old new : AJob) (v w : View) (k n : ℕ) → Ticks old v k More new w n → Ticked first old v k → Ticked first new w n }
    ensures held { (first : ℕ) (old new : AJob) (v w : View) (k n : ℕ) → Turned old v Held new w → Ticks old v k Held new w n → Ticked first old v k → Ticked first new w n }
{}

/// While others act a job stays ready, and so does what is so since its first section.
pub fn jobs_wait()
    ensures ready { (job : AJob) (v w : View) → Others v w → Ready job v → Ready job w }
    ensures rises { (job : AJob) (v w : View) → Others v w → Ready job v → since_in job v ≤ since_in job w }
    ensures ticked { (job : AJob) (v w : View) → Others v w → (first k : ℕ) → Ready job v → Ticked first job v k → Ticked first job w k }
    ensures since { (job : AJob) (v w : View) → Others v w → (own : List Entered) (from : ℕ) (owed : ℕ → Bool) (early : Bool)
        → Ready job v → Since own from owed early job v → Since own from owed early job w }
{}

/// What is so at a job's end, and how many steps a query has taken.
pub fn jobs_end()
    ensures ended { (own : List Entered) (from : ℕ) (owed : ℕ → Bool) (early : Bool) (old new : AJob) (v w : View) (y : AReply)
        → Turned old v (Done y) new w → Since own from owed early old v → Ended (asked old) (op_number old) own from owed early w y }
    ensures range { (first : ℕ) (old new : AJob) (v w : View) (k n : ℕ) (y : AReply) (radius : ℕ) (query : List ℤ) → Turned old v (Done y) new w → Ticks old v k (Done y) new w n
        → Ticked first old v k → asked old ≡ Range radius query → Works first y n }
    ensures nearest { (first : ℕ) (old new : AJob) (v w : View) (k n : ℕ) (y : AReply) (count : ℕ) (query : List ℤ) → Turned old v (Done y) new w → Ticks old v k (Done y) new w n
        → Ticked first old v k → asked old ≡ Nearest count query → WorksNearest w.settings w.seen count query first y n }
{}

/// A page is wanted only for a leaf page that was found full, with none in hand. An insert is answered that there are no pages exactly where the
/// page that it wanted, or that its split did, was refused since all are allotted.
pub fn pages_are_wanted()
    ensures full { (old new : AJob) (v w : View) (answer : ATurn) (page : ℕ) → Turned old v answer new w → wants new.operation ≡ Some page → LacksRoom w page }
    ensures refused { (old new : AJob) (v w : View) (answer : ATurn) → Ready old v → Turned old v answer new w → lacks new.operation ≡ true
        → (lacks old.operation ≡ true) ⊎ IsRefused old.operation w }
    ensures told { (old new : AJob) (v w : View) (y : AReply) → Turned old v (Done y) new w → is_no_pages y ≡ lacks old.operation }
{}

/// A job has so many sections at most while the budget stays.
pub fn jobs_are_short()
    ensures { (job : AJob) (v : View) → v.settings.levels ≤ 6 → Ready job v → left job v < job_most }
{}

/// The splitter is ready where its actor claims nothing.
pub fn cares_begin()
    ensures ready { (care : ACare) (v : View) → care.task ≡ None → ClaimsNone v → caring.Ready care v }
    ensures keeps { (v : View) → caring.TaskKeeps v.owes v.early None v }
{}

/// While others act the splitter stays ready, and so does what is kept of its operation.
pub fn cares_wait()
    ensures ready { (care : ACare) (v w : View) → Others v w → caring.Ready care v → caring.Ready care w }
    ensures keeps { (care : ACare) (v w : View) → Others v w → (owed : ℕ → Bool) (early : Bool)
        → caring.TaskKeeps owed early care.task v → caring.TaskKeeps owed early care.task w }
{}

/// How an operation of the splitter ends: with the last section of a sweep, or with a split that was published or given up.
pub fn cares_end()
    ensures idle { (old new : ACare) (v w : View) → caring.Turned old v told.Idle new w → caring.FindsNone old v new w }
    ensures done { (old new : ACare) (v w : View) → caring.Turned old v told.Done new w → caring.EndsWork old v new w }
    ensures memory { (old new : ACare) (v w : View) → caring.Turned old v told.Memory new w → caring.LacksMemory old v new w }
{}

/// The splitter has so many sections at most while the budget stays, from the first of an operation on.
pub fn cares_are_short()
    ensures { (care : ACare) (v : View) → caring.Ready care v → caring.left care v < split_most + 1 }
{}
