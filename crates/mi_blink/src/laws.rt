//! What is true of descents, walks and posts at every view. The functions do nothing.
ghost use Rattle.std.specs.Prelude.{◌≡◌, ◌≤◌, ◌<◌, ◌+◌, ◌*◌, [], ℕ, List};
ghost use Rattle.mi_base.specs.declared.records.LogEvent.{LogEvent};
ghost use Rattle.mi_base.specs.Configuration.{Configuration, IsWithinLimits, metric_space};
ghost use Rattle.mi_base.specs.Space.{IsMetric};
ghost use Rattle.mi_rules.specs.Standing.{ShowsLive};
ghost use Rattle.mi_tree.specs.Legal.{LegalLog};
ghost use Rattle.mi_world.specs.LeafKeys.{shown};
ghost use Rattle.mi_world.specs.Pages.{IsChildAt};
ghost use Rattle.mi_world.specs.View.{Others, View};
ghost use Rattle.mi_blink.specs.declared.post.Post.{Post as APost};
ghost use Rattle.mi_blink.specs.declared.walk.Walk.{Walk as AWalk};
ghost use Rattle.mi_blink.specs.Descents.{Falls, budget, descent, longest, post_most};
ghost use Rattle.mi_blink.specs.Posting.{Begun, Ready as PostIsReady, left, posted};
ghost use Rattle.mi_blink.specs.Walking.{Ready as WalkIsReady, so_far, whole};

/// A walk that stands at a root was offered nothing yet.
pub fn walks_begin()
    ensures { (walk : AWalk) (v : View) → v.low walk.descent.page ≡ 0 → so_far walk v ≡ [] }
{}

/// While others act a walk stays ready, and what it was offered is the same part of the same whole.
pub fn walks_wait()
    ensures ready { (walk : AWalk) (v w : View) → Others v w → WalkIsReady walk v → WalkIsReady walk w }
    ensures so_far { (walk : AWalk) (v w : View) → Others v w → WalkIsReady walk v → so_far walk w ≡ so_far walk v }
    ensures whole { (walk : AWalk) (v w : View) → Others v w → whole walk w ≡ whole walk v }
{}

/// A descent ends after so many sections.
pub fn descents_end()
    ensures { (v : View) (page : ℕ) → descent v page ≤ longest }
{}

/// A post of a child's route begins ready.
pub fn posts_begin()
    ensures { (op : APost) (level key child : ℕ) (v : View) → Begun op level key child → IsChildAt v level key child → level ≤ 6 → PostIsReady op v }
{}

/// A post is for the child that it was made with.
pub fn posts_begin_with_their_child()
    ensures { (op : APost) (level key child : ℕ) → Begun op level key child → posted op ≡ child }
{}

/// While others act a post stays ready.
pub fn posts_wait()
    ensures { (op : APost) (v w : View) → Others v w → PostIsReady op v → PostIsReady op w }
{}

/// A post ends after so many sections while the budget stays.
pub fn posts_end()
    ensures { (op : APost) (v : View) → PostIsReady op v → left op v < post_most }
{}

/// What falls beside the budget falls as one number.
pub fn falls_as_one_number()
    ensures { (v w : View) (x y most : ℕ) → Falls v x w y → y < most → budget w * most + y < budget v * most + x }
{}

/// What a legal log shows are its live objects, each in its leaf.
pub fn legal_logs_show_the_live()
    ensures { (c : Configuration) → IsWithinLimits c → IsMetric (metric_space c) → (log : List LogEvent) → LegalLog c log → ShowsLive c log (shown c log) }
{}
