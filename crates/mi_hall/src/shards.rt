//! What sections of a shard make of a seat's view. The laws' functions do nothing.
ghost use Rattle.std.specs.Prelude.{ℕ, ◌==◌};
ghost use Rattle.std.specs.List.{find};
ghost use Rattle.mi_core.specs.Events.Event.{claim_shard, miss_shard, release_shard};
ghost use Rattle.mi_entries.specs.Records.{Rows, home};
ghost use Rattle.mi_solo.specs.Viewing.{record_shown};
ghost use Rattle.mi_world.specs.declared.answers.ShardClaim.TheVariants.{Held, Taken};
ghost use Rattle.mi_world.specs.Claims.{ClaimsShard, ReleasesShard};
ghost use Rattle.mi_hall.specs.Places.{ShardMakes};

/// A shard that nobody holds is taken with the identifier's record, one that another holds isn't,
/// and one's own is let go.
pub fn shards_follow()
    ensures taken { (id : ℕ) (kept : Rows)
        → ShardMakes (claim_shard (home id) kept)
        (λ c v w. ClaimsShard v w id (Taken (record_shown (find (λ x. x.id == id) kept.records)))) }
    ensures held { (id : ℕ) → ShardMakes (miss_shard (home id)) (λ c v w. ClaimsShard v w id Held) }
    ensures released { (m : ℕ) (kept : Rows)
        → ShardMakes (release_shard m kept) (λ c v w. ReleasesShard v w) }
{}
