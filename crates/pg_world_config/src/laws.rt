ghost use Rattle.std.specs.Prelude.{◌≡◌, ◌↔◌, ℕ, None};
ghost use Rattle.pg_ring.specs.Capacity.{IsCapacity};
ghost use Rattle.pg_step.specs.Config.{Config, IsConfig};
ghost use Rattle.pg_world_config.specs.Configs.{refusal_of};

/// A configuration has no fault exactly where it is as `IsConfig` says, and its rings can have their capacity.
pub fn configs_are_decided()
    ensures { (ring : ℕ) (config : Config) → (refusal_of ring config ≡ None) ↔ (IsConfig config × IsCapacity ring) }
{}
