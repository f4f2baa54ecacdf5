ghost use Rattle.std.specs.Prelude.{◌≡◌, ◌↔◌, Bool, true, ℕ, List, []};
ghost use Rattle.std.specs.List.{Contains};
ghost use Rattle.pg_term.specs.declared.pid.Pid.{Pid};
ghost use Rattle.pg_term.specs.declared.term.Term.{Term};
ghost use Rattle.pg_node_state.specs.PgStep.Machines.Clocked.{plain};
ghost use Rattle.pg_node_state.specs.PgStep.Machines.Losing.{LosingEvent};
ghost use Rattle.pg_node_state.specs.PgStep.Machines.Machine.{Event};
ghost use Rattle.pg_node_state.specs.PgStep.LossLaws.{LosingFrameWorld};
ghost use Rattle.pg_node_state.specs.PgStep.Step.{Action};
ghost use Rattle.pg_node_state.specs.PgStep.Nodes.{Node};
ghost use Rattle.pg_node_state.specs.PgStep.Config.{Config, names_of, ports_at, made_at, groups_at, first_table};
ghost use Rattle.pg_laws_losses.specs.PgLaws.History.{NonePending, base, known};
ghost use Rattle.pg_laws_losses.specs.PgLaws.Reached.{Reaches};
ghost use Rattle.pg_laws_losses.specs.PgLaws.WithLosses.{NonePendingLive};
ghost use Rattle.pg_laws_losses.specs.Reached.{LosingReaches};
ghost use Rattle.pg_world_config.specs.declared.fault.WorldFault.{WorldFault};
ghost use Rattle.pg_world_config.specs.declared.fault.WorldFault.TheVariants.{OutOfMemory};
ghost use Rattle.pg_world_packets.specs.Losing.{losing_of};
ghost use Rattle.pg_world_packets.specs.Openings.{AllFit, CanBegin, CantBegin, FitsOpening, SomeIsTooLong, are_few, have_few};
ghost use Rattle.pg_world_packets.specs.Pending.{IsPending, pending_of};
ghost use Rattle.pg_world_config.specs.Firsts.{seen_first};
ghost use Rattle.pg_world_packets.specs.declared.step.FrameStep.{FrameStep};
ghost use Rattle.pg_world_packets.specs.Runs.{LosesNone, RunsTo};
ghost use Rattle.pg_world_packets.specs.Starts.{Orders};
ghost use Rattle.pg_world_config.specs.Seen.{Seen};
ghost use Rattle.pg_world_packets.specs.Worlds.{ShowsNodes, TimedFrameWorld};

use pg_laws_losses::ended_processes_were_made_past_losses;
use pg_node_state::numbered_from_one;
use pg_world_config::configs_are_decided;

/// A configuration whose groups were put in order starts with the same tables: what the headline says of the one it says of the
/// other.
pub fn orders_keep_tables()
    ensures names { (given config : Config) → Orders given config → names_of config ≡ names_of given }
    ensures ports { (given config : Config) (i : ℕ) → Orders given config → ports_at config i ≡ ports_at given i }
    ensures made { (given config : Config) (i : ℕ) → Orders given config → made_at config i ≡ made_at given i }
    ensures tables { (given config : Config) (i : ℕ) → Orders given config
        → first_table (groups_at config i) ≡ first_table (groups_at given i) }
    ensures base { (given config : Config) (name : Term) → Orders given config → base config name ≡ base given name }
    ensures known { (given config : Config) (test : Node → Bool) (name : Term) → Orders given config
        → known test name config ≡ known test name given }
{}

/// A world of a configuration can begin, or there is a fault by which it is refused, and never both: where it can begin it is refused for
/// memory alone. So each fault of `FrameWorld::new` and `World::new` but that comes exactly where it is the first that holds.
pub fn refusals_are_exact()
    ensures { (ring : ℕ) (config : Config) (fault : WorldFault) → CanBegin ring config → CantBegin ring config fault → fault ≡ OutOfMemory }
{
    configs_are_decided();
}

/// What is refused as too long does not fit: the groups of some node take more than a frame, and so does one group of more than 2^32 members.
/// So `FrameWorld::new` and `World::new` give `TooLong` exactly where a configuration has no fault and what a node announces does not fit,
/// unless memory runs out.
pub fn long_groups_do_not_fit()
    ensures each { (config : Config) (i : ℕ) → FitsOpening (seen_first config i) → are_few (groups_at config i) ≡ true }
    ensures all { (config : Config) → AllFit config → have_few config ≡ true }
    ensures too_long { (config : Config) → SomeIsTooLong config → AllFit config → ⊥ }
{}

/// The ends that are pending are listed, and no others: in each world that is shown to which events lead, whoever is lost and whenever.
/// The list is empty exactly where no end is pending among the live nodes; where no node is lost, exactly where none is.
pub fn pending_ends_are_listed()
    ensures listed { (config : Config) (nodes : List Seen) (lost : List ℕ) (frames : TimedFrameWorld) (u : LosingFrameWorld)
        (events : List (LosingEvent Action)) (pid : Pid)
        → ShowsNodes config nodes frames → u ≡ losing_of config frames lost → LosingReaches config events u
        → Contains (pending_of nodes lost) pid ↔ IsPending config u pid }
    ensures none { (config : Config) (nodes : List Seen) (lost : List ℕ) (frames : TimedFrameWorld) (u : LosingFrameWorld)
        (events : List (LosingEvent Action))
        → ShowsNodes config nodes frames → u ≡ losing_of config frames lost → LosingReaches config events u
        → (pending_of nodes lost ≡ []) ↔ NonePendingLive config u }
    ensures unlost { (config : Config) (nodes : List Seen) (w : TimedFrameWorld) (events : List (Event Action))
        → ShowsNodes config nodes w → Reaches config events w
        → (pending_of nodes [] ≡ []) ↔ NonePending config (plain w) }
{
    ended_processes_were_made_past_losses();
    numbered_from_one();
}

/// Steps of which none is a loss lose nobody, whatever else was lost before them. So a run of them from the start ends in a world in
/// which nobody is lost, of which the headline holds.
pub fn steps_without_losses_lose_nobody()
    ensures { (config : Config) (u v : LosingFrameWorld) (all : List FrameStep) (numbers : List ℕ) (events : List (LosingEvent Action))
        → LosesNone all → RunsTo config u all numbers events v → v.gone ≡ u.gone }
{}
