ghost use Rattle.std.specs.Prelude.{◌≡◌, ◌↔◌, ◌≤◌, ◌++◌, ℕ, List, [], Option, Some};
ghost use Rattle.std.specs.Prelude.{None, cond, is_some, map, option_map, length};
ghost use Rattle.pg_step.specs.Machines.Machine.{Machine, Event, World, Take, Do, node_of};
ghost use Rattle.pg_step.specs.Machines.Machine.{start_of, input_of, turn_of, happens};
ghost use Rattle.pg_step.specs.Machines.Happened.{Happened, Took, Did, Changes};
ghost use Rattle.pg_step.specs.Machines.Runs.{Leads, run, ran, events_of, reported_by};
ghost use Rattle.pg_step.specs.Machines.Clocked.{Timed, Stamped, TimedWorld, clocked, plain, clock_allows};
ghost use Rattle.pg_step.specs.Machines.Timely.{KeepsTime, Ticks, IsTimely};

/// An event happens exactly where its places are there, it gives its node an input, and the step makes a turn of it.
pub fn what_happens<S, P, C, O>()
    ensures happened { (m : Machine S P C O) (w v : World S P O) (e : Event C)
        → (happens m w e ≡ Some v) ↔ Happened m w e v }
    ensures turn { (m : Machine S P C O) (w v : World S P O) (e : Event C) (h : Happened m w e v)
        → turn_of m w e ≡ Some h.turn }
    ensures took { (m : Machine S P C O) (w v : World S P O) (i p : ℕ)
        → (happens m w (Take i p) ≡ Some v) ↔ Took m w i p v }
    ensures did { (m : Machine S P C O) (w v : World S P O) (i : ℕ) (command : C)
        → (happens m w (Do i command) ≡ Some v) ↔ Did m w i command v }
{}

/// An event changes its node alone, takes the first packet of one way into it, and adds to the ways out of it alone.
/// It looks at its node and at what it gives it, and at nothing else.
pub fn locality<S, P, C, O>()
    ensures changes { (m : Machine S P C O) (w v : World S P O) (e : Event C) (h : Happened m w e v)
        → Changes e h.turn w v }
    ensures turn { (m : Machine S P C O) (w u : World S P O) (e : Event C)
        → w.node (node_of e) ≡ u.node (node_of e) → input_of w e ≡ input_of u e
        → turn_of m w e ≡ turn_of m u e }
    ensures whether { (m : Machine S P C O) (w u : World S P O) (e : Event C)
        → w.node (node_of e) ≡ u.node (node_of e) → input_of w e ≡ input_of u e
        → is_some (happens m w e) ≡ is_some (happens m u e) }
{}

/// Runs are put together and taken apart, and events lead from a world to one world at most.
pub fn runs<S, P, C, O>()
    ensures parts { (m : Machine S P C O) (w v : World S P O) (es fs : List (Event C))
        → Leads m w (es ++ fs) v ↔ ((u : World S P O) × Leads m w es u × Leads m u fs v) }
    ensures one_world { (m : Machine S P C O) (w u v : World S P O) (es : List (Event C))
        → Leads m w es u → Leads m w es v → u ≡ v }
    ensures untouched { (m : Machine S P C O) (w v : World S P O) (es : List (Event C)) (i : ℕ)
        → Leads m w es v → events_of i es ≡ [] → v.node i ≡ w.node i }
{}

/// Each event of a run reports once, in their order, and so does each of one node's.
pub fn what_is_reported<S, P, C, O>()
    ensures reported { (m : Machine S P C O) (w v : World S P O) (es : List (Event C)) → Leads m w es v
        → (more : List (ℕ × O)) × (v.reported ≡ w.reported ++ more) × (map (λ t. t.0) more ≡ map node_of es) }
    ensures reported_by { (m : Machine S P C O) (w v : World S P O) (es : List (Event C)) (i : ℕ) → Leads m w es v
        → (more : List O) × (reported_by i v.reported ≡ reported_by i w.reported ++ more)
        × (length more ≡ length (events_of i es)) }
{}

/// Any events: those that happen lead to the world that passing over the others leaves.
pub fn any_events<S, P, C, O>()
    ensures leads { (m : Machine S P C O) (w : World S P O) (es : List (Event C))
        → Leads m w (ran m w es) (run m w es) }
    ensures ran { (m : Machine S P C O) (w v : World S P O) (es : List (Event C))
        → Leads m w es v → ran m w es ≡ es }
    ensures run { (m : Machine S P C O) (w v : World S P O) (es : List (Event C))
        → Leads m w es v → run m w es ≡ v }
    ensures run_parts { (m : Machine S P C O) (w : World S P O) (es fs : List (Event C))
        → run m w (es ++ fs) ≡ run m (run m w es) fs }
    ensures ran_parts { (m : Machine S P C O) (w : World S P O) (es fs : List (Event C))
        → ran m w (es ++ fs) ≡ ran m w es ++ ran m (run m w es) fs }
{}

/// Clocks rise at each event, stay within their limit, and pass the stamps of all that is sent and taken.
pub fn clocks<S, P, C, O>()
    ensures steps { (limit : ℕ) (m : Machine S P C O) → KeepsTime limit (clocked limit m) }
    ensures event { (limit : ℕ) (m : Machine S P C O) (w v : TimedWorld S P O) (e : Event C)
        (h : Happened (clocked limit m) w e v) → Ticks limit e h.input h.turn w v }
    ensures later { (limit : ℕ) (m : Machine S P C O) (w v : TimedWorld S P O) (es : List (Event C)) (i : ℕ)
        → Leads (clocked limit m) w es v → (w.node i).clock ≤ (v.node i).clock }
    ensures kept { (limit : ℕ) (m : Machine S P C O) (w v : TimedWorld S P O) (es : List (Event C))
        → Leads (clocked limit m) w es v → IsTimely limit w → IsTimely limit v }
    ensures timely { (limit : ℕ) (m : Machine S P C O) (v : TimedWorld S P O) (es : List (Event C))
        → Leads (clocked limit m) (start_of (clocked limit m)) es v → IsTimely limit v }
{}

/// A machine with clocks, seen without them, is the machine that has none, but for the events that its clocks refuse.
/// So what holds of every run of the one holds of every run of the other.
pub fn without_clocks<S, P, C, O>()
    ensures start { (limit : ℕ) (m : Machine S P C O) → plain (start_of (clocked limit m)) ≡ start_of m }
    ensures event { (limit : ℕ) (m : Machine S P C O) (w : TimedWorld S P O) (e : Event C)
        → option_map plain (happens (clocked limit m) w e)
        ≡ cond (clock_allows limit w e) (happens m (plain w) e) None }
    ensures leads { (limit : ℕ) (m : Machine S P C O) (w v : TimedWorld S P O) (es : List (Event C))
        → Leads (clocked limit m) w es v → Leads m (plain w) es (plain v) }
    ensures from_start { (limit : ℕ) (m : Machine S P C O) (v : TimedWorld S P O) (es : List (Event C))
        → Leads (clocked limit m) (start_of (clocked limit m)) es v → Leads m (start_of m) es (plain v) }
    ensures run { (limit : ℕ) (m : Machine S P C O) (es : List (Event C))
        → Leads m (start_of m) (ran (clocked limit m) (start_of (clocked limit m)) es)
        (plain (run (clocked limit m) (start_of (clocked limit m)) es)) }
    // Events that are no more than the limit happen with clocks where they happen without.
    ensures short { (limit : ℕ) (m : Machine S P C O) (v : World S P O) (es : List (Event C))
        → length es ≤ limit → Leads m (start_of m) es v
        → (w : TimedWorld S P O) × Leads (clocked limit m) (start_of (clocked limit m)) es w
        × (plain w ≡ v) }
{}
