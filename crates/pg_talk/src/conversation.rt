//! A conversation of clients with a cluster: what the program's `threads` does.

ghost use Rattle.std.specs.Prelude.{◌≡◌, ◌<◌, ◌++◌, true, ℕ, List, IfOk, IfErr, OnOk, length};
ghost use Rattle.std.specs.Io.KnownBytes.{Appends};
ghost use Rattle.std.specs.List.{All, sum_by};
ghost use Rattle.pg_cluster.specs.PgNodeRun.Ports.{IsSilent};
ghost use Rattle.pg_cluster.specs.PgNodeRun.declared.port.Client.{Client};
ghost use Rattle.pg_cluster.specs.PgWorldConfig.declared.fault.WorldFault.TheVariants.{OutOfMemory};
ghost use Rattle.pg_cluster.specs.Running.{clients_in, RunningGoes};
ghost use Rattle.pg_cluster.specs.declared.fault.StartFault.TheVariants.{World};
ghost use Rattle.pg_talk.specs.Asking.{AllKeep, AllSpoke, HasRest, is_first};
ghost use Rattle.pg_talk.specs.Conversations.{AreAsked, CantTalk, IsBare, TookPlace, all_polled, saturated};
ghost use Rattle.pg_talk.specs.Outcomes.{agree_line, answered_line, is_good, nodes_line};
ghost use Rattle.pg_talk.specs.Outcomes.{outcome_lines, replay_line, yes_or_no};

use crate::onlooker::Onlooker;
use crate::speaker::Speaker;
use crate::verdict::{Verdict, close_and_judge};
use pg_cluster::{Clocks, Config, MAX_NODES, Rest, Running, Start, StartFault, WorldFault};
use pg_node_requests::node_name;
use pg_term::Items;
use std::alloc::{AllocError, Global};
use std::io;
use std::io::Write;
use std::thread::Threads;
use std::time::Clock;

/// How many bytes a ring between two nodes has room for.
const RING: usize = 65_536;

/// How a conversation is to be.
#[derive(Clone, Copy, Debug, PartialEq, Eq)]
pub struct Conversation {
    /// How many nodes the cluster has, 1 to 16.
    pub nodes: u16,
    /// How many clients each node has, 1 to 16.
    pub clients: u16,
    /// How often each client joins the group and leaves it.
    pub rounds: u32,
    /// The seed of the pauses of the first node; that of each further node is one more, and wraps.
    pub seed: u64,
    /// How many turns each node makes at most, and how often the clients are looked at.
    pub turns: u64,
    /// How near to 1,073,741,824, where it is full, the clock of a node comes before the conversation ends.
    pub margin: u32,
}

impl Conversation {
    ghost use Rattle.pg_talk.specs.Conversations.{all_clients, all_commands};

    /// How many clients all nodes have.
    fn all_clients(&self) -> u64
        ensures { result ≡ all_clients self.now }
    {
        u64::from(self.nodes).saturating_mul(u64::from(self.clients))
    }

    /// How many commands are to be asked: the create, and of each client a make and its rounds.
    fn commands(&self) -> u64
        ensures { result ≡ all_commands self.now }
    {
        let each = u64::from(self.rounds).saturating_mul(2).saturating_add(1);
        self.all_clients().saturating_mul(each).saturating_add(1)
    }
}

/// How a conversation went.
#[derive(Clone, Copy, Debug, PartialEq, Eq)]
pub struct Outcome {
    /// How many nodes the cluster had.
    pub nodes: u16,
    /// How many clients all of them had.
    pub clients: u64,
    /// How many commands were answered.
    pub answered: u64,
    /// How many there were to be asked.
    pub asked: u64,
    /// Whether the nodes agree: `Closed::agrees`.
    pub agree: bool,
    /// Whether the steps come to the nodes as they ended: `Closed::replays`.
    pub replay: bool,
    /// Whether not all was answered, and the clock of a node was full.
    pub is_full: bool,
}

impl Outcome {
    /// Whether all was answered, the nodes agree, and the steps replay.
    ///
    /// Cost: no memory.
    pub fn is_good(&self) -> bool
        ensures { result ≡ is_good self.now }
    {
        self.answered == self.asked && self.agree && self.replay
    }

    /// Writes it in four lines.
    ///
    /// Errors: that of the writer. Some of the lines, and a part of the next, may be written then.
    ///
    /// Cost: no memory but what the writer takes.
    pub fn write<W: Write>(&self, out: &mut W) -> io::Result<()>
        ensures { OnOk result (Appends (W.contents out.old) (W.contents out.new) (outcome_lines self.now)) }
    {
        self.write_counts(out)?;
        self.write_verdicts(out)
    }

    fn write_counts<W: Write>(&self, out: &mut W) -> io::Result<()>
        ensures { OnOk result (Appends (W.contents out.old) (W.contents out.new) (nodes_line self.now ++ answered_line self.now)) }
    {
        self.write_size(out)?;
        self.write_answered(out)
    }

    fn write_verdicts<W: Write>(&self, out: &mut W) -> io::Result<()>
        ensures { OnOk result (Appends (W.contents out.old) (W.contents out.new) (agree_line self.now ++ replay_line self.now)) }
    {
        self.write_agree(out)?;
        self.write_replay(out)
    }

    fn write_size<W: Write>(&self, out: &mut W) -> io::Result<()>
        ensures { OnOk result (Appends (W.contents out.old) (W.contents out.new) (nodes_line self.now)) }
    {
        writeln!(out, "nodes {} clients {}", self.nodes, self.clients)
    }

    fn write_answered<W: Write>(&self, out: &mut W) -> io::Result<()>
        ensures { OnOk result (Appends (W.contents out.old) (W.contents out.new) (answered_line self.now)) }
    {
        writeln!(out, "answered {} of {}", self.answered, self.asked)
    }

    fn write_agree<W: Write>(&self, out: &mut W) -> io::Result<()>
        ensures { OnOk result (Appends (W.contents out.old) (W.contents out.new) (agree_line self.now)) }
    {
        writeln!(out, "agree {}", yes_or_no(self.agree))
    }

    fn write_replay<W: Write>(&self, out: &mut W) -> io::Result<()>
        ensures { OnOk result (Appends (W.contents out.old) (W.contents out.new) (replay_line self.now)) }
    {
        writeln!(out, "replay {}", yes_or_no(self.replay))
    }
}

fn yes_or_no(holds: bool) -> &'static str
    ensures { result.now ≡ yes_or_no holds }
{
    if holds { "yes" } else { "no" }
}

/// Starts a cluster and lets its clients speak. The first client of the first node creates a group. Once that is answered each client
/// makes a process, and then joins the group and leaves it so many times, each command once the former is answered. The cluster is closed
/// once all is answered, or after as many looks as there are turns, or where the clock of a node comes within the margin of its end. `asked`: the nodes, their clients, the seed of the pauses of the first
/// node, which is one more for each further node, and the turns. `onlooker` sees at each look how far they are. `clock`: that by which a
/// node sleeps which finds nothing to do, and who looks at the clients, as `Rest` of pg_cluster says. It may wait for threads.
///
/// Errors: those of `Cluster::start`, in their order, `BadConfig` among them for more than 16 nodes, or none. Also `World` of `OutOfMemory`,
/// where memory runs out before the start, while the clients speak, or as the cluster is judged. No thread of it runs after an error.
///
/// Cost: 64 KB for each ring between two nodes, and the logs of all nodes, which grow with each event until the end. A thread for each node.
pub fn run_threads<R: Threads, C: Clock + Clone + Drop + Send + 'static, O: Onlooker>(
    rt: &R,
    alloc: Global,
    clock: C,
    asked: Conversation,
    onlooker: &mut O,
) -> Result<Outcome, StartFault>
    ensures took { IfOk result (TookPlace asked) }
    ensures fault { IfErr result (CantTalk asked) }
{
    let clocks = Clocks::new(alloc, usize::from(asked.nodes))?;
    let gate = clocks.share()?;
    let theirs: Result<C, AllocError> = clock.clone();
    let theirs = theirs?;
    let config = config_of(alloc, asked)?;
    let mut running = Running::start(rt, alloc, config, asked.seed, gate, theirs, asked.turns)?;
    let heard = converse(alloc, &clock, &clocks, &mut running, asked, onlooker);
    let verdict = close_and_judge(rt, alloc, running);
    let Verdict { agree, replay } = verdict?;
    let answered = heard?;
    Ok(Outcome {
        nodes: asked.nodes,
        clients: asked.all_clients(),
        answered,
        asked: asked.commands(),
        agree,
        replay,
        is_full: ends_full(answered, asked.commands(), &clocks, asked.margin),
    })
}

/// Whether not all was answered, and the clock of a node is full.
fn ends_full(answered: u64, commands: u64, clocks: &Clocks, margin: u32) -> bool
    ensures { result ≡ true → answered < commands }
{
    answered < commands && clocks.are_full(margin)
}

/// The nodes `n1`, `n2` and so on, with as many ports as clients.
fn config_of(alloc: Global, asked: Conversation) -> Result<Config, StartFault>
    ensures asked { IfOk result (λ config. AreAsked asked config.starts.items) }
    ensures ring { IfOk result (λ config. config.ring ≡ 65536) }
    ensures fault { IfErr result (λ fault. fault ≡ World OutOfMemory) }
{
    let mut starts = Vec::with_capacity(alloc, MAX_NODES)?;
    for place in 0..asked.nodes {
        starts.push(start_of(alloc, u32::from(place) + 1, asked.clients)?)?;
    }
    Ok(Config { ring: RING, starts })
}

fn start_of(alloc: Global, number: u32, ports: u16) -> Result<Start, StartFault>
    ensures bare { IfOk result (IsBare ports number) }
    ensures fault { IfErr result (λ fault. fault ≡ World OutOfMemory) }
{
    let name = node_name(alloc, number)?;
    Ok(Start {
        name,
        made: 0,
        ports,
        groups: Items::from_vec(Vec::new(alloc)),
    })
}

/// The clients speak until all is answered, or for so many looks, or until a clock is full; how many commands were answered.
fn converse<C: Clock, O: Onlooker>(
    alloc: Global,
    clock: &C,
    clocks: &Clocks,
    running: &mut Running,
    asked: Conversation,
    onlooker: &mut O,
) -> Result<u64, AllocError>
    requires silent { All IsSilent (clients_in running.old) }
    ensures same { RunningGoes running.old running.new }
    ensures answered { IfOk result (λ answered. answered ≡ saturated (all_polled (clients_in running.new))) }
    ensures spoke { IfOk result (λ answered. AllSpoke asked.rounds (clients_in running.new)) }
{
    let mut speakers = speakers(alloc, running.client_count(), asked.rounds)?;
    let commands = asked.commands();
    let mut rest = Rest::new();
    for _ in 0..asked.turns {
        let moved = speak_all(alloc, running, &mut speakers)?;
        onlooker.look(answered_by(speakers.as_slice()), commands);
        if are_silent(speakers.as_slice()) || clocks.are_full(asked.margin) {
            break;
        }
        if moved {
            rest.found();
        } else {
            rest.rest(clock);
        }
    }
    Ok(answered_by(speakers.as_slice()))
}

/// Whether all is said and answered.
fn are_silent(speakers: &[Speaker]) -> bool {
    speakers.iter().all(|speaker| speaker.is_silent())
}

/// So many clients, of which the first creates the group.
fn speakers(alloc: Global, count: usize, rounds: u32) -> Result<Vec<Speaker>, AllocError>
    ensures { IfOk result (λ speakers. (clients : List Client) → length clients ≡ count → All IsSilent clients → AllKeep rounds speakers.items clients) }
{
    let mut speakers = Vec::with_capacity(alloc, count)?;
    for place in 0..count {
        speakers.push(speaker_at(place, rounds))?;
    }
    Ok(speakers)
}

/// The client at a place, as it begins.
fn speaker_at(place: usize, rounds: u32) -> Speaker
    ensures { (client : Client) → IsSilent client → HasRest (is_first place) rounds result client }
{
    if place == 0 {
        Speaker::creating(rounds)
    } else {
        Speaker::waiting(rounds)
    }
}

/// Each client speaks once; whether something moved.
fn speak_all(
    alloc: Global,
    running: &mut Running,
    speakers: &mut Vec<Speaker>,
) -> Result<bool, AllocError>
    ensures same { RunningGoes running.old running.new }
    ensures keep { (rounds : ℕ) → AllKeep rounds speakers.old.items (clients_in running.old) → AllKeep rounds speakers.new.items (clients_in running.new) }
{
    let mut moved = false;
    for place in 0..running.client_count().min(speakers.len()) {
        let speaker = &mut speakers[place];
        if speaker.speak(alloc, running, place)? {
            moved = true;
        }
    }
    if speakers.first().is_some_and(|first| first.answered > 0) {
        begin_all(speakers);
    }
    Ok(moved)
}

/// The group is there.
fn begin_all(speakers: &mut Vec<Speaker>)
    ensures { (rounds : ℕ) (clients : List Client) → AllKeep rounds speakers.old.items clients → AllKeep rounds speakers.new.items clients }
{
    for place in 0..speakers.len() {
        speakers[place].begin();
    }
}

/// How many commands of these clients were answered.
fn answered_by(speakers: &[Speaker]) -> u64
    ensures { result ≡ saturated (sum_by (λ speaker. speaker.answered) speakers.now) }
{
    let mut answered: u64 = 0;
    for speaker in speakers {
        answered = answered.saturating_add(speaker.answered);
    }
    answered
}
