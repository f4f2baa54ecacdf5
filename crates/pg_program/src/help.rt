//! The texts of help.

/// What the program belongs to. By which version of the toolchain it was proved, or whether it was, it cannot know.
pub(crate) const VERSION: &str = "of Zulayefi";

/// What the program is.
pub(crate) const ABOUT: &str =
    "Process groups over nodes that packets link, as Erlang's pg2 has them.

Status 0: done. Status 1: the run was refused. Status 2: the words, the script or its configuration
were refused. A refusal is a line `refused N` on standard error, a faulty line of a script `line L
refused N`. With --explain, or where standard error is a terminal, a second line says it in words.
A step of a script that is refused prints its `line L refused N` among what the others print.

Questions about the program, answered on standard output: `fault [N]`, what a fault is, or all;
`help [WORD]`; `version`.";

/// What `bytes` does.
pub(crate) const BYTES_ABOUT: &str =
    "Serve framed packets from standard input as the replica of one node, and write its replies";

/// What `script` does.
pub(crate) const SCRIPT_ABOUT: &str =
    "Run a script from standard input: nodes, and steps of them one at a time";

/// The forms of the lines of a script.
pub(crate) const SCRIPT_FORMS: &str = "Declarations, before all other lines:
  ring N                 the capacity of every ring in bytes, 1 to 65536 (default 65536)
  node NODE [made N]     a node, which has made N processes (default 0)
  has NODE TERM [PID ..] a group that the node has, with members

Bytes and packets:
  put A B [N]            up to N bytes go from A's outbox on the ring to B (default 65536)
  pull B A [N]           up to N bytes come off that ring to B
  take B A               B takes one whole packet that came from A
  settle [N]             rounds of put, pull and take for each pair of nodes, until nothing moves,
                         at most N (default and greatest 1000000)

Commands, each answered as `NODE NUMBER ANSWER`:
  create A TERM          delete A TERM          join A TERM PID        leave A TERM PID
  make A                 end A PID              members A TERM         local A TERM
  groups A               closest A TERM N
  retry A K              A's command K, which waits, asks for its lock again

Losses:
  lose A                 A is lost: it does nothing any more
  seeloss B A            B sees it, once it has taken all that came from A

Prints:
  lock A TERM            lock A TERM free, or held
  outbox A B             outbox A B N: so many bytes wait at A to go to B
  history TERM           the updates of the group, in the order in which they got their last grant

Lines end with a line feed. Empty lines and lines that begin with % are skipped. Parts are separated by
one space. A NODE is an atom, as a or 'my node'. Terms: -7, a, 'A b', {t,1}, [1,2], <<1,255>>,
<a.1.0> (process 1 of node a), #<a/1.0.0.0>.

A trace begins its lines with %, behind it the line of the script, the node, its clock, what it does, with
whom, and the packet. Where a step is refused, `line L refused N` stands behind what its line printed, and the run goes on.
examples/scripts/README.md leads to pages that show each line with an example.";

/// What `--trace` does.
pub(crate) const TRACE_HELP: &str =
    "print what moved and happened, an event a line, before what each line of the script prints";

/// What `--diagram` does.
pub(crate) const DIAGRAM_HELP: &str =
    "write a sequence diagram of the run to this file, as SVG, once the run has ended";

pub(crate) const NODE_HELP: &str = "the node's own name, an atom of just these characters";

pub(crate) const PEER_HELP: &str = "the name of its one peer";

/// What `threads` does.
pub(crate) const THREADS_ABOUT: &str =
    "Run nodes as threads, with rings of bytes between them, and let clients join a group and leave it";

/// What `threads` prints, and when it is content.
pub(crate) const THREADS_LINES: &str =
    "The first client of the first node, n1, creates the group g. Then each client makes a process, and joins g with it
and leaves g, again and again, each command once the former is answered. Then the nodes are stopped,
and four lines are printed:
  nodes N clients M      how many nodes and clients there were in all
  answered X of Y        how many commands were answered, of how many
  agree yes              nodes have the same members where they see the lock of the group free
  replay yes             the logs of the nodes, joined to one run, lead to the nodes as they ended

Status 0: all were answered, and both say yes; else 1, and where the clock of a node is nearly full,
after 2^30 events, `refused 30` follows.";

/// The options of `threads`.
pub(crate) const NODES_HELP: &str = "how many nodes, 1 to 16";

pub(crate) const CLIENTS_HELP: &str = "how many clients each node has, 1 to 16";

pub(crate) const ROUNDS_HELP: &str = "how often each client joins and leaves, at most 1000";

pub(crate) const SEED_HELP: &str = "the seed of the first node's pauses";

pub(crate) const TURNS_HELP: &str =
    "how many turns each node makes at most: some microseconds each where it is busy, up to 4 milliseconds where it is idle";

pub(crate) const JSON_HELP: &str =
    "print the same as one line of JSON, with the time in microseconds";

/// What `serve` does.
pub(crate) const SERVE_ABOUT: &str =
    "Run nodes as threads, take requests for them from standard input, and write the replies";

/// What `serve` reads and writes, and when it is content.
pub(crate) const SERVE_LINES: &str =
    "Each request and each reply is one term in the External Term Format, after four bytes of length,
as a port of Erlang has it with {packet, 4}. A request is {Node, Port, Command}, with Port from 1:
  make  {finish, Pid}  {create, Name}  {delete, Name}  {join, Name, Pid}  {leave, Name, Pid}
  {members, Name}  {local_members, Name}  which_groups  {closest, Name, Word}
Its reply is {Node, Port, Number, Reply}; Number counts the requests of the port from 1. A port's requests are
handed over one after another, each once the one before it was replied to. Reply is
  ok, a pid, a list, {error, {no_such_group, Name}}, {error, {no_process, Name}} or {refused, N}.
{lose, Node} loses a node for good, and is answered {lost, Node}. Requests at a lost node are answered
{Node, Port, Number, {error, {node_lost, Node}}}. Any other body, also one that is no term, is answered
{error, {bad_request, N}}, N being its place among all bodies. Once the input is over and all is answered the nodes are stopped, and standard error has two lines:
  agree yes              nodes have the same members where they see the lock of a group free
  replay yes             the logs of the nodes, joined to one run, lead to the nodes as they ended

Status 0: both say yes; else 1. A broken frame ends the input, and `refused N` follows, status 1.
So does the clock of a node that is nearly full, after 2^30 events: no more is read, and a request that was not handed over is
answered {refused, 30}. The others are waited for, ten seconds at most; then one is answered {error, {unknown, 30}}, and may
have happened.";

/// The options of `serve`.
pub(crate) const PORTS_HELP: &str = "how many ports each node has, 1 to 64";

pub(crate) const NAME_HELP: &str =
    "the name of a node, as often as there are nodes, or never: n1, n2 and so on";

pub(crate) const MEMBERS_HELP: &str =
    "a file with the text of a list of {Node, Made, [{Name, [Pid, ..]}, ..]}: what the nodes know at first";

pub(crate) const COMMANDS_HELP: &str = "after how many requests the input counts as ended";

/// What `explore` does.
pub(crate) const EXPLORE_ABOUT: &str =
    "Go through every run of a script's commands from standard input, and tell what can come of them";

/// What `explore` reads and prints.
pub(crate) const EXPLORE_LINES: &str =
    "The script has declarations, commands and losses alone: node and has; create, delete, join, leave, make,
end, members, local, groups and closest; lose. A line of another form is refused by 40. Gone through is every
order in which packets are taken, commands come in, each node's in its order, waiting commands are tried
again and losses are seen; of a lost node each number of packets that stay on each way is a world of its
own. Worlds that are the same but for clocks are met once. Printed are numbers, each before what it
counts: worlds and ends, in which nothing is left to do; takes to an end; worlds in which nodes differ; and
of the ends, which histories each group has there, and what each command is answered.

Status 0: all worlds were met; 1: there are more than the limit.";

/// The options of `explore`.
pub(crate) const RETRIES_HELP: &str =
    "how often each waiting command is tried again at most, 0 to 1000";

pub(crate) const LIMIT_HELP: &str = "how many worlds are met at most";

pub(crate) const SHOW_HELP: &str =
    "print the shortest run to the end of this number, from 1 on, as a script; 0: print what was counted";

pub(crate) const DIFFERING_HELP: &str =
    "print a run in which two nodes differ for the most steps, as a script";

pub(crate) const GRAPH_HELP: &str =
    "write the worlds and the steps between them to this file, as SVG, where there are at most 60";

/// What `node` does.
pub(crate) const NODE_ABOUT: &str =
    "Run one node of a set as this process: its host speaks with it over standard input and output";

/// What `node` reads and writes.
pub(crate) const NODE_LINES: &str =
    "Each body stands after four bytes of length, as a port of Erlang has it with {packet, 4}. P is a peer's place among
--peers, from 0 on, N a port's number from 1 on. The first body that comes in is 20:
  20 TERM   the node's own groups, a list [{Name, [Pid, ..]}, ..] in the External Term Format
  P BYTES   bytes of that peer
  TERM      a request {Node, Port, Command}, as `serve` has it
  16        a tick: what waits is tried again
  17        the clock is asked for
  19 N      another node was denied the lock that port N wants
What goes out begins with 21:
  21 1 TEXT the format, and the version of the program
  P BYTES   bytes for that peer
  TERM      a reply {Node, Port, Number, Reply}, or a notice, as `serve` has them
  17 CLOCK  the clock, in four bytes
  19 N      this node was denied the lock that port N wants
  22        the node is formed
  23 TERM   with --mirror: what the table becomes, a list of {Name}, {Name, [Pid, ..]} and {Name, Pid, Count}
What follows from a read is in the log, and then goes out, before the next read.

Status 0: the input came to its end between two bodies. Status 1: `refused N`, or without such a line, where standard output
failed. Status 2: the names or the numbers are none of a node.";

/// The options of `node`.
pub(crate) const OWN_HELP: &str = "the node's own name";

pub(crate) const PEERS_HELP: &str =
    "the names of its peers, 15 at most, in the order of their places";

pub(crate) const OWN_PORTS_HELP: &str = "how many ports it has, 1 to 64";

pub(crate) const MADE_HELP: &str =
    "how many processes count as made, as of a run before, at most 268435455";

pub(crate) const LOG_HELP: &str =
    "a new file: what comes in goes there, and where the node tried a change";

pub(crate) const MIRROR_HELP: &str = "tell what the table of groups becomes";

pub(crate) const LABEL_HELP: &str = "what the log calls the run, at most 255 bytes";
