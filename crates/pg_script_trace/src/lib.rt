//! What is seen of a world from outside while it makes steps, and lines of it.
//!
//! `diagram_of(alloc, &watch)?` is the diagram of what a `Watch` saw. Begin with `src/watch.rt`, then `src/seen.rt`.
#![tactic(auto)]

mod columns;
mod drawing;
mod letter;
mod seen;
mod texts;
mod watch;

pub use columns::Columns;
pub use drawing::diagram_of;
pub use letter::{Asked, Letter};
pub use pg_script_diagram::{Diagram, Graph, Link, LinkKind, Spot, graph_svg, svg_of, write_svg};
pub use pg_script_lines::{
    Line, NodeForm, PairForm, add_char, add_text, print_answer, print_lock, print_outbox,
    print_refused, print_reply, read_line,
};
pub use pg_text::{TextFault, read_term, write_atom, write_term, write_update};
pub use pg_world::{
    Answer, Command, Config, Effect, Entry, FrameStep, FrameWorld, GroupTable, IndexTable, Node,
    NodeFault, NodeState, OpId, Outgoing, Packet, Refusal, Reply, Start, Step, Stepped, World,
    WorldFault, encode, packet_len, run, run_frames, same_group, starting_nodes,
};
pub use seen::{Seen, Sight};
pub use watch::Watch;
