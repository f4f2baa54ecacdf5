//! Scripts: texts whose lines declare nodes and then make steps of a world of them, and what a run of them prints.
//!
//! `run_script(alloc, &read_script(alloc, text)?, &mut writer)?` runs a script. Begin with `src/script.rt`, then `src/running.rt`.
#![tactic(auto)]

mod act;
mod fault;
mod history;
mod reading;
mod running;
mod script;
mod settling;
mod stage;
mod writing;

pub use act::Act;
pub use fault::{LineFault, RunFault, ScriptFault};
pub use pg_script_trace::{
    Answer, Command, Config, Diagram, Effect, Entry, FrameStep, FrameWorld, Graph, GroupTable,
    IndexTable, Line, Link, LinkKind, Node, NodeFault, NodeForm, NodeState, OpId, Outgoing, Packet,
    Refusal, Reply, Spot, Start, Step, Stepped, TextFault, Watch, World, WorldFault, diagram_of,
    encode, graph_svg, packet_len, print_answer, print_reply, read_line, read_term, run,
    run_frames, same_group, starting_nodes, svg_of, write_atom, write_svg, write_term,
};
pub use reading::read_script;
pub use running::{run_script, watch_script};
pub use script::{Script, ScriptLine};
pub use writing::put_whole;
