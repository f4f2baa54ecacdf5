//! Steps of a world that are watched.

mod effects;
mod locks;
mod ways;

use crate::letter::Letter;
use crate::seen::{Seen, Sight};
use crate::texts::{atom_text, changed_by, command_text};
use crate::watch::locks::Locks;
use crate::watch::ways::{Ways, outbox, peer_count};
use pg_script_lines::print_reply;
use pg_world::{Answer, Command, FrameStep, GroupTable, NodeFault, Start, Step, Stepped, World};
use std::alloc::{AllocError, Global};

/// What was seen of a world. It comes from what its steps report and from what its nodes show after a step: their
/// clocks, the holders of locks, the commands that wait, and what is new in their outboxes.
///
/// It keeps all that it saw, and each packet as text.
#[derive(Drop)]
pub struct Watch {
    alloc: Global,
    /// The names of the nodes as text, by their places.
    pub names: Vec<String>,
    /// The packets that were sent, by their numbers.
    pub letters: Vec<Letter>,
    /// What was seen, the first first.
    pub sights: Vec<Sight>,
    line: usize,
    ways: Ways,
    locks: Locks,
    // How many commands came in at each node, and which of them wait.
    came: Vec<u32>,
    waiting: Vec<Vec<u32>>,
    // How many bytes were in each outbox of the node of a step before it.
    lens: Vec<usize>,
}

impl Watch {
    ghost use Rattle.std.specs.Prelude.{◌≡◌, ◌++◌, ◌∷◌, [], IfOk, OnOk, length, map, string_bytes};
    ghost use Rattle.std.specs.List.{range_with_len};
    ghost use Rattle.std.specs.Str.{encode_utf8_all};
    ghost use Rattle.pg_text.specs.Writing.{atom_text};
    ghost use Rattle.pg_script_trace.specs.Watched.{BeginsWatch, SawAnswer, names_of, sent_on};
    ghost use Rattle.pg_world.specs.Bars.{bytes_lost_after};
    ghost use Rattle.pg_world.specs.ByteWorlds.{account_of, crossing_of, given_of, lost_of, room_of};
    ghost use Rattle.pg_world.specs.Changes.{StepChanges};
    ghost use Rattle.pg_world.specs.BytesPast.{BytesGoOn};

    /// Watches a world that begins: the packets that are in the outboxes of its nodes are sent.
    ///
    /// Errors: `AllocError`.
    ///
    /// Cost: memory for each node and each such packet, with its text.
    pub fn new<T: GroupTable + Drop>(
        alloc: Global,
        starts: &[Start],
        world: &World<T>,
    ) -> Result<Watch, AllocError>
        ensures { IfOk result (BeginsWatch starts.now) }
    {
        let mut watch = Watch {
            alloc,
            names: Vec::new(alloc),
            letters: Vec::new(alloc),
            sights: Vec::new(alloc),
            line: 0,
            ways: Ways::new(alloc),
            locks: Locks::new(alloc, starts.len()),
            came: Vec::new(alloc),
            waiting: Vec::new(alloc),
            lens: Vec::new(alloc),
        };
        match watch.see_nodes(starts, world) {
            Ok(()) => Ok(watch),
            Err(error) => {
                drop(watch);
                Err(error)
            }
        }
    }

    /// The nodes of a world that begins.
    fn see_nodes<T: GroupTable + Drop>(
        &mut self,
        starts: &[Start],
        world: &World<T>,
    ) -> Result<(), AllocError>
        requires names { self.old.names.items ≡ [] }
        requires line { self.old.line ≡ 0 }
        requires letters { self.old.letters.items ≡ [] }
        requires sights { self.old.sights.items ≡ [] }
        ensures { OnOk result (BeginsWatch starts.now self.new) }
    {
        self.add_nodes(starts)?;
        self.see_begins(world, starts.len())
    }

    /// The names of nodes.
    fn add_nodes(&mut self, starts: &[Start]) -> Result<(), AllocError>
        ensures names { OnOk result (map string_bytes self.new.names.items ≡ map string_bytes self.old.names.items
            ++ names_of starts.now) }
        ensures line { self.new.line ≡ self.old.line }
        ensures letters { self.new.letters ≡ self.old.letters }
        ensures sights { self.new.sights ≡ self.old.sights }
    {
        for place in 0..starts.len() {
            self.add_node(&starts[place], starts.len())?;
        }
        Ok(())
    }

    /// What so many nodes send as they begin.
    fn see_begins<T: GroupTable + Drop>(
        &mut self,
        world: &World<T>,
        nodes: usize,
    ) -> Result<(), AllocError>
        requires line { self.old.line ≡ 0 }
        requires letters { self.old.letters.items ≡ [] }
        requires sights { self.old.sights.items ≡ [] }
        ensures names { self.new.names ≡ self.old.names }
        ensures line { self.new.line ≡ 0 }
        ensures seen { OnOk result (self.new.sights.items ≡ map (sent_on 0)
            (range_with_len 0 (length self.new.letters.items))) }
    {
        for node in 0..nodes {
            self.see_begin(world, node)?;
        }
        Ok(())
    }

    /// One node more, of so many.
    fn add_node(&mut self, start: &Start, nodes: usize) -> Result<(), AllocError>
        ensures names { OnOk result (map string_bytes self.new.names.items
            ≡ map string_bytes self.old.names.items ++ encode_utf8_all (atom_text start.now.name) ∷ []) }
        ensures line { self.new.line ≡ self.old.line }
        ensures letters { self.new.letters ≡ self.old.letters }
        ensures sights { self.new.sights ≡ self.old.sights }
    {
        self.names.push(atom_text(self.alloc, &start.name)?)?;
        self.waiting.push(Vec::new(self.alloc))?;
        self.came.push(0)?;
        self.ways.add_node(self.alloc, nodes)
    }

    /// What is seen from now on belongs to this line.
    ///
    /// Cost: no memory.
    pub fn begin(&mut self, line: usize)
        ensures line { self.new.line ≡ line }
        ensures sights { self.new.sights ≡ self.old.sights }
        ensures letters { self.new.letters ≡ self.old.letters }
    {
        self.line = line;
    }

    /// A node has answered a command.
    ///
    /// Errors: `AllocError`; all that was seen before stays.
    ///
    /// Cost: memory for the text of the reply.
    pub fn answered(&mut self, node: usize, answer: &Answer) -> Result<(), AllocError>
        ensures seen { OnOk result (∥ SawAnswer node answer.now self.old self.new ∥₁) }
        ensures letters { self.new.letters ≡ self.old.letters }
    {
        let mut text = String::new(self.alloc);
        print_reply(&mut text, &answer.reply)?;
        self.add(Seen::Answered {
            node,
            number: answer.number,
            text,
        })
    }

    /// Makes a step of the world, as `World::step` does, and sees what it does. `is_quiet`: what moves no byte and
    /// takes no packet is passed over.
    ///
    /// Errors: `AllocError`, where there is no memory for what was seen; the step may have happened. Within: that of
    /// the step.
    ///
    /// Cost: that of the step; a look at the locks and the outboxes of its node; memory for what was seen, with each
    /// packet's text.
    pub fn step<T: GroupTable + Drop>(
        &mut self,
        world: &mut World<T>,
        step: &Step,
        is_quiet: bool,
    ) -> Result<Result<Stepped, NodeFault>, AllocError>
        ensures goes_on { IfOk result (λ made. ∥ BytesGoOn (given_of world.old) (crossing_of world.old)
            (account_of world.old) (lost_of world.old) step.now made (crossing_of world.new) (account_of world.new)
            (lost_of world.new) ∥₁) }
        ensures changes { IfOk result (λ made. StepChanges (room_of world.old) (crossing_of world.old)
            (crossing_of world.new) step.now made) }
        ensures lost { IfOk result (λ made. lost_of world.new ≡ bytes_lost_after step.now made (lost_of world.old)) }
        ensures given { given_of world.new ≡ given_of world.old }
        ensures room { room_of world.new ≡ room_of world.old }
    {
        self.measure(world, step)?;
        match world.step(step) {
            Ok(stepped) => match self.see(world, step, stepped, is_quiet) {
                Ok(()) => Ok(Ok(stepped)),
                Err(error) => Err(error),
            },
            Err(fault) => Ok(Err(fault)),
        }
    }

    /// How many bytes are in each outbox of the node of a step.
    fn measure<T: GroupTable + Drop>(
        &mut self,
        world: &World<T>,
        step: &Step,
    ) -> Result<(), AllocError> {
        self.lens.clear();
        let Some(node) = node_of(step) else {
            return Ok(());
        };
        for peer in 0..peer_count(world, node) {
            self.lens.push(outbox(world, node, peer).len())?;
        }
        Ok(())
    }

    fn add(&mut self, seen: Seen) -> Result<(), AllocError>
        ensures names { self.new.names ≡ self.old.names }
        ensures added { OnOk result (self.new.sights.items ≡ self.old.sights.items
            ++ record { line = self.old.line; seen = seen } ∷ []) }
        ensures letters { self.new.letters ≡ self.old.letters }
        ensures line { self.new.line ≡ self.old.line }
    {
        Ok(
            self.sights.push(Sight {
                line: self.line,
                seen,
            })?,
        )
    }

    /// A step was made.
    fn see<T: GroupTable + Drop>(
        &mut self,
        world: &World<T>,
        step: &Step,
        stepped: Stepped,
        is_quiet: bool,
    ) -> Result<(), AllocError> {
        match stepped {
            Stepped::Moved(count) if count > 0 || !is_quiet => self.see_move(step, count),
            Stepped::Nothing if !is_quiet => self.see_nothing(step),
            Stepped::Happened(_) => self.see_event(world, step),
            Stepped::Gone => self.see_lost(step),
            _ => Ok(()),
        }
    }

    /// So many bytes moved.
    fn see_move(&mut self, step: &Step, count: usize) -> Result<(), AllocError> {
        match step {
            Step::Put { from, to, max: _ } => self.add(Seen::Put {
                from: *from,
                to: *to,
                count,
            }),
            Step::Pull { to, from, max: _ } => self.add(Seen::Pulled {
                to: *to,
                from: *from,
                count,
            }),
            _ => Ok(()),
        }
    }

    /// Nothing happened, as no whole packet was there.
    fn see_nothing(&mut self, step: &Step) -> Result<(), AllocError> {
        match step {
            Step::Event(FrameStep::Take { node, peer }) => self.add(Seen::NotThere {
                node: *node,
                peer: *peer,
            }),
            _ => Ok(()),
        }
    }

    /// A node is lost.
    fn see_lost(&mut self, step: &Step) -> Result<(), AllocError> {
        match step {
            Step::Event(FrameStep::Lose { node, keep: _ }) | Step::Lose { node } => {
                self.add(Seen::Lost { node: *node })
            }
            _ => Ok(()),
        }
    }

    /// An event happened.
    fn see_event<T: GroupTable + Drop>(
        &mut self,
        world: &World<T>,
        step: &Step,
    ) -> Result<(), AllocError> {
        let Some(node) = node_of(step) else {
            return Ok(());
        };
        let taken = taken_by(&mut self.ways, step);
        self.see_cause(world, step, taken)?;
        self.see_effects(world, node, taken)
    }

    /// What happened at a node, which took this packet.
    fn see_cause<T: GroupTable + Drop>(
        &mut self,
        world: &World<T>,
        step: &Step,
        taken: Option<usize>,
    ) -> Result<(), AllocError> {
        match step {
            Step::Event(FrameStep::Take { node, peer: _ }) => self.see_take(world, *node, taken),
            Step::Event(
                FrameStep::Command {
                    node,
                    port: _,
                    command,
                },
            ) => self.see_command(world, *node, command),
            Step::Event(FrameStep::Retry { node, op }) => self.see_retry(world, *node, op.number),
            Step::Event(FrameStep::SeeLoss { node, peer }) => self.see_loss(world, *node, *peer),
            _ => Ok(()),
        }
    }

    /// A node took this packet.
    fn see_take<T: GroupTable + Drop>(
        &mut self,
        world: &World<T>,
        node: usize,
        taken: Option<usize>,
    ) -> Result<(), AllocError> {
        match taken {
            Some(packet) => self.add(Seen::Taken {
                node,
                packet,
                clock: clock_of(world, node),
            }),
            None => Ok(()),
        }
    }

    /// A node tried a command again.
    fn see_retry<T: GroupTable + Drop>(
        &mut self,
        world: &World<T>,
        node: usize,
        number: u32,
    ) -> Result<(), AllocError> {
        self.forget_waiting(node, number);
        self.add(Seen::Tried {
            node,
            number,
            clock: clock_of(world, node),
        })
    }

    /// A node saw the loss of a peer.
    fn see_loss<T: GroupTable + Drop>(
        &mut self,
        world: &World<T>,
        node: usize,
        peer: usize,
    ) -> Result<(), AllocError> {
        self.add(Seen::LossSeen {
            node,
            peer,
            clock: clock_of(world, node),
        })
    }

    /// A command came in at a node.
    fn see_command<T: GroupTable + Drop>(
        &mut self,
        world: &World<T>,
        node: usize,
        command: &Command,
    ) -> Result<(), AllocError> {
        let number = next_number(self.came.get_mut(node));
        if let Some(name) = changed_by(command) {
            self.locks.know(self.alloc, name)?;
        }
        let text = command_text(self.alloc, command)?;
        self.add(Seen::Came {
            node,
            number,
            text,
            clock: clock_of(world, node),
        })
    }
}

/// The number of the next command of a node, of which so many came in.
fn next_number(came: Option<&mut u32>) -> u32 {
    match came {
        Some(count) => {
            *count = count.saturating_add(1);
            *count
        }
        None => 0,
    }
}

/// The packet that a step takes: the first on its way.
fn taken_by(ways: &mut Ways, step: &Step) -> Option<usize> {
    match step {
        Step::Event(FrameStep::Take { node, peer }) => ways.pass(*peer, *node),
        _ => None,
    }
}

/// The node of which a step is an event.
fn node_of(step: &Step) -> Option<usize> {
    match step {
        Step::Event(FrameStep::Take { node, peer: _ }) => Some(*node),
        Step::Event(
            FrameStep::Command {
                node,
                port: _,
                command: _,
            },
        ) => Some(*node),
        Step::Event(FrameStep::Retry { node, op: _ }) => Some(*node),
        Step::Event(FrameStep::SeeLoss { node, peer: _ }) => Some(*node),
        _ => None,
    }
}

/// The clock of a node.
fn clock_of<T: GroupTable + Drop>(world: &World<T>, node: usize) -> u32 {
    match world.node(node) {
        Some(node) => node.state().clock(),
        None => 0,
    }
}
