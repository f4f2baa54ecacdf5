//! A run as a script.

ghost use Rattle.std.specs.Prelude.{◌≡◌, IfOk, is_some};
ghost use Rattle.pg_explore_survey.specs.Findings.{IsWhereMarked, end_numbered, end_places, differing_marks};

use crate::findings::Findings;
use crate::hops::Stride;
use crate::moving::{Come, frame_len, frames_len, lost_in};
use crate::pen::Pen;
use pg_explore::{Moment, Move};
use pg_script::Packet;
use std::alloc::AllocError;
use std::collections::VecDeque;

/// How many bytes a ring has room for.
const RING: usize = 65_536;

/// A script as it is written.
#[derive(Drop)]
struct Script<'a, 'b, 'c> {
    findings: &'a Findings<'b, 'c>,
    pen: Pen,
    come: Come,
    // By the places of the nodes: whether it is lost in the run.
    lost: Vec<bool>,
}

impl Findings<'_, '_> {
    /// The shortest run to an end, from 1 on, as a script; `None` where there are not so many ends.
    ///
    /// Errors: `AllocError`.
    ///
    /// Cost: memory for each step of the run and for the text; O(n^2) in the nodes; a walk over the packets on the
    /// ways of a node for each step at most.
    pub fn script_to_end(&self, number: usize) -> Result<Option<String>, AllocError>
        ensures { IfOk result (λ script. is_some script ≡ is_some (end_numbered (end_places self.now) number)) }
    {
        match self.end_place(number) {
            Some(place) => {
                let strides = self.run_to(place)?;
                let script = self.script_of(strides.as_slice())?;
                Ok(Some(script))
            }
            None => Ok(None),
        }
    }

    /// A run in which two formed nodes differ as long as in any, as a script; `None` where they never differ.
    ///
    /// Errors: `AllocError`, also where a run leads back to where it began.
    ///
    /// Cost: that of `longest_run`, and of a script, as of `script_to_end`.
    pub fn script_of_differing(&self) -> Result<Option<String>, AllocError>
        ensures { IfOk result (λ script. IsWhereMarked (differing_marks self.now) (is_some script)) }
    {
        match self.differing_run()? {
            Some(strides) => {
                let script = self.script_of(strides.as_slice())?;
                Ok(Some(script))
            }
            None => Ok(None),
        }
    }

    /// A run as a script.
    ///
    /// Errors: `AllocError`.
    fn script_of(&self, strides: &[Stride]) -> Result<String, AllocError> {
        let count = self.scenario.config.starts.len();
        let come = Come::none(self.alloc, count)?;
        let lost = lost_in(self.alloc, count, strides)?;
        let mut script = Script {
            findings: self,
            pen: Pen::new(self.alloc),
            come,
            lost,
        };
        script.add_declarations();
        for stride in strides {
            script.add_stride(stride);
        }
        script.finish()
    }
}

impl Script<'_, '_, '_> {
    fn finish(self) -> Result<String, AllocError> {
        let Script {
            findings: _,
            pen,
            come: _,
            lost: _,
        } = self;
        pen.finish()
    }

    /// The declarations of the scenario.
    fn add_declarations(&mut self) {
        let findings = self.findings;
        for line in findings.scenario.lines.as_slice() {
            if line.starts_with("node ") || line.starts_with("has ") {
                self.add_line(line);
            }
        }
    }

    fn add_line(&mut self, line: &str) {
        self.pen.add(line);
        self.pen.add("\n");
    }

    /// The lines of a step.
    fn add_stride(&mut self, stride: &Stride) {
        let findings = self.findings;
        if let Some(met) = findings.explored.met().get(stride.place) {
            self.add_step(&met.moment, &stride.step);
        }
    }

    fn add_step(&mut self, moment: &Moment, step: &Move) {
        match step {
            Move::Take { node, peer } => self.add_take(moment, *node, *peer),
            Move::Next { node } => self.add_command(moment, *node),
            Move::Loss { node, keep } => self.add_loss(moment, *node, keep.as_slice()),
            Move::Retry { node, op } => self.add_retry(*node, op.number),
            Move::SeeLoss { node, peer } => self.add_pair("seeloss", *node, *peer),
        }
    }

    /// The line of the command that comes in next.
    fn add_command(&mut self, moment: &Moment, node: usize) {
        let number = command_number(moment, node);
        let findings = self.findings;
        self.add_line(findings.scenario.command(node, number));
    }

    fn add_retry(&mut self, node: usize, number: u32) {
        self.add_word("retry", node);
        write!(self.pen, " {number}\n");
    }

    /// The packet is moved, where it has not come yet, and taken.
    fn add_take(&mut self, moment: &Moment, node: usize, peer: usize) {
        if self.come.between(peer, node) == 0 {
            if let Some(packets) = moment.world.on_way(peer, node) {
                self.move_some(packets, peer, node);
            }
        }
        self.come.pass(peer, node);
        self.add_pair("take", node, peer);
    }

    /// The first packet is moved, or all where the node that sent them is not lost in the run.
    fn move_some(&mut self, packets: &VecDeque<Packet>, from: usize, to: usize) {
        if self.is_lost(from) {
            self.move_first(packets, from, to, 1);
        } else {
            self.move_all(packets, from, to);
        }
    }

    fn move_all(&mut self, packets: &VecDeque<Packet>, from: usize, to: usize) {
        for _ in 0..frames_len(packets).div_ceil(RING) {
            self.add_pair("put", from, to);
            self.add_pair("pull", to, from);
        }
        self.come.set(from, to, packets.len());
    }

    /// The first packets are moved, up to so many, each by itself.
    fn move_first(&mut self, packets: &VecDeque<Packet>, from: usize, to: usize, count: usize) {
        let come = self.come.between(from, to);
        for place in come..count {
            if let Some(packet) = packets.get(place) {
                self.move_bytes(frame_len(packet), from, to);
            }
        }
        self.come.set(from, to, count);
    }

    /// So many bytes are moved.
    fn move_bytes(&mut self, len: usize, from: usize, to: usize) {
        let mut left = len;
        for _ in 0..len.div_ceil(RING) {
            let part = left.min(RING);
            self.add_counted("put", from, to, part);
            self.add_counted("pull", to, from, part);
            left = left.saturating_sub(part);
        }
    }

    /// The packets that stay are moved, and the node is lost.
    fn add_loss(&mut self, moment: &Moment, node: usize, keep: &[usize]) {
        for (place, count) in keep.iter().enumerate() {
            let peer = if place < node {
                place
            } else {
                place.saturating_add(1)
            };
            if let Some(packets) = moment.world.on_way(node, peer) {
                self.move_first(packets, node, peer, *count);
            }
        }
        self.add_word("lose", node);
        self.pen.add("\n");
    }

    fn is_lost(&self, node: usize) -> bool {
        self.lost.as_slice().get(node).copied().unwrap_or(false)
    }

    /// A word, and the name of a node.
    fn add_word(&mut self, word: &str, node: usize) {
        let findings = self.findings;
        self.pen.add(word);
        self.pen.add(" ");
        if let Some(start) = findings.scenario.config.starts.as_slice().get(node) {
            self.pen.add_atom(&start.name);
        }
    }

    /// A word, and the names of two nodes.
    fn add_names(&mut self, word: &str, first: usize, second: usize) {
        self.add_word(word, first);
        self.add_word("", second);
    }

    /// A line of a word and two nodes.
    fn add_pair(&mut self, word: &str, first: usize, second: usize) {
        self.add_names(word, first, second);
        self.pen.add("\n");
    }

    /// The same with a number.
    fn add_counted(&mut self, word: &str, first: usize, second: usize, count: usize) {
        self.add_names(word, first, second);
        write!(self.pen, " {count}\n");
    }
}

/// The number of the command of a node that comes in next, from 1 on.
fn command_number(moment: &Moment, node: usize) -> u32 {
    match moment.strands.as_slice().get(node) {
        Some(strand) => u32::try_from(strand.retries.len())
            .unwrap_or(u32::MAX)
            .saturating_add(1),
        None => 0,
    }
}
