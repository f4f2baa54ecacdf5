//! From the text of a script to the script.

ghost use Rattle.std.specs.Prelude.{◌≡◌, ◌≢◌, ◌<◌, ◌∷◌, ◌++◌, [], List, ℕ, length, is_some, option_map};
ghost use Rattle.std.specs.Prelude.{unwrap_or, true, false, Some, None, Ok, Err, IfOk, IfErr, OnOk, OnErr};
ghost use Rattle.pg_script_trace.specs.PgScriptLines.declared.line.Line.TheVariants.{Pair, At};
ghost use Rattle.pg_script.specs.declared.fault.LineFault.TheVariants.{BadLine, UnknownNode};
ghost use Rattle.pg_script.specs.declared.fault.LineFault.TheVariants.{LateDeclaration, OutOfMemory};
ghost use Rattle.pg_script.specs.declared.reading.TheConstants.{DEFAULT_RING};
ghost use Rattle.pg_script.specs.Scripts.{act_said, change_at, contents_of, draft_of, has_said, is_skipped};
ghost use Rattle.pg_script.specs.Scripts.{line_said, lines_in, lines_of_rest, node_said, places_of_pair, place_of};
ghost use Rattle.pg_script.specs.Scripts.{ring_said, script_of, text_said, with_group, IsPlaced};

use crate::act::{Act, node_act, pair_act};
use crate::fault::{LineFault, ScriptFault};
use crate::script::{Script, ScriptLine};
use pg_script_trace::{Config, Line, NodeForm, PairForm, Start, read_line};
use pg_term::{Atom, Items, Pid, Term};
use std::alloc::Global;
use std::collections::BTreeMap;
use std::mem;

/// The capacity of each ring where no line names it.
const DEFAULT_RING: u32 = 65_536;

/// What the lines so far say.
#[derive(Drop)]
struct Reading {
    alloc: Global,
    ring: Option<u32>,
    starts: Vec<Start>,
    // The place of each node by its name.
    places: BTreeMap<Atom, usize>,
    lines: Vec<ScriptLine>,
}

impl Reading {
    fn new(alloc: Global) -> Reading
        ensures placed { IsPlaced result }
        ensures ring { result.ring ≡ None }
        ensures starts { result.starts.items ≡ [] }
        ensures lines { result.lines.items ≡ [] }
    {
        Reading {
            alloc,
            ring: None,
            starts: Vec::new(alloc),
            places: BTreeMap::new(alloc),
            lines: Vec::new(alloc),
        }
    }

    /// Reads one more line, of this number.
    fn add(&mut self, number: usize, text: &str) -> Result<(), LineFault>
        requires { IsPlaced self.old }
        ensures ok { OnOk result (text_said (draft_of self.old) number text.now ≡ Ok (draft_of self.new)) }
        ensures err { IfErr result (λ fault. fault ≢ OutOfMemory → text_said (draft_of self.old) number text.now ≡ Err fault) }
        ensures placed { OnOk result (IsPlaced self.new) }
    {
        if is_skipped(text) {
            return Ok(());
        }
        let line = read_line(self.alloc, text)?;
        self.add_line(number, line)
    }

    /// Adds what a line says.
    fn add_line(&mut self, number: usize, line: Line) -> Result<(), LineFault>
        requires { IsPlaced self.old }
        ensures ok { OnOk result (line_said (draft_of self.old) number line ≡ Ok (draft_of self.new)) }
        ensures err { IfErr result (λ fault. fault ≢ OutOfMemory → line_said (draft_of self.old) number line ≡ Err fault) }
        ensures placed { OnOk result (IsPlaced self.new) }
    {
        match line {
            Line::Ring(capacity) => self.add_ring(capacity),
            Line::Node { name, made } => self.add_node(name, made),
            Line::Has {
                node,
                group,
                members,
            } => self.add_group(&node, group, members),
            Line::Pair {
                first,
                second,
                form,
            } => self.add_pair(number, &first, &second, form),
            Line::At { node, form } => self.add_at(number, &node, form),
            Line::Settle(rounds) => self.add_act(number, Act::Settle(rounds)),
            Line::History(group) => self.add_act(number, Act::History(group)),
        }
    }

    /// Adds a line about two nodes.
    fn add_pair(
        &mut self,
        number: usize,
        first: &Atom,
        second: &Atom,
        form: PairForm,
    ) -> Result<(), LineFault>
        requires { IsPlaced self.old }
        ensures ok { OnOk result (line_said (draft_of self.old) number (Pair first.now second.now form) ≡ Ok (draft_of self.new)) }
        ensures err { IfErr result (λ fault. fault ≢ OutOfMemory → line_said (draft_of self.old) number (Pair first.now second.now form) ≡ Err fault) }
        ensures placed { OnOk result (IsPlaced self.new) }
    {
        let (first, second) = self.pair(first, second)?;
        self.add_act(number, pair_act(first, second, form))
    }

    /// Adds a line about one node.
    fn add_at(&mut self, number: usize, node: &Atom, form: NodeForm) -> Result<(), LineFault>
        requires { IsPlaced self.old }
        ensures ok { OnOk result (line_said (draft_of self.old) number (At node.now form) ≡ Ok (draft_of self.new)) }
        ensures err { IfErr result (λ fault. fault ≢ OutOfMemory → line_said (draft_of self.old) number (At node.now form) ≡ Err fault) }
        ensures placed { OnOk result (IsPlaced self.new) }
    {
        match self.place(node) {
            Ok(place) => self.add_act(number, node_act(place, form)),
            Err(fault) => {
                drop(form);
                Err(fault)
            }
        }
    }

    fn add_ring(&mut self, capacity: u32) -> Result<(), LineFault>
        requires { IsPlaced self.old }
        ensures ok { OnOk result (ring_said (draft_of self.old) capacity ≡ Ok (draft_of self.new)) }
        ensures err { IfErr result (λ fault. ring_said (draft_of self.old) capacity ≡ Err fault) }
        ensures placed { OnOk result (IsPlaced self.new) }
    {
        if self.ring.is_some() {
            return Err(LineFault::BadLine);
        }
        self.declares()?;
        self.ring = Some(capacity);
        Ok(())
    }

    fn add_node(&mut self, name: Atom, made: u32) -> Result<(), LineFault>
        requires { IsPlaced self.old }
        ensures ok { OnOk result (node_said (draft_of self.old) name made ≡ Ok (draft_of self.new)) }
        ensures err { IfErr result (λ fault. fault ≢ OutOfMemory → node_said (draft_of self.old) name made ≡ Err fault) }
        ensures placed { OnOk result (IsPlaced self.new) }
    {
        self.declares()?;
        if self.places.contains_key(&name) {
            return Err(LineFault::BadConfig);
        }
        let key = name.copy()?;
        self.places.insert(key, self.starts.len())?;
        self.starts.push(Start {
            name,
            made,
            ports: 1,
            groups: Items::from_vec(Vec::new(self.alloc)),
        })?;
        Ok(())
    }

    fn add_group(&mut self, node: &Atom, group: Term, members: Items<Pid>) -> Result<(), LineFault>
        requires { IsPlaced self.old }
        ensures ok { OnOk result (has_said (draft_of self.old) node.now group members ≡ Ok (draft_of self.new)) }
        ensures err { IfErr result (λ fault. fault ≢ OutOfMemory → has_said (draft_of self.old) node.now group members ≡ Err fault) }
        ensures placed { OnOk result (IsPlaced self.new) }
    {
        match self.declared_place(node) {
            Ok(place) => give_group(
                self.alloc,
                self.starts.as_mut_slice(),
                place,
                group,
                members,
            ),
            Err(fault) => {
                // By a call: their forms are not written out here.
                drop(group);
                drop(members);
                Err(fault)
            }
        }
    }

    /// The place of a node that was declared, where a declaration may be.
    fn declared_place(&self, node: &Atom) -> Result<usize, LineFault>
        requires { IsPlaced self.now }
        ensures ok { IfOk result (λ place. (length self.now.lines.items ≡ 0) × (place_of node.now self.now.starts.items ≡ Some place)) }
        ensures err { IfErr result (λ fault. (fault ≢ OutOfMemory) × ((group : Term) → (members : List Pid) → has_said (draft_of self.now) node.now group members ≡ Err fault)) }
    {
        self.declares()?;
        self.place(node)
    }

    fn add_act(&mut self, number: usize, act: Act) -> Result<(), LineFault>
        requires { IsPlaced self.old }
        ensures ok { OnOk result (act_said (draft_of self.old) number act ≡ Ok (draft_of self.new)) }
        ensures err { IfErr result (λ fault. fault ≡ OutOfMemory) }
        ensures placed { OnOk result (IsPlaced self.new) }
    {
        Ok(self.lines.push(ScriptLine { number, act })?)
    }

    /// A declaration may be here.
    fn declares(&self) -> Result<(), LineFault>
        ensures ok { OnOk result (length self.now.lines.items ≡ 0) }
        ensures err { IfErr result (λ fault. (fault ≡ LateDeclaration) × (length self.now.lines.items ≢ 0)) }
    {
        if self.lines.is_empty() {
            Ok(())
        } else {
            Err(LineFault::LateDeclaration)
        }
    }

    /// The place of a node that was declared.
    fn place(&self, name: &Atom) -> Result<usize, LineFault>
        requires { IsPlaced self.now }
        ensures ok { IfOk result (λ place. place_of name.now self.now.starts.items ≡ Some place) }
        ensures err { IfErr result (λ fault. (fault ≡ UnknownNode) × (place_of name.now self.now.starts.items ≡ None)) }
    {
        match self.places.get(name) {
            Some(place) => Ok(*place),
            None => Err(LineFault::UnknownNode),
        }
    }

    /// The places of two nodes that were declared, apart from each other.
    fn pair(&self, first: &Atom, second: &Atom) -> Result<(usize, usize), LineFault>
        requires { IsPlaced self.now }
        ensures ok { IfOk result (λ places. places_of_pair first.now second.now self.now.starts.items ≡ Some places) }
        ensures err { IfErr result (λ fault. (fault ≡ UnknownNode) × (places_of_pair first.now second.now self.now.starts.items ≡ None)) }
    {
        let first = self.place(first)?;
        let second = self.place(second)?;
        if first == second {
            return Err(LineFault::UnknownNode);
        }
        Ok((first, second))
    }

    fn finish(self) -> Script
        ensures ring { (contents_of result).ring ≡ unwrap_or self.ring DEFAULT_RING }
        ensures starts { (contents_of result).starts ≡ self.starts.items }
        ensures lines { (contents_of result).lines ≡ self.lines.items }
    {
        let Reading {
            alloc: _,
            ring,
            starts,
            places: _,
            lines,
        } = self;
        let ring = ring.unwrap_or(DEFAULT_RING) as usize;
        Script {
            config: Config { ring, starts },
            lines,
        }
    }
}

/// Gives the node at a place one group more.
fn give_group(
    alloc: Global,
    starts: &mut [Start],
    place: usize,
    group: Term,
    members: Items<Pid>,
) -> Result<(), LineFault>
    requires { place < length starts.old }
    ensures ok { OnOk result (starts.new ≡ change_at place (with_group group members) starts.old) }
    ensures places { (name : List ℕ) → place_of name starts.new ≡ place_of name starts.old }
    ensures err { IfErr result (λ fault. fault ≡ OutOfMemory) }
{
    let start = &mut starts[place];
    let mut groups = mem::replace(&mut start.groups, Items::from_vec(Vec::new(alloc))).into_vec();
    groups.push((group, members))?;
    start.groups = Items::from_vec(groups);
    Ok(())
}

/// Whether a line is empty or a comment.
fn is_skipped(text: &str) -> bool
    ensures { result ≡ is_skipped text.now }
{
    text.is_empty() || text.starts_with('%')
}

/// The first line of a text, and what follows the line feed after it, where there is one.
fn first_line(text: &str) -> (&str, Option<&str>)
    ensures { lines_in text.now ≡ result.0.now ∷ lines_of_rest (option_map (λ rest. rest.now) result.1) }
{
    match text.split_once('\n') {
        Some((line, rest)) => (line, Some(rest)),
        None => (text, None),
    }
}

/// Reads a script: lines that line feeds end; the last may lack it. Empty lines, and those that begin with `%`, are
/// skipped. What else a configuration has to be `World::new` looks at.
///
/// Errors: those of the first faulty line, of which the first that holds: `BadLine`, `LateDeclaration`,
/// `UnknownNode`, `BadConfig`; `OutOfMemory` may come in the place of each, and of a line that has none.
///
/// Cost: memory for each line; O(n log m) in the length of the text and the number of nodes.
pub fn read_script(alloc: Global, text: &str) -> Result<Script, ScriptFault>
    ensures ok { IfOk result (λ script. script_of text.now ≡ Ok (contents_of script)) }
    ensures err { IfErr result (λ fault. fault.fault ≢ OutOfMemory → script_of text.now ≡ Err fault) }
{
    let mut reading = Reading::new(alloc);
    let mut number = 0usize;
    let mut rest = Some(text);
    while let Some(left) = rest {
        let (line, behind) = first_line(left);
        rest = behind;
        number += 1;
        match reading.add(number, line) {
            Ok(()) => {}
            Err(fault) => return Err(ScriptFault {
                line: number,
                fault,
            }),
        }
    }
    Ok(reading.finish())
}
