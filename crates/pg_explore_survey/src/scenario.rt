//! What is explored: a configuration, and what comes in at its nodes.

ghost use Rattle.std.specs.Prelude.{◌≡◌, ◌≢◌, [], IfOk, IfErr, OnOk, Ok, Err, length};
ghost use Rattle.pg_script.specs.declared.fault.LineFault.TheVariants.{OutOfMemory};
ghost use Rattle.pg_script.specs.Scripts.{contents_of, lines_in};
ghost use Rattle.pg_explore_survey.specs.Scenarios.{AddPlans, AreCommands, ArePlans, IsScenario, bad_line, command_lines};
ghost use Rattle.pg_explore_survey.specs.Scenarios.{is_command_of, texts_of, first_fault, planned_act, planned_event};
ghost use Rattle.pg_explore_survey.specs.Scenarios.{planned_of, planned_step, scenario_of, without_others};

use crate::forms::{lines_of, other_line};
use pg_explore::{Plan, Planned};
use pg_script::{
    Act, Config, FrameStep, LineFault, Script, ScriptFault, ScriptLine, Step, read_script,
};
use std::alloc::{AllocError, Global};

/// A configuration, and what is planned of each of its nodes, by their places.
#[derive(Debug, Drop)]
pub struct Scenario<'a> {
    pub config: Config,
    pub plans: Vec<Plan>,
    // The lines of the script, and for each command of each node, by its number from 1 on, the place of its line.
    pub(crate) lines: Vec<&'a str>,
    pub(crate) commands: Vec<Vec<usize>>,
}

impl<'a> Scenario<'a> {
    ghost use Rattle.std.specs.Prelude.{slice_get};
    ghost use Rattle.pg_explore_survey.specs.Texts.{command_at, line_of_command, line_at, places_of};

    /// The line of a command of a node, by its number from 1 on.
    pub(crate) fn command(&self, node: usize, number: u32) -> &'a str
        ensures { result.now ≡ line_of_command self.now node number }
    {
        self.command_at(node, number.saturating_sub(1) as usize)
    }

    /// The line of a command of a node, by its place among them.
    pub(crate) fn command_at(&self, node: usize, place: usize) -> &'a str
        ensures { result.now ≡ command_at self.now node place }
    {
        match self.place_of(node, place) {
            Some(line) => self.line(line),
            None => "",
        }
    }

    /// The place of its line.
    fn place_of(&self, node: usize, place: usize) -> Option<usize>
        ensures { result ≡ slice_get (places_of self.now node) place }
    {
        match self.commands.as_slice().get(node) {
            Some(commands) => commands.as_slice().get(place).copied(),
            None => None,
        }
    }

    /// How many commands a node has.
    pub(crate) fn command_count(&self, node: usize) -> usize
        ensures { result ≡ length (places_of self.now node) }
    {
        match self.commands.as_slice().get(node) {
            Some(commands) => commands.len(),
            None => 0,
        }
    }

    fn line(&self, place: usize) -> &'a str
        ensures { result.now ≡ line_at self.now place }
    {
        match self.lines.as_slice().get(place) {
            Some(line) => *line,
            None => "",
        }
    }
}

/// Reads a script of declarations, commands and losses.
///
/// Errors: the first faulty line; a line of another form is `BadLine`. `OutOfMemory` may be told in the place of
/// each.
///
/// Cost: each line is read twice at most, as `read_script` reads it; a walk over the lines for each node; memory for
/// each line.
pub fn read_scenario(alloc: Global, text: &str) -> Result<Scenario<'_>, ScriptFault>
    ensures ok { IfOk result (λ scenario. IsScenario (scenario_of text.now) scenario) }
    ensures lines { IfOk result (λ scenario. texts_of scenario.lines.items ≡ lines_in text.now) }
    ensures err { IfErr result (λ fault. fault.fault ≢ OutOfMemory → scenario_of text.now ≡ Err fault) }
{
    match other_line(alloc, text) {
        Ok(other) => match read_script(alloc, text) {
            Ok(script) => scenario_without(alloc, text, script, other),
            Err(fault) => Err(first_fault(other, fault)),
        },
        Err(AllocError) => Err(out_of_memory()),
    }
}

/// The scenario of a script, where none of its lines has another form.
///
/// Errors: the line that has, or `OutOfMemory`.
fn scenario_without(
    alloc: Global,
    text: &str,
    script: Script,
    other: Option<usize>,
) -> Result<Scenario<'_>, ScriptFault>
    ensures ok { IfOk result (λ scenario. IsScenario (without_others other (Ok (contents_of script))) scenario) }
    ensures lines { IfOk result (λ scenario. texts_of scenario.lines.items ≡ lines_in text.now) }
    ensures err { IfErr result (λ fault. fault.fault ≢ OutOfMemory → without_others other (Ok (contents_of script)) ≡ Err fault) }
{
    match other {
        Some(line) => {
            drop(script);
            Err(bad_line(line))
        }
        None => {
            let Script { config, lines } = script;
            match scenario_of(alloc, text, config, lines) {
                Ok(scenario) => Ok(scenario),
                Err(AllocError) => Err(out_of_memory()),
            }
        }
    }
}

fn out_of_memory() -> ScriptFault
    ensures { result.fault ≡ OutOfMemory }
{
    ScriptFault {
        line: 0,
        fault: LineFault::OutOfMemory,
    }
}

fn bad_line(line: usize) -> ScriptFault
    ensures { result ≡ bad_line line }
{
    ScriptFault {
        line,
        fault: LineFault::BadLine,
    }
}

/// The first of two faults: that of a line that has another form, and another. Where memory ran out nothing is known of the first.
fn first_fault(other: Option<usize>, fault: ScriptFault) -> ScriptFault
    ensures first { fault.fault ≢ OutOfMemory → result ≡ first_fault other fault }
    ensures memory { fault.fault ≡ OutOfMemory → result ≡ fault }
{
    if fault.fault == LineFault::OutOfMemory {
        return fault;
    }
    match other {
        Some(line) if line <= fault.line => bad_line(line),
        _ => fault,
    }
}

/// What is planned of each node.
///
/// Errors: `AllocError`.
fn scenario_of<'a>(
    alloc: Global,
    text: &'a str,
    config: Config,
    lines: Vec<ScriptLine>,
) -> Result<Scenario<'a>, AllocError>
    ensures config { IfOk result (λ scenario. scenario.config ≡ config) }
    ensures len { IfOk result (λ scenario. length scenario.plans.items ≡ length config.starts.items) }
    ensures plans { IfOk result (λ scenario. ArePlans lines.items scenario.plans.items) }
    ensures lines { IfOk result (λ scenario. texts_of scenario.lines.items ≡ lines_in text.now) }
    ensures commands { IfOk result (λ scenario. AreCommands lines.items (length config.starts.items) scenario.commands.items) }
{
    let count = config.starts.len();
    let texts = lines_of(alloc, text)?;
    let commands = commands_of(alloc, count, lines.as_slice())?;
    match plans_of(alloc, count, lines) {
        Ok(plans) => Ok(Scenario {
            config,
            plans,
            lines: texts,
            commands,
        }),
        Err(AllocError) => {
            drop(config);
            Err(AllocError)
        }
    }
}

/// For each command of each node the place of its line.
///
/// Errors: `AllocError`.
fn commands_of(
    alloc: Global,
    count: usize,
    lines: &[ScriptLine],
) -> Result<Vec<Vec<usize>>, AllocError>
    ensures { IfOk result (λ commands. AreCommands lines.now count commands.items) }
{
    let mut commands = Vec::with_capacity(alloc, count)?;
    for place in 0..count {
        let lines = commands_at(alloc, place, lines)?;
        commands.push(lines)?;
    }
    Ok(commands)
}

/// The places of the lines of a node's commands.
///
/// Errors: `AllocError`.
fn commands_at(alloc: Global, place: usize, lines: &[ScriptLine]) -> Result<Vec<usize>, AllocError>
    ensures { IfOk result (λ commands. commands.items ≡ command_lines place lines.now) }
{
    let mut commands = Vec::new(alloc);
    for line in lines {
        if is_command_of(place, &line.act) {
            commands.push(line.number.saturating_sub(1))?;
        }
    }
    Ok(commands)
}

fn is_command_of(place: usize, act: &Act) -> bool
    ensures { result ≡ is_command_of place act.now }
{
    match act {
        Act::Step(Step::Event(FrameStep::Command { node, .. })) => *node == place,
        _ => false,
    }
}

/// What some lines plan of so many nodes.
///
/// Errors: `AllocError`.
fn plans_of(alloc: Global, count: usize, lines: Vec<ScriptLine>) -> Result<Vec<Plan>, AllocError>
    ensures len { IfOk result (λ plans. length plans.items ≡ count) }
    ensures plans { IfOk result (λ plans. ArePlans lines.items plans.items) }
{
    let mut plans = no_plans(alloc, count)?;
    for line in lines {
        let ScriptLine { number: _, act } = line;
        add(plans.as_mut_slice(), act)?;
    }
    Ok(plans)
}

/// Nothing is planned of so many nodes.
///
/// Errors: `AllocError`.
fn no_plans(alloc: Global, count: usize) -> Result<Vec<Plan>, AllocError>
    ensures len { IfOk result (λ plans. length plans.items ≡ count) }
    ensures none { IfOk result (λ plans. ArePlans [] plans.items) }
{
    let mut plans = Vec::with_capacity(alloc, count)?;
    for _ in 0..count {
        plans.push(Plan {
            steps: Vec::new(alloc),
        })?;
    }
    Ok(plans)
}

/// Adds what a line plans.
///
/// Errors: `AllocError`.
fn add(plans: &mut [Plan], act: Act) -> Result<(), AllocError>
    ensures { OnOk result (AddPlans (λ place. planned_act place act) plans.old plans.new) }
{
    match act {
        Act::Step(step) => add_step(plans, step),
        other => {
            drop(other);
            Ok(())
        }
    }
}

fn add_step(plans: &mut [Plan], step: Step) -> Result<(), AllocError>
    ensures { OnOk result (AddPlans (λ place. planned_step place step) plans.old plans.new) }
{
    match step {
        Step::Event(event) => add_event(plans, event),
        Step::Lose { node } => add_planned(plans, node, Planned::Loss),
        other => {
            drop(other);
            Ok(())
        }
    }
}

fn add_event(plans: &mut [Plan], event: FrameStep) -> Result<(), AllocError>
    ensures { OnOk result (AddPlans (λ place. planned_event place event) plans.old plans.new) }
{
    match event {
        FrameStep::Command {
            node,
            port,
            command,
        } => {
            let step = FrameStep::Command {
                node,
                port,
                command,
            };
            add_planned(plans, node, Planned::Step(step))
        }
        other => {
            drop(other);
            Ok(())
        }
    }
}

fn add_planned(plans: &mut [Plan], node: usize, planned: Planned) -> Result<(), AllocError>
    ensures { OnOk result (AddPlans (planned_of node planned) plans.old plans.new) }
{
    if node < plans.len() {
        plans[node].steps.push(planned)?;
    } else {
        drop(planned);
    }
    Ok(())
}
