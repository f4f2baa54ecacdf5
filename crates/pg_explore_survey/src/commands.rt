//! The groups that a scenario names.

ghost use Rattle.std.specs.Prelude.{◌≡◌, ◌∷◌, ◌++◌, [], true, IfOk, OnOk};
ghost use Rattle.std.specs.List.{Contains, flat_map};
ghost use Rattle.std.specs.Option.{option_copied};
ghost use Rattle.pg_explore_survey.specs.Names.{AddsNames, changed_by, changed_in, command_names, known_by, known_in, name_list};

use crate::scenario::Scenario;
use pg_explore::{Plan, Planned};
use pg_script::{Command, FrameStep, Start};
use pg_term::{Items, Pid, Term};
use std::alloc::{AllocError, Global};

/// The groups that commands change, each once.
///
/// Errors: `AllocError`.
pub(crate) fn changed_groups(
    alloc: Global,
    scenario: &Scenario<'_>,
) -> Result<Vec<Term>, AllocError>
    ensures { IfOk result (λ names. AddsNames (changed_in scenario.now.plans.items) [] names.items) }
{
    let mut names = Vec::new(alloc);
    add_changed(&mut names, alloc, scenario.plans.as_slice())?;
    Ok(names)
}

/// These, and those that nodes know as they start.
///
/// Errors: `AllocError`.
pub(crate) fn all_groups(alloc: Global, scenario: &Scenario<'_>) -> Result<Vec<Term>, AllocError>
    ensures { IfOk result (λ names. AddsNames (changed_in scenario.now.plans.items ++ known_in scenario.now.config.starts.items) [] names.items) }
{
    let mut names = changed_groups(alloc, scenario)?;
    add_known(&mut names, alloc, scenario.config.starts.as_slice())?;
    Ok(names)
}

/// Adds the groups that commands of some plans change.
///
/// Errors: `AllocError`.
fn add_changed(names: &mut Vec<Term>, alloc: Global, plans: &[Plan]) -> Result<(), AllocError>
    ensures { OnOk result (AddsNames (changed_in plans.now) names.old.items names.new.items) }
{
    for plan in plans {
        add_planned(names, alloc, plan.steps.as_slice())?;
    }
    Ok(())
}

/// Adds the groups that some commands change.
///
/// Errors: `AllocError`.
fn add_planned(names: &mut Vec<Term>, alloc: Global, steps: &[Planned]) -> Result<(), AllocError>
    ensures { OnOk result (AddsNames (flat_map changed_by steps.now) names.old.items names.new.items) }
{
    for planned in steps {
        add_changed_group(names, alloc, planned)?;
    }
    Ok(())
}

/// Adds the group that a command changes.
///
/// Errors: `AllocError`.
fn add_changed_group(
    names: &mut Vec<Term>,
    alloc: Global,
    planned: &Planned,
) -> Result<(), AllocError>
    ensures { OnOk result (AddsNames (changed_by planned.now) names.old.items names.new.items) }
{
    match changed_group(planned) {
        Some(name) => add_name(names, alloc, name),
        None => Ok(()),
    }
}

/// Adds the groups that nodes know as they start.
///
/// Errors: `AllocError`.
fn add_known(names: &mut Vec<Term>, alloc: Global, starts: &[Start]) -> Result<(), AllocError>
    ensures { OnOk result (AddsNames (known_in starts.now) names.old.items names.new.items) }
{
    for start in starts {
        add_groups(names, alloc, start.groups.as_slice())?;
    }
    Ok(())
}

/// Adds the names of some groups.
///
/// Errors: `AllocError`.
fn add_groups(
    names: &mut Vec<Term>,
    alloc: Global,
    groups: &[(Term, Items<Pid>)],
) -> Result<(), AllocError>
    ensures { OnOk result (AddsNames (flat_map known_by groups.now) names.old.items names.new.items) }
{
    for group in groups {
        add_name(names, alloc, &group.0)?;
    }
    Ok(())
}

/// Adds a name, unless it is there.
///
/// Errors: `AllocError`.
fn add_name(names: &mut Vec<Term>, alloc: Global, name: &Term) -> Result<(), AllocError>
    ensures { OnOk result (AddsNames (name.now ∷ []) names.old.items names.new.items) }
{
    if has_name(names.as_slice(), name) {
        return Ok(());
    }
    let copy = name.copy(alloc)?;
    names.push(copy)?;
    Ok(())
}

/// Whether a name is there.
fn has_name(names: &[Term], name: &Term) -> bool
    ensures { result ≡ true → Contains names.now name.now }
{
    for known in names {
        if known == name {
            return true;
        }
    }
    false
}

/// The group that a command changes.
fn changed_group(planned: &Planned) -> Option<&Term>
    ensures { name_list (option_copied result) ≡ changed_by planned.now }
{
    match planned {
        Planned::Step(
            FrameStep::Command {
                node: _,
                port: _,
                command,
            },
        ) => group_of(command),
        _ => None,
    }
}

fn group_of(command: &Command) -> Option<&Term>
    ensures { name_list (option_copied result) ≡ command_names command.now }
{
    match command {
        Command::Create(name) | Command::Delete(name) => Some(name),
        Command::Join(name, _) | Command::Leave(name, _) => Some(name),
        _ => None,
    }
}
