ghost use Rattle.std.specs.Prelude.{◌≡◌};
ghost use Rattle.std.specs.List.{list_any};
ghost use Rattle.pg_node_opens.specs.Twins.{same_update, is_alike, is_twin, have_twins};

use crate::command::{OpenCommand, Phase};
use pg_step::Update;

/// Whether each command of the one list has its twin in the other: a command that is seen as the same.
pub fn have_twins(commands: &[OpenCommand], others: &[OpenCommand]) -> bool
    ensures { result ≡ have_twins commands.now others.now }
{
    for command in commands {
        if !has_twin(command, others) {
            return false;
        }
    }
    true
}

fn has_twin(command: &OpenCommand, others: &[OpenCommand]) -> bool
    ensures { result ≡ list_any (is_twin command.now) others.now }
{
    for other in others {
        if is_twin(command, other) {
            return true;
        }
    }
    false
}

fn is_twin(one: &OpenCommand, other: &OpenCommand) -> bool
    ensures { result ≡ is_twin one.now other.now }
{
    one.is(other.op) && same_update(&one.update, &other.update) && is_alike(one, other)
}

fn is_alike(one: &OpenCommand, other: &OpenCommand) -> bool
    ensures { result ≡ is_alike one.now.phase one.now.marks other.now.phase other.now.marks }
{
    match (one.phase, other.phase) {
        (Phase::Waiting, Phase::Waiting) => true,
        (Phase::Asking(lock, first), Phase::Asking(other_lock, other_first)) => {
            lock == other_lock && first == other_first && one.marks.same(&other.marks)
        }
        (Phase::Changing(lock, update), Phase::Changing(other_lock, other_update)) => {
            lock == other_lock && update == other_update && one.marks.same_replies(&other.marks)
        }
        _ => false,
    }
}

fn same_update(one: &Update, other: &Update) -> bool
    ensures { result ≡ same_update one.now other.now }
{
    match (one, other) {
        (Update::Create(name), Update::Create(other)) => name == other,
        (Update::Delete(name), Update::Delete(other)) => name == other,
        (Update::Join(name, pid), Update::Join(other, member)) => name == other && pid == member,
        (Update::Leave(name, pid), Update::Leave(other, member)) => name == other && pid == member,
        _ => false,
    }
}
