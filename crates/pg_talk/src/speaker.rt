//! What a client of a conversation says next.

ghost use Rattle.std.specs.Prelude.{◌≡◌, ◌<◌, ◌+◌, ℕ, Bool, true, false, IfOk, get_or, length};
ghost use Rattle.pg_cluster.specs.PgNodeRun.Ports.{IsSilent};
ghost use Rattle.pg_cluster.specs.PgNodeRun.declared.port.Client.{Client};
ghost use Rattle.pg_cluster.specs.Running.{clients_in, OnlyClient};
ghost use Rattle.pg_talk.specs.Asking.{HasRest, group_name, process_made, next_said, pid_after, rounds_after, stage_after};
ghost use Rattle.pg_talk.specs.Conversations.{saturated};

use pg_cluster::{Answer, Command, Reply, Running};
use pg_term::{Atom, Pid, Term};
use std::alloc::{AllocError, Global};
use std::mem;

/// Where a client is in its conversation.
#[derive(Clone, Copy, Debug, PartialEq, Eq)]
enum Stage {
    /// It waits for the group.
    Waiting,
    /// It creates the group.
    Creating,
    /// It makes a process.
    Making,
    /// It joins the group with the process.
    Joining,
    /// It leaves the group with the process.
    Leaving,
    /// All is said.
    Silent,
}

/// A client of a conversation: it makes a process and then joins the group and leaves it, again and again.
#[derive(Debug, Drop)]
pub(crate) struct Speaker {
    stage: Stage,
    // The command of the stage was submitted.
    is_asked: bool,
    pid: Option<Pid>,
    // How many rounds are to follow.
    rounds: u32,
    // How many commands were answered.
    pub(crate) answered: u64,
}

impl Speaker {
    /// A client that creates the group first.
    pub(crate) fn creating(rounds: u32) -> Speaker
        ensures { (client : Client) → IsSilent client → HasRest true rounds result client }
    {
        Speaker {
            stage: Stage::Creating,
            is_asked: false,
            pid: None,
            rounds,
            answered: 0,
        }
    }

    /// A client that waits for the group.
    pub(crate) fn waiting(rounds: u32) -> Speaker
        ensures { (client : Client) → IsSilent client → HasRest false rounds result client }
    {
        Speaker {
            stage: Stage::Waiting,
            is_asked: false,
            pid: None,
            rounds,
            answered: 0,
        }
    }

    /// The group is there.
    pub(crate) fn begin(&mut self)
        ensures { (creates : Bool) (rounds : ℕ) (client : Client) → HasRest creates rounds self.old client → HasRest creates rounds self.new client }
    {
        if self.stage == Stage::Waiting {
            self.stage = Stage::Making;
        }
    }

    /// Whether all is said and answered.
    pub(crate) fn is_silent(&self) -> bool {
        matches!(self.stage, Stage::Silent)
    }

    /// Polls an answer, and counts it, or submits the next command; whether something moved.
    ///
    /// Error: `AllocError`.
    pub(crate) fn speak(
        &mut self,
        alloc: Global,
        running: &mut Running,
        place: usize,
    ) -> Result<bool, AllocError>
        requires { place < length (clients_in running.old) }
        ensures only { OnlyClient place running.old running.new }
        ensures keeps { (creates : Bool) (rounds : ℕ) (none : Client) → HasRest creates rounds self.old (get_or (clients_in running.old) place none)
            → HasRest creates rounds self.new (get_or (clients_in running.new) place none) }
    {
        if self.is_asked {
            match running.poll(place) {
                Some(answer) => {
                    self.hear(answer);
                    Ok(true)
                }
                None => Ok(false),
            }
        } else {
            self.ask(alloc, running, place)
        }
    }

    // Submits the command of the stage, which was not.
    fn ask(
        &mut self,
        alloc: Global,
        running: &mut Running,
        place: usize,
    ) -> Result<bool, AllocError>
        requires place { place < length (clients_in running.old) }
        requires unasked { self.old.is_asked ≡ false }
        ensures only { OnlyClient place running.old running.new }
        ensures keeps { (creates : Bool) (rounds : ℕ) (none : Client) → HasRest creates rounds self.old (get_or (clients_in running.old) place none)
            → HasRest creates rounds self.new (get_or (clients_in running.new) place none) }
    {
        match self.command(alloc)? {
            Some(command) => {
                self.is_asked = match running.submit(place, command) {
                    Ok(()) => true,
                    Err(command) => {
                        drop(command);
                        false
                    }
                };
                Ok(self.is_asked)
            }
            None => Ok(false),
        }
    }

    // The command of the stage.
    fn command(&self, alloc: Global) -> Result<Option<Command>, AllocError>
        ensures { IfOk result (λ command. command ≡ next_said self.now.stage self.now.pid) }
    {
        Ok(match (self.stage, &self.pid) {
            (Stage::Creating, _) => Some(Command::Create(group(alloc)?)),
            (Stage::Making, _) => Some(Command::Make),
            (Stage::Joining, Some(pid)) => {
                let pid = pid.copy()?;
                Some(Command::Join(group(alloc)?, pid))
            }
            (Stage::Leaving, Some(pid)) => {
                let pid = pid.copy()?;
                Some(Command::Leave(group(alloc)?, pid))
            }
            _ => None,
        })
    }

    // Takes in the answer to the command of the stage.
    fn hear(&mut self, answer: Answer)
        ensures answered { self.new.answered ≡ saturated (self.old.answered + 1) }
        ensures asked { self.new.is_asked ≡ false }
        ensures pid { self.new.pid ≡ pid_after self.old.stage self.old.pid answer.reply }
        ensures stage { self.new.stage ≡ stage_after self.old.stage self.old.rounds }
        ensures rounds { self.new.rounds ≡ rounds_after self.old.stage self.old.rounds }
    {
        self.answered = self.answered.saturating_add(1);
        self.is_asked = false;
        let made = made_by(answer);
        if self.stage == Stage::Making {
            drop(mem::replace(&mut self.pid, made));
        } else {
            drop(made);
        }
        self.go_on();
    }

    // The next stage begins.
    fn go_on(&mut self)
        ensures answered { self.new.answered ≡ self.old.answered }
        ensures asked { self.new.is_asked ≡ self.old.is_asked }
        ensures pid { self.new.pid ≡ self.old.pid }
        ensures stage { self.new.stage ≡ stage_after self.old.stage self.old.rounds }
        ensures rounds { self.new.rounds ≡ rounds_after self.old.stage self.old.rounds }
    {
        self.stage = match self.stage {
            Stage::Waiting | Stage::Creating => Stage::Making,
            Stage::Joining => Stage::Leaving,
            Stage::Making | Stage::Leaving => {
                if self.rounds > 0 {
                    self.rounds -= 1;
                    Stage::Joining
                } else {
                    Stage::Silent
                }
            }
            Stage::Silent => Stage::Silent,
        };
    }
}

// The process that an answer tells of.
fn made_by(answer: Answer) -> Option<Pid>
    ensures { result ≡ process_made answer.reply }
{
    match answer.reply {
        Reply::Made(pid) => Some(pid),
        other => {
            drop(other);
            None
        }
    }
}

// The name of the group.
fn group(alloc: Global) -> Result<Term, AllocError>
    ensures { IfOk result (λ name. name ≡ group_name) }
{
    match Atom::new(alloc, "g") {
        Ok(name) => Ok(Term::Atom(name)),
        Err(_) => Err(AllocError),
    }
}
