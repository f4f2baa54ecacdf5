//! A client that joins a group and leaves it.

use crate::cluster::running::Running;
use crate::commands::command;
use pg_cluster::{Answer, Command, Reply};
use pg_term::{Pid, Term};
use pg_test_kit::{Change, Groups};
use std::alloc::AllocError;
use std::time::{Clock, Duration, Instant};

// What a client asks for next.
#[derive(Clone, Copy)]
enum Stage {
    Create,
    Make,
    Join,
    Leave,
}

/// A client that makes a process, and then joins a group with it and leaves it. It may create the group first.
#[derive(Drop)]
pub struct Talker {
    groups: Groups,
    number: u32,
    stage: Stage,
    pid: Option<Pid>,
    // How many commands are still to be asked.
    left: u64,
    // When the command was submitted that is not answered yet.
    since: Option<Instant>,
}

impl Talker {
    /// The client of this number. Where all have one group the first creates it.
    pub fn new(groups: Groups, number: u32) -> Talker {
        let (stage, left) = match groups {
            Groups::One if number > 0 => (Stage::Make, 1),
            _ => (Stage::Create, 2),
        };
        Talker {
            groups,
            number,
            stage,
            pid: None,
            left,
            since: None,
        }
    }

    /// So many rounds of a join and a leave more.
    pub fn go_on(&mut self, rounds: u64) {
        self.left = self.left.saturating_add(rounds.saturating_mul(2));
    }

    /// Whether all was asked and answered.
    pub fn is_silent(&self) -> bool {
        self.left == 0 && self.since.is_none()
    }

    // The place of its client.
    fn place(&self) -> usize {
        self.number as usize
    }

    // The group that it changes.
    fn group(&self) -> Term {
        self.groups.group(self.number)
    }

    // The command by which this process changes the group.
    fn change(&self, change: Change, pid: &Pid) -> Result<Command, AllocError> {
        let pid = pid.copy()?;
        Ok(command(change, self.group(), pid))
    }

    // What is asked for.
    fn command(&self) -> Result<Command, AllocError> {
        match (self.stage, &self.pid) {
            (Stage::Create, _) => Ok(Command::Create(self.group())),
            (Stage::Join, Some(pid)) => self.change(Change::Join, pid),
            (Stage::Leave, Some(pid)) => self.change(Change::Leave, pid),
            _ => Ok(Command::Make),
        }
    }

    // Takes in an answer.
    fn hear(&mut self, answer: Answer) {
        self.since = None;
        self.left = self.left.saturating_sub(1);
        self.stage = match self.stage {
            Stage::Create => Stage::Make,
            Stage::Make | Stage::Leave => Stage::Join,
            Stage::Join => Stage::Leave,
        };
        match answer.reply {
            Reply::Made(pid) => self.pid = Some(pid),
            other => drop(other),
        }
    }

    // Takes in the answer to what was asked then, if it is there, and keeps how long it took; whether it was there.
    fn listen<R: Clock>(
        &mut self,
        rt: &R,
        since: Instant,
        running: &mut Running,
        times: &mut Vec<Duration>,
    ) -> bool {
        let Some(answer) = running.poll(self.place()) else {
            return false;
        };
        self.hear(answer);
        if let Ok(time) = since.elapsed(rt) {
            let _ = times.push(time);
        }
        true
    }

    // Submits what is asked for next at this time; whether it did.
    fn ask(&mut self, now: Instant, running: &mut Running) -> bool {
        if self.left == 0 {
            return false;
        }
        let Ok(command) = self.command() else {
            return false;
        };
        let is_asked = running.submit(self.place(), command);
        if is_asked {
            self.since = Some(now);
        }
        is_asked
    }

    /// Takes in an answer, and keeps how long it took, or submits what comes next; whether something moved.
    pub fn speak<R: Clock>(
        &mut self,
        rt: &R,
        running: &mut Running,
        times: &mut Vec<Duration>,
    ) -> bool {
        match (self.since, Instant::now(rt)) {
            (Some(since), _) => self.listen(rt, since, running, times),
            (None, Ok(now)) => self.ask(now, running),
            (None, Err(_)) => false,
        }
    }
}
