//! What the program asks of the system: files, a log, threads and time.

ghost use Rattle.std.specs.Prelude.{⊤, ℕ, List, Option, Result, IfOk, OnErr, OnOk};
ghost use Rattle.pg_talk.specs.declared.conversation.Conversation.{Conversation};
ghost use Rattle.pg_talk.specs.declared.conversation.Outcome.{Outcome};
ghost use Rattle.pg_talk.specs.declared.service.Service.{Service};
ghost use Rattle.pg_talk.specs.declared.service.fault.ServiceFault.{ServiceFault};
ghost use Rattle.pg_talk.specs.declared.service.run.Served.{Served};
ghost use Rattle.pg_cluster.specs.declared.fault.StartFault.{StartFault};

use pg_cluster::StartFault;
use pg_streams::Sink;
use pg_talk::{Conversation, Outcome, Served, Service, ServiceFault};
use std::io;

/// A log: a file that is made anew and then written to.
pub trait LogFile: Sink {
    /// `made a name b`: there was no file of this name, one was made, and what is written to `b` goes there.
    ghost made: { Self → List ℕ → Self → Type 0 } = { λ a name b. ⊤ };

    /// `unmade a b`: a file could not be made, or was there, and that left `b`.
    ghost unmade: { Self → Self → Type 0 } = { λ a b. ⊤ };

    /// Makes a new file of this name, which then takes what is written.
    ///
    /// Error: any, where it can't be made, or is there.
    fn create(&mut self, name: &str) -> io::Result<()>
        ensures ok { OnOk result (made self.old name.now self.new) }
        ensures err { OnErr result (unmade self.old self.new) };
}

/// Where files are made, threads run, and time goes by.
pub trait System {
    /// `fails a b`: a file could not be made in `a`, and that left `b`.
    ghost fails: { Self → Self → Type 0 } = { λ a b. ⊤ };

    /// `went a asked told b`: a conversation that was asked for in `a` went as it is told, and that left `b`.
    ghost went: { Self → Conversation → Result Outcome StartFault → Self → Type 0 } = { λ a asked told b. ⊤ };

    /// `got a name bytes b`: a file of this name held these bytes in `a`, and to read it left `b`.
    ghost got: { Self → List ℕ → List ℕ → Self → Type 0 } = { λ a name bytes b. ⊤ };

    /// `unread a b`: a file could not be read in `a`, and that left `b`.
    ghost unread: { Self → Self → Type 0 } = { λ a b. ⊤ };

    /// `served a service before after told b`: a service that was asked for in `a` went as it is told, made of this output that one, and left `b`.
    ghost served: { Self → Service → Option (List ℕ) → Option (List ℕ) → Result Served ServiceFault → Self → Type 0 } = { λ a service before after told b. ⊤ };

    /// Makes a file of this name hold just these bytes.
    ///
    /// Error: any, where it can't be made or written.
    fn put(&mut self, name: &str, bytes: &[u8]) -> io::Result<()>
        ensures err { OnErr result (fails self.old self.new) };

    /// Lets the clients of a cluster speak, and tells how it went. It may wait for threads.
    ///
    /// Faults: those of `run_threads`.
    fn converse(&mut self, asked: Conversation) -> Result<Outcome, StartFault>
        ensures told { went self.old asked result self.new };

    /// The bytes of the file of this name.
    ///
    /// Error: any, where it can't be read.
    fn get(&mut self, name: &str) -> io::Result<Vec<u8>>
        ensures ok { IfOk result (λ bytes. got self.old name.now bytes.items self.new) }
        ensures err { OnErr result (unread self.old self.new) };

    /// Serves requests from the input, and writes the replies. It may wait for threads.
    ///
    /// Faults: those of `serve_cluster`.
    fn serve<W: Sink>(&mut self, service: Service, writer: &mut W) -> Result<Served, ServiceFault>
        ensures told { served self.old service (W.contents writer.old) (W.contents writer.new) result self.new };

    /// Shows how many worlds were explored, of how many at most.
    fn look(&mut self, explored: u64, limit: u64);

    /// Shows it no more.
    fn look_away(&mut self);

    /// How many microseconds went by since some moment that stays; 0 where no clock can be read.
    fn microseconds(&mut self) -> u64;
}
