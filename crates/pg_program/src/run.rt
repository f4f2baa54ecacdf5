//! What the program does for its words.

ghost use Rattle.std.specs.Prelude.{◌≡◌, ◌≢◌, ◌⊎◌, List, ℕ, [], IfSome, Ok, Err, map, string_bytes};
ghost use Rattle.std.specs.Str.{chars};
ghost use Rattle.std.specs.IoError.{error_kind};
ghost use Rattle.std.specs.declared.io.ErrorKind.TheVariants.{InvalidData};
ghost use Rattle.clap.specs.Words.{fault_of, kind_of, subcommand_of};
ghost use Rattle.pg_cluster.specs.PgNode.Replicas.Causes.{AllAnswered, FailedAt, Unread};
ghost use Rattle.pg_process.specs.Serving.{Serves};
ghost use Rattle.pg_program.specs.Bytes.{BytesCause, pair_of_texts};
ghost use Rattle.pg_program.specs.CommandLine.{command_line, AsksBytes, IsExplore, IsExploreWord};
ghost use Rattle.pg_program.specs.CommandLine.{IsNode, IsNodeWord, IsScriptWord, IsServe, IsServeWord, IsThreads};
ghost use Rattle.pg_program.specs.Explorations.{ExploreEnd, WasAsked};
ghost use Rattle.pg_program.specs.Inputs.{IsInput, IsUnread};
ghost use Rattle.pg_program.specs.Nodes.{ServesSeat, WasSeated};
ghost use Rattle.pg_program.specs.Scripts.{ScriptEnd};
ghost use Rattle.pg_program.specs.Services.{EndsService, ServiceEnds, ToldService, WasOffered, service_status};
ghost use Rattle.pg_program.specs.Status.{BytesEnd, Ends, ToldEnd, WordsEnd, end_of_bytes, end_status};
ghost use Rattle.pg_program.specs.Talks.{EndsTalk, OrNoMemory, TalkEnd};
ghost use Rattle.pg_program.specs.declared.fault.Fault.TheVariants.{Run};
ghost use Rattle.pg_program.specs.declared.words.Talk.{Talk};

use crate::bytes::{BytesFault, serve_input};
use crate::explore::explore_input;
use crate::fault::Fault;
use crate::node::serve_seat;
use crate::script::run_input;
use crate::service::{print_verdict, serve};
use crate::system::{LogFile, System};
use crate::threads::converse;
use crate::words::{Aids, Offer, Quest, Seat, Talk, Task, read_words};
use clap::Error;
use clap::error::ErrorKind;
use pg_script::put_whole;
use pg_streams::{Sink, Source};
use pg_talk::Served;
use pg_term::faults::OUT_OF_MEMORY;
use std::alloc::Global;
use std::io;

const DONE: u8 = 0;

// A cluster's clients were not all answered, or its nodes are not what they should be; or what a node's host reads is gone.
const NOT_GOOD: u8 = 1;

const REFUSED_WORDS: u8 = 2;

/// Does what the words of a command line ask for, without the name of the program, and gives the status that it ends
/// with.
///
/// `bytes [--node NAME] [--peer NAME]` reads framed packets from `reader` and writes the framed replies to `writer`,
/// as `pg_node::serve` does; names that are too long or equal are refused. `script` reads a script and runs it, as
/// `pg_script::run_script` does; by `--trace` it tells what was seen, too, and by `--diagram` it makes a file in
/// `system` once the run has ended. `threads` lets clients speak with a cluster of nodes in threads, as
/// `pg_talk::run_threads` does, and prints how it went; status 1 where not all was well. `serve` takes requests for
/// such a cluster from the system's input, and writes the replies to `writer`, as `pg_talk::serve_cluster` does; then
/// two lines on `faults` tell what the cluster is found to be, and status 1 where not all is well. `explore` reads a
/// script of commands, goes through all their runs as `pg_explore_survey::survey` does, and prints what was counted, or by
/// `--show` and `--differing` one run as a script; by `--graph` it makes a file; status 1 where the limit was
/// reached. `node` serves one node of a set from `reader` and to `writer`, as `pg_process::serve` does, with a log in `log`: by `--log` a
/// new file is made first, else what is logged goes to `log` as it is; status 1 without a line where `writer` fails. A fault stands in a line of `faults`: `refused N`, or `line L refused N` for a faulty line of a script.
/// Status 0: done; 1: the run was refused; 2: what was given was refused. Refused words print the text of `clap` on
/// `faults`, status 2, and nothing is read or written.
///
/// Cost: that of the call that the words name; memory for the words, and for the whole of a script that is read.
pub fn run_words<R: Source, W: Sink, D: System, L: LogFile, F: Sink>(
    alloc: Global,
    words: &[String],
    reader: &mut R,
    writer: &mut W,
    system: &mut D,
    log: &mut L,
    faults: &mut F,
) -> u8
    ensures refused { fault_of command_line (map string_bytes words.now) ≢ [] → WordsEnd (ToldEnd F.fails F.contents faults.old faults.new) result
        × (reader.new ≡ reader.old) × (writer.new ≡ writer.old) × (system.new ≡ system.old) }
    ensures bytes { (own peer : List ℕ) → fault_of command_line (map string_bytes words.now) ≡ []
        → AsksBytes (subcommand_of command_line (map string_bytes words.now)) own peer
        → IfSome (R.remaining reader.old) (λ input. BytesEnd own peer
        (BytesCause (Unread R.gives R.fails reader.old reader.new
        (AllAnswered (pair_of_texts (chars own) (chars peer)) (W.contents writer.old) (W.contents writer.new)))
        (FailedAt W.fails writer.new)) (ToldEnd F.fails F.contents faults.old faults.new)
        (W.contents writer.old) (W.contents writer.new) input result) }
    ensures script { fault_of command_line (map string_bytes words.now) ≡ []
        → IsScriptWord (subcommand_of command_line (map string_bytes words.now))
        → Ends (ScriptEnd (IsInput R.remaining R.gives reader.old reader.new) (IsUnread R.gives R.fails reader.old reader.new)
        (writer.new ≡ writer.old) (FailedAt W.fails writer.new ⊎ FailedAt D.fails system.new) (W.flushed writer.new))
        (ToldEnd F.fails F.contents faults.old faults.new) result }
    ensures threads { (talk : Talk) → fault_of command_line (map string_bytes words.now) ≡ []
        → IsThreads (subcommand_of command_line (map string_bytes words.now)) talk
        → EndsTalk (OrNoMemory (writer.new ≡ writer.old) (TalkEnd D.went talk.asked talk.is_json
        (writer.new ≡ writer.old) (FailedAt W.fails writer.new) (W.flushed writer.new) (W.contents writer.old) (W.contents writer.new)))
        (ToldEnd F.fails F.contents faults.old faults.new) result }
    ensures serve { fault_of command_line (map string_bytes words.now) ≡ []
        → IsServeWord (subcommand_of command_line (map string_bytes words.now))
        → EndsService (OrNoMemory (writer.new ≡ writer.old) (WasOffered (IsServe (subcommand_of command_line (map string_bytes words.now)))
        (λ offer. ServiceEnds D.got D.unread D.served offer system.old system.new (writer.new ≡ writer.old) (W.contents writer.old) (W.contents writer.new))))
        (ToldService F.fails F.contents faults.old faults.new) result }
    ensures explore { fault_of command_line (map string_bytes words.now) ≡ []
        → IsExploreWord (subcommand_of command_line (map string_bytes words.now))
        → EndsTalk (OrNoMemory (writer.new ≡ writer.old) (WasAsked (IsExplore (subcommand_of command_line (map string_bytes words.now)))
        (λ quest. ExploreEnd (IsInput R.remaining R.gives reader.old reader.new) (IsUnread R.gives R.fails reader.old reader.new) quest (writer.new ≡ writer.old)
        (FailedAt W.fails writer.new ⊎ FailedAt D.fails system.new) (W.flushed writer.new) (W.contents writer.old) (W.contents writer.new))))
        (ToldEnd F.fails F.contents faults.old faults.new) result }
    ensures node { fault_of command_line (map string_bytes words.now) ≡ []
        → IsNodeWord (subcommand_of command_line (map string_bytes words.now))
        → EndsTalk (OrNoMemory ((reader.new ≡ reader.old) × (writer.new ≡ writer.old) × (log.new ≡ log.old)) (WasSeated (IsNode (subcommand_of command_line (map string_bytes words.now)))
        (λ seat. ServesSeat (Serves W.contents W.flushed W.fails L.contents L.flushed L.fails R.gives R.remaining R.fails) L.made L.unmade
        seat reader.old reader.new writer.old writer.new log.old log.new)))
        (ToldEnd F.fails F.contents faults.old faults.new) result }
    ensures unlogged { fault_of command_line (map string_bytes words.now) ≢ [] → log.new ≡ log.old }
    ensures others { (IsNodeWord (subcommand_of command_line (map string_bytes words.now)) → ⊥) → log.new ≡ log.old }
{
    match read_words(alloc, words) {
        Ok(Task::Bytes { own, peer }) => run_bytes(alloc, own, peer, reader, writer, faults),
        Ok(Task::Threads(talk)) => run_conversation(alloc, talk, writer, system, faults),
        Ok(Task::Serve(offer)) => {
            let status = run_service(alloc, &offer, writer, system, faults);
            drop(offer);
            status
        }
        Ok(Task::Explore(quest)) => {
            run_exploration(alloc, quest, reader, writer, system, faults)
        }
        Ok(Task::Node(seat)) => {
            let status = run_node(alloc, &seat, reader, writer, log, faults);
            drop(seat);
            status
        }
        Ok(Task::Script(aids)) => run_script(alloc, aids, reader, writer, system, faults),
        Err(error) => refuse_words(alloc, faults, &error),
    }
}

/// Serves the input as this node with this peer, and gives the status.
fn run_bytes<R: Source, W: Sink, F: Sink>(
    alloc: Global,
    own: &str,
    peer: &str,
    reader: &mut R,
    writer: &mut W,
    faults: &mut F,
) -> u8
    ensures { IfSome (R.remaining reader.old) (λ input. BytesEnd own.now peer.now
        (BytesCause (Unread R.gives R.fails reader.old reader.new
        (AllAnswered (pair_of_texts (chars own.now) (chars peer.now)) (W.contents writer.old) (W.contents writer.new)))
        (FailedAt W.fails writer.new)) (ToldEnd F.fails F.contents faults.old faults.new)
        (W.contents writer.old) (W.contents writer.new) input result) }
{
    let served = serve_input(alloc, own, peer, reader, writer);
    tell(faults, bytes_end(served))
}

/// Runs the script that the input is, and gives the status.
fn run_script<R: Source, W: Sink, D: System, F: Sink>(
    alloc: Global,
    aids: Aids<'_>,
    reader: &mut R,
    writer: &mut W,
    system: &mut D,
    faults: &mut F,
) -> u8
    ensures { Ends (ScriptEnd (IsInput R.remaining R.gives reader.old reader.new) (IsUnread R.gives R.fails reader.old reader.new)
        (writer.new ≡ writer.old) (FailedAt W.fails writer.new ⊎ FailedAt D.fails system.new) (W.flushed writer.new))
        (ToldEnd F.fails F.contents faults.old faults.new) result }
{
    let ran = run_input(alloc, aids, reader, writer, system);
    tell(faults, ran)
}

/// Lets the clients of a cluster speak, and gives the status.
fn run_conversation<W: Sink, D: System, F: Sink>(
    alloc: Global,
    talk: Talk,
    writer: &mut W,
    system: &mut D,
    faults: &mut F,
) -> u8
    ensures { EndsTalk (TalkEnd D.went talk.asked talk.is_json (writer.new ≡ writer.old) (FailedAt W.fails writer.new)
        (W.flushed writer.new) (W.contents writer.old) (W.contents writer.new)) (ToldEnd F.fails F.contents faults.old faults.new) result }
{
    match converse(alloc, talk, writer, system) {
        Ok(true) => DONE,
        Ok(false) => NOT_GOOD,
        Err(fault) => tell(faults, Err(fault)),
    }
}

/// Explores the script that the input is, and gives the status.
fn run_exploration<R: Source, W: Sink, D: System, F: Sink>(
    alloc: Global,
    quest: Quest<'_>,
    reader: &mut R,
    writer: &mut W,
    system: &mut D,
    faults: &mut F,
) -> u8
    ensures { EndsTalk (ExploreEnd (IsInput R.remaining R.gives reader.old reader.new) (IsUnread R.gives R.fails reader.old reader.new) quest.entry (writer.new ≡ writer.old)
        (FailedAt W.fails writer.new ⊎ FailedAt D.fails system.new) (W.flushed writer.new) (W.contents writer.old) (W.contents writer.new))
        (ToldEnd F.fails F.contents faults.old faults.new) result }
{
    match explore_input(alloc, quest, reader, writer, system) {
        Ok(true) => DONE,
        Ok(false) => NOT_GOOD,
        Err(fault) => tell(faults, Err(fault)),
    }
}

/// Serves the node of a seat, and gives the status.
fn run_node<R: Source, W: Sink, L: LogFile, F: Sink>(
    alloc: Global,
    seat: &Seat<'_>,
    reader: &mut R,
    writer: &mut W,
    log: &mut L,
    faults: &mut F,
) -> u8
    ensures { EndsTalk (ServesSeat (Serves W.contents W.flushed W.fails L.contents L.flushed L.fails R.gives R.remaining R.fails) L.made L.unmade
        seat.now reader.old reader.new writer.old writer.new log.old log.new) (ToldEnd F.fails F.contents faults.old faults.new) result }
{
    match serve_seat(alloc, seat, reader, writer, log) {
        Ok(true) => DONE,
        Ok(false) => NOT_GOOD,
        Err(fault) => tell(faults, Err(fault)),
    }
}

/// Serves the requests of the input, and gives the status.
fn run_service<W: Sink, D: System, F: Sink>(
    alloc: Global,
    offer: &Offer<'_>,
    writer: &mut W,
    system: &mut D,
    faults: &mut F,
) -> u8
    ensures { EndsService (ServiceEnds D.got D.unread D.served offer.now system.old system.new (writer.new ≡ writer.old) (W.contents writer.old) (W.contents writer.new))
        (ToldService F.fails F.contents faults.old faults.new) result }
{
    match serve(alloc, offer, writer, system) {
        Ok(served) => tell_served(faults, served),
        Err(fault) => tell(faults, Err(fault)),
    }
}

/// Writes what a cluster is found to be, and by which fault its input ended; the status.
fn tell_served<F: Sink>(faults: &mut F, served: Served) -> u8
    ensures told { ToldService F.fails F.contents faults.old faults.new (Ok served) }
    ensures status { result ≡ service_status (Ok served) }
{
    let _ = print_verdict(faults, served.verdict);
    match served.fault {
        Some(number) => tell(faults, Err(Fault::Run(number))),
        None => {
            if served.verdict.agree && served.verdict.replay {
                DONE
            } else {
                NOT_GOOD
            }
        }
    }
}

/// How serving ends, for the program.
fn bytes_end(served: Result<(), BytesFault>) -> Result<(), Fault>
    ensures { result ≡ end_of_bytes served }
{
    match served {
        Ok(()) => Ok(()),
        Err(BytesFault::Names(number)) => Err(Fault::Given(number)),
        Err(BytesFault::Serve(fault)) => Err(Fault::Run(fault.number())),
    }
}

/// Writes the line of a fault, if there is one, and gives the status of an end.
fn tell<F: Sink>(faults: &mut F, end: Result<(), Fault>) -> u8
    ensures status { result ≡ end_status end }
    ensures told { ToldEnd F.fails F.contents faults.old faults.new end }
{
    match end {
        Ok(()) => DONE,
        Err(fault) => {
            let _ = fault.print(faults);
            fault.status()
        }
    }
}

/// Writes the line of a run that was refused by this number, and gives its status.
///
/// Cost: no memory; one line is written.
pub fn refuse<F: Sink>(faults: &mut F, number: u8) -> u8
    ensures status { result ≡ 1 }
    ensures told { ToldEnd F.fails F.contents faults.old faults.new (Err (Run number)) }
{
    tell(faults, Err(Fault::Run(number)))
}

/// Writes why words are refused, or the help that they ask for, and gives the status.
fn refuse_words<F: Sink>(alloc: Global, faults: &mut F, error: &Error) -> u8
    ensures end { WordsEnd (ToldEnd F.fails F.contents faults.old faults.new) result }
    ensures memory { kind_of error.now ≡ ErrorKind.OutOfMemory
        → (result ≡ 1) × ToldEnd F.fails F.contents faults.old faults.new (Err (Run 10)) }
{
    if error.kind() == ErrorKind::OutOfMemory {
        return refuse(faults, OUT_OF_MEMORY);
    }
    match format!(in alloc; "{error}") {
        Ok(text) => {
            let _ = put_whole(faults, text.as_bytes());
            REFUSED_WORDS
        }
        Err(_) => refuse(faults, OUT_OF_MEMORY),
    }
}

/// Writes why the words of the program can't be had, and gives the status: one of them is no text, which is refused
/// as words are; else there was no memory.
///
/// Cost: no memory; one short text is written.
pub fn refuse_given<F: Sink>(faults: &mut F, error: &io::Error) -> u8
    ensures text { error_kind error.now ≡ InvalidData → result ≡ 2 }
    ensures memory { error_kind error.now ≢ InvalidData
        → (result ≡ 1) × ToldEnd F.fails F.contents faults.old faults.new (Err (Run 10)) }
{
    if error.kind() == io::ErrorKind::InvalidData {
        refuse_text(faults)
    } else {
        refuse(faults, OUT_OF_MEMORY)
    }
}

/// Writes that a word is no text, and gives the status.
fn refuse_text<F: Sink>(faults: &mut F) -> u8
    ensures { result ≡ 2 }
{
    let _ = put_whole(
        faults,
        b"error: invalid UTF-8 was detected in one or more arguments\n\nUsage: pg2sim <COMMAND>\n\nFor more information, try '--help'.\n",
    );
    REFUSED_WORDS
}
