//! `pg2sim node`.

ghost use Rattle.std.specs.Prelude.{◌≡◌, true, IfOk};
ghost use Rattle.pg_node_process.specs.Configs.{is_config};
ghost use Rattle.pg_process.specs.Serving.{Serves};
ghost use Rattle.pg_program.specs.Nodes.{BeginsLog, IsChecked, SeatGives, SeatSays, ServesLogged, ServesSeat, end_of_node};

use crate::fault::Fault;
use crate::help::VERSION;
use crate::service::{atom_of, atoms_in};
use crate::system::LogFile;
use crate::words::Seat;
use pg_node_process::{PassFault, ProcessConfig};
use pg_process::{BeginFault, EndFault, serve};
use pg_streams::{Sink, Source};
use pg_term::faults::{BAD_CONFIG, OUT_OF_MEMORY, WRITE_FAULT};
use std::alloc::Global;

/// Serves the node of a seat as a process; how it ended. `false`: what its host reads is gone.
pub(crate) fn serve_seat<R: Source, W: Sink, L: LogFile>(
    alloc: Global,
    seat: &Seat<'_>,
    reader: &mut R,
    writer: &mut W,
    log: &mut L,
) -> Result<bool, Fault>
    ensures { ServesSeat (Serves W.contents W.flushed W.fails L.contents L.flushed L.fails R.gives R.remaining R.fails) L.made L.unmade
        seat.now reader.old reader.new writer.old writer.new log.old log.new result }
{
    match config_of(alloc, seat) {
        Ok(config) => serve_logged(alloc, config, seat.log, reader, writer, log),
        Err(fault) => Err(fault),
    }
}

/// Serves the node of a config, with a log in this file, if there is one.
fn serve_logged<R: Source, W: Sink, L: LogFile>(
    alloc: Global,
    config: ProcessConfig,
    file: Option<&str>,
    reader: &mut R,
    writer: &mut W,
    log: &mut L,
) -> Result<bool, Fault>
    requires { is_config config ≡ true }
    ensures { ServesLogged (Serves W.contents W.flushed W.fails L.contents L.flushed L.fails R.gives R.remaining R.fails) L.made L.unmade
        config file.entry reader.old reader.new writer.old writer.new log.old log.new result }
{
    match begin_log(file, log) {
        Ok(()) => node_end(serve(alloc, config, VERSION, reader, writer, log)),
        Err(fault) => {
            drop(config);
            Err(fault)
        }
    }
}

/// Makes the file of the log, if there is to be one.
fn begin_log<L: LogFile>(file: Option<&str>, log: &mut L) -> Result<(), Fault>
    ensures { BeginsLog L.made L.unmade file.entry log.old log.new result }
{
    match file {
        Some(name) => match log.create(name) {
            Ok(()) => Ok(()),
            Err(_) => Err(Fault::Run(WRITE_FAULT)),
        },
        None => Ok(()),
    }
}

/// The config of a seat, which is valid.
#[tactic(auto, using(crate::proofs::Seats::checked_valid))]
fn config_of(alloc: Global, seat: &Seat<'_>) -> Result<ProcessConfig, Fault>
    ensures given { SeatGives seat.now result }
    ensures valid { IfOk result (λ config. is_config config ≡ true) }
{
    match config_said(alloc, seat) {
        Ok(config) => checked(config),
        Err(fault) => Err(fault),
    }
}

/// The config, where it is valid.
fn checked(config: ProcessConfig) -> Result<ProcessConfig, Fault>
    ensures { IsChecked config result }
{
    if config.is_valid() {
        return Ok(config);
    }
    drop(config);
    Err(Fault::Given(BAD_CONFIG))
}

/// The config that a seat says.
#[tactic(auto, using(crate::proofs::Seats::unsaid_own, crate::proofs::Seats::unsaid_peers))]
fn config_said(alloc: Global, seat: &Seat<'_>) -> Result<ProcessConfig, Fault>
    ensures { SeatSays seat.now result }
{
    let own = match atom_of(alloc, seat.own) {
        Ok(own) => own,
        Err(fault) => return Err(fault),
    };
    let peers = match atoms_in(alloc, seat.peers.as_slice()) {
        Ok(peers) => peers,
        Err(fault) => return Err(fault),
    };
    match seat.label.as_bytes().to_vec(alloc) {
        Ok(label) => Ok(ProcessConfig {
            own,
            peers,
            ports: seat.ports,
            made: seat.made,
            label,
            mirrored: seat.is_mirrored,
        }),
        Err(_) => Err(Fault::Run(OUT_OF_MEMORY)),
    }
}

/// How a process ended, for the program.
fn node_end(ended: Result<(), EndFault>) -> Result<bool, Fault>
    ensures { result ≡ end_of_node ended }
{
    match ended {
        Ok(()) => Ok(true),
        Err(EndFault::Pass(PassFault::Output)) => Ok(false),
        Err(EndFault::Begin(BeginFault::BadConfig)) => Err(Fault::Given(BAD_CONFIG)),
        Err(fault) => Err(Fault::Run(fault.number())),
    }
}
