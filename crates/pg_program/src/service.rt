//! `pg2sim serve`.

ghost use Rattle.std.specs.Prelude.{◌≡◌, [], false, IfOk, IfErr, chars, map};
ghost use Rattle.std.specs.List.{list_any};
ghost use Rattle.pg_node_requests.specs.Members.{starts_said};
ghost use Rattle.pg_program.specs.CommandLine.{texts_of};
ghost use Rattle.pg_program.specs.Services.{Asks, CantSpell, FileTells, MembersTell, NamesEnd, OfferGives, ServiceBy};
ghost use Rattle.pg_program.specs.Services.{ServiceEnds, StartsBy, is_too_long, service_fault_of, starts_in, verdict_lines};
ghost use Rattle.pg_program.specs.Told.{WritesOut};

use crate::fault::Fault;
use crate::input::text_of;
use crate::system::System;
use crate::words::Offer;
use pg_cluster::{Config, StartFault, WorldFault};
use pg_script::{RunFault, put_whole};
use pg_streams::Sink;
use pg_talk::{
    CLOCK_MARGIN, CLOCK_WAIT, Served, Service, ServiceFault, Verdict, config_of, node_names,
};
use pg_term::faults::{BAD_ATOM, BAD_CONFIG, BAD_LINE, OUT_OF_MEMORY, READ_FAULT};
use pg_term::{Atom, TermFault};
use std::alloc::Global;

/// No node made a process or knows a group.
const NO_MEMBERS: &[u8] = b"[]";

/// Serves requests from the system's input, and writes the replies; how it went.
pub(crate) fn serve<W: Sink, D: System>(
    alloc: Global,
    offer: &Offer<'_>,
    writer: &mut W,
    system: &mut D,
) -> Result<Served, Fault>
    ensures { ServiceEnds D.got D.unread D.served offer.now system.old system.new (writer.new ≡ writer.old) (W.contents writer.old) (W.contents writer.new) result }
{
    match service_of(alloc, offer, system) {
        Ok(service) => ask(service, writer, system),
        Err(fault) => Err(fault),
    }
}

/// Asks the system for a service; how it went.
fn ask<W: Sink, D: System>(
    service: Service,
    writer: &mut W,
    system: &mut D,
) -> Result<Served, Fault>
    ensures { Asks D.served system.old system.new service (W.contents writer.old) (W.contents writer.new) result }
{
    match system.serve(service, writer) {
        Ok(served) => Ok(served),
        Err(fault) => Err(service_fault(fault)),
    }
}

/// The service that is offered.
fn service_of<D: System>(alloc: Global, offer: &Offer<'_>, system: &mut D) -> Result<Service, Fault>
    ensures { OfferGives D.got D.unread offer.now system.old system.new result }
{
    match atoms_of(alloc, offer.nodes, offer.names.as_slice()) {
        Ok(names) => {
            let service = service_by(alloc, offer, names.as_slice(), system);
            drop(names);
            service
        }
        Err(fault) => Err(fault),
    }
}

/// The service that is offered, over nodes with these names.
fn service_by<D: System>(
    alloc: Global,
    offer: &Offer<'_>,
    names: &[Atom],
    system: &mut D,
) -> Result<Service, Fault>
    ensures { ServiceBy D.got D.unread offer.now names.now system.old system.new result }
{
    match config_by(alloc, names, offer.ports, offer.members, system) {
        Ok(config) => Ok(Service {
            config,
            requests: offer.requests,
            seed: offer.seed,
            margin: CLOCK_MARGIN,
            wait: CLOCK_WAIT,
        }),
        Err(fault) => Err(fault),
    }
}

/// The names that are given, as many as there are nodes, or those of nodes that are given none.
fn atoms_of(alloc: Global, nodes: u16, names: &[&str]) -> Result<Vec<Atom>, Fault>
    ensures { NamesEnd nodes (texts_of names.now) result }
{
    if names.len() == 0 {
        return numbered(alloc, nodes);
    }
    if names.len() != usize::from(nodes) {
        return Err(Fault::Given(BAD_CONFIG));
    }
    atoms_in(alloc, names)
}

/// The names of so many nodes that are given none.
fn numbered(alloc: Global, nodes: u16) -> Result<Vec<Atom>, Fault>
    ensures { NamesEnd nodes [] result }
{
    match node_names(alloc, nodes) {
        Ok(names) => Ok(names),
        Err(_) => Err(Fault::Run(OUT_OF_MEMORY)),
    }
}

/// The names that texts are.
pub(crate) fn atoms_in(alloc: Global, names: &[&str]) -> Result<Vec<Atom>, Fault>
    ensures names { IfOk result (λ atoms. atoms.items ≡ map (λ name. chars name.now) names.now) }
    ensures short { IfOk result (λ atoms. list_any (λ name. is_too_long name.now) names.now ≡ false) }
    ensures fault { IfErr result (CantSpell (list_any (λ name. is_too_long name.now) names.now)) }
{
    let mut atoms = Vec::new(alloc);
    for name in names {
        match atom_of(alloc, name) {
            Ok(atom) => {
                if atoms.push(atom).is_err() {
                    return Err(Fault::Run(OUT_OF_MEMORY));
                }
            }
            Err(fault) => return Err(fault),
        }
    }
    Ok(atoms)
}

/// The name that a text is.
pub(crate) fn atom_of(alloc: Global, text: &str) -> Result<Atom, Fault>
    ensures name { IfOk result (λ name. name ≡ chars text.now) }
    ensures short { IfOk result (λ name. is_too_long text.now ≡ false) }
    ensures fault { IfErr result (CantSpell (is_too_long text.now)) }
{
    match Atom::new(alloc, text) {
        Ok(atom) => Ok(atom),
        Err(TermFault::BadAtom) => Err(Fault::Given(BAD_ATOM)),
        Err(_) => Err(Fault::Run(OUT_OF_MEMORY)),
    }
}

/// The configuration of these nodes, by the file of what they know as they start, if one is given.
fn config_by<D: System>(
    alloc: Global,
    names: &[Atom],
    ports: u16,
    members: Option<&str>,
    system: &mut D,
) -> Result<Config, Fault>
    ensures { MembersTell D.got D.unread system.old system.new members.entry names.now ports result }
{
    match members {
        Some(file) => config_from(alloc, names, ports, file, system),
        None => config_told(alloc, names, ports, NO_MEMBERS),
    }
}

/// The configuration of these nodes, by that file.
fn config_from<D: System>(
    alloc: Global,
    names: &[Atom],
    ports: u16,
    file: &str,
    system: &mut D,
) -> Result<Config, Fault>
    ensures { FileTells D.got D.unread system.old system.new file.now names.now ports result }
{
    match system.get(file) {
        Ok(bytes) => {
            let config = config_told(alloc, names, ports, bytes.as_slice());
            drop(bytes);
            config
        }
        Err(_) => Err(Fault::Run(READ_FAULT)),
    }
}

/// The configuration of these nodes, by the bytes of that file.
fn config_told(alloc: Global, names: &[Atom], ports: u16, bytes: &[u8]) -> Result<Config, Fault>
    ensures { StartsBy (starts_in names.now ports bytes.now) result }
{
    match text_of(bytes) {
        Ok(text) => config_in(alloc, names, ports, text.trim()),
        Err(fault) => Err(fault),
    }
}

/// The configuration of these nodes, by the text of what they know as they start.
fn config_in(alloc: Global, names: &[Atom], ports: u16, text: &str) -> Result<Config, Fault>
    ensures { StartsBy (starts_said names.now ports (chars text.now)) result }
{
    match config_of(alloc, names, ports, text) {
        Ok(config) => Ok(config),
        Err(ServiceFault::BadText) => Err(Fault::Given(BAD_LINE)),
        Err(_) => Err(Fault::Run(OUT_OF_MEMORY)),
    }
}

/// How a service that did not come to its end is told.
fn service_fault(fault: ServiceFault) -> Fault
    ensures { result ≡ service_fault_of fault }
{
    match fault {
        ServiceFault::Start(StartFault::World(WorldFault::OutOfMemory)) => {
            Fault::Run(OUT_OF_MEMORY)
        }
        ServiceFault::Start(StartFault::World(fault)) => Fault::Given(fault.number()),
        ServiceFault::BadText => Fault::Given(fault.number()),
        _ => Fault::Run(fault.number()),
    }
}

/// Writes the two lines of a verdict.
pub(crate) fn print_verdict<F: Sink>(faults: &mut F, verdict: Verdict) -> Result<(), RunFault>
    ensures { WritesOut F.fails (F.contents faults.old) (F.contents faults.new) faults.new (verdict_lines verdict) result }
{
    put_whole(faults, verdict_text(verdict).as_bytes())
}

/// The two lines of a verdict.
fn verdict_text(verdict: Verdict) -> &'static str
    ensures { result.now ≡ verdict_lines verdict }
{
    match (verdict.agree, verdict.replay) {
        (true, true) => "agree yes\nreplay yes\n",
        (true, false) => "agree yes\nreplay no\n",
        (false, true) => "agree no\nreplay yes\n",
        (false, false) => "agree no\nreplay no\n",
    }
}
