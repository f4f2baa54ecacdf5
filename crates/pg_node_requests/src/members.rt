//! What each node of a service knows as it starts.

ghost use Rattle.std.specs.Prelude.{◌≡◌, ◌<◌, Some, None, IfOk, IfErr, IfSome, length, map, cond};
ghost use Rattle.std.specs.Option.{option_and_then, option_map};
ghost use Rattle.std.specs.Str.{chars};
ghost use Rattle.pg_step.specs.PgMessageTypes.Parts.{atom_of, items_of, pid_of};
ghost use Rattle.pg_step.specs.PgMessageTypes.Reading.{read_each};
ghost use Rattle.pg_node_requests.specs.Members.{AreNumbered, bare, group_in, group_of, groups_of, is_bare};
ghost use Rattle.pg_node_requests.specs.Members.{node_name as name_by, node_in, node_of, pids_of, place_among};
ghost use Rattle.pg_node_requests.specs.Members.{put_at, put_told, starting, starts_by, starts_said, told_all};
ghost use Rattle.pg_text.specs.declared.fault.TextFault.TheVariants.{BadText};

use crate::parts::{elements, items, name_of, number, pid, three, two};
use pg_step::Start;
use pg_term::{Atom, Items, Pid, Term};
use pg_text::{TextFault, read_term};
use std::alloc::{AllocError, Global};
use std::mem;

/// The names `n1`, `n2` and so on, as many as `count` says.
///
/// Errors: `AllocError`.
///
/// Cost: memory for each.
pub fn node_names(alloc: Global, count: u16) -> Result<Vec<Atom>, AllocError>
    ensures count { IfOk result (λ names. length names.items ≡ count) }
    ensures names { IfOk result (λ names. AreNumbered names.items) }
{
    let mut names = Vec::with_capacity(alloc, usize::from(count))?;
    for place in 0..count {
        names.push(node_name(alloc, u32::from(place) + 1)?)?;
    }
    Ok(names)
}

/// The name of the node of a number: `n1` of 1.
///
/// Errors: `AllocError`.
///
/// Cost: memory for its text.
pub fn node_name(alloc: Global, number: u32) -> Result<Atom, AllocError>
    ensures { IfOk result (λ name. name ≡ name_by number) }
{
    let text = format!(in alloc; "n{number}")?;
    match Atom::new(alloc, text.as_str()) {
        Ok(name) => Ok(name),
        Err(_) => Err(AllocError),
    }
}

/// The nodes with these names as they start, each with so many ports. `members`: what they know then, by the text of
/// one term, a list of `{Node, Made, [{Name, [Pid, ..]}, ..]}`, in which no node comes twice. A node that does not
/// come there made no process and knows no group.
///
/// Errors: `BadText` exactly where it is no such text; else `OutOfMemory`.
///
/// Cost: that of reading the text, and of a copy of each name.
pub fn starts_of(
    alloc: Global,
    names: &[Atom],
    ports: u16,
    members: &str,
) -> Result<Vec<Start>, TextFault>
    ensures ok { IfOk result (λ starts. starts_said names.now ports (chars members.now) ≡ Some starts.items) }
    ensures bad { IfErr result (λ fault. fault ≡ BadText → starts_said names.now ports (chars members.now) ≡ None) }
{
    match read_term(alloc, members) {
        Ok(term) => starts_told(alloc, names, ports, term),
        Err(fault) => Err(fault),
    }
}

/// The same by that term.
fn starts_told(
    alloc: Global,
    names: &[Atom],
    ports: u16,
    term: Term,
) -> Result<Vec<Start>, TextFault>
    ensures ok { IfOk result (λ starts. starts_by names.now ports term ≡ Some starts.items) }
    ensures bad { IfErr result (λ fault. fault ≡ BadText → starts_by names.now ports term ≡ None) }
{
    match starts_by(alloc, names, ports, term) {
        Ok(Some(starts)) => Ok(starts),
        Ok(None) => Err(TextFault::BadText),
        Err(AllocError) => Err(TextFault::OutOfMemory),
    }
}

/// The nodes with these names, by that term.
fn starts_by(
    alloc: Global,
    names: &[Atom],
    ports: u16,
    term: Term,
) -> Result<Option<Vec<Start>>, AllocError>
    ensures { IfOk result (λ starts. option_map (λ v. v.items) starts ≡ starts_by names.now ports term) }
{
    let Some(terms) = items(term) else {
        return Ok(None);
    };
    match bare_starts(alloc, names, ports) {
        Ok(starts) => tell_all(alloc, starts, ports, terms),
        Err(AllocError) => {
            drop(terms);
            Err(AllocError)
        }
    }
}

/// Nodes of which nothing is known.
fn bare_starts(alloc: Global, names: &[Atom], ports: u16) -> Result<Vec<Start>, AllocError>
    ensures { IfOk result (λ starts. starts.items ≡ map (bare ports) names.now) }
{
    let mut starts = Vec::with_capacity(alloc, names.len())?;
    for name in names {
        let name = name.copy()?;
        starts.push(Start {
            name,
            made: 0,
            ports,
            groups: Items::from_vec(Vec::new(alloc)),
        })?;
    }
    Ok(starts)
}

/// All that terms say of these nodes, one after another; none where one is of a node that is not there, or of which
/// another was before.
fn tell_all(
    alloc: Global,
    starts: Vec<Start>,
    ports: u16,
    terms: Vec<Term>,
) -> Result<Option<Vec<Start>>, AllocError>
    ensures { IfOk result (λ told. option_map (λ v. v.items) told ≡ told_all ports starts.items terms.items) }
{
    let mut starts = starts;
    let mut rest = terms;
    rest.reverse();
    while let Some(term) = rest.pop() {
        let Some(told) = node(alloc, term, ports)? else {
            return Ok(None);
        };
        if !put(&mut starts, told) {
            return Ok(None);
        }
    }
    Ok(Some(starts))
}

/// What is said takes the place of the node of its name, of which nothing was said; whether there is one.
fn put(starts: &mut Vec<Start>, told: Start) -> bool
    ensures { cond result (Some starts.new.items) None ≡ put_told starts.old.items told }
{
    match place_among(&told.name, starts.as_slice()) {
        Some(place) => put_at(starts, told, place),
        None => {
            drop(told);
            false
        }
    }
}

/// The same of the node at this place.
fn put_at(starts: &mut Vec<Start>, told: Start, place: usize) -> bool
    requires { place < length starts.old.items }
    ensures { cond result (Some starts.new.items) None ≡ put_at starts.old.items told place }
{
    if !is_bare(&starts[place]) {
        drop(told);
        return false;
    }
    drop(mem::replace(&mut starts[place], told));
    true
}

/// Whether nothing is said of a node.
fn is_bare(start: &Start) -> bool
    ensures { result ≡ is_bare start.now }
{
    start.made == 0 && start.groups.len() == 0
}

/// The place of the node of this name.
fn place_among(name: &Atom, starts: &[Start]) -> Option<usize>
    ensures place { result ≡ place_among name.now starts.now }
    ensures within { IfSome result (λ place. place < length starts.now) }
{
    for place in 0..starts.len() {
        if *name == starts[place].name {
            return Some(place);
        }
    }
    None
}

/// The node that a term `{Node, Made, [{Name, [Pid, ..]}, ..]}` is of.
fn node(alloc: Global, term: Term, ports: u16) -> Result<Option<Start>, AllocError>
    ensures { IfOk result (λ told. told ≡ node_of ports term) }
{
    match elements(term) {
        Ok(parts) => node_in(alloc, parts, ports),
        Err(other) => {
            drop(other);
            Ok(None)
        }
    }
}

/// The same of the parts of that term.
fn node_in(alloc: Global, parts: Vec<Term>, ports: u16) -> Result<Option<Start>, AllocError>
    ensures { IfOk result (λ told. told ≡ node_in ports parts.items) }
{
    if parts.len() != 3 {
        drop(parts);
        return Ok(None);
    }
    let (name, made, groups) = three(parts);
    let told = number(&made);
    drop(made);
    match groups_of(alloc, groups) {
        Ok(groups) => Ok(starting(ports, name_of(name), told, groups)),
        Err(AllocError) => {
            drop(name);
            Err(AllocError)
        }
    }
}

/// A node by its name, how many processes it made, and its groups, if all are there.
fn starting(
    ports: u16,
    name: Option<Atom>,
    made: Option<u32>,
    groups: Option<Items<(Term, Items<Pid>)>>,
) -> Option<Start>
    ensures { result ≡ starting ports name made groups }
{
    let Some(name) = name else {
        drop(groups);
        return None;
    };
    let Some(made) = made else {
        drop(name);
        drop(groups);
        return None;
    };
    match groups {
        Some(groups) => Some(Start {
            name,
            made,
            ports,
            groups,
        }),
        None => {
            drop(name);
            None
        }
    }
}

/// The groups that a term `[{Name, [Pid, ..]}, ..]` lists, if it does.
///
/// Errors: `AllocError`.
///
/// Cost: memory for the groups and their members; the names are moved.
pub fn groups_of(alloc: Global, term: Term) -> Result<Option<Items<(Term, Items<Pid>)>>, AllocError>
    ensures { IfOk result (λ groups. groups ≡ groups_of term) }
{
    let Some(terms) = items(term) else {
        return Ok(None);
    };
    let Some(groups) = all_groups(alloc, terms)? else {
        return Ok(None);
    };
    Ok(Some(Items::from_vec(groups)))
}

fn all_groups(
    alloc: Global,
    terms: Vec<Term>,
) -> Result<Option<Vec<(Term, Items<Pid>)>>, AllocError>
    ensures { IfOk result (λ groups. option_map (λ v. v.items) groups ≡ read_each group_of terms.items) }
{
    let mut rest = terms;
    rest.reverse();
    let mut groups = Vec::with_capacity(alloc, rest.len())?;
    while let Some(term) = rest.pop() {
        let Some(group) = group(alloc, term)? else {
            return Ok(None);
        };
        groups.push(group)?;
    }
    Ok(Some(groups))
}

/// The group that a term `{Name, [Pid, ..]}` is of.
fn group(alloc: Global, term: Term) -> Result<Option<(Term, Items<Pid>)>, AllocError>
    ensures { IfOk result (λ group. group ≡ group_of term) }
{
    match elements(term) {
        Ok(parts) => group_in(alloc, parts),
        Err(other) => {
            drop(other);
            Ok(None)
        }
    }
}

/// The same of the parts of that term.
fn group_in(alloc: Global, parts: Vec<Term>) -> Result<Option<(Term, Items<Pid>)>, AllocError>
    ensures { IfOk result (λ group. group ≡ group_in parts.items) }
{
    if parts.len() != 2 {
        drop(parts);
        return Ok(None);
    }
    let (name, members) = two(parts);
    match pids_of(alloc, members) {
        Ok(Some(members)) => Ok(Some((name, members))),
        Ok(None) => {
            drop(name);
            Ok(None)
        }
        Err(AllocError) => {
            drop(name);
            Err(AllocError)
        }
    }
}

/// The pids that a term `[Pid, ..]` lists.
fn pids_of(alloc: Global, term: Term) -> Result<Option<Items<Pid>>, AllocError>
    ensures { IfOk result (λ pids. pids ≡ pids_of term) }
{
    let Some(terms) = items(term) else {
        return Ok(None);
    };
    let Some(pids) = all_pids(alloc, terms)? else {
        return Ok(None);
    };
    Ok(Some(Items::from_vec(pids)))
}

fn all_pids(alloc: Global, terms: Vec<Term>) -> Result<Option<Vec<Pid>>, AllocError>
    ensures { IfOk result (λ pids. option_map (λ v. v.items) pids ≡ read_each pid_of terms.items) }
{
    let mut rest = terms;
    rest.reverse();
    let mut pids = Vec::with_capacity(alloc, rest.len())?;
    while let Some(term) = rest.pop() {
        let Some(pid) = pid(term) else {
            return Ok(None);
        };
        pids.push(pid)?;
    }
    Ok(Some(pids))
}
