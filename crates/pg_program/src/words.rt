//! What the words of a command line ask for.

ghost use Rattle.std.specs.Prelude.{◌≡◌, false, IfOk, IfErr, codes, map, option_map, string_bytes};
ghost use Rattle.clap.specs.Words.{rule_of, subcommand_rows_of, app_of, new_app, kind_of, found_of};
ghost use Rattle.clap.specs.Words.{rows_of, first_of, one_of, fault_of, subcommand_of, FailsBy};
ghost use Rattle.clap.specs.declared.builder.Command.TheViews.{out-Command};
ghost use Rattle.pg_program.specs.CommandLine.{name_rule, bytes_line, script_line, flag_rule, file_rule, number_rule};
ghost use Rattle.pg_program.specs.CommandLine.{cluster_line, threads_line, names_rule, served_line, serve_line};
ghost use Rattle.pg_program.specs.CommandLine.{explored_line, explore_line, own_rule, text_rule, seat_line, node_line};
ghost use Rattle.pg_program.specs.CommandLine.{top_line, command_line, given_name, given_all, is_flag, names_in, texts_of};
ghost use Rattle.pg_program.specs.CommandLine.{AsksAids, AsksOffer, AsksQuest, AsksSeat, AsksTalk, GivesNumber, AsksFor};

use crate::help::{
    ABOUT, BYTES_ABOUT, CLIENTS_HELP, COMMANDS_HELP, DIAGRAM_HELP, DIFFERING_HELP, EXPLORE_ABOUT,
    EXPLORE_LINES, GRAPH_HELP, JSON_HELP, LABEL_HELP, LIMIT_HELP, LOG_HELP, MADE_HELP,
    MEMBERS_HELP, MIRROR_HELP, NAME_HELP, NODE_ABOUT, NODE_HELP, NODE_LINES, NODES_HELP, OWN_HELP,
    OWN_PORTS_HELP, PEER_HELP, PEERS_HELP, PORTS_HELP, RETRIES_HELP, ROUNDS_HELP, SCRIPT_ABOUT,
    SCRIPT_FORMS, SEED_HELP, SERVE_ABOUT, SERVE_LINES, SHOW_HELP, THREADS_ABOUT, THREADS_LINES,
    TRACE_HELP, TURNS_HELP, VERSION,
};
use clap::builder::ValueParser;
use clap::{Arg, ArgAction, ArgMatches, Command, Error};
use pg_talk::{CLOCK_MARGIN, Conversation};
use std::alloc::{AllocError, Global};

/// What the words ask for.
#[derive(Debug, Drop)]
pub(crate) enum Task<'a> {
    /// The replica of one node, with these names of the node and of its peer.
    Bytes { own: &'a str, peer: &'a str },
    /// A run of a script, with these aids.
    Script(Aids<'a>),
    /// Clients that speak with a cluster.
    Threads(Talk),
    /// A service over a cluster.
    Serve(Offer<'a>),
    /// All runs of a script's commands.
    Explore(Quest<'a>),
    /// One node of a set.
    Node(Seat<'a>),
}

/// How far all runs of a script's commands are explored, and what is told of them.
#[derive(Clone, Copy, Debug)]
pub(crate) struct Quest<'a> {
    /// How often each waiting command is tried again at most.
    pub(crate) retries: u32,
    /// How many worlds are met at most.
    pub(crate) limit: u64,
    /// The end to which a run is shown, from 1 on; 0: none.
    pub(crate) show: u64,
    /// A run is shown in which two nodes differ longest.
    pub(crate) is_differing: bool,
    /// The file that the state graph goes to.
    pub(crate) graph: Option<&'a str>,
}

/// The cluster that a service has, and how much it serves.
#[derive(Debug, Drop)]
pub(crate) struct Offer<'a> {
    pub(crate) nodes: u16,
    pub(crate) ports: u16,
    /// The names of the nodes, where some were given.
    pub(crate) names: Vec<&'a str>,
    /// The file that tells what the nodes know as they start.
    pub(crate) members: Option<&'a str>,
    /// After how many requests the input counts as ended.
    pub(crate) requests: u64,
    pub(crate) seed: u64,
}

/// The seat of a node among its peers.
#[derive(Debug, Drop)]
pub(crate) struct Seat<'a> {
    /// The name of the node.
    pub(crate) own: &'a str,
    /// Those of its peers, in the order of their places.
    pub(crate) peers: Vec<&'a str>,
    pub(crate) ports: u16,
    /// How many processes count as made.
    pub(crate) made: u32,
    /// The file that the log goes to.
    pub(crate) log: Option<&'a str>,
    /// What the log calls the run.
    pub(crate) label: &'a str,
    /// It tells what its table becomes.
    pub(crate) is_mirrored: bool,
}

/// Clients that speak with a cluster, and how it is told.
#[derive(Clone, Copy, Debug)]
pub(crate) struct Talk {
    pub(crate) asked: Conversation,
    /// It is told as one line of JSON.
    pub(crate) is_json: bool,
}

/// What a run of a script gives beside what it prints.
#[derive(Clone, Copy, Debug)]
pub(crate) struct Aids<'a> {
    /// It prints what moved and happened, too.
    pub(crate) is_traced: bool,
    /// The file that a sequence diagram goes to.
    pub(crate) diagram: Option<&'a str>,
}

/// Reads the words, without the name of the program.
///
/// Error: that of `clap`, with its text: refused words, and a request for help; of the kind `OutOfMemory` where there is no memory.
pub(crate) fn read_words<'a>(alloc: Global, words: &'a [String]) -> Result<Task<'a>, Error>
    ensures asked { IfOk result (AsksFor (subcommand_of command_line (map string_bytes words.entry.now))) }
    ensures refused { FailsBy (fault_of command_line (map string_bytes words.entry.now)) result }
{
    let command = command(alloc)?;
    match command.try_get_matches_from(words) {
        Ok(matches) => Ok(task_of(alloc, &matches)?),
        Err(error) => Err(error),
    }
}

/// What the matches ask for.
fn task_of<'a>(alloc: Global, matches: &ArgMatches<'a>) -> Result<Task<'a>, AllocError>
    ensures { IfOk result (AsksFor (subcommand_rows_of matches.now)) }
{
    match matches.subcommand() {
        Some(("bytes", names)) => Ok(Task::Bytes {
            own: name_or(names, "node", "b"),
            peer: name_or(names, "peer", "a"),
        }),
        Some(("threads", given)) => Ok(Task::Threads(talk_of(given))),
        Some(("serve", given)) => match offer_of(alloc, given) {
            Ok(offer) => Ok(Task::Serve(offer)),
            Err(AllocError) => Err(AllocError),
        },
        Some(("explore", given)) => Ok(Task::Explore(quest_of(given))),
        Some(("node", given)) => match seat_of(alloc, given) {
            Ok(seat) => Ok(Task::Node(seat)),
            Err(AllocError) => Err(AllocError),
        },
        Some((_, given)) => Ok(Task::Script(aids_of(given))),
        None => Ok(Task::Script(Aids {
            is_traced: false,
            diagram: None,
        })),
    }
}

/// The service that is asked for.
///
/// Error: `AllocError`.
fn offer_of<'a>(alloc: Global, given: &ArgMatches<'a>) -> Result<Offer<'a>, AllocError>
    ensures { IfOk result (AsksOffer (rows_of (found_of given.now))) }
{
    let names = texts_of(alloc, given, "name")?;
    Ok(Offer {
        nodes: small_number(given, "nodes", 3),
        ports: small_number(given, "ports", 2),
        names,
        members: text_of(given, "members"),
        requests: large_number(given, "commands", 1_000_000),
        seed: large_number(given, "seed", 1),
    })
}

/// The texts of an option, as often as it was given.
///
/// Error: `AllocError`.
fn texts_of<'a>(alloc: Global, given: &ArgMatches<'a>, id: &str) -> Result<Vec<&'a str>, AllocError>
    ensures { IfOk result (λ texts. texts_of texts.items ≡ given_all id.now (rows_of (found_of given.now))) }
{
    match given.get_strs(id) {
        Some(texts) => texts.to_vec(alloc),
        None => Ok(Vec::new(alloc)),
    }
}

/// The seat that a node is asked for.
///
/// Error: `AllocError`.
fn seat_of<'a>(alloc: Global, given: &ArgMatches<'a>) -> Result<Seat<'a>, AllocError>
    ensures { IfOk result (AsksSeat (rows_of (found_of given.now))) }
{
    let peers = names_in(alloc, name_or(given, "peers", ""))?;
    Ok(Seat {
        own: name_or(given, "own", ""),
        peers,
        ports: small_number(given, "ports", 1),
        made: number(given, "made", 0),
        log: text_of(given, "log"),
        label: name_or(given, "label", ""),
        is_mirrored: is_given(given, "mirror"),
    })
}

/// The names between the commas of a text; none where it is empty.
///
/// Error: `AllocError`.
fn names_in<'a>(alloc: Global, text: &'a str) -> Result<Vec<&'a str>, AllocError>
    ensures { IfOk result (λ names. texts_of names.items ≡ names_in text.entry.now) }
{
    if text.is_empty() {
        return Ok(Vec::new(alloc));
    }
    text.split(',').collect(alloc)
}

/// What is asked of an exploration.
fn quest_of<'a>(given: &ArgMatches<'a>) -> Quest<'a>
    ensures { AsksQuest (rows_of (found_of given.now)) result }
{
    Quest {
        retries: number(given, "retries", 1),
        limit: large_number(given, "limit", 1_000_000),
        show: large_number(given, "show", 0),
        is_differing: is_given(given, "differing"),
        graph: text_of(given, "graph"),
    }
}

/// The aids that a run of a script is asked for.
fn aids_of<'a>(given: &ArgMatches<'a>) -> Aids<'a>
    ensures { AsksAids (rows_of (found_of given.now)) result }
{
    Aids {
        is_traced: is_given(given, "trace"),
        diagram: text_of(given, "diagram"),
    }
}

/// Whether a flag was given.
fn is_given(given: &ArgMatches<'_>, id: &str) -> bool
    ensures { result ≡ is_flag id.now (rows_of (found_of given.now)) }
{
    match given.get_str(id) {
        Some(word) => word == "true",
        None => false,
    }
}

/// The text of an option, if it was given.
fn text_of<'a>(given: &ArgMatches<'a>, id: &str) -> Option<&'a str>
    ensures { option_map (λ s. s.now) result ≡ first_of id.now (rows_of (found_of given.now)) }
{
    given.get_str(id)
}

/// The conversation that is asked for, and how it is to be told.
fn talk_of(given: &ArgMatches<'_>) -> Talk
    ensures asked { AsksTalk (rows_of (found_of given.now)) result.asked }
    ensures json { result.is_json ≡ is_flag (codes "json") (rows_of (found_of given.now)) }
{
    Talk {
        asked: conversation_of(given),
        is_json: is_given(given, "json"),
    }
}

/// The conversation that is asked for.
fn conversation_of(given: &ArgMatches<'_>) -> Conversation
    ensures { AsksTalk (rows_of (found_of given.now)) result }
{
    Conversation {
        nodes: small_number(given, "nodes", 3),
        clients: small_number(given, "clients", 2),
        rounds: number(given, "rounds", 50),
        seed: large_number(given, "seed", 1),
        turns: large_number(given, "turns", 100_000_000),
        margin: CLOCK_MARGIN,
    }
}

/// The number of 16 bits that an option gives, or this one.
fn small_number(given: &ArgMatches<'_>, id: &str, default: u16) -> u16
    ensures { GivesNumber 16 default (one_of id.now (rows_of (found_of given.now))) result }
{
    given.get_one(id).unwrap_or(default)
}

/// The number of 32 bits that an option gives, or this one.
fn number(given: &ArgMatches<'_>, id: &str, default: u32) -> u32
    ensures { GivesNumber 32 default (one_of id.now (rows_of (found_of given.now))) result }
{
    given.get_one(id).unwrap_or(default)
}

/// The number of 64 bits that an option gives, or this one.
fn large_number(given: &ArgMatches<'_>, id: &str, default: u64) -> u64
    ensures { GivesNumber 64 default (one_of id.now (rows_of (found_of given.now))) result }
{
    given.get_one(id).unwrap_or(default)
}

/// A name that was given, or this one.
fn name_or<'a>(names: &ArgMatches<'a>, id: &str, default: &'a str) -> &'a str
    ensures { result.now ≡ given_name id.now default.entry.now (rows_of (found_of names.now)) }
{
    match names.get_str(id) {
        Some(name) => name,
        None => default,
    }
}

/// The words that the program knows.
fn command<'a>(alloc: Global) -> Result<Command<'a>, AllocError>
    ensures { IfOk result (λ command. app_of command ≡ command_line) }
{
    let command = top_command(alloc)?;
    let bytes = bytes_command(alloc)?;
    let command = command.subcommand(bytes)?;
    let script = script_command(alloc)?;
    let command = command.subcommand(script)?;
    let threads = threads_command(alloc)?;
    let command = command.subcommand(threads)?;
    let serve = serve_command(alloc)?;
    let command = command.subcommand(serve)?;
    let explore = explore_command(alloc)?;
    let command = command.subcommand(explore)?;
    let node = node_command(alloc)?;
    command.subcommand(node)
}

/// The program, without its commands.
fn top_command<'a>(alloc: Global) -> Result<Command<'a>, AllocError>
    ensures { IfOk result (λ command. app_of command ≡ top_line) }
{
    Command::new(alloc, "pg2sim")
        .about(ABOUT)
        .version(VERSION)
        .no_binary_name(true)
        .subcommand_required(true)
        .disable_help_subcommand(true)
        .bin_name("pg2sim")
}

fn bytes_command<'a>(alloc: Global) -> Result<Command<'a>, AllocError>
    ensures app { IfOk result (λ command. app_of command ≡ bytes_line) }
    ensures local { IfOk result (λ command. (out-Command command).has_globals ≡ false) }
{
    let command = new_command(alloc, "bytes", BYTES_ABOUT);
    let command = command.arg(name_option(alloc, "node", "b", NODE_HELP))?;
    command.arg(name_option(alloc, "peer", "a", PEER_HELP))
}

/// A command, without its options.
fn new_command<'a>(alloc: Global, name: &'a str, about: &'a str) -> Command<'a>
    ensures app { app_of result ≡ new_app name.entry.now }
    ensures local { (out-Command result).has_globals ≡ false }
{
    Command::new(alloc, name).about(about)
}

/// An option that gives a name.
fn name_option<'a>(alloc: Global, id: &'a str, default: &'a str, help: &'a str) -> Arg<'a>
    ensures rule { rule_of result ≡ name_rule id.entry.now default.entry.now }
    ensures plain { result.global ≡ false }
{
    Arg::new(alloc, id)
        .long(id)
        .value_name("NAME")
        .default_value(default)
        .help(help)
}

fn script_command<'a>(alloc: Global) -> Result<Command<'a>, AllocError>
    ensures app { IfOk result (λ command. app_of command ≡ script_line) }
    ensures local { IfOk result (λ command. (out-Command command).has_globals ≡ false) }
{
    let command = new_command(alloc, "script", SCRIPT_ABOUT);
    let command = command.arg(flag(alloc, "trace", TRACE_HELP))?;
    let command = command.after_help(SCRIPT_FORMS);
    command.arg(file_option(alloc, "diagram", DIAGRAM_HELP))
}

/// A flag.
fn flag<'a>(alloc: Global, id: &'a str, help: &'a str) -> Arg<'a>
    ensures rule { rule_of result ≡ flag_rule id.entry.now }
    ensures plain { result.global ≡ false }
{
    Arg::new(alloc, id)
        .long(id)
        .action(ArgAction::SetTrue)
        .help(help)
}

/// An option that gives a file.
fn file_option<'a>(alloc: Global, id: &'a str, help: &'a str) -> Arg<'a>
    ensures rule { rule_of result ≡ file_rule id.entry.now }
    ensures plain { result.global ≡ false }
{
    Arg::new(alloc, id).long(id).value_name("FILE").help(help)
}

fn explore_command<'a>(alloc: Global) -> Result<Command<'a>, AllocError>
    ensures app { IfOk result (λ command. app_of command ≡ explore_line) }
    ensures local { IfOk result (λ command. (out-Command command).has_globals ≡ false) }
{
    let command = explored_command(alloc)?;
    let command = command.arg(flag(alloc, "differing", DIFFERING_HELP))?;
    let command = command.after_help(EXPLORE_LINES);
    command.arg(file_option(alloc, "graph", GRAPH_HELP))
}

/// The command `explore` with its numbers alone.
fn explored_command<'a>(alloc: Global) -> Result<Command<'a>, AllocError>
    ensures app { IfOk result (λ command. app_of command ≡ explored_line) }
    ensures local { IfOk result (λ command. (out-Command command).has_globals ≡ false) }
{
    let command = new_command(alloc, "explore", EXPLORE_ABOUT);
    let command = command.arg(number_option(alloc, "retries", "1", 0, 1000, RETRIES_HELP))?;
    let command = command.arg(number_option(alloc, "limit", "1000000", 1, u64::MAX, LIMIT_HELP))?;
    command.arg(number_option(alloc, "show", "0", 0, u64::MAX, SHOW_HELP))
}

fn threads_command<'a>(alloc: Global) -> Result<Command<'a>, AllocError>
    ensures app { IfOk result (λ command. app_of command ≡ threads_line) }
    ensures local { IfOk result (λ command. (out-Command command).has_globals ≡ false) }
{
    let command = cluster_command(alloc)?;
    let command = command.arg(number_option(alloc, "seed", "1", 0, u64::MAX, SEED_HELP))?;
    let command = command.arg(number_option(alloc, "turns", "100000000", 0, u64::MAX, TURNS_HELP))?;
    let command = command.after_help(THREADS_LINES);
    command.arg(flag(alloc, "json", JSON_HELP))
}

/// The command `threads` with the options of the cluster and its clients alone.
fn cluster_command<'a>(alloc: Global) -> Result<Command<'a>, AllocError>
    ensures app { IfOk result (λ command. app_of command ≡ cluster_line) }
    ensures local { IfOk result (λ command. (out-Command command).has_globals ≡ false) }
{
    let command = new_command(alloc, "threads", THREADS_ABOUT);
    let command = command.arg(number_option(alloc, "nodes", "3", 1, 16, NODES_HELP))?;
    let command = command.arg(number_option(alloc, "clients", "2", 1, 16, CLIENTS_HELP))?;
    command.arg(number_option(alloc, "rounds", "50", 0, 1000, ROUNDS_HELP))
}

fn serve_command<'a>(alloc: Global) -> Result<Command<'a>, AllocError>
    ensures app { IfOk result (λ command. app_of command ≡ serve_line) }
    ensures local { IfOk result (λ command. (out-Command command).has_globals ≡ false) }
{
    let command = served_command(alloc)?;
    let command = command.arg(number_option(
        alloc,
        "commands",
        "1000000",
        0,
        u64::MAX,
        COMMANDS_HELP,
    ))?;
    let command = command.after_help(SERVE_LINES);
    command.arg(number_option(alloc, "seed", "1", 0, u64::MAX, SEED_HELP))
}

/// The command `serve` with the options of its cluster alone.
fn served_command<'a>(alloc: Global) -> Result<Command<'a>, AllocError>
    ensures app { IfOk result (λ command. app_of command ≡ served_line) }
    ensures local { IfOk result (λ command. (out-Command command).has_globals ≡ false) }
{
    let command = new_command(alloc, "serve", SERVE_ABOUT);
    let command = command.arg(number_option(alloc, "nodes", "3", 1, 16, NODES_HELP))?;
    let command = command.arg(number_option(alloc, "ports", "2", 1, 64, PORTS_HELP))?;
    let command = command.arg(names_option(alloc))?;
    command.arg(file_option(alloc, "members", MEMBERS_HELP))
}

fn node_command<'a>(alloc: Global) -> Result<Command<'a>, AllocError>
    ensures app { IfOk result (λ command. app_of command ≡ node_line) }
    ensures local { IfOk result (λ command. (out-Command command).has_globals ≡ false) }
{
    let command = seat_command(alloc)?;
    let command = command.arg(number_option(alloc, "made", "0", 0, 4_294_967_295, MADE_HELP))?;
    let command = command.arg(file_option(alloc, "log", LOG_HELP))?;
    let command = command.arg(text_option(alloc, "label", "TEXT", LABEL_HELP))?;
    let command = command.after_help(NODE_LINES);
    command.arg(flag(alloc, "mirror", MIRROR_HELP))
}

/// The command `node` with its names and ports alone.
fn seat_command<'a>(alloc: Global) -> Result<Command<'a>, AllocError>
    ensures app { IfOk result (λ command. app_of command ≡ seat_line) }
    ensures local { IfOk result (λ command. (out-Command command).has_globals ≡ false) }
{
    let command = new_command(alloc, "node", NODE_ABOUT);
    let command = command.arg(own_option(alloc))?;
    let command = command.arg(text_option(alloc, "peers", "NAME,NAME,..", PEERS_HELP))?;
    command.arg(number_option(alloc, "ports", "1", 0, 65_535, OWN_PORTS_HELP))
}

/// The option that names the node itself, which has to be given.
fn own_option<'a>(alloc: Global) -> Arg<'a>
    ensures rule { rule_of result ≡ own_rule }
    ensures plain { result.global ≡ false }
{
    Arg::new(alloc, "own")
        .long("own")
        .value_name("NAME")
        .required(true)
        .help(OWN_HELP)
}

/// An option that gives a text.
fn text_option<'a>(alloc: Global, id: &'a str, value: &'a str, help: &'a str) -> Arg<'a>
    ensures rule { rule_of result ≡ text_rule id.entry.now }
    ensures plain { result.global ≡ false }
{
    Arg::new(alloc, id).long(id).value_name(value).help(help)
}

/// The option that names a node, as often as there are nodes.
fn names_option<'a>(alloc: Global) -> Arg<'a>
    ensures rule { rule_of result ≡ names_rule }
    ensures plain { result.global ≡ false }
{
    Arg::new(alloc, "name")
        .long("name")
        .value_name("NAME")
        .action(ArgAction::Append)
        .help(NAME_HELP)
}

/// An option that gives a number within bounds.
fn number_option<'a>(
    alloc: Global,
    id: &'a str,
    default: &'a str,
    least: u64,
    most: u64,
    help: &'a str,
) -> Arg<'a>
    ensures rule { rule_of result ≡ number_rule id.entry.now default.entry.now least most }
    ensures plain { result.global ≡ false }
{
    Arg::new(alloc, id)
        .long(id)
        .value_name("N")
        .default_value(default)
        .value_parser(ValueParser::Unsigned(least, most))
        .help(help)
}
