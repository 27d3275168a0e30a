// What the words of a command line ask for. `clap` takes them, with messages of its own.

use clap::builder::ValueParser;
use clap::error::ErrorKind;
use clap::{Arg, ArgAction, ArgMatches, Command, Error};
use hd_graph::Clusters;
use hd_model::Id;
use hd_model::limits::{BLOCKS, HEAP, MOST_BYTES};
use hd_path::read_id;
use hd_run::{LEAST_HEAP, Limits};
use std::alloc::{AllocError, Global};

// What `--by` may be.
static CLUSTERS: [&str; 2] = ["generation", "region"];

// What is wrong with a word that names no object.
const NO_ID: &str = "an object is named by its caller and its serial, as 0.7";

/// What is to be done.
#[derive(Drop)]
pub(crate) enum Task {
    Why,
    /// The tables of the state before this line of the script, or after the script.
    Show(Option<u32>),
    /// A chain to each of these objects.
    Path(Vec<Id>),
    /// A graph of all objects and handles.
    Graph(Clusters),
    /// A dialogue, line by line.
    Step,
}

/// What the words ask for.
#[derive(Drop)]
pub struct Request {
    pub(crate) task: Task,
    pub(crate) limits: Limits,
}

/// What the words ask for, the program's name first; or `clap`'s error, which has the text of help
/// and of the version too.
pub fn read_request(alloc: Global, words: &[String]) -> Result<Request, Error> {
    let matches = command(alloc)?.try_get_matches_from(words)?;
    let Some((name, found)) = matches.subcommand() else {
        return Err(refusal(alloc, ErrorKind::MissingSubcommand, "a command is wanted")?);
    };
    let task = match name {
        "show" => Task::Show(found.get_one::<u32>("line")),
        "path" => Task::Path(ids_of(alloc, found)?),
        "graph" => Task::Graph(clusters_of(found)),
        "step" => Task::Step,
        _ => Task::Why,
    };
    Ok(Request {
        task,
        limits: limits_of(found),
    })
}

// An error that `clap` did not find, with its usage.
fn refusal(alloc: Global, kind: ErrorKind, message: &str) -> Result<Error, AllocError> {
    let mut refused = command(alloc)?;
    refused.error(kind, message)
}

// By what the objects of a graph are to stand together.
fn clusters_of(matches: &ArgMatches) -> Clusters {
    match matches.get_str("by") {
        Some("generation") => Clusters::Generation,
        Some("region") => Clusters::Region,
        Some(_) | None => Clusters::Nothing,
    }
}

// The objects that are named.
fn ids_of(alloc: Global, matches: &ArgMatches) -> Result<Vec<Id>, Error> {
    let mut ids = Vec::new(alloc);
    let Some(words) = matches.get_strs("id") else {
        return Ok(ids);
    };
    for word in words {
        let Some(id) = read_id(word) else {
            return Err(refusal(alloc, ErrorKind::ValueValidation, NO_ID)?);
        };
        if ids.push(id).is_err() {
            return Err(Error::from(AllocError));
        }
    }
    Ok(ids)
}

// The limits of a run. `clap` refuses more than these.
fn limits_of(matches: &ArgMatches) -> Limits {
    let heap = matches.get_one::<u32>("heap").unwrap_or(HEAP);
    let blocks = matches.get_one::<u32>("blocks").unwrap_or(BLOCKS);
    Limits::new(heap.min(HEAP).max(LEAST_HEAP), blocks.min(BLOCKS).max(1))
}

// The command.
fn command<'a>(alloc: Global) -> Result<Command<'a>, AllocError> {
    let hdv = Command::new(alloc, "hdv")
        .version("0.5.0")
        .about("Shows a run of hdt: reads a script, or an audit's input, from standard input")
        .subcommand_required(true);
    let hdv = with_subcommand(hdv, why_command(alloc))?;
    let hdv = with_subcommand(hdv, show_command(alloc))?;
    with_drawings_and_dialogue(alloc, hdv)
}

// The same with those that draw and the dialogue.
fn with_drawings_and_dialogue<'a>(
    alloc: Global,
    hdv: Command<'a>,
) -> Result<Command<'a>, AllocError> {
    let hdv = with_subcommand(hdv, path_command(alloc))?;
    let hdv = with_subcommand(hdv, graph_command(alloc))?;
    with_subcommand(hdv, step_command(alloc))
}

// A command with one more under it, where there was memory for that one.
fn with_subcommand<'a>(
    command: Command<'a>,
    one: Result<Command<'a>, AllocError>,
) -> Result<Command<'a>, AllocError> {
    command.subcommand(one?)
}

fn why_command<'a>(alloc: Global) -> Result<Command<'a>, AllocError> {
    let why = Command::new(alloc, "why").about("Says why a printed text is that of no run");
    limited(alloc, why)
}

fn show_command<'a>(alloc: Global) -> Result<Command<'a>, AllocError> {
    let line = Arg::new(alloc, "line")
        .value_name("N")
        .help("Stop before line N of the script")
        .value_parser(ValueParser::unsigned(1, u64::from(MOST_BYTES) + 1));
    let show = Command::new(alloc, "show").about(
        "Lists handles, blocks, the heap and the registers after a script",
    );
    limited(alloc, show.arg(line)?)
}

fn path_command<'a>(alloc: Global) -> Result<Command<'a>, AllocError> {
    let ids = Arg::new(alloc, "id")
        .value_name("ID")
        .help("An object, as 0.7: the 7th of caller 0")
        .required(true)
        .action(ArgAction::Append)
        .num_args(1..);
    let path = Command::new(alloc, "path").about(
        "Says for each object by which chain it is reachable after a script",
    );
    limited(alloc, path.arg(ids)?)
}

fn graph_command<'a>(alloc: Global) -> Result<Command<'a>, AllocError> {
    let by = Arg::new(alloc, "by")
        .long("by")
        .help("Draw the objects of a generation or of a region together")
        .value_parser(ValueParser::Names(&CLUSTERS));
    let graph = Command::new(alloc, "graph").about(
        "Draws objects and handles after a script, in the language of Graphviz",
    );
    limited(alloc, graph.arg(by)?)
}

fn step_command<'a>(alloc: Global) -> Result<Command<'a>, AllocError> {
    let step = Command::new(alloc, "step").about(
        "Does each line as it comes, and shows the state by `show`, `path ID` and `slot S`",
    );
    limited(alloc, step)
}

// A command with the limits of a run.
fn limited<'a>(alloc: Global, command: Command<'a>) -> Result<Command<'a>, AllocError> {
    command
        .arg(number(alloc, "heap", "CELLS", LEAST_HEAP, HEAP))?
        .arg(number(alloc, "blocks", "COUNT", 1, BLOCKS))
}

// An option with a whole number from `least` to `most`.
fn number<'a>(alloc: Global, name: &'a str, value: &'a str, least: u32, most: u32) -> Arg<'a> {
    Arg::new(alloc, name)
        .long(name)
        .value_name(value)
        .value_parser(ValueParser::unsigned(u64::from(least), u64::from(most)))
}
