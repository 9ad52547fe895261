//! The command line.
ghost use Rattle.std.specs.Prelude.{◌≡◌, unwrap_or};

use clap::error::ErrorKind;
use clap::{Arg, ArgAction, ArgMatches, Command, Error, value_parser};
use st_disk::image_files::Place;
use st_journal::redoing::replaying::Until;
use st_script::keepers::JournalSettings;
use st_script::settings::ScriptSettings;
use std::alloc::{AllocError, Global};

/// What `--version` prints behind the program's name.
const VERSION: &str = "0.1 (proved)";

/// The same of a look: a program that was made of the same sources without proofs.
const VERSION_OF_LOOK: &str = "0.1 (a look, made without proofs)";

/// With this ends the name of a look's file.
const LOOK: &str = "-look";

/// How the image of a run is kept.
#[derive(Clone, Copy)]
pub struct Keeping<'a> {
    /// Where, if it is kept in a file.
    pub image: Option<Place<'a>>,
    /// How the image's journal is kept, if there is one. The pause is from 0 to 60,000, and the other number from 1 to 65,536.
    pub journal: Option<JournalSettings>,
}

impl<'a> Keeping<'a> {
    const NOWHERE: Keeping<'static> = Keeping {
        image: None,
        journal: None,
    };
}

/// No journal has more lines.
const MOST_LINES: i64 = 1 << 48;

/// The options of a script.
#[derive(Clone, Copy)]
pub struct ScriptOptions<'a> {
    quantum: Option<u32>,
    capacity: Option<u32>,
    pub keeping: Keeping<'a>,
}

impl<'a> ScriptOptions<'a> {
    const NONE: ScriptOptions<'static> = ScriptOptions {
        quantum: None,
        capacity: None,
        keeping: Keeping::NOWHERE,
    };

    /// The settings of the script, for a program that began at `start`, in nanoseconds since 1970. Options that were not given have their
    /// defaults, and the history always has.
    pub fn settings(self, start: u64) -> ScriptSettings
        ensures { result ≡ record { quantum = unwrap_or self.entry.quantum 256; capacity = unwrap_or self.entry.capacity 64; history = 1000000; start = start } }
    {
        let default = ScriptSettings::DEFAULT;
        ScriptSettings {
            quantum: self.quantum.unwrap_or(default.quantum),
            capacity: self.capacity.unwrap_or(default.capacity),
            history: default.history,
            start,
        }
    }
}

/// How the journal of a script is kept: each reply is passed on behind what it tells, and only the commands save.
const JOURNAL_OF_SCRIPT: JournalSettings = JournalSettings {
    pause: 0,
    save_after: u32::MAX,
};

/// The options of a server.
#[derive(Clone, Copy)]
pub struct ServeOptions<'a> {
    /// The path of the socket.
    pub socket: &'a str,
    /// From 1 to 16.
    pub workers: u32,
    /// The number of sessions after which the server ends, from 1 to 1,000,000, if it is to end.
    pub sessions: Option<u32>,
    pub keeping: Keeping<'a>,
    /// Whether standard error says what is served, and which sessions end badly.
    pub is_verbose: bool,
}

/// The options of a replay.
#[derive(Clone, Copy)]
pub struct ReplayOptions<'a> {
    /// The path of the image's file.
    pub file: &'a str,
    /// The path of the journal, if it is not the one beside the file.
    pub journal: Option<&'a str>,
    /// How much of the journal is done again.
    pub until: Until,
    /// Where the image is kept to which that leads. Nothing may be there.
    pub image: &'a str,
}

/// What a command line asks for.
#[derive(Clone, Copy)]
pub enum Request<'a> {
    Script(ScriptOptions<'a>),
    Serve(ServeOptions<'a>),
    Replay(ReplayOptions<'a>),
    /// Describe the image file at this path.
    Check(&'a str),
}

/// An option with a value.
fn option<'a>(alloc: Global, name: &'a str, value: &'a str, help: &'a str) -> Arg<'a> {
    Arg::new(alloc, name)
        .long(name)
        .value_name(value)
        .help(help)
}

/// An option without a value.
fn flag<'a>(alloc: Global, name: &'a str, help: &'a str) -> Arg<'a> {
    Arg::new(alloc, name)
        .long(name)
        .action(ArgAction::SetTrue)
        .help(help)
}

/// The option by which the image's file has to be there.
fn must_exist<'a>(alloc: Global) -> Result<Arg<'a>, AllocError> {
    flag(
        alloc,
        "must-exist",
        "Refuses an image file that is not there",
    )
    .requires_arg("image")
}

/// An option whose value is a number from 1 to the given one.
fn number_option<'a>(
    alloc: Global,
    name: &'a str,
    value: &'a str,
    help: &'a str,
    most: i64,
) -> Arg<'a> {
    option(alloc, name, value, help).value_parser(value_parser!(u32).range(1..=most))
}

fn script_command<'a>(alloc: Global) -> Result<Command<'a>, AllocError> {
    let image =
        "Keeps the image in a file: begins with it where it is there, and saves to it at each save and when the input has ended";
    let quantum = "Steps of a quantum, 1 to 1024 [default: 256]";
    let capacity = "Messages that a new actor's mailbox holds, 1 to 1024 [default: 64]";
    let journal =
        "Keeps a journal beside the image's file, from which what has happened is done again after a crash; each reply is passed on behind what it tells";
    Command::new(alloc, "script")
        .about("Runs the commands on standard input and writes a reply to each")
        .arg(option(alloc, "image", "FILE", image))?
        .arg(must_exist(alloc)?)?
        .arg(
            flag(alloc, "journal", journal)
                .requires_arg("image")?
                .conflicts_with("capacity")?,
        )?
        .arg(number_option(alloc, "quantum", "N", quantum, 1024))?
        .arg(number_option(alloc, "capacity", "N", capacity, 1024))
}

fn serve_command<'a>(alloc: Global) -> Result<Command<'a>, AllocError> {
    let socket = "Where the Unix socket is made; nothing may be there";
    let workers = "Threads that run actors, 1 to 16";
    let sessions =
        "Ends after so many sessions, 1 to 1000000: waits for their ends, saves, and tells what they did together";
    let image =
        "Keeps the image in a file: begins with it where it is there, and saves to it at each save and at the end, which --sessions or bin/stop brings";
    let journal =
        "Keeps a journal beside the image's file, from which what has happened is done again after a crash";
    let sync =
        "Milliseconds after which what happens is in the journal on the disk, 0 to 60000; with 0 before each reply [default: 1000]";
    let save_after =
        "Saves the image when the journal has so many megabytes, or tells 31,250,000 times as many steps, 1 to 65536 [default: 64]";
    let verbose = "Says on standard error what is served, and names each session that ends badly";
    Command::new(alloc, "serve")
        .about("Serves one image to sessions over a Unix socket")
        .arg(option(alloc, "socket", "PATH", socket).required(true))?
        .arg(number_option(alloc, "workers", "N", workers, 16).required(true))?
        .arg(number_option(alloc, "sessions", "K", sessions, 1_000_000))?
        .arg(option(alloc, "image", "FILE", image))?
        .arg(must_exist(alloc)?)?
        .arg(flag(alloc, "journal", journal).requires_arg("image")?)?
        .arg(
            option(alloc, "sync", "MS", sync)
                .value_parser(value_parser!(u32).range(0..=60_000))
                .requires_arg("journal")?,
        )?
        .arg(number_option(alloc, "save-after", "MB", save_after, 65_536).requires_arg("journal")?)?
        .arg(flag(alloc, "verbose", verbose))
}

fn replay_command<'a>(alloc: Global) -> Result<Command<'a>, AllocError> {
    let journal = "The journal [default: the one beside FILE]";
    let line = "Does so many lines of the journal again, not counting the first";
    let step = "Goes on until the image has counted so many steps";
    let image = "Where the image is saved that comes of it; nothing may be there";
    let file = Arg::new(alloc, "file")
        .value_name("FILE")
        .help("The image file, which stays as it is")
        .required(true);
    Command::new(alloc, "replay")
        .about(
            "Makes the image that was, by an image file and its journal: as it is behind all lines of the journal, or was before",
        )
        .arg(file)?
        .arg(option(alloc, "journal", "JOURNAL", journal))?
        .arg(
            option(alloc, "to", "N", line)
                .value_parser(value_parser!(u64).range(0..=MOST_LINES))
                .conflicts_with("to-step")?,
        )?
        .arg(option(alloc, "to-step", "S", step).value_parser(value_parser!(u64).range(
            0..=i64::MAX,
        )))?
        .arg(option(alloc, "image", "OUT", image).required(true))
}

fn check_command<'a>(alloc: Global) -> Result<Command<'a>, AllocError> {
    let file = Arg::new(alloc, "file")
        .value_name("FILE")
        .help("The image file")
        .required(true);
    Command::new(alloc, "check")
        .about(
            "Tells how many actors, classes and edits an image file holds, or what is wrong with it",
        )
        .arg(file)
}

/// A command with one more subcommand, if there was memory for that.
fn with<'a>(
    command: Command<'a>,
    subcommand: Result<Command<'a>, AllocError>,
) -> Result<Command<'a>, AllocError> {
    match subcommand {
        Ok(subcommand) => command.subcommand(subcommand),
        Err(error) => {
            drop(command);
            Err(error)
        }
    }
}

/// The version of the program that has this name in its command line.
fn version_of(words: &[String]) -> &'static str {
    match words.first() {
        Some(name) if name.as_str().ends_with(LOOK) => VERSION_OF_LOOK,
        _ => VERSION,
    }
}

fn program<'a>(alloc: Global, version: &'a str) -> Result<Command<'a>, AllocError> {
    let program = Command::new(alloc, "actorimage")
        .about("A live-editable Smalltalk image of actors")
        .version(version)
        .subcommand_required(true)
        .arg_required_else_help(true);
    let program = with(program, script_command(alloc))?;
    let program = with(program, serve_command(alloc))?;
    let program = with(program, replay_command(alloc))?;
    with(program, check_command(alloc))
}

/// Where the image is kept, if it is kept in a file.
fn image_place<'a>(matches: &ArgMatches<'a>) -> Option<Place<'a>> {
    match matches.get_str("image") {
        Some(path) => Some(Place {
            path,
            must_exist: matches.get_flag("must-exist"),
        }),
        None => None,
    }
}

fn script_options<'a>(matches: &ArgMatches<'a>) -> ScriptOptions<'a> {
    ScriptOptions {
        quantum: matches.get_one::<u32>("quantum"),
        capacity: matches.get_one::<u32>("capacity"),
        keeping: Keeping {
            image: image_place(matches),
            journal: matches.get_flag("journal").then_some(JOURNAL_OF_SCRIPT),
        },
    }
}

/// How a journal is kept.
fn journal_settings(matches: &ArgMatches<'_>) -> JournalSettings {
    JournalSettings {
        pause: matches.get_one::<u32>("sync").unwrap_or(1000),
        save_after: matches.get_one::<u32>("save-after").unwrap_or(64),
    }
}

fn serve_options<'a>(matches: &ArgMatches<'a>) -> ServeOptions<'a> {
    ServeOptions {
        socket: matches.get_str("socket").unwrap_or(""),
        workers: matches.get_one::<u32>("workers").unwrap_or(1),
        sessions: matches.get_one::<u32>("sessions"),
        keeping: Keeping {
            image: image_place(matches),
            journal: matches
                .get_flag("journal")
                .then_some(journal_settings(matches)),
        },
        is_verbose: matches.get_flag("verbose"),
    }
}

/// How much of a journal is done again.
fn until(matches: &ArgMatches<'_>) -> Until {
    if let Some(step) = matches.get_one::<u64>("to-step") {
        return Until::Step(step);
    }
    match matches.get_one::<u64>("to") {
        Some(lines) => Until::Line(lines as usize),
        None => Until::End,
    }
}

fn replay_options<'a>(matches: &ArgMatches<'a>) -> ReplayOptions<'a> {
    ReplayOptions {
        file: matches.get_str("file").unwrap_or(""),
        journal: matches.get_str("journal"),
        until: until(matches),
        image: matches.get_str("image").unwrap_or(""),
    }
}

/// What the words of a command line ask for, once they are matched.
fn request_of<'a>(matches: &ArgMatches<'a>) -> Request<'a> {
    if let Some(serve) = matches.subcommand_matches("serve") {
        return Request::Serve(serve_options(serve));
    }
    if let Some(replay) = matches.subcommand_matches("replay") {
        return Request::Replay(replay_options(replay));
    }
    if let Some(check) = matches.subcommand_matches("check") {
        return Request::Check(check.get_str("file").unwrap_or(""));
    }
    Request::Script(match matches.subcommand_matches("script") {
        Some(script) => script_options(script),
        None => ScriptOptions::NONE,
    })
}

/// What a command line asks for, or the error or the help to show.
pub fn parsed_request<'a>(alloc: Global, words: &'a [String]) -> Result<Request<'a>, Error> {
    let matches = program(alloc, version_of(words))?.try_get_matches_from(words)?;
    Ok(request_of(&matches))
}

/// The error to show if a word of the command line is not UTF-8.
pub fn invalid_utf8_error(alloc: Global) -> Result<Error, AllocError> {
    match program(alloc, VERSION) {
        Ok(mut program) => program.error(
            ErrorKind::InvalidValue,
            "invalid UTF-8 was detected in one or more arguments",
        ),
        Err(error) => Err(error),
    }
}
