//! The program `actorimage`.
#![tactic(auto)]

ghost use Rattle.std.specs.Prelude.{◌≡◌, [], IfOk};

mod accept_policy;
mod keeping;
mod loading;
mod noting;
mod options;
mod replaying;
mod runs;

use crate::accept_policy::{Reporter, SocketPolicy};
use crate::keeping::FileKeeper;
use crate::loading::begin_keeping;
use crate::noting::NotedOutput;
use crate::options::{
    Keeping, ReplayOptions, Request, ScriptOptions, ServeOptions, invalid_utf8_error,
    parsed_request,
};
use crate::replaying::{replayed, save_at};
use crate::runs::{begin_with, saved_at};
use boxcar::Vec as Faults;
use clap::Error;
use st_classes::refusals::Refusal;
use st_disk::failures::Failure;
use st_disk::image_files::{Opened, Place, Unreadable, load_file, open_file, path_of};
use st_disk::journals::refuse_journal;
use st_disk::new_files::{NewFile, hold, place_of};
use st_disk::socket_files::{SocketFile, bind, refuse_taken};
use st_pool::totals::Totals;
use st_script::checking::check_on;
use st_script::images::Image;
use st_script::keepers::Keeper;
use st_script::quantum::Quantum;
use st_script::scripts::{run_script, script_with};
use st_server::accept_policy::FaultList;
use st_server::sockets::{Served, serve_image};
use st_server::starts::now;
use st_wire::names::refusal_name;
use st_wire::streams::{Reader, Writer};
use std::alloc::Global;
use std::env;
use std::fs::{File, Files};
use std::io::{self, BufWriter, ErrorKind};
use std::net::Net;
use std::os::unix::net::UnixListener;
use std::process::ExitCode;
use std::sync::Wait;
use std::thread::Threads;
use std::time::Clock;

/// The image in a file, or a new image if there is no file.
fn first_image(alloc: Global, file: Option<&File>) -> Result<Image, Refusal>
    ensures { IfOk result (λ i. i.history ≡ []) }
{
    let found = load_file(alloc, file);
    begin_with(alloc, found)
}

/// Opens the file at an image's place, if one is given.
fn open_at<R: Files<File = File>>(
    rt: &R,
    alloc: Global,
    place: Option<Place<'_>>,
) -> Result<Opened, Failure> {
    match place {
        Some(place) => open_file(rt, alloc, place),
        None => Ok(Opened::nothing()),
    }
}

/// The same, and locks the file.
fn lock_at<R: Files<File = File>>(
    rt: &R,
    alloc: Global,
    place: Option<Place<'_>>,
) -> Result<Opened, Failure> {
    let opened = open_at(rt, alloc, place)?;
    if let Some(place) = place {
        opened.lock(alloc, place.path)?;
    }
    Ok(opened)
}

/// Takes hold of the new file beside the file at a place, if one is given.
fn hold_at<R: Files<File = File>>(
    rt: &R,
    alloc: Global,
    place: Option<Place<'_>>,
) -> Result<Option<NewFile>, Failure> {
    match place {
        Some(place) => {
            let new = hold(rt, alloc, place.path)?;
            Ok(Some(new))
        }
        None => Ok(None),
    }
}

/// Takes hold of an image's file, and loads the image. The new file beside the file is held from before the file is opened: if that is
/// refused, nothing begins.
fn begin_held<'a, R: Files<File = File> + Eprint + AllocGlobal>(
    rt: &R,
    program: &'a HostRuntime,
    keeping: Keeping<'a>,
) -> Result<(FileKeeper<'a>, Result<Image, Failure>), Failure> {
    let alloc = rt.alloc();
    let held = hold_at(rt, alloc, keeping.image)?;
    match lock_at(rt, alloc, keeping.image) {
        Ok(opened) => Ok(begin_keeping(rt, program, alloc, keeping, held, opened)),
        Err(failure) => {
            if let Some(new) = &held {
                new.remove(rt);
            }
            Err(failure)
        }
    }
}

/// Runs the commands of standard input on an image, and writes the replies to standard output. The keeper keeps the image where a
/// command saves it.
fn run_anew<R: Input + Print + Clock + AllocGlobal, S: Keeper>(
    rt: &R,
    options: ScriptOptions<'_>,
    keeper: &S,
    image: Image,
) -> (Image, Result<u64, Refusal>)
    requires { image.history ≡ [] }
{
    let alloc = rt.alloc();
    let Ok(buffered) = BufWriter::new(alloc, io::writer(rt)) else {
        return (image, Err(Refusal::NoMemory));
    };
    let mut input = Reader::new(rt.reader());
    let mut output = Writer::new(buffered);
    let settings = options.settings(now(rt));
    let (image, result) = script_with(alloc, &mut input, &mut output, settings, keeper, image);
    match output.finish() {
        Ok(_) => (image, result),
        Err(_) => (image, Err(Refusal::WriteFault)),
    }
}

/// The same, on an image as it is, of which all is told in its journal. Before a reply is passed on, what it tells is there too.
fn run_noted<R: Input + Print + Clock + AllocGlobal>(
    rt: &R,
    options: ScriptOptions<'_>,
    keeper: &FileKeeper<'_>,
    image: Image,
) -> (Image, Result<u64, Refusal>) {
    let alloc = rt.alloc();
    let settings = options.settings(now(rt));
    let Some(quantum) = Quantum::new(settings.quantum) else {
        return (image, Err(Refusal::BadArguments));
    };
    keeper.begin_noting(alloc, &image);
    let noted = NotedOutput {
        alloc,
        keeper,
        output: io::writer(rt),
    };
    let Ok(buffered) = BufWriter::new(alloc, noted) else {
        return (image, Err(Refusal::NoMemory));
    };
    let mut input = Reader::new(rt.reader());
    let mut output = Writer::new(buffered);
    let start = settings.start;
    let (image, result) = run_script(
        alloc,
        &mut input,
        &mut output,
        quantum,
        start,
        keeper,
        image,
    );
    match output.finish() {
        Ok(_) => (image, result),
        Err(_) => (image, Err(Refusal::WriteFault)),
    }
}

/// Saves the image at the end of a run by the keeper that is given, or by none.
fn end_keeping(
    alloc: Global,
    keeper: &FileKeeper<'_>,
    saves: Option<&FileKeeper<'_>>,
    image: Image,
) -> Result<(), Failure> {
    match saves {
        Some(keeper) => keeper.finish(alloc, image),
        None => {
            drop(image);
            keeper.leave();
            Ok(())
        }
    }
}

/// Saves the image of a script that has ended, unless the session was refused.
fn end_script(
    alloc: Global,
    keeper: &FileKeeper<'_>,
    (image, ended): (Image, Result<u64, Refusal>),
) -> Result<(), Failure> {
    end_keeping(alloc, keeper, saved_at(Some(keeper), &ended), image)?;
    match ended {
        Ok(_) => Ok(()),
        Err(refusal) => Err(Failure::from(refusal)),
    }
}

/// Runs a script on a new image or on the image of a file. That file then gets the image, unless the session is refused. `program` is
/// the program's runtime, by which the file is kept.
fn script<R: Input + Print + Files<File = File> + Clock + AllocGlobal>(
    rt: &R,
    program: &HostRuntime,
    options: ScriptOptions<'_>,
) -> Result<(), Failure> {
    let alloc = rt.alloc();
    let place = options.keeping.image;
    let opened = open_at(rt, alloc, place)?;
    let Opened { file, seen } = opened;
    if let Some(path) = path_of(place) {
        refuse_journal(rt, alloc, place_of(rt, alloc, path)?.as_str())?;
    }
    let image = first_image(alloc, file.as_ref())?;
    let keeper = FileKeeper::new(program, path_of(place), None, seen, file);
    let ran = run_anew(rt, options, &keeper, image);
    end_script(alloc, &keeper, ran)
}

/// Runs a script on the image of a file as its journal tells it, and goes on with the journal. When the session has ended well, the file
/// gets the image and the journal is removed; else both stay.
fn script_with_journal<R: Input + Print + Eprint + Files<File = File> + Clock + AllocGlobal>(
    rt: &R,
    program: &HostRuntime,
    options: ScriptOptions<'_>,
) -> Result<(), Failure> {
    let alloc = rt.alloc();
    let (keeper, loaded) = begin_held(rt, program, options.keeping)?;
    match loaded {
        Ok(image) => {
            let ran = run_noted(rt, options, &keeper, image);
            end_script(alloc, &keeper, ran)
        }
        Err(failure) => {
            keeper.leave();
            Err(failure)
        }
    }
}

/// Saves the image that was, and writes to standard output how many lines of the journal and how many steps led there.
fn replay<R: Print + Files<File = File> + AllocGlobal>(
    rt: &R,
    program: &HostRuntime,
    options: ReplayOptions<'_>,
) -> Result<(), Failure> {
    let alloc = rt.alloc();
    let (image, lines) = replayed(rt, alloc, options)?;
    let steps = image.counted().steps;
    save_at(rt, program, alloc, options.image, image)?;
    match println!(rt; "{{\"ok\":{{\"lines\":{lines},\"steps\":{steps}}}}}") {
        Ok(()) => Ok(()),
        Err(error) => Err(Failure::at(alloc, Refusal::WriteFault, "standard output", &error)),
    }
}

/// Writes to standard output what an image file holds. The answer is the exit status. It is 1 also if nothing could be written.
fn check<R: Print + Files + AllocGlobal>(rt: &R, path: &str) -> u8 {
    let alloc = rt.alloc();
    let mut output = Writer::new(io::writer(rt));
    let told = match File::open(rt, path) {
        Ok(file) => check_on(alloc, &mut Reader::new(file), &mut output),
        Err(_) => check_on(alloc, &mut Reader::new(Unreadable), &mut output),
    };
    told.unwrap_or(1)
}

/// The names of refusals, sorted.
fn sorted_names(alloc: Global, faults: &Faults<Refusal>) -> Result<Vec<&'static str>, Refusal> {
    let mut names = Vec::new(alloc);
    let entries = faults.iter();
    for (_, refusal) in entries {
        let Ok(()) = names.push(refusal_name(*refusal)) else {
            return Err(Refusal::NoMemory);
        };
    }
    names.sort_unstable();
    Ok(names)
}

/// Writes the refusals of sessions to standard error, and the totals to standard output.
fn tell_end<R: Print + Eprint + AllocGlobal>(
    rt: &R,
    faults: &Faults<Refusal>,
    totals: Totals,
) -> Result<(), Failure> {
    let alloc = rt.alloc();
    let names = sorted_names(alloc, faults)?;
    for name in &names {
        let _ = eprintln!(rt; "session: {name}");
    }
    let posts = totals.posts;
    let steps = totals.steps;
    match println!(rt; "{{\"ok\":{{\"posts\":{posts},\"steps\":{steps}}}}}") {
        Ok(()) => Ok(()),
        Err(error) => Err(Failure::at(alloc, Refusal::WriteFault, "standard output", &error)),
    }
}

/// Says on standard error what is served. An image has the kernel's classes, so it never has just one.
fn tell_start<R: Eprint>(rt: &R, socket: &str, image: &Image) {
    let actors = image.actors();
    let ending = if actors == 1 { "" } else { "s" };
    let classes = image.version().classes();
    let _ = eprintln!(rt;
        "actorimage: serving {socket}, {actors} actor{ending}, {classes} classes"
    );
}

/// Serves sessions over a socket, and removes its file at the end.
fn serve_bound<R: Threads + Wait + Files + Eprint + Clock + Sync>(
    rt: &R,
    alloc: Global,
    options: ServeOptions<'_>,
    (listener, file): (UnixListener, SocketFile<'_>),
    faults: &Faults<Refusal>,
    image_keeper: &FileKeeper<'_>,
    image: Image,
) -> Result<Served, Refusal> {
    if options.is_verbose {
        tell_start(rt, options.socket, &image);
    }
    let policy = SocketPolicy::new(file);
    let list = FaultList::of(faults, options.sessions);
    let reporter = Reporter::new(list, options.is_verbose);
    let result = serve_image(
        rt,
        alloc,
        listener,
        &policy,
        &reporter,
        image_keeper,
        options.workers,
        options.sessions,
        image,
    );
    file.remove(rt);
    result
}

/// Loads the image of a file, or makes a new one, and serves it over a socket, whose file is made for the owner alone. The refusals of
/// sessions are added to `faults`.
fn serve_loaded<R: Threads + Wait + Net + Files + Eprint + Clock + AllocGlobal + Sync>(
    rt: &R,
    options: ServeOptions<'_>,
    loaded: Result<Image, Failure>,
    faults: &Faults<Refusal>,
    keeper: &FileKeeper<'_>,
) -> Result<Served, Failure> {
    let alloc = rt.alloc();
    let image = loaded?;
    match bind(rt, alloc, options.socket) {
        Ok(bound) => {
            let served = serve_bound(rt, alloc, options, bound, faults, keeper, image)?;
            Ok(served)
        }
        Err(failure) => {
            drop(image);
            Err(failure)
        }
    }
}

/// Saves the image of a server whose sessions have ended, if there is a place for it, and reports the end. Both are done even if
/// accepting failed; the answer is then that refusal. Neither is done if serving was refused.
fn end_serving<R: Print + Eprint + AllocGlobal>(
    rt: &R,
    keeper: &FileKeeper<'_>,
    faults: &Faults<Refusal>,
    ended: Result<Served, Failure>,
) -> Result<(), Failure> {
    let saves = saved_at(Some(keeper), &ended);
    let Served {
        image,
        totals,
        fault,
        ..
    } = match ended {
        Ok(served) => served,
        Err(failure) => {
            keeper.leave();
            return Err(failure);
        }
    };
    let saved = end_keeping(rt.alloc(), keeper, saves, image);
    let told = tell_end(rt, faults, totals);
    saved?;
    told?;
    match fault {
        Some(refusal) => Err(Failure::from(refusal)),
        None => Ok(()),
    }
}

/// Serves an image as `serve_loaded` does, and saves it.
fn serve_with<
    R: Threads + Wait + Net + Files<File = File> + Print + Eprint + Clock + AllocGlobal + Sync,
>(
    rt: &R,
    program: &HostRuntime,
    options: ServeOptions<'_>,
    faults: &Faults<Refusal>,
) -> Result<(), Failure> {
    refuse_taken(rt, rt.alloc(), options.socket)?;
    let (keeper, loaded) = begin_held(rt, program, options.keeping)?;
    let ended = serve_loaded(rt, options, loaded, faults, &keeper);
    end_serving(rt, &keeper, faults, ended)
}

/// Serves a new image or the image of a file. That file gets the image when all sessions have ended.
fn serve<
    R: Threads + Wait + Net + Files<File = File> + Print + Eprint + Clock + AllocGlobal + Sync,
>(rt: &R, program: &HostRuntime, options: ServeOptions<'_>) -> Result<(), Failure> {
    match Faults::new(rt.alloc()) {
        Ok(faults) => serve_with(rt, program, options, &faults),
        Err(_) => Err(Failure::from(Refusal::NoMemory)),
    }
}

/// The words of the command line.
fn words(rt: &HostRuntime) -> io::Result<Vec<String>> {
    let words: Vec<String> = env::args(rt)?.collect(rt.alloc())?;
    Ok(words)
}

/// Writes the name of a refusal to standard error, and below it what it was about, if that is known. If that fails, the exit status
/// still tells of it.
fn report(rt: &HostRuntime, failure: &Failure) -> ExitCode {
    let name = refusal_name(failure.refusal);
    let _ = eprintln!(rt; "actorimage: {name}");
    if let Some(words) = &failure.words {
        let _ = eprintln!(rt; "{words}");
    }
    ExitCode::from(1)
}

/// Shows why a command line was refused, or the help that it asked for. If that fails, the exit status still tells of it.
fn show_error(rt: &HostRuntime, error: Error) -> ExitCode {
    let _ = error.print(rt);
    ExitCode::from(error.exit_code() as u8)
}

/// Runs what the command line asks for. The exit status is 0 on success, 1 if a session, a file or a socket was refused or memory ran
/// out, and 2 if the command line was refused.
fn main(rt: HostRuntime) -> io::Result<ExitCode> {
    let words = match words(&rt) {
        Ok(words) => words,
        Err(error) if error.kind() == ErrorKind::OutOfMemory => {
            return Ok(report(&rt, &Failure::from(Refusal::NoMemory)));
        }
        Err(_) => {
            let error = invalid_utf8_error(rt.alloc()).unwrap_or_else(Error::from);
            return Ok(show_error(&rt, error));
        }
    };
    let request = match parsed_request(rt.alloc(), &words) {
        Ok(request) => request,
        Err(error) => return Ok(show_error(&rt, error)),
    };
    let result = match request {
        Request::Script(options) if options.keeping.journal.is_some() => {
            script_with_journal(&rt, &rt, options).map(|_| 0)
        }
        Request::Script(options) => script(&rt, &rt, options).map(|_| 0),
        Request::Serve(options) => serve(&rt, &rt, options).map(|_| 0),
        Request::Replay(options) => replay(&rt, &rt, options).map(|_| 0),
        Request::Check(path) => Ok(check(&rt, path)),
    };
    match result {
        Ok(status) => Ok(ExitCode::from(status)),
        Err(failure) => Ok(report(&rt, &failure)),
    }
}
