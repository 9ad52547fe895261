//! Sessions over a pool. Each has its own caller.
ghost use Rattle.std.specs.Prelude.{◌≡◌, ◌^◌, ℕ, List};
ghost use Rattle.std.specs.Io.KnownBytes.{Appends};
ghost use Rattle.st_wire.specs.Streams.{input_view};
ghost use Rattle.st_session.specs.Sessions.{Replies, end_of, failures_after};
ghost use Rattle.st_session.specs.DeviceSessions.{DeviceSession, FlushesAsOftenAsReads};
ghost use Rattle.st_script.specs.Keepers.{IsFault, Replaces};
ghost use Rattle.st_server.specs.PoolReplies.{AsksFound, Attends, CopiesFound};
ghost use Rattle.st_wire.specs.declared.commands.Command.TheVariants as commands;

use crate::admission::Admission;
use crate::progress::Progress;
use crate::readings::{Copied, CopyingBehind};
use crate::recording::Recorder;
use crate::starts::ServerInfo;
use crate::waits::TurnEnd;
use st_classes::refusals::Refusal;
use st_file::image_snapshots::ImageSnapshot;
use st_pool::callers::Caller;
use st_pool::holds::Job;
use st_pool::naming::Naming;
use st_pool::pool_state::PoolState;
use st_pool::shares::CallerShare;
use st_queries::hosts::Host;
use st_queries::replying::tell_seen;
use st_queries::snapshots::{Snapshot, see};
use st_script::asking::ask;
use st_script::images::Mailbox;
use st_script::keepers::{Keeper, copied, replaced, written};
use st_session::handlers::Handler;
use st_session::sessions::session;
use st_wire::commands::Command;
use st_wire::queries::Query;
use st_wire::replies::Reply;
use st_wire::streams::{Input, Output};
use std::alloc::{AllocError, Global};
use std::marker::Model;
use std::sync::Wait;
use std::time::{Clock, Duration};

/// How often an image is copied, until nothing has happened that the journal has not told.
const COPIES: u32 = 16;

/// A command, which is answered in one hold of the lock, for a program that is known but for its checkpoints.
#[derive(Drop)]
struct Asking {
    host: Host,
    command: Command,
}

impl<K: Naming> Job<K, Mailbox> for Asking {
    ghost use Rattle.st_server.specs.PoolReplies.{AsksInHold};

    type Out = Reply;

    ghost done = { λ a o d r p e. AsksInHold o d a.command r p e };

    fn run(
        self,
        alloc: Global,
        pool: &mut PoolState<K, Mailbox>,
        mine: &mut CallerShare<K>,
    ) -> Reply {
        let host = self.host.at(pool.checkpoints());
        ask(alloc, pool, mine, host, self.command)
    }
}

/// A query, for which what it needs is copied in one hold of the lock.
#[derive(Drop)]
struct Seeing<'a> {
    query: &'a Query,
}

impl<'a, K: Naming> Job<K, Mailbox> for Seeing<'a> {
    ghost use Rattle.st_server.specs.PoolReplies.{SeesInHold};

    type Out = (Result<Snapshot, AllocError>, u64);

    ghost done = { λ s o d r p e. SeesInHold o d s.query.now r.0 p e };

    fn run(
        self,
        alloc: Global,
        pool: &mut PoolState<K, Mailbox>,
        _mine: &mut CallerShare<K>,
    ) -> (Result<Snapshot, AllocError>, u64) {
        (see(alloc, pool.image(), self.query), pool.checkpoints())
    }
}

/// What the file of an image says, which is copied in one hold of the lock.
#[derive(Drop)]
struct Copying;

impl<K: Naming> Job<K, Mailbox> for Copying {
    ghost use Rattle.st_server.specs.PoolReplies.{CopiesInHold};

    type Out = Result<ImageSnapshot, Refusal>;

    ghost done = { λ s o d r p e. CopiesInHold o d r p e };

    fn run(
        self,
        alloc: Global,
        pool: &mut PoolState<K, Mailbox>,
        _mine: &mut CallerShare<K>,
    ) -> Result<ImageSnapshot, Refusal> {
        copied(alloc, pool.image())
    }
}

impl<K: Naming> Job<K, Mailbox> for CopyingBehind {
    ghost use Rattle.st_server.specs.PoolReplies.{CopiesInHold};

    type Out = Copied;

    ghost done = { λ s o d r p e. CopiesInHold o d r.0 p e };

    fn run(
        self,
        alloc: Global,
        pool: &mut PoolState<K, Mailbox>,
        _mine: &mut CallerShare<K>,
    ) -> Copied {
        self.copy_in(alloc, pool)
    }
}

/// Who keeps the images of a server and who goes on with its journal, and how many sessions at a time do what.
#[derive(Drop)]
pub struct Services<'a, K: Naming, S: Keeper> {
    pub keeper: &'a S,
    pub recorder: &'a Recorder<'a, K, S>,
    pub admission: &'a Admission,
}

/// A caller that answers commands. Contracts see what it has done.
struct PoolHandler<'a, R: Wait + Clock, K: Naming, S: Keeper> {
    rt: &'a R,
    caller: Caller<'a, K, Mailbox>,
    info: ServerInfo<'a>,
    services: Services<'a, K, S>,
}

impl<'a, R: Wait + Clock, K: Naming, S: Keeper> Model for PoolHandler<'a, R, K, S> {
    ghost use Rattle.st_pool.specs.Done.{Done};

    ghost Value = { Done };

    ghost view = { λ h. h.caller };
}

impl<'a, R: Wait + Clock, K: Naming, S: Keeper> PoolHandler<'a, R, K, S> {
    /// The reply to a query. It is answered behind the hold in which what it needs is copied, once it may be.
    fn reply_to_query(&mut self, alloc: Global, query: Query) -> Reply
        ensures { Attends K.start K.first self.old (commands.Query query) result self.new }
    {
        let _admitted = self.services.admission.query(self.rt);
        let host = self.info.host();
        let (seen, checkpoints) = self.caller.hold(self.rt, alloc, Seeing { query: &query });
        tell_seen(alloc, seen, host.at(checkpoints), query)
    }

    /// What the image is now, and where the journal ends that tells all that led there; none if more had happened by then than it told.
    fn copy_behind(
        &mut self,
        alloc: Global,
        progress: &mut Progress,
    ) -> (Result<ImageSnapshot, Refusal>, Option<u64>)
        ensures copies { CopiesFound K.start K.first self.old result.0 self.new }
        ensures same { self.new ≡ self.old }
    {
        let recorder = self.services.recorder;
        let told = recorder.round_before_copying(self.rt, alloc, progress);
        let behind = recorder.behind(progress);
        let copied = self.caller.hold(self.rt, alloc, CopyingBehind { behind });
        recorder.write_copied(alloc, progress, told, copied)
    }

    /// What the image is now, and where the journal ends that tells all that led there, if there is one.
    fn copy(&mut self, alloc: Global) -> (Result<ImageSnapshot, Refusal>, u64)
        ensures { CopiesFound K.start K.first self.old result.0 self.new }
    {
        let recorder = self.services.recorder;
        if !recorder.is_kept() {
            return (self.caller.hold(self.rt, alloc, Copying), 0);
        }
        let mut progress = recorder.lock(self.rt);
        for _ in 0..COPIES {
            let (snapshot, end) = self.copy_behind(alloc, &mut progress);
            if let Some(end) = end {
                return (snapshot, end);
            }
        }
        let (_, _) = self.copy_behind(alloc, &mut progress);
        (Err(Refusal::NoMemory), 0)
    }

    /// The reply once the image that was written is kept, if it was written. Nobody goes on with the journal meanwhile.
    fn replace(&self, alloc: Global, from: u64, reply: Reply) -> Reply
        ensures { Replaces reply result }
    {
        let progress = self.services.recorder.lock(self.rt);
        let reply = replaced(alloc, self.services.keeper, from, reply);
        drop(progress);
        reply
    }

    /// The reply to one who wants the image saved. It is written behind the hold in which what it is then is copied. Who else wants it
    /// saved meanwhile waits with his hold.
    fn save(&mut self, alloc: Global) -> Reply
        ensures { Attends K.start K.first self.old commands.Save result self.new }
    {
        let admitted = self.services.admission.save(self.rt);
        let (snapshot, from) = self.copy(alloc);
        let reply = written(alloc, self.services.keeper, snapshot);
        let reply = self.replace(alloc, from, reply);
        drop(admitted);
        self.services.keeper.report_error();
        reply
    }

    /// The reply to a command that is answered in a hold.
    fn ask(&mut self, alloc: Global, command: Command) -> Reply
        ensures { AsksFound K.start K.first self.old command result self.new }
    {
        if let Command::Post { args, .. } = &command {
            // If there is no room yet, the hold asks for it again, and refuses the post.
            let _ = self.caller.make_room(args.len());
        }
        let host = self.info.host();
        match TurnEnd::of(alloc, host, &command) {
            Some((end, most)) => {
                self.caller
                    .hold_when(self.rt, alloc, &end, most, Asking { host, command })
            }
            None => self.caller.hold(self.rt, alloc, Asking { host, command }),
        }
    }
}

impl<'a, R: Wait + Clock, K: Naming, S: Keeper> Handler for PoolHandler<'a, R, K, S> {
    ghost answers = { Attends K.start K.first };

    fn reply(&mut self, alloc: Global, command: Command) -> Reply {
        match command {
            Command::Query(query) => self.reply_to_query(alloc, query),
            Command::Save => self.save(alloc),
            command => self.ask(alloc, command),
        }
    }
}

/// Answers the lines of an input for a caller. The caller ends with the session, however that ends. The answer is the caller's
/// share, and how many lines there were or why the session ended: `WriteFault` only if a write or a flush failed.
pub fn attend<R: Wait + Clock, K: Naming, S: Keeper, I: Input, O: Output>(
    rt: &R,
    alloc: Global,
    info: ServerInfo<'_>,
    services: Services<'_, K, S>,
    caller: Caller<'_, K, Mailbox>,
    input: &mut I,
    output: &mut O,
) -> (CallerShare<K>, Result<u64, Refusal>)
    ensures session { let before = input_view I.remaining I.failures I.reads input.old in
        let after = input_view I.remaining I.failures I.reads input.new in
        (written : List ℕ) × Appends (O.contents output.old) (O.contents output.new) written
        × DeviceSession (Replies (Attends K.start K.first)) caller.entry before after written result.0 result.1 }
    ensures flushes { FlushesAsOftenAsReads (2 ^ 32) (I.reads input.old) (I.reads input.new) (O.flushes output.old) (O.flushes output.new) result.1 }
    ensures failures { O.failures output.new ≡ failures_after (end_of result.1) (O.failures output.old) }
{
    let mut handler = PoolHandler {
        rt,
        caller,
        info,
        services,
    };
    let result = session(&mut handler, alloc, input, output);
    let PoolHandler {
        rt: _,
        caller,
        info: _,
        services: _,
    } = handler;
    (caller.end(), result)
}
