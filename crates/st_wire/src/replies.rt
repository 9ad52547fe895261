//! Replies, and how they are written as lines.
ghost use Rattle.std.specs.Prelude.{◌≡◌, [], ◌∷◌, IfOk, codes, decimal};
ghost use Rattle.json.specs.Token.{key, string, number, begin_object, end_object};
ghost use Rattle.serde_json.specs.Data.{object, member, no_members};
ghost use Rattle.st_wire.specs.declared.replies.Reply.TheVariants.{Closed as ClosedReply, Checked, Answer, Fault as FaultReply, Sites, Refused};
ghost use Rattle.serde_json.specs.Written.{compact_text};
ghost use Rattle.st_wire.specs.Replies.{IsInParts, line_of, reply_data, answered_data, state_name as name_of, site_data, site_items, refusal_fields, ok, only, whole, RepliesHaveKeysInOrder};
ghost use Rattle.st_wire.specs.Writing.{Adds, data_tokens, items_tokens, members_tokens};

use crate::names::{fault_name, kind_name, limited_name, place_name, refusal_name};
use crate::text::Text;
use crate::told::Told;
use json::Writer;
use st_classes::faults::Fault;
use st_classes::refusals::Refusal;
use st_classes::seq::Seq;
use st_classes::values::ActorId;
use std::alloc::{AllocError, Global};

/// A value in a reply. Names are texts.
#[derive(Drop)]
pub enum Answered {
    Int(i64),
    Bool(bool),
    Nil,
    Symbol(Text),
    Class(Text),
    Actor(ActorId),
    /// An object of the actor's own, by its index in the actor's list.
    Local(u32),
}

/// The classes that a send site has met: none, one, several, or too many to remember.
#[derive(Clone, Copy, PartialEq, Eq, Debug)]
pub enum SiteState {
    Empty,
    Mono,
    Poly,
    Mega,
}

/// The counts of one send site of a method: how many of its sends were answered by the global cache, by the site's own cache, and
/// by a walk.
#[derive(Drop)]
pub struct SiteReport {
    pub global: u64,
    pub selector: Text,
    pub sends: u64,
    pub site: u64,
    pub state: SiteState,
    pub is_super: bool,
    pub walk: u64,
}

/// A reply.
#[derive(Drop)]
pub enum Reply {
    /// The class table's new version.
    Version(u32),
    /// A new actor.
    Actor(ActorId),
    /// The number of the turn that will handle the posted message.
    Turn(u64),
    /// The actor accepts no more messages.
    Closed,
    /// The quanta and steps that a run took.
    Ran {
        quanta: u32,
        steps: u64,
    },
    /// The posts and steps that an image has counted at a checkpoint.
    Counted {
        posts: u64,
        steps: u64,
    },
    /// The bytes of the file in which the image is now.
    Saved(u64),
    /// What an image file holds. The kernel's classes count too.
    Checked {
        actors: u32,
        classes: u32,
        edits: u32,
    },
    /// The turn ended with this answer.
    Answer(Answered),
    /// The turn ended with this fault.
    Fault(Fault),
    /// The send sites of a method.
    Sites(Seq<SiteReport>),
    /// What a query asked for.
    Told(Told),
    /// Why a command was refused.
    Refused(Refusal),
}

/// The line of a reply, with its newline.
pub fn reply_text(alloc: Global, reply: &Reply) -> Result<Vec<u8>, AllocError>
    ensures { IfOk result (λ v. v.items ≡ line_of reply.now) }
{
    let mut line = match reply {
        Reply::Told(told) => told.to_vec(alloc)?,
        reply => written(alloc, reply)?,
    };
    line.push(b'\n')?;
    Ok(line)
}

/// The compact text of a reply that is written part by part.
fn written(alloc: Global, reply: &Reply) -> Result<Vec<u8>, AllocError>
    requires { IsInParts reply.now }
    ensures { IfOk result (λ v. v.items ≡ compact_text (reply_data reply.now)) }
{
    let mut writer = Writer::new(Vec::with_capacity(alloc, 128)?);
    reply.write(&mut writer)?;
    Ok(writer.into_inner())
}

/// In each object of a reply, the keys are in byte order.
pub fn key_order()
    ensures { RepliesHaveKeysInOrder }
{}

impl Reply {
    fn write(&self, writer: &mut Writer) -> Result<(), AllocError>
        requires { IsInParts self.now }
        ensures { Adds result writer.old writer.new (data_tokens (reply_data self.now)) }
    {
        match self {
            Reply::Version(version) => write_number(writer, "version", (*version).into()),
            Reply::Actor(actor) => write_number(writer, "actor", actor.0.into()),
            Reply::Turn(turn) => write_number(writer, "turn", *turn),
            Reply::Closed => write_closed(writer),
            Reply::Ran { quanta, steps } => {
                write_two(writer, "quanta", (*quanta).into(), "steps", *steps)
            }
            Reply::Counted { posts, steps } => {
                write_two(writer, "posts", *posts, "steps", *steps)
            }
            Reply::Saved(bytes) => write_number(writer, "bytes", *bytes),
            Reply::Checked {
                actors,
                classes,
                edits,
            } => write_checked(writer, (*actors).into(), (*classes).into(), (*edits).into()),
            Reply::Answer(value) => write_answer(writer, value),
            Reply::Fault(fault) => write_fault(writer, *fault),
            Reply::Sites(sites) => write_sites(writer, sites.as_slice()),
            Reply::Told(_) => unreachable!(),
            Reply::Refused(refusal) => write_refusal(writer, *refusal),
        }
    }
}

impl Answered {
    fn write(&self, writer: &mut Writer) -> Result<(), AllocError>
        ensures { Adds result writer.old writer.new (data_tokens (answered_data self.now)) }
    {
        match self {
            Answered::Int(n) => writer.i64(*n),
            Answered::Bool(truth) => writer.boolean(*truth),
            Answered::Nil => writer.null(),
            Answered::Symbol(text) => write_text(writer, "sym", text.as_str()),
            Answered::Class(text) => write_text(writer, "class", text.as_str()),
            Answered::Actor(actor) => write_whole(writer, "ref", actor.0.into()),
            Answered::Local(place) => write_whole(writer, "local", (*place).into()),
        }
    }
}

impl SiteReport {
    fn write(&self, writer: &mut Writer) -> Result<(), AllocError>
        ensures { Adds result writer.old writer.new (data_tokens (site_data self.now)) }
    {
        writer.begin_object()?;
        number_at(writer, "global", self.global)?;
        text_at(writer, "selector", self.selector.as_str())?;
        number_at(writer, "sends", self.sends)?;
        number_at(writer, "site", self.site)?;
        text_at(writer, "state", self.state.name())?;
        writer.key("super")?;
        writer.boolean(self.is_super)?;
        number_at(writer, "walk", self.walk)?;
        writer.end_object()
    }
}

impl SiteState {
    fn name(self) -> &'static str
        ensures { result.now ≡ name_of self }
    {
        match self {
            SiteState::Empty => "empty",
            SiteState::Mono => "mono",
            SiteState::Poly => "poly",
            SiteState::Mega => "mega",
        }
    }
}

/// Writes a key with a number as its value.
fn number_at(writer: &mut Writer, name: &str, n: u64) -> Result<(), AllocError>
    ensures { Adds result writer.old writer.new (key name.now ∷ number (decimal n) ∷ []) }
{
    writer.key(name)?;
    writer.u64(n)
}

/// Writes a key with a text as its value.
fn text_at(writer: &mut Writer, name: &str, text: &str) -> Result<(), AllocError>
    ensures { Adds result writer.old writer.new (key name.now ∷ string text.now ∷ []) }
{
    writer.key(name)?;
    writer.string(text)
}

/// Writes an object with one key, whose value is a number.
fn write_whole(writer: &mut Writer, name: &str, n: u64) -> Result<(), AllocError>
    ensures { Adds result writer.old writer.new (begin_object ∷ key name.now ∷ number (decimal n) ∷ end_object ∷ []) }
{
    writer.begin_object()?;
    number_at(writer, name, n)?;
    writer.end_object()
}

/// Writes an object with one key, whose value is a text.
fn write_text(writer: &mut Writer, name: &str, text: &str) -> Result<(), AllocError>
    ensures { Adds result writer.old writer.new (begin_object ∷ key name.now ∷ string text.now ∷ end_object ∷ []) }
{
    writer.begin_object()?;
    text_at(writer, name, text)?;
    writer.end_object()
}

/// Writes the start of a reply that is not a refusal, up to the opening brace of its result.
fn begin_ok(writer: &mut Writer) -> Result<(), AllocError>
    ensures { Adds result writer.old writer.new (begin_object ∷ key (codes "ok") ∷ begin_object ∷ []) }
{
    writer.begin_object()?;
    writer.key("ok")?;
    writer.begin_object()
}

/// Writes the end of such a reply.
fn end_ok(writer: &mut Writer) -> Result<(), AllocError>
    ensures { Adds result writer.old writer.new (end_object ∷ end_object ∷ []) }
{
    writer.end_object()?;
    writer.end_object()
}

/// Writes a reply whose result is one number.
fn write_number(writer: &mut Writer, name: &str, n: u64) -> Result<(), AllocError>
    ensures { Adds result writer.old writer.new (data_tokens (ok (only name.now (whole n)))) }
{
    begin_ok(writer)?;
    number_at(writer, name, n)?;
    end_ok(writer)
}

fn write_closed(writer: &mut Writer) -> Result<(), AllocError>
    ensures { Adds result writer.old writer.new (data_tokens (reply_data ClosedReply)) }
{
    begin_ok(writer)?;
    end_ok(writer)
}

/// Writes a reply whose result is two numbers.
fn write_two(
    writer: &mut Writer,
    first: &str,
    m: u64,
    second: &str,
    n: u64,
) -> Result<(), AllocError>
    ensures { Adds result writer.old writer.new (data_tokens (ok (object (member first.now (whole m) (member second.now (whole n) no_members))))) }
{
    begin_ok(writer)?;
    number_at(writer, first, m)?;
    number_at(writer, second, n)?;
    end_ok(writer)
}

fn write_checked(
    writer: &mut Writer,
    actors: u64,
    classes: u64,
    edits: u64,
) -> Result<(), AllocError>
    ensures { Adds result writer.old writer.new (data_tokens (reply_data (Checked actors classes edits))) }
{
    begin_ok(writer)?;
    number_at(writer, "actors", actors)?;
    number_at(writer, "classes", classes)?;
    number_at(writer, "edits", edits)?;
    end_ok(writer)
}

fn write_answer(writer: &mut Writer, value: &Answered) -> Result<(), AllocError>
    ensures { Adds result writer.old writer.new (data_tokens (reply_data (Answer value.now))) }
{
    begin_ok(writer)?;
    writer.key("answer")?;
    value.write(writer)?;
    end_ok(writer)
}

fn write_fault(writer: &mut Writer, fault: Fault) -> Result<(), AllocError>
    ensures { Adds result writer.old writer.new (data_tokens (reply_data (FaultReply fault))) }
{
    begin_ok(writer)?;
    text_at(writer, "fault", fault_name(fault))?;
    end_ok(writer)
}

fn write_sites(writer: &mut Writer, sites: &[SiteReport]) -> Result<(), AllocError>
    ensures { Adds result writer.old writer.new (data_tokens (reply_data (Sites sites.now))) }
{
    begin_ok(writer)?;
    writer.key("sites")?;
    writer.begin_array()?;
    write_reports(writer, sites)?;
    end_ok(writer)
}

/// Writes the items of the list, and its closing bracket.
fn write_reports(writer: &mut Writer, sites: &[SiteReport]) -> Result<(), AllocError>
    ensures { Adds result writer.old writer.new (items_tokens (site_items sites.now)) }
{
    for site in sites {
        site.write(writer)?;
    }
    writer.end_array()
}

fn write_refusal(writer: &mut Writer, refusal: Refusal) -> Result<(), AllocError>
    ensures { Adds result writer.old writer.new (data_tokens (reply_data (Refused refusal))) }
{
    writer.begin_object()?;
    text_at(writer, "error", refusal_name(refusal))?;
    write_fields(writer, refusal)
}

/// Writes the fields of a refusal after its name, and the closing brace.
fn write_fields(writer: &mut Writer, refusal: Refusal) -> Result<(), AllocError>
    ensures { Adds result writer.old writer.new (members_tokens (refusal_fields refusal)) }
{
    match refusal {
        Refusal::BadSource { kind, offset } => {
            text_at(writer, "kind", kind_name(kind))?;
            number_at(writer, "offset", offset.into())?;
        }
        Refusal::Old { last } => number_at(writer, "last", last)?,
        Refusal::Stale { version } => number_at(writer, "version", version.into())?,
        Refusal::TooMany { what } => text_at(writer, "what", limited_name(what))?,
        Refusal::BadImage { place } => text_at(writer, "place", place_name(place))?,
        _ => {}
    }
    writer.end_object()
}
