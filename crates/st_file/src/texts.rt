//! What an image file says, as texts: names and classes are texts, and methods are sources.
use st_classes::faults::Fault;
use st_classes::seq::Seq;
use st_classes::values::ActorId;
use st_image::counts::Counts;
use st_image::edit_text::EditText;
use st_mailbox::messages::Sender;

/// A value. Its symbol or class is a text.
#[derive(Drop)]
pub enum ValueText {
    Int(i64),
    Bool(bool),
    Nil,
    Symbol(Seq<u8>),
    Class(Seq<u8>),
    Actor(ActorId),
    Local(u64),
}

/// A list of values.
pub type ValueTexts = Seq<ValueText>;

/// A message.
#[derive(Drop)]
pub struct MessageText {
    pub args: ValueTexts,
    pub selector: Seq<u8>,
    pub sender: Sender,
    pub seq: u64,
}

/// An object.
#[derive(Drop)]
pub struct ObjectText {
    pub class: Seq<u8>,
    pub slots: ValueTexts,
}

/// A frame.
#[derive(Drop)]
pub struct FrameText {
    pub method: u64,
    pub operands: ValueTexts,
    pub pc: u64,
    pub receiver: ValueText,
    pub temps: ValueTexts,
}

/// The phase of a turn.
#[derive(Drop)]
pub enum PhaseText {
    Fresh,
    Start { args: ValueTexts, selector: Seq<u8> },
    Frames(Seq<FrameText>),
    Answer(ValueText),
    Fault(Fault),
}

/// A body.
#[derive(Drop)]
pub struct BodyText {
    pub objects: Seq<ObjectText>,
    pub phase: PhaseText,
}

/// An actor.
#[derive(Drop)]
pub struct ActorText {
    pub body: BodyText,
    pub capacity: u64,
    pub class: Seq<u8>,
    pub last: u64,
    pub is_open: bool,
    pub pending: Seq<MessageText>,
}

/// A file.
#[derive(Drop)]
pub struct ImageText {
    pub actors: Seq<ActorText>,
    /// The counts of posts and steps.
    pub counts: Counts,
    pub edits: Seq<EditText>,
    pub names: Seq<Seq<u8>>,
    /// Clients, each with the number of its last message.
    pub senders: Seq<(u16, u64)>,
}
