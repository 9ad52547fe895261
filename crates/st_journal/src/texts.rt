//! What the line of an entry says, as texts: classes and selectors are texts.
use st_classes::seq::Seq;
use st_classes::values::ActorId;
use st_file::texts::MessageText;
use st_image::edit_text::EditText;

/// An entry. Its classes and selectors are texts.
#[derive(Drop)]
pub enum EntryText {
    Name(Seq<u8>),
    /// A class that was defined, a method that was installed or removed, or a class that got another superclass.
    Edited(EditText),
    /// The name of a class.
    Created(Seq<u8>),
    Posted {
        actor: ActorId,
        message: MessageText,
    },
    Closed(ActorId),
    Begun(ActorId),
    /// The steps of one commit, at least one.
    Ran {
        actor: ActorId,
        steps: u32,
    },
    Checkpoint,
}
