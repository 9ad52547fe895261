//! The call that a command makes of an image.
ghost use Rattle.std.specs.Prelude.{◌≡◌};
ghost use Rattle.st_script.specs.CallOf.{call_of as call_in, class_in};

use crate::resolving::find_selector;
use st_calls::calls::Call;
use st_classes::refusals::Refusal;
use st_classes::values::ClassId;
use st_image::image::Image;
use st_mailbox::ring_box::RingBox;
use st_wire::commands::Command;

/// The class that a text names.
pub(crate) fn class_of(image: &Image<RingBox>, text: &[u8]) -> Result<ClassId, Refusal>
    ensures { result ≡ class_in image.now text.now }
{
    image
        .version()
        .class_named(text)
        .ok_or(Refusal::UnknownClass)
}

/// The call of a command that makes one, with its names looked up in an image; or why there is none.
pub(crate) fn call_of(image: &Image<RingBox>, command: Command) -> Result<Call, Refusal>
    ensures { result ≡ call_in image.now command }
{
    match command {
        Command::Define {
            name,
            parent,
            slots,
        } => match class_of(image, parent.as_slice()) {
            Ok(parent) => Ok(Call::Define {
                name,
                parent,
                slots,
            }),
            Err(refusal) => Err(refusal),
        },
        Command::Method { class, source } => match class_of(image, class.as_slice()) {
            Ok(class) => Ok(Call::Install { class, source }),
            Err(refusal) => Err(refusal),
        },
        Command::Remove { class, selector } => match class_of(image, class.as_slice()) {
            Ok(class) => match find_selector(image.names(), selector.as_slice()) {
                Ok(selector) => Ok(Call::Remove { class, selector }),
                Err(refusal) => Err(refusal),
            },
            Err(refusal) => Err(refusal),
        },
        Command::Reparent { class, parent } => match class_of(image, class.as_slice()) {
            Ok(class) => match class_of(image, parent.as_slice()) {
                Ok(parent) => Ok(Call::Reparent { class, parent }),
                Err(refusal) => Err(refusal),
            },
            Err(refusal) => Err(refusal),
        },
        Command::Actor { class } => match class_of(image, class.as_slice()) {
            Ok(class) => Ok(Call::Create(class)),
            Err(refusal) => Err(refusal),
        },
        Command::Close { actor } => Ok(Call::Close(actor)),
        Command::Checkpoint => Ok(Call::Checkpoint),
        Command::Post { .. } => Err(Refusal::BadCommand),
        Command::Replace { .. } => Err(Refusal::BadCommand),
        Command::Outcome { .. } => Err(Refusal::BadCommand),
        Command::Wait { .. } => Err(Refusal::BadCommand),
        Command::Stats { .. } => Err(Refusal::BadCommand),
        Command::Query(_) => Err(Refusal::BadCommand),
        Command::Run { .. } => Err(Refusal::BadCommand),
        Command::Save => Err(Refusal::BadCommand),
    }
}
