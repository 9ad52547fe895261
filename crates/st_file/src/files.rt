//! Loads the image of a file.
ghost use Rattle.std.specs.Prelude.{◌≡◌, ◌⊎◌, None, Some, IfErr, IfOk};
ghost use Rattle.serde_json.specs.View.{view};
ghost use Rattle.st_classes.specs.declared.refusals.Refusal.TheVariants.{BadImage, NoMemory};
ghost use Rattle.st_classes.specs.declared.refusals.ImagePlace.TheVariants as place;
ghost use Rattle.st_wire.specs.Commands.{value_of};
ghost use Rattle.st_wire.specs.Streams.{input_view};
ghost use Rattle.st_file.specs.Files as spec;
ghost use Rattle.st_file.specs.Files.{LoadsBytes, LoadsFile, LoadsText};

use crate::images::image_of;
use crate::inputs::read_all;
use crate::streaming::stream;
use serde_json::{Category, Value};
use st_classes::refusals::{ImagePlace, Refusal};
use st_image::image::Image;
use st_mailbox::mailboxes::Mailbox;
use st_wire::misses::Miss;
use st_wire::streams::Input;
use std::alloc::Global;

/// Loads the image from the text of an input. All of the text is read before anything is made of it.
///
/// Fails with `ReadFault` if a read failed, or if 2^32 reads found no end. Otherwise answers as [`image_of_bytes`] does.
pub fn load<M: Mailbox, I: Input>(alloc: Global, input: &mut I) -> Result<Image<M>, Refusal>
    ensures { let before = input_view I.remaining I.failures I.reads input.old in
        let after = input_view I.remaining I.failures I.reads input.new in
        LoadsFile before after result }
{
    match read_all(alloc, input) {
        Ok(text) => image_of_bytes(alloc, &text),
        Err(refusal) => Err(refusal),
    }
}

/// Loads the image from a text, whose last byte may be a newline. If the text is not JSON, the refusal is `BadImage` with the place
/// `Json`. Otherwise the result is the image that its value describes, or the refusal of the value.
///
/// Of a text in the form in which images are saved there is the JSON value of one actor at a time, beside the parts of which the image is
/// made; of any other, that of the whole.
pub fn image_of_bytes<M: Mailbox>(alloc: Global, text: &[u8]) -> Result<Image<M>, Refusal>
    ensures { LoadsText text.now result }
{
    let text = without_newline(text);
    match stream(alloc, text) {
        Ok(image) => Ok(image),
        Err(Miss::NoMemory) => Err(Refusal::NoMemory),
        Err(Miss::Undecided) => image_of_value(alloc, text),
    }
}

/// As [`image_of_bytes`], by the JSON value of the whole text.
fn image_of_value<M: Mailbox>(alloc: Global, text: &[u8]) -> Result<Image<M>, Refusal>
    ensures { LoadsBytes text.now result }
{
    match value_of_bytes(alloc, text) {
        Ok(value) => image_of(alloc, &value),
        Err(refusal) => Err(refusal),
    }
}

/// A text without the newline at its end, if it has one.
pub(crate) fn without_newline(text: &[u8]) -> &[u8]
    ensures { result.now ≡ spec.without_newline text.now }
{
    let Some((last, front)) = text.split_last() else {
        return text;
    };
    if *last == b'\n' { front } else { text }
}

/// The JSON value of a text.
pub fn value_of_bytes(alloc: Global, text: &[u8]) -> Result<Value, Refusal>
    ensures value { IfOk result (λ v. value_of text.now ≡ Some (view v)) }
    ensures none { IfErr result (λ e. (e ≡ NoMemory) ⊎ ((e ≡ BadImage place.Json) × (value_of text.now ≡ None))) }
{
    match Value::from_slice(alloc, text) {
        Ok(value) => Ok(value),
        Err(error) => Err(match error.classify() {
            Category::Memory => Refusal::NoMemory,
            _ => Refusal::BadImage {
                place: ImagePlace::Json,
            },
        }),
    }
}
