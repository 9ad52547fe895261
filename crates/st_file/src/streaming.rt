//! Loads an image from the tokens of a text, actor by actor.
//!
//! The text is gone over twice. First all but the actors is read, which are passed. With names and a class table each actor is read then,
//! and its part of the image is made before the next one is read. So JSON values are there of one actor, one edit or one client at a time.
//! Beside the text there are the texts of all edits, names and clients, and the parts of all actors, of which the image is made in the end.
//!
//! What is decided here is only that a text is that of an image, in the second format and with its keys in order, as images are saved. All
//! else is left undecided.
ghost use Rattle.std.specs.Prelude.{◌≡◌, IfOk, Ok, OnOk, Some};
ghost use Rattle.json.specs.Lex.{tokens};
ghost use Rattle.serde_json.specs.Data.{Data};
ghost use Rattle.serde_json.specs.Read.{read};
ghost use Rattle.st_image.specs.Counts.{CanBeCounted};
ghost use Rattle.st_wire.specs.Commands.{value_of};
ghost use Rattle.st_file.specs.Describes.{LoadsImage};
ghost use Rattle.st_file.specs.Streaming.{BeginsActors, LoadsBehind, TellsActors, TellsBesides};

mod lists;
mod rest;
mod table;

use crate::images::load_table;
use crate::saving::values::Table;
use crate::streaming::lists::list;
use crate::streaming::rest::{key, rest};
use crate::texts::ImageText;
use json::{Reader, Scratch, Token};
use st_classes::names::Names;
use st_classes::seq::Seq;
use st_classes::version::Version;
use st_image::actor_part::ActorPart;
use st_image::image::Image;
use st_image::loader::Loader;
use st_mailbox::mailboxes::Mailbox;
use st_wire::misses::Miss;
use std::alloc::Global;
use std::str;

/// Passes the brace of a document and the key of its actors.
fn open(reader: &mut Reader<'_>) -> Result<(), Miss>
    ensures { OnOk result (BeginsActors reader.old reader.new) }
{
    let Some(Token::BeginObject) = reader.next() else {
        return Err(Miss::Undecided);
    };
    key(reader, "actors")
}

/// Reads what a text says besides its actors.
fn besides_actors(alloc: Global, text: &str) -> Result<ImageText, Miss>
    ensures told { IfOk result (λ t. TellsBesides (tokens text.now) t) }
    ensures counted { IfOk result (λ t. CanBeCounted t.counts) }
{
    let mut scratch = Scratch::new(alloc);
    let mut reader = Reader::new(text, &mut scratch)?;
    open(&mut reader)?;
    reader.skip_value(126)?;
    rest(alloc, &mut reader)
}

/// Reads the actors of a text, by names and a class table.
fn actors_of(
    alloc: Global,
    text: &str,
    names: &Names,
    version: &Version,
) -> Result<Seq<ActorPart>, Miss>
    ensures { IfOk result (λ parts. TellsActors (tokens text.now) names.now version.now parts) }
{
    let mut scratch = Scratch::new(alloc);
    let mut reader = Reader::new(text, &mut scratch)?;
    open(&mut reader)?;
    list(alloc, &mut reader, &Table { names, version })
}

/// Makes the image of a text, whose names and class table are loaded.
fn load_world<M: Mailbox>(
    alloc: Global,
    text: &str,
    loader: Loader,
    besides: ImageText,
) -> Result<Image<M>, Miss>
    requires { CanBeCounted besides.counts }
    ensures { IfOk result (λ i. LoadsBehind (tokens text.now) besides loader i) }
{
    let parts = actors_of(alloc, text, loader.names(), loader.version())?;
    let image = loader.finish(
        alloc,
        parts.into_vec(),
        besides.senders.into_vec(),
        besides.counts,
    )?;
    Ok(image)
}

/// Makes the image of a text, if it is in the form in which images are saved.
fn load_text<M: Mailbox>(alloc: Global, text: &str) -> Result<Image<M>, Miss>
    ensures { IfOk result (λ i. (v : Data) × (read text.now ≡ Some v) × LoadsImage v (Ok i)) }
{
    let besides = besides_actors(alloc, text)?;
    let loader = load_table(alloc, &besides)?;
    load_world(alloc, text, loader, besides)
}

/// Makes the image of a text, if it is in the form in which images are saved.
pub(crate) fn stream<M: Mailbox>(alloc: Global, text: &[u8]) -> Result<Image<M>, Miss>
    ensures { IfOk result (λ i. (v : Data) × (value_of text.now ≡ Some v) × LoadsImage v (Ok i)) }
{
    match str::from_utf8(text) {
        Ok(text) => load_text(alloc, text),
        Err(_) => Err(Miss::Undecided),
    }
}
