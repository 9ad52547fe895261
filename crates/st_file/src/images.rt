//! Makes the image that a JSON value describes.
ghost use Rattle.std.specs.Prelude.{◌≡◌, ◌⊎◌, ℕ, List, IfErr};
ghost use Rattle.serde_json.specs.View.{view};
ghost use Rattle.st_classes.specs.declared.refusals.Refusal.TheVariants.{NoMemory};
ghost use Rattle.st_image.specs.Counts.{CanBeCounted};
ghost use Rattle.st_image.specs.Worlds.{World};
ghost use Rattle.st_image.specs.declared.counts.Counts.{Counts};
ghost use Rattle.st_file.specs.Describes.{Describes, DescribesOne, LoadsImage, WrongDescribesNone};
ghost use Rattle.st_file.specs.Layers.{LoadsTable, LoadsWorld};

use crate::loading::{add_edits, add_names};
use crate::reading::read_image;
use crate::resolving::actors_of;
use crate::texts::ImageText;
use serde_json::Value;
use st_classes::refusals::Refusal;
use st_image::image::Image;
use st_image::loader::{Loader, leads_to_one};
use st_mailbox::mailboxes::Mailbox;
use std::alloc::Global;

/// A value describes at most one world, and a value with something wrong describes none.
#[tactic(auto, using(crate::proofs::DescribedOnce::describes_once, crate::proofs::DescribedOnce::wrong_none))]
pub fn describes_one()
    ensures one { DescribesOne }
    ensures none { WrongDescribesNone }
{
    leads_to_one();
}

/// Makes the image that a JSON value describes.
///
/// If something is wrong with the value, the refusal is `BadImage` with the first place at fault, in this order: its shape, its names,
/// its edits, its actors, the numbers of its senders. The value then describes no image. The only other refusal is `NoMemory`.
pub fn image_of<M: Mailbox>(alloc: Global, value: &Value) -> Result<Image<M>, Refusal>
    ensures answers { LoadsImage (view value.now) result }
    ensures refused { IfErr result (λ e. (e ≡ NoMemory)
        ⊎ ((names : List (List ℕ)) (w : World) (counts : Counts) → Describes (view value.now) names w counts → ⊥)) }
{
    describes_one();
    load_value(alloc, value)
}

/// Makes the image of a value, layer by layer.
fn load_value<M: Mailbox>(alloc: Global, value: &Value) -> Result<Image<M>, Refusal>
    ensures { LoadsImage (view value.now) result }
{
    match read_image(alloc, value) {
        Ok(text) => match load_table(alloc, &text) {
            Ok(loader) => load_world(alloc, loader, text),
            Err(refusal) => Err(refusal),
        },
        Err(refusal) => Err(refusal),
    }
}

/// Loads the names and the class table of a file.
pub(crate) fn load_table(alloc: Global, text: &ImageText) -> Result<Loader, Refusal>
    ensures { LoadsTable text.now result }
{
    let mut loader = Loader::new(alloc)?;
    add_names(&mut loader, alloc, text.names.as_slice())?;
    add_edits(&mut loader, alloc, text.edits.as_slice())?;
    Ok(loader)
}

/// Makes the image of a file whose names and class table are loaded.
fn load_world<M: Mailbox>(
    alloc: Global,
    loader: Loader,
    text: ImageText,
) -> Result<Image<M>, Refusal>
    requires { CanBeCounted text.counts }
    ensures { LoadsWorld text loader result }
{
    match actors_of(alloc, loader.names(), loader.version(), &text.actors) {
        Ok(parts) => loader.finish(
            alloc,
            parts.into_vec(),
            text.senders.into_vec(),
            text.counts,
        ),
        Err(refusal) => Err(refusal),
    }
}
