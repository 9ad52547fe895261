//! Loads the names and the edits of a file, in order.
ghost use Rattle.st_classes.specs.declared.refusals.ImagePlace.TheVariants as place;
ghost use Rattle.st_image.specs.Loading.{LoadsAll, LoadsEdit, LoadsName};
ghost use Rattle.st_file.specs.Layers.{AnswersAll};

use st_classes::refusals::Refusal;
use st_classes::seq::Seq;
use st_image::edit_text::EditText;
use st_image::loader::{Loader, leads_to_one};
use std::alloc::Global;

/// Adds names, in order.
pub(crate) fn add_names(
    loader: &mut Loader,
    alloc: Global,
    names: &[Seq<u8>],
) -> Result<(), Refusal>
    ensures { AnswersAll place.Names (LoadsAll LoadsName loader.old names.now) loader.new result }
{
    leads_to_one();
    for name in names {
        match loader.name(alloc, name.as_slice()) {
            Ok(()) => {}
            Err(refusal) => return Err(refusal),
        }
    }
    Ok(())
}

/// Adds edits, in order.
pub(crate) fn add_edits(
    loader: &mut Loader,
    alloc: Global,
    edits: &[EditText],
) -> Result<(), Refusal>
    ensures { AnswersAll place.Edits (LoadsAll LoadsEdit loader.old edits.now) loader.new result }
{
    leads_to_one();
    for edit in edits {
        match loader.edit(alloc, edit) {
            Ok(()) => {}
            Err(refusal) => return Err(refusal),
        }
    }
    Ok(())
}
