//! Edits that are made again.
ghost use Rattle.std.specs.Prelude.{OnOk, IfErr};
ghost use Rattle.st_image.specs.Images.{image_define_rules, image_remove_rules, image_reparent_rules};
ghost use Rattle.st_journal.specs.declared.entries.Entry.TheVariants as entry;
ghost use Rattle.st_journal.specs.Entries.{Does};
ghost use Rattle.st_journal.specs.Refused.{OfRules, RefusesMethod};

use crate::redo_error::RedoError;
use crate::redoing::names::name_count;
use crate::telling::copied_texts;
use st_classes::refusals::Refusal;
use st_classes::seq::Seq;
use st_classes::values::{ClassId, Selector};
use st_image::image::Image;
use st_mailbox::mailboxes::Mailbox;
use std::alloc::Global;

/// Defines a class again.
pub(super) fn define<M: Mailbox>(
    alloc: Global,
    image: &mut Image<M>,
    name: &[u8],
    parent: ClassId,
    slots: &[Seq<u8>],
) -> Result<(), RedoError>
    ensures ok { OnOk result (Does image.old (entry.Define name.now parent slots.now) image.new) }
    ensures err { IfErr result (λ e. OfRules (image_define_rules image.old name.now parent slots.now) e) }
{
    let Ok(slots) = copied_texts(alloc, slots) else {
        return Err(RedoError::Refused(Refusal::NoMemory));
    };
    image.known();
    let defined = image.define(alloc, name, parent, slots);
    image.known();
    match defined {
        Ok(_) => Ok(()),
        Err(refusal) => Err(RedoError::Refused(refusal)),
    }
}

/// Installs a method again. All names that it needs have to be there.
pub(super) fn install<M: Mailbox>(
    alloc: Global,
    image: &mut Image<M>,
    class: ClassId,
    source: &[u8],
) -> Result<(), RedoError>
    ensures ok { OnOk result (Does image.old (entry.Install class source.now) image.new) }
    ensures err { IfErr result (λ e. RefusesMethod image.old class source.now e) }
{
    image.known();
    let before = name_count(image);
    let installed = image.install(alloc, class, source);
    image.known();
    let behind = name_count(image);
    match installed {
        Ok(_) => {
            if behind == before {
                Ok(())
            } else {
                Err(RedoError::MissingNames)
            }
        }
        Err(refusal) => Err(RedoError::Refused(refusal)),
    }
}

/// Removes a method again.
pub(super) fn remove<M: Mailbox>(
    alloc: Global,
    image: &mut Image<M>,
    class: ClassId,
    selector: Selector,
) -> Result<(), RedoError>
    ensures ok { OnOk result (Does image.old (entry.Remove class selector) image.new) }
    ensures err { IfErr result (λ e. OfRules (image_remove_rules image.old class selector) e) }
{
    image.known();
    let removed = image.remove(alloc, class, selector);
    image.known();
    match removed {
        Ok(_) => Ok(()),
        Err(refusal) => Err(RedoError::Refused(refusal)),
    }
}

/// Puts a class under another one again.
pub(super) fn reparent<M: Mailbox>(
    alloc: Global,
    image: &mut Image<M>,
    class: ClassId,
    parent: ClassId,
) -> Result<(), RedoError>
    ensures ok { OnOk result (Does image.old (entry.Reparent class parent) image.new) }
    ensures err { IfErr result (λ e. OfRules (image_reparent_rules image.old class parent) e) }
{
    image.known();
    let moved = image.reparent(alloc, class, parent);
    image.known();
    match moved {
        Ok(_) => Ok(()),
        Err(refusal) => Err(RedoError::Refused(refusal)),
    }
}
