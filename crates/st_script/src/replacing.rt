//! A method is installed over the version that its class has.
ghost use Rattle.std.specs.Prelude.{◌≡◌, ◌⊎◌, true, IfErr, IfOk};
ghost use Rattle.st_classes.specs.declared.refusals.Refusal.TheVariants.{NoMemory};
ghost use Rattle.st_classes.specs.Classes.{is_class};
ghost use Rattle.st_compile.specs.Scopes.{pattern_selector};
ghost use Rattle.st_image.specs.GoingOn.{GoesOnIn};
ghost use Rattle.st_image.specs.Images.{world};
ghost use Rattle.st_image.specs.Installs.{IsUnread};
ghost use Rattle.st_queries.specs.OwnMethods.{own_version as version_in};
ghost use Rattle.st_reader.specs.Faults.{IsBadSource};
ghost use Rattle.st_reader.specs.Spelling.{Spells};
ghost use Rattle.st_reader.specs.Syntax.{Method};
ghost use Rattle.st_script.specs.Replacing.{Replaces, ReplacesIn};

use crate::asking::make;
use crate::calls_of::class_of;
use crate::images::Image;
use st_calls::calls::Call;
use st_calls::holders::Holder;
use st_classes::refusals::Refusal;
use st_classes::seq::Seq;
use st_classes::values::ClassId;
use st_compile::names::pattern_text;
use st_mailbox::ring_box::RingBox;
use st_queries::own_methods::own_version;
use st_reader::reader::read_method;
use st_wire::replies::Reply;
use std::alloc::Global;

/// The version of the method that a class has of its own for the selector of a source; 0 if none is installed.
fn version_over(alloc: Global, image: &Image, class: ClassId, source: &[u8]) -> Result<u32, Refusal>
    requires { is_class (world image.now).edits class ≡ true }
    ensures ok { IfOk result (λ v. (method : Method) × Spells method source.now × (v ≡ version_in image.now.names (world image.now).edits class (pattern_selector method.pattern))) }
    ensures err { IfErr result (λ e. (e ≡ NoMemory) ⊎ (IsUnread source.now × IsBadSource e)) }
{
    let tree = read_method(alloc, source)?;
    let text = pattern_text(alloc, tree.pattern())?;
    Ok(own_version(image.names(), image.version(), class, text.as_slice()))
}

/// Installs a source in a class, if the version of the class's own method for its selector is the one that it goes over.
#[tactic(auto, using(st_calls::proofs::GoingThen::goes_then, st_calls::proofs::GoingThen::goes_by))]
fn replace_in<H: Holder<RingBox>>(
    alloc: Global,
    holder: &mut H,
    mine: &mut H::Mine,
    class: ClassId,
    over: u32,
    source: Seq<u8>,
) -> Reply
    requires { is_class (world (H.image_of holder.old)).edits class ≡ true }
    ensures replaces { ReplacesIn H.image_of H.calls holder.old mine.old class over source result holder.new mine.new }
    ensures later { GoesOnIn (H.image_of holder.old) (H.image_of holder.new) }
{
    match version_over(alloc, holder.image(), class, source.as_slice()) {
        Ok(version) if version == over => make(
            alloc,
            holder,
            mine,
            Call::Install { class, source },
        ),
        Ok(version) => Reply::Refused(Refusal::Stale { version }),
        Err(refusal) => Reply::Refused(refusal),
    }
}

/// The same, for the class that a text names.
#[tactic(auto, using(st_calls::proofs::GoingThen::goes_then, st_calls::proofs::GoingThen::goes_by))]
pub(crate) fn replace<H: Holder<RingBox>>(
    alloc: Global,
    holder: &mut H,
    mine: &mut H::Mine,
    class: &[u8],
    over: u32,
    source: Seq<u8>,
) -> Reply
    ensures replaces { Replaces H.image_of H.calls holder.old mine.old class.now over source result holder.new mine.new }
    ensures later { GoesOnIn (H.image_of holder.old) (H.image_of holder.new) }
{
    match class_of(holder.image(), class) {
        Ok(class) => replace_in(alloc, holder, mine, class, over, source),
        Err(refusal) => Reply::Refused(refusal),
    }
}
