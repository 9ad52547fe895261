//! Names that are interned again.
ghost use Rattle.std.specs.Prelude.{◌≡◌, OnOk, IfErr, length};
ghost use Rattle.st_journal.specs.Entries.{IsNamed};
ghost use Rattle.st_journal.specs.Refused.{RefusesName};

use crate::redo_error::RedoError;
use st_image::image::Image;
use st_mailbox::mailboxes::Mailbox;
use std::alloc::Global;

/// The number of names.
pub(super) fn name_count<M: Mailbox>(image: &Image<M>) -> u32
    ensures { result ≡ length image.now.names }
{
    image.names().len()
}

/// Interns a name, which has to be new.
pub(super) fn name<M: Mailbox>(
    alloc: Global,
    image: &mut Image<M>,
    text: &[u8],
) -> Result<(), RedoError>
    ensures ok { OnOk result (IsNamed image.old text.now image.new) }
    ensures err { IfErr result (λ e. RefusesName image.old text.now e) }
{
    if image.names().find(text).is_some() {
        return Err(RedoError::KnownName);
    }
    match image.intern(alloc, text) {
        Ok(_) => Ok(()),
        Err(refusal) => Err(RedoError::Refused(refusal)),
    }
}
