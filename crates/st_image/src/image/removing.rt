//! Image::remove: a class loses its own method for a selector.
use crate::image::Image;
use st_classes::edits::Edit;
use st_classes::refusals::Refusal;
use st_classes::values::{ClassId, Selector};
use st_mailbox::mailboxes::Mailbox;
use std::alloc::Global;

impl<M: Mailbox> Image<M> {
    ghost use Rattle.st_image.specs.Calls.{Removes};

    /// Removes the method that a class has of its own for a selector. The answer is the number of edits.
    ///
    /// Refusals, in this order: `UnknownClass`; `KernelMethod` if the kernel has a method of the class for the selector; `NoSuchMethod` if
    /// the class has no method of its own for it; `TooMany` edits; `HistoryFull`. Memory can run out only if none of these applies. A
    /// refused call changes nothing.
    pub fn remove(
        &mut self,
        alloc: Global,
        class: ClassId,
        selector: Selector,
    ) -> Result<u32, Refusal>
        ensures { Removes self.old class selector result self.new }
    {
        self.edit(alloc, Edit::Remove { class, selector })
    }
}
