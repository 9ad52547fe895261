//! Image::reparent: a class gets another superclass.
use crate::image::Image;
use st_classes::edits::Edit;
use st_classes::refusals::Refusal;
use st_classes::values::ClassId;
use st_mailbox::mailboxes::Mailbox;
use std::alloc::Global;

impl<M: Mailbox> Image<M> {
    ghost use Rattle.st_image.specs.Calls.{Reparents};

    /// Puts a class under another superclass, which must have the instance variables of the old one. From then on messages are looked up
    /// along the new chain, also for actors in mid-turn; activations keep the methods with which they started. The answer is the number of
    /// edits. The present superclass of the class is accepted too, as an edit.
    ///
    /// Refusals, in this order: `UnknownClass` of the class, then of the superclass; `KernelClass` if the class is the kernel's, or the
    /// superclass is and is not Object; `Cycle` if the superclass is the class or has it on its chain; `SlotsDiffer` if the full list of
    /// its instance variables is not that of the old superclass; `TooDeep` if the chain of the class, or of one below it, would have over
    /// 64 classes; `TooMany` edits; `HistoryFull`. Memory can run out only if none of these applies. A refused call changes nothing.
    pub fn reparent(
        &mut self,
        alloc: Global,
        class: ClassId,
        parent: ClassId,
    ) -> Result<u32, Refusal>
        ensures { Reparents self.old class parent result self.new }
    {
        self.edit(alloc, Edit::Reparent { class, parent })
    }
}
