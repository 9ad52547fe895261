//! The rows of a class table, as a walk reads them.
ghost use Rattle.std.specs.Prelude.{◌≡◌, ◌<◌, ◌^◌, ◌+◌, ℕ, List, true, ◌%◌};
ghost use Rattle.st_classes.specs.declared.edits.Edit.{Edit as EditOf};
ghost use Rattle.st_classes.specs.Classes.{is_class, parent};
ghost use Rattle.st_classes.specs.EditLists.{AllSound, AreLawful};
ghost use Rattle.st_classes.specs.Walks.{own};

use crate::kernel::Found;
use crate::values::{ClassId, Selector};
use crate::version::Version;

/// The method that a class has of its own for a selector, if any, and its superclass.
#[derive(Clone, Copy, PartialEq, Eq, Debug)]
pub struct Row {
    pub own: Option<Found>,
    pub parent: Option<ClassId>,
}

/// The rows of a list of edits. Reads are counted; the counter wraps to 0 after 2^64 - 1.
pub trait ClassRows {
    /// The edits.
    ghost edits: { Self → List EditOf };

    /// The number of reads.
    ghost reads: { Self → ℕ };

    /// What holds of the edits and of the counter.
    fn known(&self)
        ensures lawful { AreLawful (edits self.now) }
        ensures sound { AllSound (edits self.now) }
        ensures small { reads self.now < 2 ^ 64 };

    /// Reads the row of a class for a selector.
    fn read(&mut self, class: ClassId, selector: Selector) -> Row
        requires { is_class (edits self.old) class ≡ true }
        ensures own { result.own ≡ own (edits self.old) class selector }
        ensures parent { result.parent ≡ parent (edits self.old) class }
        ensures edits { edits self.new ≡ edits self.old }
        ensures reads { reads self.new ≡ (reads self.old + 1) % 2 ^ 64 };
}

/// The rows of a version, with a counter of reads.
#[derive(Drop)]
pub struct CountedRows<'v> {
    version: &'v Version,
    reads: u64,
}

impl<'v> CountedRows<'v> {
    /// No row has been read yet.
    pub fn new(version: &'v Version) -> CountedRows<'v>
        ensures edits { result.version.now ≡ version.now }
        ensures reads { result.reads ≡ 0 }
    {
        CountedRows { version, reads: 0 }
    }

    /// The number of reads.
    pub fn reads(&self) -> u64
        ensures { result ≡ self.now.reads }
    {
        self.reads
    }
}

impl<'v> ClassRows for CountedRows<'v> {
    ghost edits = { λ r. r.version.now };

    ghost reads = { λ r. r.reads };

    fn known(&self) {
        self.version.known();
        let _reads = self.reads;
    }

    #[inline]
    fn read(&mut self, class: ClassId, selector: Selector) -> Row {
        self.reads = self.reads.wrapping_add(1);
        Row {
            own: self.version.own(class, selector),
            parent: self.version.parent(class),
        }
    }
}
