//! The classes that have a method of their own for a selector.
ghost use Rattle.std.specs.Prelude.{◌≡◌, true, IfOk, option_map};
ghost use Rattle.serde_json.specs.Data.{string};
ghost use Rattle.serde_json.specs.View.{view};
ghost use Rattle.st_classes.specs.Classes.{is_class};
ghost use Rattle.st_classes.specs.Kernel.{class as class_at};
ghost use Rattle.st_classes.specs.Walks.{own as own_in};
ghost use Rattle.st_image.specs.Loading as spec;
ghost use Rattle.st_queries.specs.Answers.{implementors_told};

use crate::listing::{Rows, list, only};
use crate::own_methods::own;
use crate::texts::class_text;
use st_classes::values::{ClassId, Selector};
use st_classes::version::Version;
use st_wire::told::Told;
use std::alloc::{AllocError, Global};

/// The rows of the classes that have one.
#[derive(Drop)]
struct ImplementorRows<'a> {
    version: &'a Version,
    selector: Selector,
}

impl<'a> Rows for ImplementorRows<'a> {
    ghost is_row = { λ i n. is_class i.version.now (class_at n) ≡ true };

    ghost row_of = { λ i n. option_map (λ found. string (spec.class_text i.version.now (class_at n))) (own_in i.version.now (class_at n) i.selector) };

    fn row(&self, alloc: Global, number: u32) -> Result<Option<Told>, AllocError> {
        self.version.known();
        let class = ClassId(number as u16);
        match own(self.version, class, self.selector) {
            Some(_) => Ok(Some(class_text(alloc, self.version, class)?)),
            None => Ok(None),
        }
    }
}

/// What is told of the classes that have a method of their own for a selector.
pub(crate) fn implementors(
    alloc: Global,
    version: &Version,
    selector: Selector,
) -> Result<Told, AllocError>
    ensures { IfOk result (λ told. view told ≡ implementors_told version.now selector) }
{
    version.known();
    let rows = ImplementorRows { version, selector };
    let told = list(alloc, &rows, 0, version.classes())?;
    only(alloc, "classes", told)
}
