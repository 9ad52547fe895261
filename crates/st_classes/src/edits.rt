//! Edits of the class table.
use crate::methods::Method;
use crate::seq::Seq;
use crate::values::{ClassId, Selector};
use std::alloc::{AllocError, Global};
use std::marker::Model;
use std::sync::Arc;

/// One edit.
#[derive(Drop)]
pub enum Edit {
    /// A new class under another, with the instance variables that it adds.
    Define {
        name: Seq<u8>,
        parent: ClassId,
        slots: Seq<Seq<u8>>,
    },
    /// A method in a class. It replaces the class's own method for its selector.
    Install {
        class: ClassId,
        method: Method,
    },
    /// The class loses its own method for the selector.
    Remove {
        class: ClassId,
        selector: Selector,
    },
    /// The class gets another superclass.
    Reparent {
        class: ClassId,
        parent: ClassId,
    },
}

impl Edit {
    ghost use Rattle.st_classes.specs.EditLists.{IsSoundEdit};

    /// What holds of every edit: the method of an install is sound.
    pub fn known(&self)
        ensures { IsSoundEdit self.now }
    {
        if let Edit::Install { method, .. } = self {
            let _ = method.code();
        }
    }
}

/// An edit that versions and histories share. Contracts see the edit.
#[derive(Drop)]
pub struct SharedEdit {
    edit: Arc<Edit>,
}

impl Model for SharedEdit {
    ghost use Rattle.std.specs.Arc.{arc_value};
    ghost use Rattle.st_classes.specs.declared.edits.Edit.{Edit};

    ghost Value = { Edit };

    ghost view = { λ s. arc_value s.edit };
}

impl SharedEdit {
    ghost use Rattle.std.specs.Prelude.{◌≡◌, IfOk};

    /// Makes an edit that can be shared.
    pub fn new(alloc: Global, edit: Edit) -> Result<SharedEdit, AllocError>
        ensures { IfOk result (λ s. s ≡ edit) }
    {
        Ok(SharedEdit {
            edit: Arc::new(alloc, edit)?,
        })
    }

    /// A second pointer to the edit.
    pub fn again(&self) -> Result<SharedEdit, AllocError>
        ensures { IfOk result (λ s. s ≡ self.now) }
    {
        Ok(SharedEdit {
            edit: Arc::try_clone(&self.edit)?,
        })
    }

    #[inline]
    pub fn edit(&self) -> &Edit
        ensures { result.now ≡ self.now }
    {
        &self.edit
    }
}
