//! Image::define, and how an edit of any kind is made.
use crate::history::Item;
use crate::image::Image;
use st_classes::edits::{Edit, SharedEdit};
use st_classes::limits::RUN_EDITS;
use st_classes::refusals::{Limited, Refusal};
use st_classes::seq::Seq;
use st_classes::token::Token;
use st_classes::values::ClassId;
use st_mailbox::mailboxes::Mailbox;
use std::alloc::{AllocError, Global};

/// A class table with one more edit, and the edit, for the history.
#[derive(Drop)]
struct WithEdit {
    token: Token,
    item: SharedEdit,
}

impl<M: Mailbox> Image<M> {
    ghost use Rattle.std.specs.Prelude.{◌≡◌, ◌++◌, [], ◌∷◌, true, None, IfOk};
    ghost use Rattle.st_classes.specs.EditRules.{edit_rules};
    ghost use Rattle.st_classes.specs.MethodSuits.{edit_suits};
    ghost use Rattle.st_classes.specs.Refusals.{first_of};
    ghost use Rattle.st_image.specs.Calls.{Defines, Edits};
    ghost use Rattle.st_image.specs.CompiledEdits.{IsCompiledEdit};
    ghost use Rattle.st_image.specs.Images.{run_rules, world};

    /// Why one more edit is refused, if it is.
    fn run_refusal(&self) -> Option<Refusal>
        ensures { result ≡ first_of (run_rules self.now) }
    {
        if self.earlier.edits() as usize + self.edits_made as usize >= RUN_EDITS {
            return Some(Refusal::TooMany {
                what: Limited::Edits,
            });
        }
        self.room_refusal(1)
    }

    /// Why an edit is refused, if it is.
    fn edit_refusal(&self, edit: &Edit) -> Option<Refusal>
        ensures { result ≡ first_of (edit_rules (world self.now).edits edit.now ++ run_rules self.now) }
    {
        match self.version().refusal(edit) {
            Some(refusal) => Some(refusal),
            None => self.run_refusal(),
        }
    }

    /// The class table with an edit that none of its rules refuses.
    fn with_edit(&self, alloc: Global, edit: Edit) -> Result<WithEdit, AllocError>
        requires accepted { first_of (edit_rules (world self.now).edits edit) ≡ None }
        requires suits { edit_suits self.now.names (world self.now).edits edit ≡ true }
        ensures token { IfOk result (λ w. w.token ≡ (world self.now).edits ++ edit ∷ []) }
        ensures item { IfOk result (λ w. w.item ≡ edit) }
    {
        let shared = SharedEdit::new(alloc, edit)?;
        let item = shared.again()?;
        let version = self.version().with_accepted(alloc, shared)?;
        let token = Token::publish(alloc, version)?;
        Ok(WithEdit { token, item })
    }

    /// Makes an edit; the method of an install must be compiled from its source. The answer is the number of edits. Memory can run out only
    /// if no rule refuses the edit.
    pub(super) fn edit(&mut self, alloc: Global, edit: Edit) -> Result<u32, Refusal>
        requires suits { edit_suits self.old.names (world self.old).edits edit ≡ true }
        requires compiled { IsCompiledEdit self.old.names (world self.old).edits edit }
        ensures { Edits (edit_rules (world self.old).edits edit ++ run_rules self.old) edit self.old result self.new }
    {
        edit.known();
        if let Some(refusal) = self.edit_refusal(&edit) {
            return Err(refusal);
        }
        let made = self.with_edit(alloc, edit)?;
        self.history.reserve(1)?;
        let WithEdit { token, item } = made;
        let edits = token.shown().edits();
        self.token = token;
        self.edits_made += 1;
        self.history.push(Item::Edited(item)).unwrap();
        Ok(edits)
    }

    /// A new class under another, with its own instance variables. The answer is the number of edits.
    ///
    /// Refusals, in this order: `UnknownClass`; `BadName` if the name of the class or of an instance variable is not one; `KernelClass` for
    /// a parent that is a kernel class other than Object; `ClassExists`; `SlotClash` if an instance variable is inherited or named twice;
    /// `TooDeep`; `TooMany` classes, instance variables or edits; `HistoryFull`. Memory can run out before any of these. A refused call
    /// changes nothing.
    pub fn define(
        &mut self,
        alloc: Global,
        name: &[u8],
        parent: ClassId,
        slots: Seq<Seq<u8>>,
    ) -> Result<u32, Refusal>
        ensures { Defines self.old name.now parent slots result self.new }
    {
        let name = name.to_vec(alloc)?;
        self.edit(
            alloc,
            Edit::Define {
                name: Seq::from_vec(name),
                parent,
                slots,
            },
        )
    }
}
