//! How class tables are built: the kernel's, and a table with one more edit.
ghost use Rattle.std.specs.Prelude.{◌≡◌, ◌≤◌, ℕ, List, [], ◌∷◌, ◌++◌, IfOk, IfErr, length, map, true, false, None};
ghost use Rattle.std.specs.Arc.{arc_value};
ghost use Rattle.st_classes.specs.declared.edits.Edit.{Edit as EditOf};
ghost use Rattle.st_classes.specs.declared.edits.Edit.TheVariants.{Define, Reparent};
ghost use Rattle.st_classes.specs.declared.refusals.Refusal.TheVariants.{NoMemory};
ghost use Rattle.st_classes.specs.Refusals.{Answers, first_of};
ghost use Rattle.st_classes.specs.EditRules.{define_rules, edit_rules, has_twice, install_rules, reparent_rules};
ghost use Rattle.st_classes.specs.MethodSuits.{edit_suits};
ghost use Rattle.st_classes.specs.Classes.{ClassDef, classes_after};
ghost use Rattle.st_classes.specs.Depths.{AreDepths};
ghost use Rattle.st_classes.specs.ClassRows.{plain_class};
ghost use Rattle.st_classes.specs.Tables.{ArePlain, AreRows, IsAt, IsNaming, KeepsNames};

use crate::class_index::ClassIndex;
use crate::class_rows::ClassRows;
use crate::depths::Depths;
use crate::edits::{Edit, SharedEdit};
use crate::kernel::OBJECT;
use crate::refusals::Refusal;
use crate::seq::Seq;
use crate::values::{ClassId, MethodId, Selector};
use crate::version::Version;
use std::alloc::{AllocError, Global};
use std::sync::Arc;

/// The kernel's classes by number: the name and the superclass of each.
const KERNEL: [(&[u8], Option<ClassId>); 8] = [
    (b"Object", None),
    (b"SmallInteger", Some(OBJECT)),
    (b"True", Some(OBJECT)),
    (b"False", Some(OBJECT)),
    (b"UndefinedObject", Some(OBJECT)),
    (b"Symbol", Some(OBJECT)),
    (b"ActorRef", Some(OBJECT)),
    (b"Class", Some(OBJECT)),
];

impl Version {
    /// The rows of classes without methods and instance variables, and the index of their names. The names must be different.
    fn plain_tables(
        alloc: Global,
        classes: &[(&[u8], Option<ClassId>)],
    ) -> Result<(ClassRows, ClassIndex), AllocError>
        requires few { length classes.now ≤ 1024 }
        requires different { has_twice (map (λ c. c.0.now) classes.now) ≡ false }
        ensures { IfOk result (λ tables. ArePlain (map (λ c. plain_class c.0.now c.1) classes.now) tables.0 tables.1) }
    {
        let mut rows = ClassRows::new(alloc);
        let mut index = ClassIndex::new(alloc);
        for class in classes {
            let id = ClassId(rows.len() as u16);
            rows.push_plain(alloc, class.0, class.1)?;
            index.put(alloc, class.0, id)?;
        }
        Ok((rows, index))
    }

    /// The kernel's class table. It has no edits.
    pub fn kernel(alloc: Global) -> Result<Version, AllocError>
        ensures { IfOk result (λ version. version ≡ []) }
    {
        let (rows, index) = Version::plain_tables(alloc, &KERNEL)?;
        let named = Arc::new(alloc, index)?;
        let counts = Depths::kernel(alloc)?;
        let depths = Arc::new(alloc, counts)?;
        Ok(Version {
            edits: Vec::new(alloc),
            rows,
            depths,
            named,
        })
    }

    /// A copy of the list of edits, with room for one more.
    fn edits_again(&self, alloc: Global) -> Result<Vec<SharedEdit>, AllocError>
        ensures { IfOk result (λ edits. edits.items ≡ self.now) }
    {
        let mut edits = Vec::with_capacity(alloc, self.edits.len() + 1)?;
        for edit in &self.edits {
            edits.push(edit.again()?)?;
        }
        Ok(edits)
    }

    /// A second table with the same edits. It shares the edits, the rows, the depths and the names, and takes memory for pointers
    /// only.
    pub fn again(&self, alloc: Global) -> Result<Version, AllocError>
        ensures { IfOk result (λ version. version ≡ self.now) }
    {
        let edits = self.edits_again(alloc)?;
        let rows = self.rows.again(alloc)?;
        let depths = Arc::try_clone(&self.depths)?;
        let named = Arc::try_clone(&self.named)?;
        Ok(Version {
            edits,
            rows,
            depths,
            named,
        })
    }

    /// The edits with one appended.
    fn edits_with(&self, alloc: Global, edit: SharedEdit) -> Result<Vec<SharedEdit>, AllocError>
        ensures { IfOk result (λ edits. edits.items ≡ self.now ++ edit ∷ []) }
    {
        let mut edits = self.edits_again(alloc)?;
        edits.push(edit)?;
        Ok(edits)
    }

    /// The rows with that of a new class appended.
    fn rows_with_class(
        &self,
        alloc: Global,
        name: &[u8],
        parent: ClassId,
        added: &[Seq<u8>],
    ) -> Result<ClassRows, AllocError>
        requires { first_of (define_rules self.now name.now parent added.now) ≡ None }
        ensures { IfOk result (λ rows. AreRows (self.now ++ Define name.now parent added.now ∷ []) rows) }
    {
        self.kept();
        let row = self.row(parent).under(alloc, name, parent, added)?;
        let rows = self.rows.with(alloc, row)?;
        Ok(rows)
    }

    /// The rows after a class's method for a selector changes to this one, or to none.
    fn rows_with_method(
        &self,
        alloc: Global,
        class: ClassId,
        selector: Selector,
        method: Option<MethodId>,
    ) -> Result<ClassRows, AllocError>
        requires { first_of (install_rules self.now class selector) ≡ None }
        ensures { IfOk result (λ rows. (e : EditOf) → IsAt e (length self.now) class selector method → AreRows (self.now ++ e ∷ []) rows) }
    {
        let row = self.row(class).with_method(alloc, selector, method)?;
        let rows = self.rows.with_at(alloc, class, row)?;
        Ok(rows)
    }

    /// The rows after a class gets another superclass.
    fn rows_with_parent(
        &self,
        alloc: Global,
        class: ClassId,
        parent: ClassId,
    ) -> Result<ClassRows, AllocError>
        requires { first_of (reparent_rules self.now class parent) ≡ None }
        ensures { IfOk result (λ rows. AreRows (self.now ++ Reparent class parent ∷ []) rows) }
    {
        self.kept();
        let row = self.row(class).moved(alloc, parent)?;
        let rows = self.rows.with_at(alloc, class, row)?;
        Ok(rows)
    }

    /// The rows after an accepted edit.
    fn rows_with(&self, alloc: Global, edit: &Edit) -> Result<ClassRows, AllocError>
        requires { first_of (edit_rules self.now edit.now) ≡ None }
        ensures { IfOk result (λ rows. AreRows (self.now ++ edit.now ∷ []) rows) }
    {
        match edit {
            Edit::Define {
                name,
                parent,
                slots,
            } => self.rows_with_class(alloc, name.as_slice(), *parent, slots.as_slice()),
            Edit::Install { class, method } => {
                let id = MethodId(self.edits());
                self.rows_with_method(alloc, *class, method.selector(), Some(id))
            }
            Edit::Remove { class, selector } => {
                self.rows_with_method(alloc, *class, *selector, None)
            }
            Edit::Reparent { class, parent } => self.rows_with_parent(alloc, *class, *parent),
        }
    }

    /// The depths with that of a new class appended.
    fn depths_with_class(
        &self,
        alloc: Global,
        name: &[u8],
        parent: ClassId,
        added: &[Seq<u8>],
    ) -> Result<Arc<Depths>, AllocError>
        requires { first_of (define_rules self.now name.now parent added.now) ≡ None }
        ensures { IfOk result (λ depths. AreDepths (self.now ++ Define name.now parent added.now ∷ []) (arc_value depths)) }
    {
        self.kept();
        let depth = self.depth(parent) + 1;
        let counts = self.depths.with(alloc, depth)?;
        let depths = Arc::new(alloc, counts)?;
        Ok(depths)
    }

    /// The depths after a class gets another superclass.
    fn depths_with_parent(
        &self,
        alloc: Global,
        class: ClassId,
        parent: ClassId,
    ) -> Result<Arc<Depths>, AllocError>
        requires { first_of (reparent_rules self.now class parent) ≡ None }
        ensures { IfOk result (λ depths. AreDepths (self.now ++ Reparent class parent ∷ []) (arc_value depths)) }
    {
        self.kept();
        let mut counts = Vec::with_capacity(alloc, self.classes() as usize)?;
        for number in 0..self.classes() {
            let at = ClassId(number as u16);
            counts.push(self.depth_after(at, class, parent) as u8)?;
        }
        let depths = Arc::new(alloc, Depths::from_vec(counts))?;
        Ok(depths)
    }

    /// The same depths, for a table with the same classes.
    fn depths_again(&self) -> Result<Arc<Depths>, AllocError>
        ensures { IfOk result (λ depths. (e : EditOf) → ((cs : List ClassDef) → classes_after cs e ≡ cs) → AreDepths (self.now ++ e ∷ []) (arc_value depths)) }
    {
        let depths = Arc::try_clone(&self.depths)?;
        Ok(depths)
    }

    /// The depths after an accepted edit.
    fn depths_with(&self, alloc: Global, edit: &Edit) -> Result<Arc<Depths>, AllocError>
        requires { first_of (edit_rules self.now edit.now) ≡ None }
        ensures { IfOk result (λ depths. AreDepths (self.now ++ edit.now ∷ []) (arc_value depths)) }
    {
        match edit {
            Edit::Define {
                name,
                parent,
                slots,
            } => self.depths_with_class(alloc, name.as_slice(), *parent, slots.as_slice()),
            Edit::Install { .. } => self.depths_again(),
            Edit::Remove { .. } => self.depths_again(),
            Edit::Reparent { class, parent } => self.depths_with_parent(alloc, *class, *parent),
        }
    }

    /// The names with that of a new class added.
    fn named_with_class(
        &self,
        alloc: Global,
        name: &[u8],
        parent: ClassId,
        added: &[Seq<u8>],
    ) -> Result<Arc<ClassIndex>, AllocError>
        requires { first_of (define_rules self.now name.now parent added.now) ≡ None }
        ensures { IfOk result (λ named. IsNaming (self.now ++ Define name.now parent added.now ∷ []) (arc_value named)) }
    {
        self.kept();
        let class = ClassId(self.classes() as u16);
        let index = self.named.with(alloc, name, class)?;
        let named = Arc::new(alloc, index)?;
        Ok(named)
    }

    /// The same names, for a table with the same classes.
    fn named_again(&self) -> Result<Arc<ClassIndex>, AllocError>
        ensures { IfOk result (λ named. (e : EditOf) → KeepsNames e → IsNaming (self.now ++ e ∷ []) (arc_value named)) }
    {
        let named = Arc::try_clone(&self.named)?;
        Ok(named)
    }

    /// The names after an accepted edit.
    fn named_with(&self, alloc: Global, edit: &Edit) -> Result<Arc<ClassIndex>, AllocError>
        requires { first_of (edit_rules self.now edit.now) ≡ None }
        ensures { IfOk result (λ named. IsNaming (self.now ++ edit.now ∷ []) (arc_value named)) }
    {
        match edit {
            Edit::Define {
                name,
                parent,
                slots,
            } => self.named_with_class(alloc, name.as_slice(), *parent, slots.as_slice()),
            Edit::Install { .. } => self.named_again(),
            Edit::Remove { .. } => self.named_again(),
            Edit::Reparent { .. } => self.named_again(),
        }
    }

    /// The table with one more edit, which no rule may refuse: `refusal` is the test. This table is unchanged, and shares with the
    /// new one what the edit leaves alone. An installed method must suit its class for the names of the image, whatever they are.
    pub fn with_accepted(&self, alloc: Global, edit: SharedEdit) -> Result<Version, AllocError>
        requires accepted { first_of (edit_rules self.now edit) ≡ None }
        requires suits { (names : List (List ℕ)) × (edit_suits names self.now edit ≡ true) }
        ensures { IfOk result (λ version. version ≡ self.now ++ edit ∷ []) }
    {
        self.kept();
        self.methods_known();
        let accepted = edit.edit();
        accepted.known();
        let rows = self.rows_with(alloc, accepted)?;
        let depths = self.depths_with(alloc, accepted)?;
        let named = self.named_with(alloc, accepted)?;
        let edits = self.edits_with(alloc, edit)?;
        Ok(Version {
            edits,
            rows,
            depths,
            named,
        })
    }

    /// The table with one more edit, or the first refusal that applies. This table is unchanged, and shares with the new one what
    /// the edit leaves alone. An installed method must suit its class for the names of the image, whatever they are. A refused edit
    /// is lost. Memory can run out only if no rule refuses the edit.
    ///
    /// Refusals of a definition, in this order: `UnknownClass`, `BadName`, `KernelClass`, `ClassExists`, `SlotClash`, `TooDeep`,
    /// `TooMany` classes, instance variables or edits. Of an install: `UnknownClass`, `KernelMethod`, `TooMany` edits. Of a
    /// removal: `UnknownClass`, `KernelMethod`, `NoSuchMethod` if the class has no method of the user's for the selector, `TooMany`
    /// edits. Of a reparent: `UnknownClass` of the class and then of the superclass, `KernelClass`, `Cycle`, `SlotsDiffer`,
    /// `TooDeep` if a chain through the class would have over 64 classes, `TooMany` edits.
    pub fn with_edit(&self, alloc: Global, edit: Edit) -> Result<Version, Refusal>
        requires { (names : List (List ℕ)) × (edit_suits names self.now edit ≡ true) }
        ensures answers { Answers (first_of (edit_rules self.now edit)) result (λ version. version ≡ self.now ++ edit ∷ []) }
        ensures memory { IfErr result (λ e. e ≡ NoMemory → first_of (edit_rules self.now edit) ≡ None) }
    {
        if let Some(refusal) = self.refusal(&edit) {
            return Err(refusal);
        }
        let Ok(shared) = SharedEdit::new(alloc, edit) else {
            return Err(Refusal::NoMemory);
        };
        match self.with_accepted(alloc, shared) {
            Ok(version) => Ok(version),
            Err(_) => Err(Refusal::NoMemory),
        }
    }
}
