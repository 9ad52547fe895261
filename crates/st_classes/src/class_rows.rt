//! The row of each class.
ghost use Rattle.std.specs.Prelude.{◌≡◌, List, ◌∷◌, ◌++◌, [], ◌<◌, length, Some, None, IfOk, OnOk, slice_set};
ghost use Rattle.std.specs.List.{AllZip, slice_get};
ghost use Rattle.std.specs.Option.{option_copied};
ghost use Rattle.st_classes.specs.Classes.{ClassDef};
ghost use Rattle.st_classes.specs.ClassRows.{IsMoved, IsPlain, IsUnder, Puts, row_own};

use crate::kernel::{Found, kernel_at};
use crate::method_map::MethodMap;
use crate::seq::Seq;
use crate::values::{ClassId, MethodId, Selector};
use std::alloc::{AllocError, Global};
use std::marker::Model;
use std::sync::Arc;

/// What a class table holds of one class.
#[derive(Drop)]
pub struct ClassRow {
    pub name: Seq<u8>,
    pub superclass: Option<ClassId>,
    /// All its instance variables, inherited ones first.
    pub slots: Seq<Seq<u8>>,
    /// The user's methods. The kernel's are in `kernel_at`.
    pub methods: MethodMap,
}

/// A copy of a text.
fn copy_text(alloc: Global, text: &[u8]) -> Result<Seq<u8>, AllocError>
    ensures { IfOk result (λ copy. copy ≡ text.now) }
{
    Ok(Seq::from_vec(Vec::from_slice(alloc, text)?))
}

/// Appends a copy of each text.
fn append_texts(
    alloc: Global,
    copies: &mut Vec<Seq<u8>>,
    texts: &[Seq<u8>],
) -> Result<(), AllocError>
    ensures { OnOk result (copies.new.items ≡ copies.old.items ++ texts.now) }
{
    for text in texts {
        copies.push(copy_text(alloc, text.as_slice())?)?;
    }
    Ok(())
}

/// A copy of the concatenation of two lists of texts.
fn join_texts(
    alloc: Global,
    front: &[Seq<u8>],
    back: &[Seq<u8>],
) -> Result<Seq<Seq<u8>>, AllocError>
    ensures { IfOk result (λ copy. copy ≡ front.now ++ back.now) }
{
    let mut copies = Vec::new(alloc);
    append_texts(alloc, &mut copies, front)?;
    append_texts(alloc, &mut copies, back)?;
    Ok(Seq::from_vec(copies))
}

impl ClassRow {
    /// The method that the row's class has of its own.
    #[inline(always)]
    pub fn own(&self, class: ClassId, selector: Selector) -> Option<Found>
        ensures { result ≡ row_own self.now class selector }
    {
        match self.methods.get(selector) {
            Some(id) => Some(Found::User(id)),
            None => kernel_at(class, selector).map(Found::Kernel),
        }
    }

    /// The row with the user's method for a selector, or with none.
    pub fn with_method(
        &self,
        alloc: Global,
        selector: Selector,
        method: Option<MethodId>,
    ) -> Result<ClassRow, AllocError>
        ensures { IfOk result (λ row. Puts self.now row selector method) }
    {
        Ok(ClassRow {
            name: copy_text(alloc, self.name.as_slice())?,
            superclass: self.superclass,
            slots: join_texts(alloc, self.slots.as_slice(), &[])?,
            methods: self.methods.with(selector, method)?,
        })
    }

    /// The row with another superclass.
    pub fn moved(&self, alloc: Global, parent: ClassId) -> Result<ClassRow, AllocError>
        ensures { IfOk result (λ row. IsMoved self.now row parent) }
    {
        Ok(ClassRow {
            name: copy_text(alloc, self.name.as_slice())?,
            superclass: Some(parent),
            slots: join_texts(alloc, self.slots.as_slice(), &[])?,
            methods: self.methods.again()?,
        })
    }

    /// The row of a kernel class.
    fn plain(
        alloc: Global,
        name: &[u8],
        superclass: Option<ClassId>,
    ) -> Result<ClassRow, AllocError>
        ensures { IfOk result (λ row. IsPlain row (record { name = name.now; parent = superclass; slots = [] })) }
    {
        Ok(ClassRow {
            name: copy_text(alloc, name)?,
            superclass,
            slots: Seq::from_vec(Vec::new(alloc)),
            methods: MethodMap::new(alloc),
        })
    }

    /// The row of a new class whose superclass has this row.
    pub fn under(
        &self,
        alloc: Global,
        name: &[u8],
        parent: ClassId,
        added: &[Seq<u8>],
    ) -> Result<ClassRow, AllocError>
        ensures { IfOk result (λ row. IsUnder self.now row name.now parent added.now) }
    {
        Ok(ClassRow {
            name: copy_text(alloc, name)?,
            superclass: Some(parent),
            slots: join_texts(alloc, self.slots.as_slice(), added)?,
            methods: MethodMap::new(alloc),
        })
    }
}

/// Rows by class number. Tables share them.
#[derive(Drop)]
pub struct ClassRows {
    rows: Vec<Arc<ClassRow>>,
}

impl Model for ClassRows {
    ghost use Rattle.std.specs.Prelude.{List, map};
    ghost use Rattle.std.specs.Arc.{arc_value};
    ghost use Rattle.st_classes.specs.declared.class_rows.ClassRow.{ClassRow};

    ghost Value = { List ClassRow };

    ghost view = { λ r. map arc_value r.rows.items };
}

impl ClassRows {
    pub fn new(alloc: Global) -> ClassRows
        ensures { result ≡ [] }
    {
        ClassRows {
            rows: Vec::new(alloc),
        }
    }

    pub fn len(&self) -> usize
        ensures { result ≡ length self.now }
    {
        self.rows.len()
    }

    #[inline(always)]
    pub fn get(&self, class: ClassId) -> Option<&ClassRow>
        ensures { option_copied result ≡ slice_get self.now class.0 }
    {
        let row: &ClassRow = self.rows.get(class.0 as usize)?;
        Some(row)
    }

    /// The row of a class. The class must exist.
    #[inline(always)]
    pub fn of(&self, class: ClassId) -> &ClassRow
        requires { class.0 < length self.now }
        ensures { slice_get self.now class.0 ≡ Some result.now }
    {
        &self.rows[class.0 as usize]
    }

    /// A second table of the same rows, with room for one more. The rows are shared.
    pub fn again(&self, alloc: Global) -> Result<ClassRows, AllocError>
        ensures { IfOk result (λ rows. rows ≡ self.now) }
    {
        let mut rows = Vec::with_capacity(alloc, self.rows.len() + 1)?;
        for row in &self.rows {
            rows.push(Arc::try_clone(row)?)?;
        }
        Ok(ClassRows { rows })
    }

    /// Appends a row.
    fn push(&mut self, alloc: Global, row: ClassRow) -> Result<(), AllocError>
        ensures { OnOk result (self.new ≡ self.old ++ row ∷ []) }
    {
        self.rows.push(Arc::new(alloc, row)?)?;
        Ok(())
    }

    /// Appends the row of a kernel class.
    pub fn push_plain(
        &mut self,
        alloc: Global,
        name: &[u8],
        superclass: Option<ClassId>,
    ) -> Result<(), AllocError>
        ensures { OnOk result ((ds : List ClassDef) → AllZip IsPlain self.old ds → AllZip IsPlain self.new (ds ++ record { name = name.now; parent = superclass; slots = [] } ∷ [])) }
    {
        let row = ClassRow::plain(alloc, name, superclass)?;
        self.push(alloc, row)
    }

    /// Replaces the row of a class.
    fn set(&mut self, alloc: Global, class: ClassId, row: ClassRow) -> Result<(), AllocError>
        requires { class.0 < length self.old }
        ensures { OnOk result (self.new ≡ slice_set self.old class.0 row) }
    {
        self.rows[class.0 as usize] = Arc::new(alloc, row)?;
        Ok(())
    }

    /// The rows with one appended.
    pub fn with(&self, alloc: Global, row: ClassRow) -> Result<ClassRows, AllocError>
        ensures { IfOk result (λ rows. rows ≡ self.now ++ row ∷ []) }
    {
        let mut rows = self.again(alloc)?;
        rows.push(alloc, row)?;
        Ok(rows)
    }

    /// The rows with one replaced.
    pub fn with_at(
        &self,
        alloc: Global,
        class: ClassId,
        row: ClassRow,
    ) -> Result<ClassRows, AllocError>
        requires { class.0 < length self.now }
        ensures { IfOk result (λ rows. rows ≡ slice_set self.now class.0 row) }
    {
        let mut rows = self.again(alloc)?;
        rows.set(alloc, class, row)?;
        Ok(rows)
    }
}
