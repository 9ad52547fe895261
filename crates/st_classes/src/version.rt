//! Versions of the class table: what they hold, and lookup.
ghost use Rattle.std.specs.Prelude.{◌≡◌, ◌≤◌, Decides, length, true};
ghost use Rattle.std.specs.Option.{option_copied};
ghost use Rattle.std.specs.List.{slice_get};
ghost use Rattle.st_classes.specs.Classes.{
  chain,
  class_count,
  class_name,
  class_named,
  classes,
  IsForest,
  is_class,
  parent,
  slots,
};
ghost use Rattle.st_classes.specs.ClassRows.{IsRow};
ghost use Rattle.st_classes.specs.Tables.{IsKept};
ghost use Rattle.st_classes.specs.EditRules.{is_among};
ghost use Rattle.st_classes.specs.EditLists.{AllSound, AreLawful, Begins, method_at};
ghost use Rattle.st_classes.specs.declared.methods.MethodParts.{MethodParts as PartsOf};
ghost use Rattle.st_classes.specs.Kernel.{does_not_understand};
ghost use Rattle.st_classes.specs.Walks.{or_missing, own, super_target, target, user_method, walk};

mod building;

use crate::class_index::ClassIndex;
use crate::class_rows::{ClassRow, ClassRows};
use crate::depths::Depths;
use crate::edits::{Edit, SharedEdit};
use crate::kernel::{DOES_NOT_UNDERSTAND, Found, Target};
use crate::methods::Method;
use crate::same::begins;
use crate::seq::Seq;
use crate::values::{ClassId, MethodId, Selector};
use std::marker::Model;
use std::sync::Arc;

/// A list of edits, with a row for each class. Contracts see the edits.
#[derive(Drop)]
pub struct Version {
    edits: Vec<SharedEdit>,
    rows: ClassRows,
    /// The depth of each class: the number of classes on its chain. Installs and removals leave it shared.
    depths: Arc<Depths>,
    /// The classes by name. Tables with the same classes share it.
    named: Arc<ClassIndex>,
}

impl Model for Version {
    ghost use Rattle.std.specs.Prelude.{List};
    ghost use Rattle.st_classes.specs.declared.edits.Edit.{Edit};

    ghost Value = { List Edit };

    ghost use Rattle.std.specs.Arc.{arc_value};
    ghost use Rattle.st_classes.specs.Tables.{IsTable};

    ghost view = { λ v. v.edits.items };

    ghost invariant = { λ v. IsTable v.edits.items v.rows (arc_value v.depths) (arc_value v.named) };
}

impl Version {
    /// Shows the part of the invariant that concerns the edits alone.
    #[inline(always)]
    pub(crate) fn kept(&self)
        ensures { IsKept self.now }
    {
        let _ = &self.edits;
    }

    /// Shows that the methods of the class table are sound.
    #[inline(always)]
    fn methods_known(&self)
        ensures { AllSound self.now }
    {
        let _ = &self.edits;
    }

    /// What callers may know of every class table: each edit was accepted after those before it, all methods are sound, no chain
    /// has over 64 classes, there are at most 4,096 edits and 1,024 classes, and each class has at most 64 instance variables.
    #[inline(always)]
    pub fn known(&self)
        ensures lawful { AreLawful self.now }
        ensures sound { AllSound self.now }
        ensures forest { IsForest (classes self.now) }
        ensures few { length self.now ≤ 4096 }
        ensures few_classes { class_count self.now ≤ 1024 }
        ensures few_slots { (c : ClassId) → length (slots self.now c) ≤ 64 }
    {
        self.kept();
        self.methods_known();
    }

    /// The number of edits, at most 4,096.
    pub fn edits(&self) -> u32
        ensures { result ≡ length self.now }
    {
        self.edits.len() as u32
    }

    /// The edit at a place, from 0.
    pub fn edit(&self, place: u32) -> Option<&Edit>
        ensures { option_copied result ≡ slice_get self.now place }
    {
        self.edits.get(place as usize).map(SharedEdit::edit)
    }

    /// The edit at a place, from 0, as a pointer that can be cloned.
    pub fn shared(&self, place: u32) -> Option<&SharedEdit>
        ensures { option_copied result ≡ slice_get self.now place }
    {
        self.edits.get(place as usize)
    }

    /// Whether its edits are a prefix of those of another table. They are compared one by one.
    pub fn begins(&self, later: &Version) -> bool
        ensures { Decides result (Begins self.now later.now) }
    {
        begins(self.edits.as_slice(), later.edits.as_slice())
    }

    /// The number of classes, 8 to 1,024.
    pub fn classes(&self) -> u32
        ensures { result ≡ class_count self.now }
    {
        self.rows.len() as u32
    }

    /// The row of a class.
    #[inline(always)]
    fn row(&self, class: ClassId) -> &ClassRow
        requires { is_class self.now class ≡ true }
        ensures { IsRow self.now class result.now }
    {
        self.rows.of(class)
    }

    /// The name of a class.
    pub fn class_name(&self, class: ClassId) -> Option<&[u8]>
        ensures { option_copied result ≡ class_name self.now class }
    {
        Some(self.rows.get(class)?.name.as_slice())
    }

    /// The class with a given name.
    pub fn class_named(&self, name: &[u8]) -> Option<ClassId>
        ensures { result ≡ class_named self.now name.now }
    {
        self.named.get(name)
    }

    /// The superclass of a class.
    #[inline(always)]
    pub fn parent(&self, class: ClassId) -> Option<ClassId>
        ensures { result ≡ parent self.now class }
    {
        self.rows.get(class)?.superclass
    }

    /// Whether a class has this number.
    pub fn is_class(&self, class: ClassId) -> bool
        ensures { result ≡ is_class self.now class }
    {
        usize::from(class.0) < self.rows.len()
    }

    /// The number of classes on a class's chain, including itself and Object: 1 to 64.
    pub(crate) fn depth(&self, class: ClassId) -> u8
        requires { is_class self.now class ≡ true }
        ensures { result ≡ length (chain self.now class) }
    {
        self.depths.of(class)
    }

    /// Whether `class` is `below` itself or a superclass of it.
    pub(crate) fn is_above(&self, class: ClassId, below: ClassId) -> bool
        requires { is_class self.now below ≡ true }
        ensures { result ≡ is_among (chain self.now below) class }
    {
        self.kept();
        let mut at = below;
        'up: loop {
            if at == class {
                return true;
            }
            match self.parent(at) {
                Some(above) => at = above,
                None => return false,
            }
        }
    }

    /// The instance variables of a class, inherited ones first.
    pub fn slots(&self, class: ClassId) -> &[Seq<u8>]
        requires { is_class self.now class ≡ true }
        ensures { result.now ≡ slots self.now class }
    {
        self.row(class).slots.as_slice()
    }

    /// The method that the edit at a place installed, if it installed one.
    #[inline(always)]
    pub fn method(&self, id: MethodId) -> Option<&Method>
        ensures { option_copied result ≡ method_at self.now id }
    {
        match self.edits.get(id.0 as usize)?.edit() {
            Edit::Install { method, .. } => Some(method),
            _ => None,
        }
    }

    /// The method that the edit at a place installed. It must have installed one.
    #[inline(always)]
    pub fn installed(&self, id: MethodId) -> &Method
        requires { (m : PartsOf) × (method_at self.now id ≡ Some m) }
        ensures { method_at self.now id ≡ Some result.now }
    {
        match self.edits[id.0 as usize].edit() {
            Edit::Install { method, .. } => method,
            _ => unreachable!(),
        }
    }

    /// The class's own method.
    #[inline(always)]
    pub(crate) fn own(&self, class: ClassId, selector: Selector) -> Option<Found>
        requires { is_class self.now class ≡ true }
        ensures { result ≡ own self.now class selector }
    {
        self.row(class).own(class, selector)
    }

    /// The first method found on the walk up from the class.
    #[inline(always)]
    #[tactic(auto, using(crate::proofs::Walking::walk_here, crate::proofs::Walking::walk_ends))]
    fn walk(&self, class: ClassId, selector: Selector) -> Option<Found>
        requires { is_class self.now class ≡ true }
        ensures { result ≡ walk self.now class selector }
    {
        self.kept();
        let mut at = class;
        'up: loop {
            if let Some(found) = self.own(at, selector) {
                return Some(found);
            }
            match self.parent(at) {
                Some(up) => at = up,
                None => return None,
            }
        }
    }

    /// The user's method for `doesNotUnderstand:` that a walk finds, if any.
    #[cold]
    #[inline(never)]
    fn missing(&self, class: ClassId) -> Option<MethodId>
        requires { is_class self.now class ≡ true }
        ensures { result ≡ user_method (walk self.now class does_not_understand) }
    {
        match self.walk(class, DOES_NOT_UNDERSTAND) {
            Some(Found::User(id)) => Some(id),
            _ => None,
        }
    }

    /// The target of a walk: what it found, or else the user's method for `doesNotUnderstand:`.
    #[inline(always)]
    fn or_missing(&self, class: ClassId, found: Option<Found>) -> Target
        requires { is_class self.now class ≡ true }
        ensures { result ≡ or_missing self.now class found }
    {
        match found {
            Some(Found::User(id)) => Target::Run(id),
            Some(Found::Kernel(kernel)) => Target::Primitive(kernel),
            None => Target::Missing(self.missing(class)),
        }
    }

    /// What a send to an instance of the class runs.
    #[inline(always)]
    pub fn find(&self, class: ClassId, selector: Selector) -> Target
        requires { is_class self.now class ≡ true }
        ensures { result ≡ target self.now class selector }
    {
        self.or_missing(class, self.walk(class, selector))
    }

    /// What a super send in a method of `holder` runs, if the receiver is an instance of `class`.
    pub fn find_super(&self, holder: ClassId, class: ClassId, selector: Selector) -> Target
        requires holder { is_class self.now holder ≡ true }
        requires class { is_class self.now class ≡ true }
        ensures { result ≡ super_target self.now holder class selector }
    {
        self.kept();
        let found = match self.parent(holder) {
            Some(up) => self.walk(up, selector),
            None => None,
        };
        self.or_missing(class, found)
    }
}
