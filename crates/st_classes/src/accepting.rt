//! Which edits a class table accepts.
ghost use Rattle.std.specs.Prelude.{◌≡◌, ◌∷◌, ◌++◌, [], false, true};
ghost use Rattle.std.specs.List.{list_any, list_all};
ghost use Rattle.std.specs.Str.{bytes_eq};
ghost use Rattle.std.specs.Cmp.Lexicographic.{pointwise};
ghost use Rattle.st_classes.specs.Refusals.{first_of};
ghost use Rattle.st_classes.specs.Classes.{chain, classes, inherited, is_class, reparented, slots};
ghost use Rattle.st_classes.specs.Depths.{IsDeep};
ghost use Rattle.st_classes.specs.Selectors.{is_slot_name as slot_name};
ghost use Rattle.st_classes.specs.EditRules.{
  is_among as among,
  is_kernel_class as kernel_class,
  has_too_deep,
  has_twice as twice,
  are_names as names,
  too_many_edits,
  define_rules,
  install_rules,
  remove_rules,
  reparent_rules,
  edit_rules,
};

use crate::edits::Edit;
use crate::kernel::{Found, KERNEL_CLASSES, is_value_class, kernel_at};
use crate::limits;
use crate::refusals::{Limited, Refusal};
use crate::same::same_texts;
use crate::selectors::{is_class_name, is_slot_name};
use crate::seq::Seq;
use crate::values::{ClassId, Selector};
use crate::version::Version;

/// Whether a class is a kernel class.
fn is_kernel(class: ClassId) -> bool
    ensures { result ≡ kernel_class class }
{
    class.0 < KERNEL_CLASSES
}

fn are_slot_names(texts: &[Seq<u8>]) -> bool
    ensures { result ≡ list_all slot_name texts.now }
{
    texts.iter().all(|text| is_slot_name(text.as_slice()))
}

/// Whether the texts can name a class and its own instance variables.
fn are_names(name: &[u8], slots: &[Seq<u8>]) -> bool
    ensures { result ≡ names name.now slots.now }
{
    is_class_name(name) && are_slot_names(slots)
}

fn is_among(text: &[u8], texts: &[Seq<u8>]) -> bool
    ensures { result ≡ list_any (bytes_eq text.now) texts.now }
{
    texts.iter().any(|other| text == other.as_slice())
}

/// Whether a text occurs twice in a list.
fn has_twice(texts: &[Seq<u8>]) -> bool
    ensures { result ≡ twice texts.now }
{
    let mut rest = texts;
    while let [text, later @ ..] = rest {
        if is_among(text.as_slice(), later) {
            return true;
        }
        rest = later;
    }
    false
}

/// Whether a text occurs twice in the concatenation of two lists.
fn has_clash(front: &[Seq<u8>], back: &[Seq<u8>]) -> bool
    ensures { result ≡ twice (front.now ++ back.now) }
{
    let mut rest = front;
    while let [text, later @ ..] = rest {
        if is_among(text.as_slice(), later) || is_among(text.as_slice(), back) {
            return true;
        }
        rest = later;
    }
    has_twice(back)
}

impl Version {
    /// The refusal of one edit too many.
    fn full(&self) -> Option<Refusal>
        ensures { result ≡ first_of (too_many_edits self.now ∷ []) }
    {
        if self.edits() as usize >= limits::EDITS {
            return Some(Refusal::TooMany {
                what: Limited::Edits,
            });
        }
        None
    }

    /// The refusal of a new class.
    fn define_refusal(&self, name: &[u8], parent: ClassId, added: &[Seq<u8>]) -> Option<Refusal>
        ensures { result ≡ first_of (define_rules self.now name.now parent added.now) }
    {
        if !self.is_class(parent) {
            return Some(Refusal::UnknownClass);
        }
        if !are_names(name, added) {
            return Some(Refusal::BadName);
        }
        if is_value_class(parent) {
            return Some(Refusal::KernelClass);
        }
        if self.class_named(name).is_some() {
            return Some(Refusal::ClassExists);
        }
        let inherited = self.slots(parent);
        if has_clash(inherited, added) {
            return Some(Refusal::SlotClash);
        }
        if usize::from(self.depth(parent)) >= limits::CHAIN {
            return Some(Refusal::TooDeep);
        }
        if self.classes() as usize >= limits::CLASSES {
            return Some(Refusal::TooMany {
                what: Limited::Classes,
            });
        }
        if inherited.len() + added.len() > limits::SLOTS {
            return Some(Refusal::TooMany {
                what: Limited::Slots,
            });
        }
        self.full()
    }

    /// The refusal of a method for a selector.
    fn install_refusal(&self, class: ClassId, selector: Selector) -> Option<Refusal>
        ensures { result ≡ first_of (install_rules self.now class selector) }
    {
        if !self.is_class(class) {
            return Some(Refusal::UnknownClass);
        }
        if kernel_at(class, selector).is_some() {
            return Some(Refusal::KernelMethod);
        }
        self.full()
    }

    /// The refusal of a removal.
    fn remove_refusal(&self, class: ClassId, selector: Selector) -> Option<Refusal>
        ensures { result ≡ first_of (remove_rules self.now class selector) }
    {
        if !self.is_class(class) {
            return Some(Refusal::UnknownClass);
        }
        if kernel_at(class, selector).is_some() {
            return Some(Refusal::KernelMethod);
        }
        let Some(Found::User(_)) = self.own(class, selector) else {
            return Some(Refusal::NoSuchMethod);
        };
        self.full()
    }

    /// The instance variables that a class inherits.
    fn inherited(&self, class: ClassId) -> &[Seq<u8>]
        ensures { result.now ≡ inherited self.now class }
    {
        self.kept();
        match self.parent(class) {
            Some(up) => self.slots(up),
            None => &[],
        }
    }

    /// Whether a superclass has exactly the instance variables that a class inherits.
    fn fits_under(&self, class: ClassId, parent: ClassId) -> bool
        requires { is_class self.now parent ≡ true }
        ensures { result ≡ pointwise bytes_eq (slots self.now parent) (inherited self.now class) }
    {
        same_texts(self.slots(parent), self.inherited(class))
    }

    /// The depth of the class `at` once `class` has the superclass `parent`, which is not `class` and not below it.
    pub(crate) fn depth_after(&self, at: ClassId, class: ClassId, parent: ClassId) -> usize
        requires at { is_class self.now at ≡ true }
        requires class { is_class self.now class ≡ true }
        requires parent { is_class self.now parent ≡ true }
        requires apart { among (chain self.now parent) class ≡ false }
        ensures { IsDeep (reparented (classes self.now) class.0 parent) at result }
    {
        self.kept();
        let depth = usize::from(self.depth(at));
        let moved = usize::from(self.depth(class));
        if depth < moved {
            return depth;
        }
        if !self.is_above(class, at) {
            return depth;
        }
        depth - moved + usize::from(self.depth(parent)) + 1
    }

    /// Whether some chain would be too long once `class` has the superclass `parent`, which is not `class` and not below it.
    fn is_too_deep(&self, class: ClassId, parent: ClassId) -> bool
        requires class { is_class self.now class ≡ true }
        requires parent { is_class self.now parent ≡ true }
        requires apart { among (chain self.now parent) class ≡ false }
        ensures { result ≡ has_too_deep (reparented (classes self.now) class.0 parent) }
    {
        self.kept();
        if self.depth(parent) < self.depth(class) {
            return false;
        }
        for number in 0..self.classes() {
            let at = ClassId(number as u16);
            if self.depth_after(at, class, parent) > limits::CHAIN {
                return true;
            }
        }
        false
    }

    /// The refusal of a new superclass.
    fn reparent_refusal(&self, class: ClassId, parent: ClassId) -> Option<Refusal>
        ensures { result ≡ first_of (reparent_rules self.now class parent) }
    {
        if !self.is_class(class) {
            return Some(Refusal::UnknownClass);
        }
        if !self.is_class(parent) {
            return Some(Refusal::UnknownClass);
        }
        if is_kernel(class) || is_value_class(parent) {
            return Some(Refusal::KernelClass);
        }
        if self.is_above(class, parent) {
            return Some(Refusal::Cycle);
        }
        if !self.fits_under(class, parent) {
            return Some(Refusal::SlotsDiffer);
        }
        if self.is_too_deep(class, parent) {
            return Some(Refusal::TooDeep);
        }
        self.full()
    }

    /// Why an edit is refused: the first of its refusals that applies.
    pub fn refusal(&self, edit: &Edit) -> Option<Refusal>
        ensures { result ≡ first_of (edit_rules self.now edit.now) }
    {
        match edit {
            Edit::Define {
                name,
                parent,
                slots,
            } => self.define_refusal(name.as_slice(), *parent, slots.as_slice()),
            Edit::Install { class, method } => self.install_refusal(*class, method.selector()),
            Edit::Remove { class, selector } => self.remove_refusal(*class, *selector),
            Edit::Reparent { class, parent } => self.reparent_refusal(*class, *parent),
        }
    }
}
