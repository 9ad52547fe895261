//! Class tables.
use crate::lists::methods;
use crate::model::Model;
use crate::workers::Answered;
use st_calls::calls::Answer as Called;
use st_classes::kernel::OBJECT;
use st_classes::refusals::Refusal;
use st_classes::values::{ClassId, Selector};
use st_system::events::Answer;
use std::alloc::AllocError;

/// The selector of a source, which is one of those of lists.
fn selector_of(source: &[u8]) -> Selector {
    for (selector, text) in methods() {
        if text.as_bytes() == source {
            return Selector(*selector);
        }
    }
    Selector(0)
}

impl Model {
    /// Whether there is a class.
    pub(crate) fn is_class(&self, class: ClassId) -> bool {
        usize::from(class.0) < self.parents.len().saturating_add(8)
    }

    /// The superclass of a class that was defined.
    fn parent_of(&self, class: ClassId) -> Option<ClassId> {
        self.parents
            .get(usize::from(class.0.checked_sub(8)?))
            .copied()
    }

    /// Whether a class is another one, or stands above it. No chain has over eight classes.
    fn is_above(&self, class: ClassId, below: ClassId) -> bool {
        let mut at = below;
        for _step in 0..8 {
            if at == class {
                return true;
            }
            match self.parent_of(at) {
                Some(up) => at = up,
                None => return false,
            }
        }
        false
    }

    pub(super) fn define(&mut self, parent: ClassId) -> Answered {
        match self.parents.push(parent) {
            Ok(()) => self.edited(),
            Err(_) => Err(Refusal::NoMemory),
        }
    }

    /// Object has no instance variable, and all classes that are defined have the same one.
    pub(super) fn reparent(&mut self, class: ClassId, parent: ClassId) -> Answered {
        if !self.is_class(class) || !self.is_class(parent) {
            return Err(Refusal::UnknownClass);
        }
        let Some(old) = self.parent_of(class) else {
            return Err(Refusal::KernelClass);
        };
        if parent != OBJECT && parent.0 < 8 {
            return Err(Refusal::KernelClass);
        }
        if self.is_above(class, parent) {
            return Err(Refusal::Cycle);
        }
        if (old == OBJECT) != (parent == OBJECT) {
            return Err(Refusal::SlotsDiffer);
        }
        if let Some(above) = self.parents.get_mut(usize::from(class.0.saturating_sub(8))) {
            *above = parent;
        }
        self.edited()
    }

    /// Where a method is, among those that there are.
    fn place_of(&self, class: ClassId, selector: Selector) -> Option<usize> {
        for (place, method) in self.methods.iter().enumerate() {
            if *method == (class, selector) {
                return Some(place);
            }
        }
        None
    }

    /// The class table has one edit more.
    pub(super) fn edited(&mut self) -> Answered {
        self.edits = self.edits.saturating_add(1);
        Ok(Answer::Called(Called::Version(self.edits)))
    }

    fn add_method(&mut self, class: ClassId, selector: Selector) -> Result<(), AllocError> {
        if self.place_of(class, selector).is_none() {
            self.methods.push((class, selector))?;
        }
        Ok(())
    }

    pub(super) fn install(&mut self, class: ClassId, source: &[u8]) -> Answered {
        if !self.is_class(class) {
            return Err(Refusal::UnknownClass);
        }
        let selector = selector_of(source);
        self.add_method(class, selector)?;
        self.edited()
    }

    pub(super) fn remove(&mut self, class: ClassId, selector: Selector) -> Answered {
        if !self.is_class(class) {
            return Err(Refusal::UnknownClass);
        }
        let Some(place) = self.place_of(class, selector) else {
            return Err(Refusal::NoSuchMethod);
        };
        if let Some(method) = self.methods.get_mut(place) {
            *method = (class, Selector(0));
        }
        self.edited()
    }
}
