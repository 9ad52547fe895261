//! Classes by name.
ghost use Rattle.std.specs.Prelude.{◌≡◌, ℕ, List, [], if◌then◌else◌, Some, IfOk, OnOk};
ghost use Rattle.std.specs.Str.{bytes_eq};
ghost use Rattle.st_classes.specs.ClassIndexes.{named_in};

use crate::values::ClassId;
use std::alloc::{AllocError, Global};
use std::collections::HashMap;
use std::marker::Model;

/// The class of each name.
#[derive(Drop)]
pub struct ClassIndex {
    classes: HashMap<Vec<u8>, ClassId>,
}

impl Model for ClassIndex {
    ghost use Rattle.std.specs.Prelude.{ℕ, List, map};
    ghost use Rattle.st_classes.specs.declared.values.ClassId.{ClassId};
    ghost use Rattle.st_classes.specs.ClassIndexes.{by_text};

    ghost Value = { List (List ℕ × ClassId) };

    ghost view = { λ i. map by_text i.classes.entries };
}

impl ClassIndex {
    pub fn new(alloc: Global) -> ClassIndex
        ensures { result ≡ [] }
    {
        ClassIndex {
            classes: HashMap::new(alloc),
        }
    }

    pub fn get(&self, name: &[u8]) -> Option<ClassId>
        ensures { result ≡ named_in self.now name.now }
    {
        self.classes.get(name).copied()
    }

    fn again(&self) -> Result<ClassIndex, AllocError>
        ensures { IfOk result (λ copy. copy ≡ self.now) }
    {
        Ok(ClassIndex {
            classes: self.classes.clone()?,
        })
    }

    /// Maps a name to a class.
    pub fn put(&mut self, alloc: Global, name: &[u8], class: ClassId) -> Result<(), AllocError>
        ensures { OnOk result ((q : List ℕ) → named_in self.new q ≡ (if bytes_eq q name.now then Some class else named_in self.old q)) }
    {
        let key = Vec::from_slice(alloc, name)?;
        self.classes.insert(key, class)?;
        Ok(())
    }

    /// A copy that also maps a name to a class.
    pub fn with(&self, alloc: Global, name: &[u8], class: ClassId) -> Result<ClassIndex, AllocError>
        ensures { IfOk result (λ copy. (q : List ℕ) → named_in copy q ≡ (if bytes_eq q name.now then Some class else named_in self.now q)) }
    {
        let mut copy = self.again()?;
        copy.put(alloc, name, class)?;
        Ok(copy)
    }
}
