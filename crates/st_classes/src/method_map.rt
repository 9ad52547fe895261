//! The user's methods of a class.
ghost use Rattle.std.specs.Prelude.{◌≡◌, [], ◌==◌, if◌then◌else◌, Some, None, IfOk, OnOk};
ghost use Rattle.st_classes.specs.declared.values.Selector.{Selector as SelectorOf};
ghost use Rattle.st_classes.specs.ClassRows.{method_for};

use crate::values::{MethodId, Selector};
use std::alloc::{AllocError, Global};
use std::collections::HashMap;
use std::marker::Model;

/// Methods by selector.
#[derive(Drop)]
pub struct MethodMap {
    methods: HashMap<Selector, MethodId>,
}

impl Model for MethodMap {
    ghost use Rattle.std.specs.Prelude.{List};
    ghost use Rattle.st_classes.specs.declared.values.Selector.{Selector};
    ghost use Rattle.st_classes.specs.declared.values.MethodId.{MethodId};

    ghost Value = { List (Selector × MethodId) };

    ghost view = { λ m. m.methods.entries };
}

impl MethodMap {
    pub fn new(alloc: Global) -> MethodMap
        ensures { result ≡ [] }
    {
        MethodMap {
            methods: HashMap::new(alloc),
        }
    }

    #[inline(always)]
    pub fn get(&self, selector: Selector) -> Option<MethodId>
        ensures { result ≡ method_for self.now selector }
    {
        self.methods.get(&selector).copied()
    }

    pub fn again(&self) -> Result<MethodMap, AllocError>
        ensures { IfOk result (λ copy. copy ≡ self.now) }
    {
        Ok(MethodMap {
            methods: self.methods.clone()?,
        })
    }

    /// Maps a selector to a method.
    fn put(&mut self, selector: Selector, method: MethodId) -> Result<(), AllocError>
        ensures { OnOk result ((s : SelectorOf) → method_for self.new s ≡ (if selector.0 == s.0 then Some method else method_for self.old s)) }
    {
        self.methods.insert(selector, method)?;
        Ok(())
    }

    /// Removes the method for a selector.
    fn take(&mut self, selector: Selector)
        ensures { (s : SelectorOf) → method_for self.new s ≡ (if selector.0 == s.0 then None else method_for self.old s) }
    {
        let _ = self.methods.remove(&selector);
    }

    /// A copy that maps the selector to the method, or to none.
    pub fn with(
        &self,
        selector: Selector,
        method: Option<MethodId>,
    ) -> Result<MethodMap, AllocError>
        ensures { IfOk result (λ copy. (s : SelectorOf) → method_for copy s ≡ (if selector.0 == s.0 then method else method_for self.now s)) }
    {
        let mut copy = self.again()?;
        match method {
            Some(id) => copy.put(selector, id)?,
            None => copy.take(selector),
        }
        Ok(copy)
    }
}
