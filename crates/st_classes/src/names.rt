//! The name table, which many can read at the same time.
ghost use Rattle.std.specs.Prelude.{◌≡◌, ◌<◌, true, false, length, slice_get, option_map, None, IsTrue, IfOk, IfErr, OnOk, OnErr};
ghost use Rattle.std.specs.Arc.{arc_value};
ghost use Rattle.st_classes.specs.declared.refusals.Refusal.TheVariants.{NoMemory};
ghost use Rattle.st_classes.specs.Kernel.{kernel_selectors, selector};
ghost use Rattle.st_classes.specs.Names.{is_name, interned, intern_rules, AreNames};
ghost use Rattle.st_classes.specs.Refusals.{first_of, Answers};
ghost use Rattle.st_classes.specs.Selectors.{is_selector, place_of};
ghost use Rattle.st_classes.specs.MethodSuits.{arity_at};

use crate::name_table::NameTable;
use crate::refusals::Refusal;
use crate::selectors::arity_of;
use crate::values::Selector;
use std::alloc::{AllocError, Global};
use std::marker::Model;
use std::sync::Arc;

/// Selectors and symbols by number, from 0 in the order in which they were interned. A name never changes its number.
///
/// Others can read the table of a moment while it grows ([`Names::again`]). A table that others read is copied before a name is added,
/// so at most once for each name.
#[derive(Drop)]
pub struct Names {
    table: Arc<NameTable>,
}

impl Model for Names {
    ghost use Rattle.std.specs.Prelude.{ℕ, List};
    ghost use Rattle.std.specs.Arc.{arc_value};

    ghost Value = { List (List ℕ) };

    ghost view = { λ n. arc_value n.table };
}

/// Appends a selector that is not in a table, and answers its number.
fn append(table: &mut Arc<NameTable>, alloc: Global, text: &[u8]) -> Result<Selector, AllocError>
    requires new { is_name (arc_value table.old) text.now ≡ false }
    requires selector { is_selector text.now ≡ true }
    requires room { length (arc_value table.old) < 8192 }
    ensures names { OnOk result (arc_value table.new ≡ interned (arc_value table.old) text.now) }
    ensures place { IfOk result (λ s. slice_get (arc_value table.new) s.0 ≡ Some text.now) }
    ensures unchanged { OnErr result (arc_value table.new ≡ arc_value table.old) }
{
    match Arc::get_mut(table) {
        Some(own) => own.append(alloc, text),
        None => {
            let mut copy = table.copy(alloc)?;
            let name = copy.append(alloc, text)?;
            *table = Arc::new(alloc, copy)?;
            Ok(name)
        }
    }
}

impl Names {
    /// The table of the kernel's 22 selectors.
    pub fn kernel(alloc: Global) -> Result<Names, AllocError>
        ensures { IfOk result (λ n. n ≡ kernel_selectors) }
    {
        Ok(Names {
            table: Arc::new(alloc, NameTable::kernel(alloc)?)?,
        })
    }

    /// The same table, for someone who reads it while this one grows. It takes no memory.
    pub fn again(&self) -> Result<Names, AllocError>
        ensures { IfOk result (λ n. n ≡ self.now) }
    {
        Ok(Names {
            table: Arc::try_clone(&self.table)?,
        })
    }

    /// What holds of every table: it starts with the kernel's names, each name is a selector, all names are different, and there
    /// are 8,192 at most.
    pub fn known(&self)
        ensures { AreNames self.now }
    {
        self.table.known();
    }

    /// The number of a selector. A text that is not in the table yet is appended.
    ///
    /// `BadName` says that the text is not a selector. `TooMany` says that it is not in the table, and the table has 8,192 names.
    /// Memory can run out only when the text is appended. A refused call changes nothing.
    pub fn intern(&mut self, alloc: Global, text: &[u8]) -> Result<Selector, Refusal>
        ensures answers { Answers (first_of (intern_rules self.old text.now)) result (λ s. slice_get self.new s.0 ≡ Some text.now) }
        ensures names { OnOk result (self.new ≡ interned self.old text.now) }
        ensures unchanged { OnErr result (self.new ≡ self.old) }
        ensures memory { IfErr result (λ e. e ≡ NoMemory → (first_of (intern_rules self.old text.now) ≡ None) × (is_name self.old text.now ≡ false)) }
    {
        if let Some(name) = self.table.find(text) {
            return Ok(name);
        }
        if let Some(refusal) = self.table.refusal(text) {
            return Err(refusal);
        }
        Ok(append(&mut self.table, alloc, text)?)
    }

    /// The number of a name.
    pub fn find(&self, text: &[u8]) -> Option<Selector>
        ensures { result ≡ option_map selector (place_of self.now text.now) }
    {
        self.table.find(text)
    }

    /// The text of a name.
    pub fn text(&self, name: Selector) -> &[u8]
        requires { name.0 < length self.now }
        ensures text { slice_get self.now name.0 ≡ Some result.now }
        ensures selector { IsTrue (is_selector result.now) }
    {
        self.table.text(name)
    }

    /// The number of arguments of a selector, at most 8.
    pub fn arity(&self, name: Selector) -> u8
        requires { name.0 < length self.now }
        ensures { arity_at self.now name ≡ Some result }
    {
        match arity_of(self.text(name)) {
            Some(arguments) => arguments,
            None => unreachable!(),
        }
    }

    /// The number of names, at most 8,192.
    pub fn len(&self) -> u32
        ensures { result ≡ length self.now }
    {
        self.table.len()
    }
}
