//! A table of names, of one owner.
ghost use Rattle.std.specs.Prelude.{◌≡◌, ◌<◌, false, true, length, slice_get, map, is_some, option_map, None, IsTrue, IfNone, IfOk, IfSome, OnOk, OnErr};
ghost use Rattle.st_classes.specs.EditRules.{has_twice};
ghost use Rattle.st_classes.specs.declared.refusals.Refusal.TheVariants.{NoMemory};
ghost use Rattle.st_classes.specs.Kernel.{kernel_selectors, selector};
ghost use Rattle.st_classes.specs.Names.{is_name, interned, intern_rules, texts_of, AreNames};
ghost use Rattle.st_classes.specs.Refusals.{first_of};
ghost use Rattle.st_classes.specs.Selectors.{is_selector, place_of};

use crate::limits;
use crate::refusals::{Limited, Refusal};
use crate::selectors::arity_of;
use crate::values::Selector;
use indexmap::IndexSet;
use std::alloc::{AllocError, Global};
use std::marker::Model;

/// The kernel's selectors, names 0 to 21.
const KERNEL: [&[u8]; 22] = [
    b"==",
    b"=",
    b"class",
    b"isNil",
    b"doesNotUnderstand:",
    b"+",
    b"-",
    b"*",
    b"//",
    b"\\\\",
    b"<",
    b">",
    b"<=",
    b">=",
    b"not",
    b"&",
    b"post:",
    b"post:with:",
    b"post:with:with:",
    b"close",
    b"new",
    b"newActor",
];

/// Selectors and symbols by number, from 0 in the order in which they were interned.
#[derive(Drop)]
pub(crate) struct NameTable {
    texts: IndexSet<Vec<u8>>,
}

impl Model for NameTable {
    ghost use Rattle.std.specs.Prelude.{ℕ, List};

    ghost Value = { List (List ℕ) };

    ghost use Rattle.st_classes.specs.Names.{AreNames, texts_of};

    ghost view = { λ n. texts_of n.texts.keys };

    ghost invariant = { λ n. AreNames (texts_of n.texts.keys) };
}

fn place_in(texts: &IndexSet<Vec<u8>>, text: &[u8]) -> Option<usize>
    ensures place { result ≡ place_of (texts_of texts.now.keys) text.now }
    ensures found { is_some result ≡ is_name (texts_of texts.now.keys) text.now }
    ensures within { IfSome result (λ place. place < length texts.now.keys) }
{
    texts.get_index_of(text)
}

fn add(texts: &mut IndexSet<Vec<u8>>, alloc: Global, text: &[u8]) -> Result<(), AllocError>
    ensures ok { OnOk result (texts_of texts.new.keys ≡ interned (texts_of texts.old.keys) text.now) }
    ensures err { OnErr result (texts.new.keys ≡ texts.old.keys) }
{
    let copy = Vec::from_slice(alloc, text)?;
    texts.insert(copy)?;
    Ok(())
}

// A set of texts, which must be pairwise different.
fn set_of(alloc: Global, texts: &[&[u8]]) -> Result<IndexSet<Vec<u8>>, AllocError>
    requires { has_twice (map (λ t. t.now) texts.now) ≡ false }
    ensures { IfOk result (λ set. texts_of set.keys ≡ map (λ t. t.now) texts.now) }
{
    let mut set = IndexSet::with_capacity(alloc, texts.len())?;
    for text in texts {
        add(&mut set, alloc, text)?;
    }
    Ok(set)
}

/// A copy of a set of texts that are a table of names, with room for one more.
fn copied(texts: &IndexSet<Vec<u8>>, alloc: Global) -> Result<IndexSet<Vec<u8>>, AllocError>
    requires { AreNames (texts_of texts.now.keys) }
    ensures { IfOk result (λ copy. texts_of copy.keys ≡ texts_of texts.now.keys) }
{
    let mut copy = IndexSet::with_capacity(alloc, texts.len() + 1)?;
    for text in texts.as_slice() {
        add(&mut copy, alloc, text.as_slice())?;
    }
    Ok(copy)
}

impl NameTable {
    /// The table of the kernel's 22 selectors.
    pub(crate) fn kernel(alloc: Global) -> Result<NameTable, AllocError>
        ensures { IfOk result (λ n. n ≡ kernel_selectors) }
    {
        let texts = set_of(alloc, &KERNEL)?;
        Ok(NameTable { texts })
    }

    /// A copy of the table, with room for one name more.
    pub(crate) fn copy(&self, alloc: Global) -> Result<NameTable, AllocError>
        ensures { IfOk result (λ n. n ≡ self.now) }
    {
        let texts = copied(&self.texts, alloc)?;
        Ok(NameTable { texts })
    }

    /// What holds of every table: it starts with the kernel's names, each name is a selector, all names are different, and there
    /// are 8,192 at most.
    pub(crate) fn known(&self)
        ensures { AreNames self.now }
    {
        let _ = &self.texts;
    }

    /// The number of a name.
    pub(crate) fn find(&self, text: &[u8]) -> Option<Selector>
        ensures place { result ≡ option_map selector (place_of self.now text.now) }
        ensures found { is_some result ≡ is_name self.now text.now }
        ensures accepted { IfSome result (λ s. (first_of (intern_rules self.now text.now) ≡ None) × (slice_get self.now s.0 ≡ Some text.now)) }
    {
        let place = place_in(&self.texts, text)?;
        Some(Selector(place as u16))
    }

    /// Why a text that is not in the table cannot be appended to it.
    pub(crate) fn refusal(&self, text: &[u8]) -> Option<Refusal>
        requires { is_name self.now text.now ≡ false }
        ensures first { result ≡ first_of (intern_rules self.now text.now) }
        ensures other { IfSome result (λ e. e ≡ NoMemory → ⊥) }
        ensures selector { IfNone result (is_selector text.now ≡ true) }
        ensures room { IfNone result (length self.now < 8192) }
    {
        if arity_of(text).is_none() {
            return Some(Refusal::BadName);
        }
        if self.texts.len() >= limits::NAMES {
            return Some(Refusal::TooMany {
                what: Limited::Names,
            });
        }
        None
    }

    /// Appends a selector that is not in the table, and answers its number.
    pub(crate) fn append(&mut self, alloc: Global, text: &[u8]) -> Result<Selector, AllocError>
        requires new { is_name self.old text.now ≡ false }
        requires selector { is_selector text.now ≡ true }
        requires room { length self.old < 8192 }
        ensures names { OnOk result (self.new ≡ interned self.old text.now) }
        ensures place { IfOk result (λ s. slice_get self.new s.0 ≡ Some text.now) }
        ensures unchanged { OnErr result (self.new ≡ self.old) }
    {
        let place = self.texts.len();
        add(&mut self.texts, alloc, text)?;
        Ok(Selector(place as u16))
    }

    /// The text of a name.
    pub(crate) fn text(&self, name: Selector) -> &[u8]
        requires { name.0 < length self.now }
        ensures text { slice_get self.now name.0 ≡ Some result.now }
        ensures selector { IsTrue (is_selector result.now) }
    {
        self.texts.as_slice()[usize::from(name.0)].as_slice()
    }

    /// The number of names, at most 8,192.
    pub(crate) fn len(&self) -> u32
        ensures { result ≡ length self.now }
    {
        self.texts.len() as u32
    }
}
