//! Equality of edits and of lists of texts. Shared edits are compared by content.
ghost use Rattle.std.specs.Prelude.{◌≡◌, Decides};
ghost use Rattle.st_classes.specs.EditLists.{Begins};

use crate::edits::{Edit, SharedEdit};
use crate::instructions::Instruction;
use crate::methods::Method;
use crate::seq::Seq;

fn same_bytes(a: &[u8], b: &[u8]) -> bool
    ensures { Decides result (a.now ≡ b.now) }
{
    a == b
}

fn same_places(a: &[u16], b: &[u16]) -> bool
    ensures { Decides result (a.now ≡ b.now) }
{
    a == b
}

fn same_code(a: &[Instruction], b: &[Instruction]) -> bool
    ensures { Decides result (a.now ≡ b.now) }
{
    if a.len() != b.len() {
        return false;
    }
    'code: for place in 0..a.len() {
        if a[place] != b[place] {
            return false;
        }
    }
    true
}

/// Whether two lists hold the same texts.
pub fn same_texts(a: &[Seq<u8>], b: &[Seq<u8>]) -> bool
    ensures { Decides result (a.now ≡ b.now) }
{
    if a.len() != b.len() {
        return false;
    }
    'texts: for place in 0..a.len() {
        if !same_bytes(a[place].as_slice(), b[place].as_slice()) {
            return false;
        }
    }
    true
}

fn same_method(a: &Method, b: &Method) -> bool
    ensures { Decides result (a.now ≡ b.now) }
{
    a.holder() == b.holder()
        && a.selector() == b.selector()
        && a.arguments() == b.arguments()
        && a.temporaries() == b.temporaries()
        && same_code(a.code(), b.code())
        && same_bytes(a.depths(), b.depths())
        && same_places(a.sites(), b.sites())
        && same_bytes(a.source(), b.source())
}

fn same_edit(a: &Edit, b: &Edit) -> bool
    ensures { Decides result (a.now ≡ b.now) }
{
    match (a, b) {
        (
            Edit::Define {
                name,
                parent,
                slots,
            },
            Edit::Define {
                name: other_name,
                parent: other_parent,
                slots: other_slots,
            },
        ) => {
            parent == other_parent
                && same_bytes(name.as_slice(), other_name.as_slice())
                && same_texts(slots.as_slice(), other_slots.as_slice())
        }
        (
            Edit::Install { class, method },
            Edit::Install {
                class: other_class,
                method: other_method,
            },
        ) => class == other_class && same_method(method, other_method),
        (
            Edit::Remove { class, selector },
            Edit::Remove {
                class: other_class,
                selector: other_selector,
            },
        ) => class == other_class && selector == other_selector,
        (
            Edit::Reparent { class, parent },
            Edit::Reparent {
                class: other_class,
                parent: other_parent,
            },
        ) => class == other_class && parent == other_parent,
        _ => false,
    }
}

/// Whether the first list of edits is a prefix of the second.
pub fn begins(first: &[SharedEdit], all: &[SharedEdit]) -> bool
    ensures { Decides result (Begins first.now all.now) }
{
    if first.len() > all.len() {
        return false;
    }
    'edits: for place in 0..first.len() {
        if !same_edit(first[place].edit(), all[place].edit()) {
            return false;
        }
    }
    true
}
