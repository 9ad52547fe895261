//! How a step finds the target of a message.
ghost use Rattle.std.specs.Prelude.{◌≡◌, List, Some, IfSome, true};
ghost use Rattle.st_classes.specs.declared.edits.Edit.{Edit as EditOf};
ghost use Rattle.st_classes.specs.Classes.{is_class};
ghost use Rattle.st_classes.specs.Walks.{found_by};
ghost use Rattle.st_guard.specs.ValidCaches.{asks};
ghost use Rattle.st_turn.specs.Steps.{Asked as AskedOf};

use st_classes::kernel::Target;
use st_classes::keys::{Key, SiteId};
use st_classes::version::Version;

/// A way to find the targets of messages.
pub trait Lookup {
    /// It may be asked about the class table with these edits.
    ghost knows: { Self → List EditOf → Type 0 };

    /// How its state before a question and its state after it are related.
    ghost noted: { List EditOf → Self → AskedOf → Self → Type 0 };

    /// The target of a message that is looked up by this key. `site` is the call site; the message with which a turn begins has
    /// none.
    fn find(&mut self, version: &Version, site: Option<SiteId>, key: Key) -> Target
        requires knows { knows self.old version.now }
        requires class { is_class version.now key.class ≡ true }
        requires holder { IfSome key.holder (λ h. is_class version.now h ≡ true) }
        requires asks { IfSome site (λ id. asks version.now id ≡ Some (key.holder, key.selector)) }
        ensures target { result ≡ found_by version.now key }
        ensures noted { noted version.now self.old (record { site = site; key = key }) self.new }
        ensures knows { knows self.new version.now };
}

/// The walk up the superclass chain. It may be asked about any class table, and remembers nothing.
#[derive(Clone, Copy)]
pub struct PlainWalk;

impl Lookup for PlainWalk {
    ghost knows = { λ walk edits. Unit {0} };

    ghost noted = { λ edits old asked new. Unit {0} };

    #[inline]
    fn find(&mut self, version: &Version, site: Option<SiteId>, key: Key) -> Target {
        match key.holder {
            None => version.find(key.class, key.selector),
            Some(holder) => version.find_super(holder, key.class, key.selector),
        }
    }
}
