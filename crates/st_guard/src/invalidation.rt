//! How caches are brought to the edits of a version, or emptied.
ghost use Rattle.std.specs.Prelude.{◌≡◌, ◌≤◌, ◌-◌, ◌+◌, ◌++◌, ◌<◌, [], ◌∷◌, List, length, take, true, if◌then◌else◌};
ghost use Rattle.st_classes.specs.declared.edits.Edit.{Edit as EditOf};
ghost use Rattle.st_classes.specs.declared.values.Selector.{Selector as SelectorOf};
ghost use Rattle.st_classes.specs.EditLists.{AreLawful};
ghost use Rattle.st_guard.specs.Moves.{IsAt, IsEmptied, floor_noted};

use crate::cache_parts::CacheParts;
use crate::guard::Guard;
use st_classes::edits::Edit;
use st_classes::version::Version;

/// Empties the caches. They are then valid at every list with this number of edits. No memory is taken.
pub fn empty<G: Guard>(caches: &mut CacheParts<G>, edits: u32)
    ensures at { (list : List EditOf) → length list ≡ edits → IsAt (G.count caches.new.guard) (G.floor caches.new.guard) caches.new.sites caches.new.recent caches.new.edits list }
    ensures emptied { IsEmptied (G.floor caches.new.guard) caches.new.sites caches.new.recent edits }
    ensures edits { caches.new.edits ≡ edits }
{
    caches.sites.clear();
    caches.recent.clear();
    caches.guard.reset(edits);
    caches.edits = edits;
}

/// Notes an edit. If memory runs out, it returns false and nothing changes.
fn note<G: Guard>(caches: &mut CacheParts<G>, edit: &Edit) -> bool
    requires count { G.count caches.old.guard ≡ caches.old.edits }
    requires few { caches.old.edits < 4096 }
    ensures noted { result ≡ true → (list : List EditOf) → AreLawful (list ++ edit.now ∷ []) → IsAt (G.count caches.old.guard) (G.floor caches.old.guard) caches.old.sites caches.old.recent caches.old.edits list → IsAt (G.count caches.new.guard) (G.floor caches.new.guard) caches.new.sites caches.new.recent caches.new.edits (list ++ edit.now ∷ []) }
    ensures floors { result ≡ true → (s : SelectorOf) → G.floor caches.new.guard s ≡ (if G.raises edit.now s then caches.old.edits + 1 else G.floor caches.old.guard s) }
    ensures grows { result ≡ true → caches.new.edits ≡ caches.old.edits + 1 }
    ensures sites { caches.new.sites ≡ caches.old.sites }
    ensures recent { caches.new.recent ≡ caches.old.recent }
{
    match caches.guard.note(edit) {
        Ok(()) => {
            caches.edits += 1;
            true
        }
        Err(_) => false,
    }
}

/// Brings caches that are valid at a prefix of a version's edits to all of its edits. If memory runs out, it returns false, and the
/// caches have noted only some of the later edits.
pub fn follow<G: Guard>(caches: &mut CacheParts<G>, version: &Version) -> bool
    requires few { caches.old.edits ≤ length version.now }
    requires at { IsAt (G.count caches.old.guard) (G.floor caches.old.guard) caches.old.sites caches.old.recent caches.old.edits (take caches.old.edits version.now) }
    ensures at { result ≡ true → IsAt (G.count caches.new.guard) (G.floor caches.new.guard) caches.new.sites caches.new.recent caches.new.edits version.now }
    ensures floors { result ≡ true → (s : SelectorOf) → G.floor caches.new.guard s ≡ floor_noted G.raises version.now caches.old.edits s (G.floor caches.old.guard s) (length version.now - caches.old.edits) }
    ensures sites { caches.new.sites ≡ caches.old.sites }
    ensures recent { caches.new.recent ≡ caches.old.recent }
{
    version.known();
    let edits = version.edits();
    'later: while caches.edits < edits {
        let Some(edit) = version.edit(caches.edits) else {
            return false;
        };
        if !note(caches, edit) {
            return false;
        }
    }
    true
}
