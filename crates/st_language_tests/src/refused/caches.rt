//! Lookups and moves of caches, which no want of memory refuses: a target is always that of the plain walk, and it is found as the caches
//! have it that stand.
use crate::lookups::{MISSING, SITE, key, look, new_caches, next_edit, three_classes};
use st_classes::refusals::Refusal;
use st_classes::version::Version;
use st_guard::caches::{Caches, Moved};
use st_guard::guard::Guard;
use st_guard::how::How;
use st_guard::switch_guard::SwitchGuard;
use st_sites::site::SiteState;
use std::alloc::{AllocError, Global};
use std::test::*;

/// How a lookup goes and how many rows it reads: at its site, by the lookup cache, and by a walk from C up to Object.
const AT_SITE: Option<(How, u64)> = Some((How::Site, 0));

const BY_CACHE: Option<(How, u64)> = Some((How::Global, 0));

const BY_WALK: Option<(How, u64)> = Some((How::Walk, 8));

/// How caches are left, and how lookups went.
type Looked = (Moved, SiteState, [Option<(How, u64)>; 5], SiteState);

/// Moves caches, and sends `missing` five times: at a site, twice at none, and twice at the site again. The state of the site is looked at
/// behind the first time and in the end.
fn looked<G: Guard>(alloc: Global, caches: &mut Caches<G>, version: &Version) -> Looked {
    let moved = caches.move_to(alloc, version);
    let key = key(None, MISSING);
    let first = look(caches, version, Some(SITE), key);
    let state = caches.state(SITE);
    let answers = [
        first,
        look(caches, version, None, key),
        look(caches, version, None, key),
        look(caches, version, Some(SITE), key),
        look(caches, version, Some(SITE), key),
    ];
    (moved, state, answers, caches.state(SITE))
}

/// Whether lookups went as they must in caches that had nothing, of which one growth at most was refused: that of the site, or that of the
/// lookup cache.
fn goes_from_nothing(looked: &Looked) -> bool {
    let (_, state, answers, last) = looked;
    let is_found = match state {
        SiteState::Empty => *answers == [BY_WALK, BY_CACHE, BY_CACHE, BY_CACHE, AT_SITE],
        _ => {
            *answers == [BY_WALK, BY_CACHE, BY_CACHE, AT_SITE, AT_SITE]
                || *answers == [BY_WALK, BY_WALK, BY_CACHE, AT_SITE, AT_SITE]
        }
    };
    is_found && *last == SiteState::Mono
}

/// Whether they went so in caches that had all of it.
fn goes_on(looked: &Looked) -> bool {
    let (_, state, answers, last) = looked;
    *state == SiteState::Mono
        && *answers == [AT_SITE, BY_CACHE, BY_CACHE, AT_SITE, AT_SITE]
        && *last == SiteState::Mono
}

/// Whether lookups went as the move before them has it. Caches that follow have what they had, if the edits leave it alive; those that starve
/// have nothing; and those that have starved before, and may keep no list, are emptied.
fn goes_as_moved(before: Moved, looked: &Looked, is_alive: bool) -> bool {
    match looked.0 {
        Moved::Followed if is_alive => goes_on(looked),
        Moved::Followed | Moved::Starved => goes_from_nothing(looked),
        Moved::Emptied => before == Moved::Starved && goes_from_nothing(looked),
    }
}

/// Whether new caches go to a version, on to one with a class more, and stay there. `keeps` says whether the guard keeps what such an edit
/// does not touch.
fn go<G: Guard>(alloc: Global, caches: &mut Caches<G>, keeps: bool) -> Result<bool, Refusal> {
    let version = three_classes(alloc)?;
    let later = next_edit(alloc, &version, 0)?;
    let first = looked(alloc, caches, &version);
    let second = looked(alloc, caches, &later);
    let third = looked(alloc, caches, &later);
    Ok(
        goes_as_moved(Moved::Followed, &first, false)
            && goes_as_moved(first.0, &second, keeps)
            && goes_as_moved(second.0, &third, true),
    )
}

fn global_guard_goes(alloc: Global) -> Result<bool, Refusal> {
    let mut caches = new_caches(alloc)?;
    go(alloc, &mut caches, false)
}

fn switch_guard_goes(alloc: Global) -> Result<bool, Refusal> {
    match Caches::new(alloc, SwitchGuard::new(alloc)) {
        Ok(mut caches) => go(alloc, &mut caches, true),
        Err(AllocError) => Err(Refusal::NoMemory),
    }
}

#[test]
fn lookups_find_what_stands(rt: HostRuntime) -> Result<(), Fail> {
    assert!(rt; global_guard_goes(rt.alloc())?, "one floor for all");
    assert!(rt; switch_guard_goes(rt.alloc())?, "a floor for each selector");
    Ok(())
}
