//! What a call site goes through.
use st_classes::kernel::Target;
use st_classes::values::{ClassId, MethodId};
use st_sites::entry::Entry;
use st_sites::site::{Site, SiteState};
use std::test::*;

/// What was found for a class at a number of edits.
fn entry(class: u16, mark: u32) -> Entry {
    Entry {
        class: ClassId(class),
        mark,
        target: Target::Run(MethodId(mark)),
    }
}

/// The mark of what a site has of a class.
fn mark(site: &Site, class: u16) -> Option<u32> {
    site.probe(ClassId(class)).map(|entry| entry.mark)
}

/// What a site is filled with: a class and a mark, and then the site's state and the mark that it has for the class.
const FILLS: &[(u16, u32, SiteState, Option<u32>)] = &[
    (8, 1, SiteState::Mono, Some(1)),
    (8, 2, SiteState::Mono, Some(2)),
    (9, 3, SiteState::Poly, Some(3)),
    (10, 3, SiteState::Poly, Some(3)),
    (11, 4, SiteState::Poly, Some(4)),
    (9, 5, SiteState::Poly, Some(5)),
    (12, 6, SiteState::Mega, None),
    (9, 7, SiteState::Mega, None),
];

/// The same for a site that meets five classes at one number of edits.
const FIVE: &[(u16, u32, SiteState, Option<u32>)] = &[
    (8, 3, SiteState::Mono, Some(3)),
    (9, 3, SiteState::Poly, Some(3)),
    (10, 3, SiteState::Poly, Some(3)),
    (11, 3, SiteState::Poly, Some(3)),
    (12, 3, SiteState::Mega, None),
];

// The tables stand behind functions without contracts, so that the proofs of tests carry nothing of them.
fn eight_fills() -> &'static [(u16, u32, SiteState, Option<u32>)] {
    FILLS
}

fn five_classes() -> &'static [(u16, u32, SiteState, Option<u32>)] {
    FIVE
}

/// Whether a site that has met no class fills so.
fn fills(site: &mut Site, rows: &[(u16, u32, SiteState, Option<u32>)]) -> bool {
    if site.state() != SiteState::Empty {
        return false;
    }
    for (class, edits, state, found) in rows {
        site.fill(entry(*class, *edits));
        if site.state() != *state || mark(site, *class) != *found {
            return false;
        }
    }
    true
}

#[test]
fn a_site_fills(rt: HostRuntime) {
    let mut site = Site::new();
    assert!(rt; fills(&mut site, eight_fills()));
}

/// Whether the entries of a site that are dead at a floor go: of three classes, found at 1, 2 and 3 edits, these are left.
fn leaves(floor: u32, left: [Option<u32>; 3]) -> bool {
    let mut site = Site::new();
    site.fill(entry(8, 1));
    site.fill(entry(9, 2));
    site.fill(entry(10, 3));
    site.clear_dead(floor);
    [mark(&site, 8), mark(&site, 9), mark(&site, 10)] == left
}

#[test]
fn dead_entries_go(rt: HostRuntime) {
    assert!(rt;
        leaves(1, [Some(1), Some(2), Some(3)])
            && leaves(2, [None, Some(2), Some(3)])
            && leaves(3, [None, None, Some(3)])
            && leaves(4, [None, None, None])
    );
}

/// The state of a site after what is dead at a floor has gone.
fn state_at(site: &mut Site, floor: u32) -> SiteState {
    site.clear_dead(floor);
    site.state()
}

#[test]
fn a_megamorphic_site_is_left_until_its_mark_is_dead(rt: HostRuntime) {
    let mut site = Site::new();
    assert!(rt;
        fills(&mut site, five_classes())
            && state_at(&mut site, 3) == SiteState::Mega
            && state_at(&mut site, 4) == SiteState::Empty
    );
}
