//! How many rows lookups read, and what serves them.
ghost use Rattle.std.specs.Prelude.{◌≡◌, [], ◌∷◌, ℕ, List, Some, true, IfOk, IfSome};
ghost use Rattle.st_classes.specs.MethodSuits.{suits};
ghost use Rattle.st_classes.specs.declared.instructions.Instruction.TheVariants.{PushSelf, Send, Answer};
ghost use Rattle.st_classes.specs.Classes.{is_class};
ghost use Rattle.st_guard.specs.Moves.{IsAt};
ghost use Rattle.st_guard.specs.ValidCaches.{asks};

use crate::tables::{boxed, define, kernel_version};
use st_classes::code::Code;
use st_classes::counted_rows::CountedRows;
use st_classes::edits::Edit;
use st_classes::instructions::Instruction;
use st_classes::kernel::{OBJECT, Target};
use st_classes::keys::{Key, SiteId};
use st_classes::methods::{Method, MethodParts};
use st_classes::refusals::Refusal;
use st_classes::seq::Seq;
use st_classes::values::{ClassId, MethodId, Selector};
use st_classes::version::Version;
use st_guard::caches::{Caches, Moved};
use st_guard::global_guard::GlobalGuard;
use st_guard::guard::Guard;
use st_guard::how::How;
use st_guard::switch_guard::SwitchGuard;
use st_sites::site::SiteState;
use std::alloc::{AllocError, Global};
use std::test::*;

const A: ClassId = ClassId(8);

const B: ClassId = ClassId(9);

pub(crate) const C: ClassId = ClassId(10);

pub(crate) const WHO: Selector = Selector(22);

pub(crate) const MISSING: Selector = Selector(23);

/// A method that sends a message without arguments to itself.
fn asking(
    alloc: Global,
    holder: ClassId,
    selector: Selector,
    asked: Selector,
) -> Result<Method, AllocError>
    ensures holder { IfOk result (λ m. m.holder ≡ holder) }
    ensures selector { IfOk result (λ m. m.selector ≡ selector) }
    ensures arguments { IfOk result (λ m. m.arguments ≡ 0) }
    ensures code { IfOk result (λ m. m.code ≡ PushSelf ∷ Send asked 0 ∷ Answer ∷ []) }
{
    let code = vec![in alloc;
        Instruction::PushSelf,
        Instruction::Send(asked, 0),
        Instruction::Answer,
    ]?;
    let depths = vec![in alloc; 0u8, 1u8, 1u8]?;
    let sites = vec![in alloc; 1u16]?;
    Ok(Method::new(MethodParts {
        holder,
        selector,
        arguments: 0,
        temporaries: 0,
        code: Code::new(alloc, code)?,
        depths: Seq::from_vec(depths),
        sites: Seq::from_vec(sites),
        source: Seq::from_vec(Vec::new(alloc)),
    }))
}

/// One method more.
fn install_method(
    alloc: Global,
    version: &Version,
    class: ClassId,
    method: Method,
) -> Result<Box<Version>, Refusal>
    requires { (names : List (List ℕ)) × (suits names version.now class method ≡ true) }
{
    boxed(
        alloc,
        version.with_edit(alloc, Edit::Install { class, method })?,
    )
}

/// One method more, which sends a message to itself.
fn install(
    alloc: Global,
    version: &Version,
    class: ClassId,
    selector: Selector,
    asked: Selector,
) -> Result<Box<Version>, Refusal> {
    let Ok(method) = asking(alloc, class, selector, asked) else {
        return Err(Refusal::NoMemory);
    };
    install_method(alloc, version, class, method)
}

/// Classes A, B under A and C under B, each with a method `who` that sends `missing`.
pub(crate) fn three_classes(alloc: Global) -> Result<Box<Version>, Refusal> {
    let mut version = kernel_version(alloc)?;
    for (name, parent) in [("A", OBJECT), ("B", A), ("C", B)] {
        version = define(alloc, &version, name.as_bytes(), parent, &[])?;
    }
    for class in [A, B, C] {
        version = install(alloc, &version, class, WHO, MISSING)?;
    }
    Ok(version)
}

/// The site of `missing` in the method `who` of C.
pub(crate) const SITE: SiteId = SiteId {
    method: MethodId(5),
    place: 1,
};

/// What a site looks up.
fn asked_at(version: &Version, site: SiteId) -> Option<(Option<ClassId>, Selector)>
    ensures { result ≡ asks version.now site }
{
    let method = version.method(site.method)?;
    match method.code().get(site.place as usize)? {
        Instruction::Send(selector, _) => Some((None, *selector)),
        Instruction::SuperSend(selector, _) => Some((Some(method.holder()), *selector)),
        _ => None,
    }
}

/// Whether there is the holder of a super send.
fn has_holder(version: &Version, key: Key) -> bool
    ensures { result ≡ true → IfSome key.holder (λ h. is_class version.now h ≡ true) }
{
    match key.holder {
        Some(holder) => version.is_class(holder),
        None => true,
    }
}

/// Whether a site looks up this, where there is a site.
fn has_site(version: &Version, site: Option<SiteId>, key: Key) -> bool
    ensures { result ≡ true → IfSome site (λ id. asks version.now id ≡ Some (key.holder, key.selector)) }
{
    let Some(id) = site else {
        return true;
    };
    match asked_at(version, id) {
        Some((holder, selector)) => holder == key.holder && selector == key.selector,
        None => false,
    }
}

/// What the plain walk finds, where it may be asked.
fn walked(version: &Version, key: Key) -> Option<Target> {
    if !version.is_class(key.class) {
        return None;
    }
    match key.holder {
        None => Some(version.find(key.class, key.selector)),
        Some(holder) if version.is_class(holder) => {
            Some(version.find_super(holder, key.class, key.selector))
        }
        Some(_) => None,
    }
}

/// How a lookup goes and how many rows it reads, where it may be asked and finds what the plain walk finds.
pub(crate) fn look<G: Guard>(
    caches: &mut Caches<G>,
    version: &Version,
    site: Option<SiteId>,
    key: Key,
) -> Option<(How, u64)>
    requires at { IsAt (G.count caches.old.guard) (G.floor caches.old.guard) caches.old.sites caches.old.recent caches.old.edits version.now }
    requires kept { IfSome caches.old.kept (λ k. k ≡ version.now) }
    ensures at { IsAt (G.count caches.new.guard) (G.floor caches.new.guard) caches.new.sites caches.new.recent caches.new.edits version.now }
    ensures kept { IfSome caches.new.kept (λ k. k ≡ version.now) }
{
    if !version.is_class(key.class) || !has_holder(version, key) || !has_site(version, site, key) {
        return None;
    }
    let mut rows = CountedRows::new(version);
    let (target, how) = caches.lookup(site, key, &mut rows);
    let reads = rows.reads();
    (walked(version, key) == Some(target)).then_some((how, reads))
}

/// A send to an instance of C, or a super send in a method of a holder.
pub(crate) fn key(holder: Option<ClassId>, selector: Selector) -> Key {
    Key {
        holder,
        class: C,
        selector,
    }
}

/// What six lookups answer one after the other.
fn looks<G: Guard>(
    caches: &mut Caches<G>,
    alloc: Global,
    version: &Version,
) -> [Option<(How, u64)>; 6] {
    let _moved = caches.move_to(alloc, version);
    [
        look(caches, version, None, key(None, WHO)),
        look(caches, version, None, key(Some(B), WHO)),
        look(caches, version, Some(SITE), key(None, MISSING)),
        look(caches, version, Some(SITE), key(None, MISSING)),
        look(caches, version, None, key(None, MISSING)),
        look(caches, version, Some(SITE), key(None, MISSING)),
    ]
}

/// What they answer while nothing was found yet.
const FIRST: [Option<(How, u64)>; 6] = [
    Some((How::Walk, 1)),
    Some((How::Walk, 2)),
    Some((How::Walk, 8)),
    Some((How::Site, 0)),
    Some((How::Global, 0)),
    Some((How::Site, 0)),
];

/// Whether caches find again what they found, and nothing is left once they have forgotten it.
fn forgets<G: Guard>(caches: &mut Caches<G>, alloc: Global, version: &Version) -> bool {
    let _answers = looks(caches, alloc, version);
    let again = looks(caches, alloc, version);
    caches.forget();
    let state = caches.state(SITE);
    again[0] == Some((How::Global, 0))
        && again[1] == Some((How::Global, 0))
        && again[2] == Some((How::Site, 0))
        && state == SiteState::Empty
        && looks(caches, alloc, version) == FIRST
}

/// New caches on the heap, in which each edit ends all that was found.
pub(crate) fn new_caches(alloc: Global) -> Result<Box<Caches<GlobalGuard>>, AllocError> {
    Ok(Box::new(alloc, Caches::new(alloc, GlobalGuard::new())?)?)
}

/// What becomes of caches that are moved to a version.
fn moved<G: Guard>(caches: &mut Caches<G>, alloc: Global, version: &Version) -> Moved {
    caches.move_to(alloc, version)
}

/// Whether new caches find what they should in a version, follow one that goes on from it, are emptied by the way back, and then are
/// filled again and forget.
fn find_follow_and_forget(alloc: Global) -> Result<bool, Refusal> {
    let version = three_classes(alloc)?;
    let later = define(alloc, &version, b"D", C, &[])?;
    let mut caches = new_caches(alloc)?;
    Ok(
        moved(&mut caches, alloc, &version) == Moved::Followed
            && looks(&mut caches, alloc, &version) == FIRST
            && caches.state(SITE) == SiteState::Mono
            && moved(&mut caches, alloc, &version) == Moved::Followed
            && moved(&mut caches, alloc, &later) == Moved::Followed
            && moved(&mut caches, alloc, &version) == Moved::Emptied
            && forgets(&mut caches, alloc, &version),
    )
}

#[test]
fn caches_find_follow_and_forget(rt: HostRuntime) -> Result<(), Fail> {
    assert!(rt; find_follow_and_forget(rt.alloc())?);
    Ok(())
}

/// How a lookup goes, where it may be asked, in caches that are moved to the version first.
fn ask<G: Guard>(
    caches: &mut Caches<G>,
    alloc: Global,
    version: &Version,
    site: Option<SiteId>,
    key: Key,
) -> Option<How> {
    let _moved = caches.move_to(alloc, version);
    match look(caches, version, site, key) {
        Some((how, _)) => Some(how),
        None => None,
    }
}

/// Whether messages with these selectors, of which none is at a site, all are looked up like this.
fn all_go<G: Guard>(
    caches: &mut Caches<G>,
    alloc: Global,
    version: &Version,
    selectors: (u16, u16),
    how: How,
) -> bool {
    for selector in selectors.0..selectors.1 {
        if ask(caches, alloc, version, None, key(None, Selector(selector))) != Some(how) {
            return false;
        }
    }
    true
}

/// Whether the lookup cache has the newest 1,024 of 1,025 keys.
fn keeps_the_newest(alloc: Global) -> Result<bool, Refusal> {
    let version = three_classes(alloc)?;
    let mut caches = new_caches(alloc)?;
    Ok(
        all_go(&mut caches, alloc, &version, (0, 1025), How::Walk)
            && all_go(&mut caches, alloc, &version, (1, 1025), How::Global)
            && all_go(&mut caches, alloc, &version, (0, 1), How::Walk),
    )
}

#[test]
fn newest_keys_are_kept(rt: HostRuntime) -> Result<(), Fail> {
    assert!(rt; keeps_the_newest(rt.alloc())?);
    Ok(())
}

/// Three classes, and a hundred methods of A behind the three.
fn hundred_methods(alloc: Global) -> Result<Box<Version>, Refusal> {
    let mut version = three_classes(alloc)?;
    for number in 0..100 {
        version = install(alloc, &version, A, Selector(24 + number), MISSING)?;
    }
    Ok(version)
}

/// Whether no send at the sites of the hundred methods is found at its site, or each is.
fn are_at_sites<G: Guard>(
    caches: &mut Caches<G>,
    alloc: Global,
    version: &Version,
    are: bool,
) -> bool {
    for method in 6..106 {
        let site = SiteId {
            method: MethodId(method),
            place: 1,
        };
        match ask(caches, alloc, version, Some(site), key(None, MISSING)) {
            Some(how) if (how == How::Site) == are => {}
            _ => return false,
        }
    }
    true
}

fn keeps_all_sites(alloc: Global) -> Result<bool, Refusal> {
    let version = hundred_methods(alloc)?;
    let mut caches = new_caches(alloc)?;
    let first = are_at_sites(&mut caches, alloc, &version, false);
    Ok(first && are_at_sites(&mut caches, alloc, &version, true))
}

#[test]
fn each_site_is_kept(rt: HostRuntime) -> Result<(), Fail> {
    assert!(rt; keeps_all_sites(rt.alloc())?);
    Ok(())
}

/// The class loses its method.
fn remove(
    alloc: Global,
    version: &Version,
    class: ClassId,
    selector: Selector,
) -> Result<Box<Version>, Refusal> {
    boxed(
        alloc,
        version.with_edit(alloc, Edit::Remove { class, selector })?,
    )
}

/// Another superclass of a class.
fn reparent(
    alloc: Global,
    version: &Version,
    class: ClassId,
    parent: ClassId,
) -> Result<Box<Version>, Refusal> {
    boxed(
        alloc,
        version.with_edit(alloc, Edit::Reparent { class, parent })?,
    )
}

/// An edit of each kind: a definition, an install, a removal, another superclass, and an install of a method for the last name that a
/// table can have.
pub(crate) fn next_edit(
    alloc: Global,
    version: &Version,
    kind: u32,
) -> Result<Box<Version>, Refusal> {
    match kind {
        0 => define(alloc, version, b"D", C, &[]),
        1 => install(alloc, version, B, MISSING, WHO),
        2 => remove(alloc, version, B, MISSING),
        3 => reparent(alloc, version, C, A),
        _ => install(alloc, version, B, Selector(8191), WHO),
    }
}

/// Whether six lookups are all asked, and find what walks find.
fn all_find<G: Guard>(caches: &mut Caches<G>, alloc: Global, version: &Version) -> bool {
    looks(caches, alloc, version).iter().all(Option::is_some)
}

/// Whether caches go on from one version to the next by an edit of each kind, and find there and, moved back, in the first one what
/// walks find.
fn follow_each_kind<G: Guard>(alloc: Global, caches: &mut Caches<G>) -> Result<bool, Refusal> {
    let first = three_classes(alloc)?;
    let mut version = three_classes(alloc)?;
    let mut follow = ask(caches, alloc, &version, None, key(None, WHO)) == Some(How::Walk);
    for kind in 0..5 {
        version = next_edit(alloc, &version, kind)?;
        follow = moved(caches, alloc, &version) == Moved::Followed && follow;
        follow = all_find(caches, alloc, &version) && follow;
    }
    Ok(follow && all_find(caches, alloc, &first) && all_find(caches, alloc, &version))
}

fn global_guard_follows(alloc: Global) -> Result<bool, Refusal> {
    let mut caches = new_caches(alloc)?;
    follow_each_kind(alloc, &mut caches)
}

fn switch_guard_follows(alloc: Global) -> Result<bool, Refusal> {
    match Caches::new(alloc, SwitchGuard::new(alloc)) {
        Ok(mut caches) => follow_each_kind(alloc, &mut caches),
        Err(AllocError) => Err(Refusal::NoMemory),
    }
}

#[test]
fn caches_follow_each_kind_of_edit(rt: HostRuntime) -> Result<(), Fail> {
    assert!(rt; global_guard_follows(rt.alloc())?);
    assert!(rt; switch_guard_follows(rt.alloc())?);
    Ok(())
}

/// Whether a class that is not there is told before all else: under it `x` is no class's name either.
fn refuses_unknown_classes(alloc: Global) -> Result<bool, Refusal> {
    let version = three_classes(alloc)?;
    let nowhere = ClassId(11);
    Ok(
        define(alloc, &version, b"x", nowhere, &[]).err() == Some(Refusal::UnknownClass)
            && install(alloc, &version, nowhere, WHO, MISSING).err() == Some(Refusal::UnknownClass),
    )
}

#[test]
fn unknown_classes_are_told_first(rt: HostRuntime) -> Result<(), Fail> {
    assert!(rt; refuses_unknown_classes(rt.alloc())?);
    Ok(())
}
