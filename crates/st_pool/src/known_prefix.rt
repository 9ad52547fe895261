//! The images that were seen under the lock, as far as each thread knows them.
//!
//! The list exists in proofs alone. At run time there is its length under the lock, and in each claim and each worker the length of
//! the prefix that is known there. So two numbers are compared, and not two lists of edits, to know that the edits of a claim are a
//! prefix of those of the present class table.
ghost use Rattle.std.specs.Prelude.{◌≡◌, ◌+◌, ◌<◌, ◌≤◌, ◌^◌, ◌++◌, ◌∷◌, [], length, true, MatchBool};
ghost use mathlib.Core.List.{IsPrefix};
ghost use Rattle.std.specs.Option.{option_copied};
ghost use Rattle.st_pool.specs.Seen.{Along, MayFollow, Precedes, head_of};

use crate::naming::Naming;
use logbook::{Gain, Offer, Plain, Play, Rule, Seen, Start, Word};
use st_image::image::Image;
use st_mailbox::list_box::ListBox;
use st_mailbox::mailboxes::Mailbox;
use std::marker::{Model, PhantomData};

/// The type of an image in the list. Contracts see images with any kind of mailbox alike, so one kind serves for all.
type Shot = Image<ListBox>;

/// The rule of the list.
pub struct Law;

impl Rule<Shot, u64> for Law {
    ghost use Rattle.std.specs.Prelude.{[]};
    ghost use base.Fml.{ftrue};
    ghost use Rattle.st_pool.specs.Seen.{IsKept};

    ghost holds = { λ cells log. IsKept cells log };

    ghost first = { [] };

    ghost hinted = { λ n log. Unit {0} };

    ghost shows = { λ log. [] };

    ghost keeps = { λ names log. ftrue };

    ghost moves = { λ ask before after answer. Unit {0} };
}

/// Threads trade nothing.
pub struct Nothing;

impl Gain<Shot, u64> for Nothing {
    ghost use base.Fml.{ftrue};

    ghost after = { λ names about answer. ftrue };
}

/// A step that adds an image.
pub struct Add;

impl Play<Shot, u64> for Add {
    ghost use Rattle.st_pool.specs.Seen.{Adds};

    ghost then = { Adds };
}

impl<M: Mailbox> Plain<Image<M>, Shot, u64> for Add {
    ghost use Rattle.std.specs.Prelude.{None};

    ghost ask = { λ image. image };

    ghost state = { λ image. None };
}

/// No images yet, and no name.
pub struct Opened {
    head: Word<Shot, u64, Law>,
    pub seen: Seen<Shot, u64, Law>,
    pub ghost empty: { seen.log ≡ [] },
    pub ghost head_is: { head ≡ head_of seen.book },
}

impl Opened {
    /// A list of no images.
    pub fn new() -> Opened {
        let (seen, mut first, _second) = Seen::open(Start::alone(), 0, 0);
        Opened {
            head: Word::tracked(0, &mut first),
            seen,
        }
    }

    /// The word under a name, and the prefix without images.
    pub(crate) fn named<K: Naming>(self) -> (LogHead<K>, KnownPrefix<K>)
        requires { self.seen.book ≡ K.book }
        ensures { result.1 ≡ [] }
    {
        let Opened { head, seen } = self;
        (
            LogHead {
                head,
                of: PhantomData,
            },
            KnownPrefix {
                count: 0,
                seen,
                of: PhantomData,
            },
        )
    }
}

/// The word under the lock: how many images there are.
#[derive(Drop)]
pub struct LogHead<K: Naming> {
    head: Word<Shot, u64, Law>,
    of: PhantomData<K>,
    ghost head_is: { head ≡ head_of K.book },
}

/// A prefix of the images that were seen. Contracts see it as these images.
#[derive(Drop)]
pub struct KnownPrefix<K: Naming> {
    count: u64,
    seen: Seen<Shot, u64, Law>,
    of: PhantomData<K>,
}

impl<K: Naming> Model for KnownPrefix<K> {
    ghost use Rattle.std.specs.Prelude.{◌≡◌, List, length};
    ghost use Rattle.st_image.specs.Images.{ImageView};
    ghost use Rattle.st_pool.specs.Seen.{Along};

    ghost Value = { List ImageView };

    ghost view = { λ f. f.seen.log };

    ghost invariant = { λ f. (f.count ≡ length f.seen.log) × (f.seen.book ≡ K.book) × Along f.seen.log };
}

impl<K: Naming> KnownPrefix<K> {
    /// A copy.
    pub(crate) fn again(&self) -> KnownPrefix<K>
        ensures { result ≡ self.now }
    {
        KnownPrefix {
            count: self.count,
            seen: self.seen.again(),
            of: PhantomData,
        }
    }

    /// The images of a known prefix are a prefix of those of one that has no fewer.
    fn compare(&self, other: &KnownPrefix<K>)
        requires { length self.now ≤ length other.now }
        ensures prefix { IsPrefix self.now other.now }
        ensures along { Along other.now }
    {
        let mut both = self.seen.again();
        both.learn(&other.seen);
    }

    /// Whether there are no more images than another known prefix has. They are then a prefix of the other's.
    pub(crate) fn begins(&self, other: &KnownPrefix<K>) -> bool
        ensures prefix { result ≡ true → IsPrefix self.now other.now }
        ensures along { result ≡ true → Along other.now }
    {
        if self.len() > other.len() {
            return false;
        }
        self.compare(other);
        true
    }

    /// Adds an image to all that were seen, and answers whether it did. It did not if more were seen than this prefix has.
    pub(crate) fn add<M: Mailbox>(&mut self, head: &LogHead<K>, image: &Image<M>) -> bool
        requires room { length self.old < 2 ^ 62 }
        requires follows { MayFollow self.old image.now }
        ensures { result ≡ true → self.new ≡ self.old ++ image.now ∷ [] }
    {
        let mut offer: Offer<Shot, u64, Law, Nothing> = self
            .seen
            .plain::<Nothing, Image<M>, Add>(image);
        let mut pen = self.seen.no_pen();
        let count = self.count;
        let found = head
            .head
            .compare_exchange::<Add, Nothing>(
                count,
                count + 1,
                &mut self.seen,
                &mut offer,
                &mut pen,
            );
        self.count = if found == count { count + 1 } else { found };
        found == count
    }

    /// How many images there are.
    pub(crate) fn len(&self) -> u64
        ensures { result ≡ length self.now }
    {
        self.count
    }
}

/// Whether two prefixes are known, and the first is known to be a prefix of the second.
pub(crate) fn precedes<K: Naming>(
    first: &Option<KnownPrefix<K>>,
    later: &Option<KnownPrefix<K>>,
) -> bool
    ensures { result ≡ true → Precedes first.now later.now }
{
    match (first, later) {
        (Some(first), Some(later)) => first.begins(later),
        _ => false,
    }
}

/// A copy of a known prefix, if there is one.
pub(crate) fn again<K: Naming>(prefix: &Option<KnownPrefix<K>>) -> Option<KnownPrefix<K>>
    ensures { result ≡ prefix.now }
{
    match prefix {
        Some(prefix) => Some(prefix.again()),
        None => None,
    }
}
