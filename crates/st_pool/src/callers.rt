//! Callers: who posts and edits, by one hold of the lock a call.
ghost use Rattle.std.specs.Prelude.{◌≡◌, ◌+◌, is_ok};
ghost use Rattle.std.specs.Borrow.{Bor};
ghost use Rattle.std.specs.Fn.{FnOnceReturnsAt};
ghost use Rattle.st_classes.specs.Refusals.{first_of};
ghost use Rattle.st_image.specs.Calls.{AnswersExactly, Closes, Creates, Defines, InstallsIn, Interns, Removes, Reparents};
ghost use Rattle.st_image.specs.GoingOn.{GoesOnIn};
ghost use Rattle.st_image.specs.Images.{ImageView, world};
ghost use Rattle.st_image.specs.Outcomes.{image_outcome};
ghost use Rattle.st_image.specs.PostRules.{from_client};
ghost use Rattle.st_image.specs.Stats.{installed_own, method_stats, stats_rules};
ghost use Rattle.st_calls.specs.Growth.{counted};
ghost use Rattle.st_pool.specs.Calling.{CallsOnce, PostsOnce};
ghost use Rattle.st_pool.specs.Checkpointed.{Checkpoints, with_checkpoint};
ghost use Rattle.st_pool.specs.Done.{Finds, HasAtLeast, PoolView, one_call_more};

use crate::answers::{closed, counts, created, position, version};
use crate::holds::{Calling, Condition, Interning, Job};
use crate::naming::Naming;
use crate::pool_state::PoolState;
use crate::shared::Shared;
use crate::shares::CallerShare;
use st_calls::calls::{Answer, Call};
use st_classes::refusals::Refusal;
use st_classes::seq::Seq;
use st_classes::values::{ActorId, ClassId, Selector, Values};
use st_image::counts::Counts;
use st_image::image::Image;
use st_image::tallies::SiteStats;
use st_mailbox::mailboxes::Mailbox;
use st_mailbox::ring_box::RingBox;
use st_turn::body::Outcome;
use std::alloc::{AllocError, Global};
use std::marker::Model;
use std::sync::{MutexGuard, Wait};
use std::time::{Clock, Duration};

/// Who posts and edits, by one hold of the lock a call. Contracts see what it has done: how many of its edits were accepted, a receipt
/// for each of its posts that was, how many items of histories its checkpoints have emptied, and how many calls it has made.
///
/// Each call answers as the image's call of its name does, in an image that has at least what this caller has done. A call that is
/// refused leaves the caller as it was, but it is counted.
#[derive(Drop)]
pub struct Caller<'a, K: Naming, M: Mailbox> {
    shared: &'a Shared<K, M>,
    share: CallerShare<K>,
}

impl<'a, K: Naming, M: Mailbox> Model for Caller<'a, K, M> {
    ghost use Rattle.st_pool.specs.Done.{Done};

    ghost Value = { Done };

    ghost view = { λ s. s.share };
}

impl<'a, K: Naming, M: Mailbox> Caller<'a, K, M> {
    /// A caller that holds a share.
    pub(crate) fn new(shared: &'a Shared<K, M>, share: CallerShare<K>) -> Caller<'a, K, M>
        ensures { result ≡ share }
    {
        Caller { shared, share }
    }

    /// Does something in one hold of the lock. The image is lawful then and has at least what this caller has done. If something has
    /// moved in the hold, one worker that sleeps is woken, and one that rests; none is if one looks for what moves, who finds it.
    pub fn hold<R: Wait, J: Job<K, M>>(&mut self, rt: &R, alloc: Global, job: J) -> J::Out
        ensures { (o : PoolView) × (p : PoolView) × Finds K.start K.first self.old o × J.done job o self.old result p self.new }
    {
        let pool = self.shared.enter(rt);
        self.run_in(pool, alloc, job)
    }

    /// The same, in a hold that begins once a condition holds, or this long has passed. The thread sleeps for it.
    pub fn hold_when<R: Wait + Clock, C: Condition<K, M>, J: Job<K, M>>(
        &mut self,
        rt: &R,
        alloc: Global,
        condition: &C,
        most: Duration,
        job: J,
    ) -> J::Out
        ensures { (o : PoolView) × (p : PoolView) × Finds K.start K.first self.old o × J.done job o self.old result p self.new }
    {
        let pool = self.shared.enter_when(rt, condition, most);
        self.run_in(pool, alloc, job)
    }

    /// Does something in a hold, which ends with it.
    #[inline]
    fn run_in<J: Job<K, M>>(
        &mut self,
        mut pool: MutexGuard<'_, PoolState<K, M>>,
        alloc: Global,
        job: J,
    ) -> J::Out
        ensures { (o : PoolView) × (p : PoolView) × Finds K.start K.first self.old o × J.done job o self.old result p self.new }
    {
        let Caller { shared, share } = self;
        pool.audit(share);
        let moves = pool.moves();
        let out = job.run(alloc, &mut pool, share);
        let has_looker = pool.waiting.has_looker();
        let has_moved = pool.moves() != moves;
        let wakes = pool.wakes_past(moves);
        let news = pool.take_news();
        drop(pool);
        shared.tell_looker_if(has_looker && has_moved);
        shared.wake_if(wakes);
        shared.notify(news);
        out
    }

    /// Makes a call of the image, in one hold.
    pub fn call<R: Wait>(&mut self, rt: &R, alloc: Global, call: Call) -> Result<Answer, Refusal>
        ensures { CallsOnce K.start K.first self.old call result self.new }
    {
        self.hold(rt, alloc, Calling { call })
    }

    /// Makes room for the receipt of a message with this many arguments, so that its post takes no memory for it in its hold.
    pub fn make_room(&mut self, arguments: usize) -> Result<(), AllocError>
        ensures { self.new ≡ self.old }
    {
        self.share.make_room(arguments)
    }

    /// Interns a text: the answer is its number. It is refused by `BadName` if the text is no selector, and by `TooMany` names if it
    /// is new and there are 8,192. No worker is woken, unless memory or room in the history is wanting.
    pub fn intern<R: Wait>(
        &mut self,
        rt: &R,
        alloc: Global,
        text: &[u8],
    ) -> Result<Selector, Refusal>
        ensures same { self.new ≡ one_call_more self.old }
        ensures answers { (o : PoolView) × (j : ImageView) × Finds K.start K.first self.old o × Interns o.image text.now result j }
    {
        self.hold(rt, alloc, Interning { text })
    }

    /// Posts a message of a client, and answers the number of its turn: its place, from 1, among what waited in the actor's mailbox at
    /// the last checkpoint and what it accepted since. If it is accepted, its receipt is added last, for which room is made before the
    /// hold.
    ///
    /// It is refused, with the first that applies, by `UnknownActor`, `BadArguments`, `Old`, `Closed`, `Full` and `HistoryFull`, and
    /// by `NoMemory` if memory ran out. If it is accepted, one worker that sleeps is woken, and one that rests; and also if it is refused
    /// while memory or room in the history is wanting.
    pub fn post<R: Wait>(
        &mut self,
        rt: &R,
        alloc: Global,
        sender: u16,
        seq: u64,
        actor: ActorId,
        selector: Selector,
        args: Values,
    ) -> Result<u64, Refusal>
        ensures { PostsOnce K.start K.first self.old actor (from_client sender seq selector args) result self.new }
    {
        // If there is no room yet, the hold asks for it again, and refuses the post.
        let _ = self.make_room(args.len());
        let answer = self.call(
            rt,
            alloc,
            Call::Post {
                sender,
                seq,
                actor,
                selector,
                args,
            },
        );
        position(answer)
    }

    /// Defines a class, and answers the version: the number of edits in the class table.
    pub fn define<R: Wait>(
        &mut self,
        rt: &R,
        alloc: Global,
        name: Seq<u8>,
        parent: ClassId,
        slots: Seq<Seq<u8>>,
    ) -> Result<u32, Refusal>
        ensures edits { self.new ≡ record (one_call_more self.old) { edits = self.old.edits + counted (is_ok result) } }
        ensures answers { (o : PoolView) × (j : ImageView) × Finds K.start K.first self.old o × Defines o.image name parent slots result j }
    {
        let answer = self.call(
            rt,
            alloc,
            Call::Define {
                name,
                parent,
                slots,
            },
        );
        version(answer)
    }

    /// Compiles a method and installs it, and answers the version. A refused source may leave names (`InstallsIn`).
    pub fn install<R: Wait>(
        &mut self,
        rt: &R,
        alloc: Global,
        class: ClassId,
        source: Seq<u8>,
    ) -> Result<u32, Refusal>
        ensures edits { self.new ≡ record (one_call_more self.old) { edits = self.old.edits + counted (is_ok result) } }
        ensures answers { (o : PoolView) × (j : ImageView) × Finds K.start K.first self.old o × InstallsIn o.image class source result j }
    {
        let answer = self.call(rt, alloc, Call::Install { class, source });
        version(answer)
    }

    /// Removes a method, and answers the version.
    pub fn remove<R: Wait>(
        &mut self,
        rt: &R,
        alloc: Global,
        class: ClassId,
        selector: Selector,
    ) -> Result<u32, Refusal>
        ensures edits { self.new ≡ record (one_call_more self.old) { edits = self.old.edits + counted (is_ok result) } }
        ensures answers { (o : PoolView) × (j : ImageView) × Finds K.start K.first self.old o × Removes o.image class selector result j }
    {
        let answer = self.call(rt, alloc, Call::Remove { class, selector });
        version(answer)
    }

    /// Puts a class under another superclass, and answers the version.
    pub fn reparent<R: Wait>(
        &mut self,
        rt: &R,
        alloc: Global,
        class: ClassId,
        parent: ClassId,
    ) -> Result<u32, Refusal>
        ensures edits { self.new ≡ record (one_call_more self.old) { edits = self.old.edits + counted (is_ok result) } }
        ensures answers { (o : PoolView) × (j : ImageView) × Finds K.start K.first self.old o × Reparents o.image class parent result j }
    {
        let answer = self.call(rt, alloc, Call::Reparent { class, parent });
        version(answer)
    }

    /// Makes an actor of a class, and answers its number, from 0.
    pub fn create<R: Wait>(
        &mut self,
        rt: &R,
        alloc: Global,
        class: ClassId,
    ) -> Result<ActorId, Refusal>
        ensures same { self.new ≡ one_call_more self.old }
        ensures answers { (o : PoolView) × (j : ImageView) × Finds K.start K.first self.old o × Creates o.image class result j }
    {
        let answer = self.call(rt, alloc, Call::Create(class));
        created(answer)
    }

    /// Closes a mailbox. The messages that wait in it are still run.
    pub fn close<R: Wait>(&mut self, rt: &R, alloc: Global, actor: ActorId) -> Result<(), Refusal>
        ensures same { self.new ≡ one_call_more self.old }
        ensures answers { (o : PoolView) × (j : ImageView) × Finds K.start K.first self.old o × Closes o.image actor result j }
    {
        let answer = self.call(rt, alloc, Call::Close(actor));
        closed(answer)
    }

    /// The present world becomes the base of the image: its history is emptied, and how turns ended and the statistics are forgotten.
    /// The answer is how many posts and steps the image has counted, which a checkpoint does not change.
    ///
    /// It is refused by `HistoryFull` if more than 2^63 - 1 items would have been emptied since the image was shared, and by `NoMemory`
    /// if memory ran out. A refused checkpoint changes nothing. Workers that waited for room in the history go on.
    pub fn checkpoint<R: Wait>(&mut self, rt: &R, alloc: Global) -> Result<Counts, Refusal>
        ensures { (o : PoolView) × (p : PoolView) × Finds K.start K.first self.old o × Checkpoints o result p × (self.new ≡ with_checkpoint o result self.old) }
    {
        let answer = self.call(rt, alloc, Call::Checkpoint);
        counts(answer)
    }

    /// How a turn of an actor ended. It is refused by `Pending` if the turn has not ended, and by `Expired` if its outcome is no
    /// longer kept.
    pub fn outcome<R: Wait>(
        &mut self,
        rt: &R,
        actor: ActorId,
        turn: u64,
    ) -> Result<Outcome, Refusal>
        ensures same { self.new ≡ self.old }
        ensures answers { (o : PoolView) × Finds K.start K.first self.old o × (result ≡ image_outcome o.image actor turn) }
    {
        let Caller { shared, share } = self;
        let mut pool = shared.enter(rt);
        pool.audit(share);
        pool.image().outcome(actor, turn)
    }

    /// What was counted of the sites of a method, in the order of its code.
    pub fn stats<R: Wait>(
        &mut self,
        rt: &R,
        alloc: Global,
        class: ClassId,
        selector: Selector,
    ) -> Result<Vec<SiteStats>, Refusal>
        ensures same { self.new ≡ self.old }
        ensures answers { (o : PoolView) × Finds K.start K.first self.old o × AnswersExactly (first_of (stats_rules o.image class selector)) result (λ list. list.items ≡ method_stats o.image (installed_own (world o.image).edits class selector)) }
    {
        let Caller { shared, share } = self;
        let mut pool = shared.enter(rt);
        pool.audit(share);
        pool.image().stats(alloc, class, selector)
    }

    /// What this caller has done: its share, for `settle`. No memory is taken, and nothing is waited for.
    pub fn end(self) -> CallerShare<K>
        ensures { result ≡ self.entry }
    {
        let Caller { share, .. } = self;
        share
    }
}

// The bound on a reader must name the image's type whole, so the mailbox is no parameter here.
impl<'a, K: Naming> Caller<'a, K, RingBox> {
    /// Lends the image for reading, and answers what the reader gives. The image is lawful and has at least what this caller has done.
    /// The lock is held as long as the reader runs.
    pub fn look<R: Wait, T, F: FnOnce(&Image<RingBox>) -> T>(&mut self, rt: &R, f: F) -> T
        requires { (i : Bor ImageView) → HasAtLeast K.start self.old i.now → F.pre f i }
        ensures same { self.new ≡ self.old }
        ensures looks { (i : ImageView) × HasAtLeast K.start self.old i × GoesOnIn K.first i × FnOnceReturnsAt F.FnOnce f i result }
    {
        let Caller { shared, share } = self;
        let mut pool = shared.enter(rt);
        pool.audit(share);
        f(pool.image())
    }
}
