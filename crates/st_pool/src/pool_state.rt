//! What lies under the lock: an image beside its books. Each call of a caller is one method here, and each claim that a worker settles
//! or is handed is one in `working`; nothing else changes the image.
ghost use Rattle.st_classes.specs.declared.refusals.Refusal.TheVariants as refusals;
ghost use Rattle.st_classes.specs.declared.refusals.Limited.TheVariants as limits;

mod closing;
mod working;

use crate::books::{Blanks, Books, PARTS};
use crate::known_prefix::{KnownPrefix, LogHead, Opened};
use crate::naming::Naming;
use crate::past::Past;
use crate::receipts::Receipt;
use crate::shares::{CallerShare, WorkerShare, copied};
use crate::waiting::{News, Waiting};
use st_calls::applying::{apply, checkpoint_into, intern};
use st_calls::calls::{Answer, Call};
use st_calls::holders::Holder;
use st_classes::refusals::{Limited, Refusal};
use st_classes::seq::Seq;
use st_classes::values::{ActorId, Selector, Values};
use st_image::counts::MOST_COUNTED;
use st_image::history::Item;
use st_image::image::Image;
use st_mailbox::mailboxes::Mailbox;
use st_mailbox::messages::{Message, Sender};
use std::alloc::Global;
use std::marker::Model;
use std::mem::replace;
pub(crate) use working::{Work, goes_on};

/// What lies under the lock: an image, and what has happened to it since. Contracts see the image and the books.
#[derive(Drop)]
pub struct PoolState<K: Naming, M: Mailbox> {
    image: Image<M>,
    books: Books<K>,
    head: LogHead<K>,
    /// The images that were seen, if they are known. The last one is this image, or an earlier state of it.
    prefix: Option<KnownPrefix<K>>,
    /// How many checkpoints there have been, modulo 2^64.
    checkpoints: u64,
    /// The histories that they have emptied, if anybody reads them.
    past: Past,
    /// The workers and callers that wait, and what they wait for.
    pub(crate) waiting: Waiting,
}

impl<K: Naming, M: Mailbox> Model for PoolState<K, M> {
    ghost use Rattle.std.specs.Option.{IfSome};
    ghost use Rattle.st_pool.specs.Books.{Kept};
    ghost use Rattle.st_pool.specs.Done.{PoolView};
    ghost use Rattle.st_pool.specs.Holds.{IsRun};
    ghost use Rattle.st_pool.specs.Seen.{MayFollow};

    ghost Value = { PoolView };

    ghost view = { λ o. record { image = o.image; books = o.books } };

    ghost use Rattle.st_image.specs.GoingOn.{GoesOnIn};

    ghost invariant = { λ o. Kept K.start o.image o.books × IfSome o.prefix (λ l. MayFollow l o.image) × GoesOnIn K.first o.image
        × IsRun K.first (record { image = o.image; books = o.books }) };
}

impl<K: Naming, M: Mailbox> PoolState<K, M> {
    ghost use Rattle.std.specs.Prelude.{◌≡◌, ◌+◌, ◌≤◌, true, OnOk, OnErr, IfOk, IfErr};
    ghost use Rattle.st_image.specs.GoingOn.{GoesOnIn};
    ghost use Rattle.st_image.specs.WorldInvariant.{IsLawful};
    ghost use Rattle.st_calls.specs.declared.calls.Answer.TheVariants as answers;
    ghost use Rattle.st_calls.specs.declared.calls.Call.TheVariants as calls;
    ghost use Rattle.st_calls.specs.Does.{told};
    ghost use Rattle.st_pool.specs.Books.{no_books};
    ghost use Rattle.st_pool.specs.Calling.{MakesCounted, PoolCalls, is_plain};
    ghost use Rattle.st_calls.specs.Growth.{amounts};
    ghost use Rattle.st_pool.specs.Done.{HasAtLeast, nothing_done};

    /// The image with empty books.
    #[tactic(auto, using(st_calls::proofs::GoingThen::goes_by, crate::proofs::Holding::run_begins))]
    pub(crate) fn new(image: Image<M>, blanks: Blanks, opened: Opened) -> PoolState<K, M>
        requires posts { blanks.posts.name ≡ K.posts }
        requires edits { blanks.edits.name ≡ K.edits }
        requires steps { blanks.steps.name ≡ K.steps }
        requires emptied { blanks.emptied.name ≡ K.emptied }
        requires book { opened.seen.book ≡ K.book }
        requires start { K.start ≡ amounts image }
        requires first { K.first ≡ image }
        ensures { result ≡ record { image = image; books = no_books } }
    {
        let books = Books::open(blanks);
        let (head, prefix) = opened.named::<K>();
        PoolState {
            image,
            books,
            head,
            prefix: Some(prefix),
            checkpoints: 0,
            past: Past::none(),
            waiting: Waiting::none(),
        }
    }

    /// The image.
    pub fn image(&self) -> &Image<M>
        ensures { result.now ≡ self.now.image }
    {
        &self.image
    }

    /// A share for one caller more.
    #[tactic(auto, using(crate::proofs::Holding::run_given))]
    pub(crate) fn give(&mut self, alloc: Global) -> Result<CallerShare<K>, Refusal>
        ensures none { IfOk result (λ s. s ≡ nothing_done) }
        ensures ok { OnOk result (self.new ≡ record self.old { books = record self.old.books { callers = self.old.books.callers + 1 } }) }
        ensures err { OnErr result ((self.new ≡ self.old) × (self.old.books.callers + 1 ≡ 4294967296)) }
        ensures refused { IfErr result (λ e. e ≡ refusals.TooMany limits.Sessions) }
    {
        if self.books.callers() + 1 >= PARTS {
            return Err(Refusal::TooMany {
                what: Limited::Sessions,
            });
        }
        Ok(self.books.give(alloc))
    }

    /// A share for one worker more.
    #[tactic(auto, using(crate::proofs::Holding::run_employed))]
    pub(crate) fn employ(&mut self) -> Result<WorkerShare<K>, Refusal>
        ensures none { IfOk result (λ s. s ≡ 0) }
        ensures ok { OnOk result (self.new ≡ record self.old { books = record self.old.books { workers = self.old.books.workers + 1 } }) }
        ensures err { OnErr result ((self.new ≡ self.old) × (self.old.books.workers + 1 ≡ 4294967296)) }
        ensures refused { IfErr result (λ e. e ≡ refusals.TooMany limits.Sessions) }
    {
        if self.books.workers() + 1 >= PARTS {
            return Err(Refusal::TooMany {
                what: Limited::Sessions,
            });
        }
        Ok(self.books.employ())
    }

    /// Posts a message, and adds its receipt if it is accepted.
    #[tactic(auto, using(st_calls::proofs::GoingThen::goes_by))]
    fn post(
        &mut self,
        alloc: Global,
        mine: &mut CallerShare<K>,
        sender: u16,
        seq: u64,
        actor: ActorId,
        selector: Selector,
        args: Values,
    ) -> Result<Answer, Refusal>
        ensures calls { MakesCounted self.old mine.old (calls.Post sender seq actor selector args) result self.new mine.new }
        ensures later { GoesOnIn self.old.image self.new.image }
    {
        let CallerShare {
            account,
            room,
            posted,
            edited,
            ..
        } = mine;
        copied(room, args.as_slice())?;
        account.receipts.reserve(1)?;
        let place = self.books.emptied() + self.image.history().len() as u64;
        let answer = apply(
            alloc,
            &mut self.image,
            Call::Post {
                sender,
                seq,
                actor,
                selector,
                args,
            },
        );
        let is_accepted = answer.is_ok();
        self.waiting.note_if(is_accepted);
        self.books.post(posted, edited, is_accepted);
        if is_accepted {
            let copy = Seq::from_vec(replace(room, Vec::new(alloc)));
            account.receipts.push_reserved(Receipt {
                place,
                actor,
                message: Message {
                    sender: Sender::Client(sender),
                    seq,
                    selector,
                    args: copy,
                },
            });
        }
        answer
    }

    /// The present world becomes the base of the image, and its history is emptied.
    #[tactic(auto, using(st_calls::proofs::GoingThen::goes_by))]
    fn checkpoint(&mut self, alloc: Global, mine: &mut CallerShare<K>) -> Result<Answer, Refusal>
        ensures calls { MakesCounted self.old mine.old calls.Checkpoint result self.new mine.new }
        ensures later { GoesOnIn self.old.image self.new.image }
    {
        self.image.known();
        let count = self.image.history().len() as u64;
        if MOST_COUNTED < self.books.emptied() + count {
            return Err(Refusal::HistoryFull);
        }
        if self.past.make_room().is_err() {
            return Err(Refusal::NoMemory);
        }
        let mut history = Vec::new(alloc);
        match checkpoint_into(alloc, &mut self.image, &mut history) {
            Ok(answer) => {
                self.past.add(history);
                self.books.empty(mine, count);
                self.checkpoints = self.checkpoints.wrapping_add(1);
                self.waiting.note_move();
                self.waiting.note_news_if(true);
                Ok(answer)
            }
            Err(refusal) => Err(refusal),
        }
    }

    /// Interns a text, which is not copied. It is a move only while something is wanting.
    #[tactic(auto, using(st_calls::proofs::GoingThen::goes_by))]
    pub(crate) fn intern(
        &mut self,
        alloc: Global,
        mine: &mut CallerShare<K>,
        text: &[u8],
    ) -> Result<Selector, Refusal>
        ensures calls { PoolCalls self.old mine.old (calls.Intern text.now) (told answers.Interned result) self.new mine.new }
        ensures later { GoesOnIn self.old.image self.new.image }
    {
        mine.count_call();
        self.waiting.note_call();
        intern(alloc, &mut self.image, text)
    }

    /// Makes a call that is neither a post nor a checkpoint. All but the interning of a text are moves.
    #[tactic(auto, using(st_calls::proofs::GoingThen::goes_by))]
    fn call(
        &mut self,
        alloc: Global,
        mine: &mut CallerShare<K>,
        call: Call,
    ) -> Result<Answer, Refusal>
        requires plain { is_plain call ≡ true }
        ensures calls { MakesCounted self.old mine.old call result self.new mine.new }
        ensures later { GoesOnIn self.old.image self.new.image }
    {
        let is_move = !matches!(call, Call::Intern(_));
        self.waiting.note_if(is_move);
        self.image.known();
        self.image.version().known();
        let answer = apply(alloc, &mut self.image, call);
        self.books.edit(mine, &answer);
        answer
    }

    /// Makes a call of the image for a caller, and counts it.
    #[inline(always)]
    pub fn apply(
        &mut self,
        alloc: Global,
        mine: &mut CallerShare<K>,
        call: Call,
    ) -> Result<Answer, Refusal>
        ensures calls { PoolCalls self.old mine.old call result self.new mine.new }
        ensures later { GoesOnIn self.old.image self.new.image }
    {
        mine.count_call();
        self.waiting.note_call();
        match call {
            Call::Post {
                sender,
                seq,
                actor,
                selector,
                args,
            } => self.post(alloc, mine, sender, seq, actor, selector, args),
            Call::Checkpoint => self.checkpoint(alloc, mine),
            call => self.call(alloc, mine, call),
        }
    }

    /// The image has at least what a caller has done.
    #[tactic(auto, using(crate::proofs::Holding::run_same))]
    pub(crate) fn audit(&mut self, mine: &mut CallerShare<K>)
        ensures same { self.new ≡ self.old }
        ensures share { mine.new ≡ mine.old }
        ensures least { HasAtLeast K.start mine.old self.old.image }
        ensures first { GoesOnIn K.first self.old.image }
        ensures emptied { mine.old.emptied ≤ self.old.books.emptied }
    {
        self.image.known();
        self.books.audit(mine);
    }

    /// How many checkpoints there have been since the image was shared, modulo 2^64. The turns are numbered anew by each.
    pub fn checkpoints(&self) -> u64 {
        self.checkpoints
    }

    /// From now on the histories that checkpoints empty are kept, until they are taken.
    pub(crate) fn keep_past(&mut self, alloc: Global)
        ensures { self.new ≡ self.old }
    {
        self.past.keep(alloc);
    }

    /// Takes the oldest history that a checkpoint has emptied and nobody has taken.
    pub fn take_past(&mut self) -> Option<Vec<Item>>
        ensures { self.new ≡ self.old }
    {
        self.past.take()
    }

    /// Which callers that wait are to be told that a turn has ended, or the turns have been numbered anew.
    pub(crate) fn take_news(&mut self) -> News
        ensures { self.new ≡ self.old }
    {
        self.waiting.take_news()
    }

    /// Tells the workers to end.
    pub(crate) fn stop(&mut self)
        ensures { self.new ≡ self.old }
    {
        self.waiting.stop();
    }
}

impl<K: Naming, M: Mailbox> Holder<M> for PoolState<K, M> {
    ghost use Rattle.st_pool.specs.Calling.{PoolCalls};

    type Mine = CallerShare<K>;

    ghost image_of = { λ o. o.image };

    ghost calls = { PoolCalls };

    fn image(&self) -> &Image<M> {
        PoolState::image(self)
    }

    fn intern(
        &mut self,
        alloc: Global,
        mine: &mut CallerShare<K>,
        text: &[u8],
    ) -> Result<Selector, Refusal> {
        PoolState::intern(self, alloc, mine, text)
    }

    #[inline(always)]
    fn apply(
        &mut self,
        alloc: Global,
        mine: &mut CallerShare<K>,
        call: Call,
    ) -> Result<Answer, Refusal> {
        PoolState::apply(self, alloc, mine, call)
    }
}
