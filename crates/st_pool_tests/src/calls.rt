//! The calls of callers, each behind a function without a contract: the proof of a scene then carries nothing of what a call promises.
use crate::crowd::are_in_order;
use crate::doors::{TURNS, pause};
use crate::pools::{Caller, Image};
use st_classes::kernel::OBJECT;
use st_classes::refusals::Refusal;
use st_classes::seq::Seq;
use st_classes::values::{ActorId, ClassId, Selector, Value, Values};
use st_file::saving::save;
use st_image::history::Item;
use st_image::tallies::SiteStats;
use st_pool::naming::Naming;
use st_turn::body::Outcome;
use st_wire::streams::MemoryOutput;
use std::alloc::{AllocError, Global};
use std::sync::Wait;
use std::time::Clock;

/// The first class of the user's, and the second.
pub const A: ClassId = ClassId(8);

pub const KID: ClassId = ClassId(9);

/// The first actor, and the second.
pub const FIRST: ActorId = ActorId(0);

pub const SECOND: ActorId = ActorId(1);

/// What scenes do with a caller, without contracts. The proof of a scene, which is one for any of these, then carries nothing of a caller's
/// parts and of what its calls promise.
pub trait Calls {
    fn intern<R: Wait>(&mut self, rt: &R, alloc: Global, text: &[u8]) -> Result<Selector, Refusal>;

    /// Defines a class without instance variables. Its number is that of the order of definition.
    fn define<R: Wait>(
        &mut self,
        rt: &R,
        alloc: Global,
        name: &str,
        parent: ClassId,
    ) -> Result<u32, Refusal>;

    fn install<R: Wait>(
        &mut self,
        rt: &R,
        alloc: Global,
        class: ClassId,
        source: &str,
    ) -> Result<u32, Refusal>;

    fn remove<R: Wait>(
        &mut self,
        rt: &R,
        alloc: Global,
        class: ClassId,
        selector: Selector,
    ) -> Result<u32, Refusal>;

    fn reparent<R: Wait>(
        &mut self,
        rt: &R,
        alloc: Global,
        class: ClassId,
        parent: ClassId,
    ) -> Result<u32, Refusal>;

    fn create<R: Wait>(
        &mut self,
        rt: &R,
        alloc: Global,
        class: ClassId,
    ) -> Result<ActorId, Refusal>;

    /// How many messages of clients were accepted, read in the hold of a checkpoint.
    fn checkpoint<R: Wait>(&mut self, rt: &R, alloc: Global) -> Result<u64, Refusal>;

    fn close<R: Wait>(&mut self, rt: &R, alloc: Global, actor: ActorId) -> Result<(), Refusal>;

    fn post<R: Wait>(
        &mut self,
        rt: &R,
        alloc: Global,
        sender: u16,
        seq: u64,
        actor: ActorId,
        selector: Selector,
        args: Values,
    ) -> Result<u64, Refusal>;

    fn outcome<R: Wait>(&mut self, rt: &R, actor: ActorId, turn: u64) -> Result<Outcome, Refusal>;

    fn stats<R: Wait>(
        &mut self,
        rt: &R,
        alloc: Global,
        class: ClassId,
        selector: Selector,
    ) -> Result<Vec<SiteStats>, Refusal>;

    /// How many messages of a number for an actor the caller sees.
    fn seen_posts<R: Wait>(&mut self, rt: &R, actor: ActorId, number: u64) -> u64;

    /// The class of a name that the caller sees.
    fn seen_class<R: Wait>(&mut self, rt: &R, name: &[u8]) -> Option<ClassId>;

    /// How many items, edits and actors the caller sees.
    fn seen<R: Wait>(&mut self, rt: &R) -> (usize, u32, u32);

    /// The text of the document of the image that the caller sees.
    fn document<R: Wait>(&mut self, rt: &R, alloc: Global) -> Result<MemoryOutput, Refusal>;

    /// Whether the caller sees the messages of all four senders of a crowd in their orders.
    fn sees_order<R: Wait>(&mut self, rt: &R) -> bool;
}

/// A text of its own.
fn text(alloc: Global, text: &str) -> Result<Seq<u8>, AllocError> {
    Ok(Seq::from_vec(text.as_bytes().to_vec(alloc)?))
}

/// Whether an item is a message of a number for an actor.
fn is_post(item: &Item, actor: ActorId, number: u64) -> bool {
    match item {
        Item::Posted { actor: to, message } => *to == actor && message.seq == number,
        _ => false,
    }
}

/// How many messages of a number for an actor a history has.
fn posts_in(image: &Image, actor: ActorId, number: u64) -> u64 {
    let mut count: u64 = 0;
    for item in image.history() {
        count = count.wrapping_add(is_post(item, actor, number) as u64);
    }
    count
}

/// How many items, edits and actors an image has.
fn counts(image: &Image) -> (usize, u32, u32) {
    (
        image.history().len(),
        image.version().edits(),
        image.actors(),
    )
}

/// The text of an image's document, as its file has it.
fn document_of(alloc: Global, image: &Image) -> Result<MemoryOutput, Refusal> {
    let mut output = MemoryOutput::new(alloc);
    save(alloc, image, &mut output)?;
    Ok(output)
}

impl<K: Naming> Calls for Caller<'_, K> {
    fn intern<R: Wait>(&mut self, rt: &R, alloc: Global, text: &[u8]) -> Result<Selector, Refusal> {
        self.intern(rt, alloc, text)
    }

    fn define<R: Wait>(
        &mut self,
        rt: &R,
        alloc: Global,
        name: &str,
        parent: ClassId,
    ) -> Result<u32, Refusal> {
        let slots = Seq::from_vec(Vec::new(alloc));
        let name = text(alloc, name)?;
        self.define(rt, alloc, name, parent, slots)
    }

    fn install<R: Wait>(
        &mut self,
        rt: &R,
        alloc: Global,
        class: ClassId,
        source: &str,
    ) -> Result<u32, Refusal> {
        let source = text(alloc, source)?;
        self.install(rt, alloc, class, source)
    }

    fn remove<R: Wait>(
        &mut self,
        rt: &R,
        alloc: Global,
        class: ClassId,
        selector: Selector,
    ) -> Result<u32, Refusal> {
        self.remove(rt, alloc, class, selector)
    }

    fn reparent<R: Wait>(
        &mut self,
        rt: &R,
        alloc: Global,
        class: ClassId,
        parent: ClassId,
    ) -> Result<u32, Refusal> {
        self.reparent(rt, alloc, class, parent)
    }

    fn create<R: Wait>(
        &mut self,
        rt: &R,
        alloc: Global,
        class: ClassId,
    ) -> Result<ActorId, Refusal> {
        self.create(rt, alloc, class)
    }

    fn checkpoint<R: Wait>(&mut self, rt: &R, alloc: Global) -> Result<u64, Refusal> {
        Ok(self.checkpoint(rt, alloc)?.posts)
    }

    fn close<R: Wait>(&mut self, rt: &R, alloc: Global, actor: ActorId) -> Result<(), Refusal> {
        self.close(rt, alloc, actor)
    }

    fn post<R: Wait>(
        &mut self,
        rt: &R,
        alloc: Global,
        sender: u16,
        seq: u64,
        actor: ActorId,
        selector: Selector,
        args: Values,
    ) -> Result<u64, Refusal> {
        self.post(rt, alloc, sender, seq, actor, selector, args)
    }

    fn outcome<R: Wait>(&mut self, rt: &R, actor: ActorId, turn: u64) -> Result<Outcome, Refusal> {
        self.outcome(rt, actor, turn)
    }

    fn stats<R: Wait>(
        &mut self,
        rt: &R,
        alloc: Global,
        class: ClassId,
        selector: Selector,
    ) -> Result<Vec<SiteStats>, Refusal> {
        self.stats(rt, alloc, class, selector)
    }

    fn seen_posts<R: Wait>(&mut self, rt: &R, actor: ActorId, number: u64) -> u64 {
        self.look(rt, |image| posts_in(image, actor, number))
    }

    fn seen_class<R: Wait>(&mut self, rt: &R, name: &[u8]) -> Option<ClassId> {
        self.look(rt, |image| image.version().class_named(name))
    }

    fn seen<R: Wait>(&mut self, rt: &R) -> (usize, u32, u32) {
        self.look(rt, |image| counts(image))
    }

    fn document<R: Wait>(&mut self, rt: &R, alloc: Global) -> Result<MemoryOutput, Refusal> {
        self.look(rt, |image| document_of(alloc, image))
    }

    fn sees_order<R: Wait>(&mut self, rt: &R) -> bool {
        self.look(rt, |image| are_in_order(image))
    }
}

pub fn define<C: Calls, R: Wait>(
    rt: &R,
    alloc: Global,
    caller: &mut C,
    name: &str,
) -> Result<u32, Refusal> {
    caller.define(rt, alloc, name, OBJECT)
}

pub fn remove<C: Calls, R: Wait>(
    rt: &R,
    alloc: Global,
    caller: &mut C,
    class: ClassId,
    selector: &str,
) -> Result<u32, Refusal> {
    let selector = caller.intern(rt, alloc, selector.as_bytes())?;
    caller.remove(rt, alloc, class, selector)
}

fn one_value(alloc: Global, value: Value) -> Result<Values, AllocError> {
    let mut values = Vec::new(alloc);
    values.push(value)?;
    Ok(Seq::from_vec(values))
}

/// Posts a message without arguments, of a sender.
pub fn post_of<C: Calls, R: Wait>(
    rt: &R,
    alloc: Global,
    caller: &mut C,
    sender: u16,
    seq: u64,
    actor: ActorId,
    selector: &str,
) -> Result<u64, Refusal> {
    let selector = caller.intern(rt, alloc, selector.as_bytes())?;
    let args = Seq::from_vec(Vec::new(alloc));
    caller.post(rt, alloc, sender, seq, actor, selector, args)
}

/// Posts a message without arguments, of sender 1.
pub fn post<C: Calls, R: Wait>(
    rt: &R,
    alloc: Global,
    caller: &mut C,
    seq: u64,
    actor: ActorId,
    selector: &str,
) -> Result<u64, Refusal> {
    post_of(rt, alloc, caller, 1, seq, actor, selector)
}

/// Posts a message with one argument, of sender 1.
pub fn post_with<C: Calls, R: Wait>(
    rt: &R,
    alloc: Global,
    caller: &mut C,
    seq: u64,
    actor: ActorId,
    selector: &str,
    value: Value,
) -> Result<u64, Refusal> {
    let selector = caller.intern(rt, alloc, selector.as_bytes())?;
    let args = one_value(alloc, value)?;
    caller.post(rt, alloc, 1, seq, actor, selector, args)
}

/// How a turn ends soon. It is asked once in a millisecond, so often at most as a gate waits.
pub fn ended<C: Calls, R: Wait + Clock>(
    rt: &R,
    caller: &mut C,
    actor: ActorId,
    turn: u64,
) -> Result<Outcome, Refusal> {
    for _ in 0..TURNS {
        let answer = caller.outcome(rt, actor, turn);
        if answer != Err(Refusal::Pending) {
            return answer;
        }
        pause(rt, 1);
    }
    Err(Refusal::Pending)
}

/// Whether a turn answers a number soon.
pub fn answers<C: Calls, R: Wait + Clock>(
    rt: &R,
    caller: &mut C,
    actor: ActorId,
    turn: u64,
    number: i64,
) -> bool {
    ended(rt, caller, actor, turn) == Ok(Outcome::Answer(Value::Int(number)))
}

/// Defines the class `A` with one method, the first actor, and says whether this was accepted.
pub fn make_actor<C: Calls, R: Wait>(rt: &R, alloc: Global, caller: &mut C, source: &str) -> bool {
    define(rt, alloc, caller, "A") == Ok(1)
        && caller.seen_class(rt, b"A") == Some(A)
        && caller.install(rt, alloc, A, source) == Ok(2)
        && caller.create(rt, alloc, A) == Ok(FIRST)
}
