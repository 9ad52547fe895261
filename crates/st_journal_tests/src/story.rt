//! What happens to an image, step by step. The numbers of steps are counted by hand from the methods.
use crate::images::{
    Image, Worker, checkpoint, close, create, define, install, new_image, new_worker, post,
    quantum, remove, reparent,
};
use st_classes::kernel::OBJECT;
use st_classes::refusals::Refusal;
use st_classes::values::{ActorId, ClassId, Selector};
use std::alloc::Global;

pub(crate) const FIRST: ActorId = ActorId(0);

pub(crate) const SECOND: ActorId = ActorId(1);

pub(crate) const COUNTER: ClassId = ClassId(8);

const OTHER: ClassId = ClassId(9);

/// The second of the names of the user, which are `tick`, `go` and `lost`: the installs need them in this order.
pub(crate) const GO: Selector = Selector(23);

/// Two classes, three methods and an actor: 7 items and the names `tick`, `go`, `lost`.
pub(crate) fn set_up(alloc: Global, image: &mut Image) -> Result<(), Refusal> {
    define(alloc, image, "Counter", OBJECT)?;
    define(alloc, image, "Other", OBJECT)?;
    install(alloc, image, COUNTER, "tick ^7")?;
    install(alloc, image, COUNTER, "go ^thisActor post: #tick")?;
    install(alloc, image, COUNTER, "lost ^nil")?;
    create(alloc, image, COUNTER)?;
    create(alloc, image, OTHER)?;
    Ok(())
}

/// A turn of `go`: the message, `thisActor`, `#tick` and the post, which is an act, then the answer. So it is a quantum of four steps,
/// whatever the limit from 3 on, and one of one step. Then a turn of `tick`, of three steps, in two quanta. These are 1 post, 2 beginnings
/// and 4 quanta.
pub(crate) fn turns(
    alloc: Global,
    image: &mut Image,
    worker: &mut Worker,
    seq: u64,
) -> Result<(), Refusal> {
    post(alloc, image, FIRST, seq, GO)?;
    for limit in [3, 9, 2, 9] {
        quantum(alloc, image, worker, FIRST, limit)?;
    }
    Ok(())
}

/// A method is removed, a class goes under another, and a mailbox is closed: 3 items.
pub(crate) fn afterwards(alloc: Global, image: &mut Image) -> Result<(), Refusal> {
    remove(alloc, image, COUNTER, Selector(24))?;
    reparent(alloc, image, OTHER, COUNTER)?;
    close(image, SECOND)
}

/// The whole story on a new image: 17 items.
pub(crate) fn told_whole(alloc: Global) -> Result<Box<Image>, Refusal> {
    let mut image = new_image(alloc)?;
    let mut worker = new_worker(alloc)?;
    set_up(alloc, &mut image)?;
    turns(alloc, &mut image, &mut worker, 1)?;
    afterwards(alloc, &mut image)?;
    Ok(image)
}

/// A checkpoint, and the turns again behind it: 7 items.
pub(crate) fn go_on(alloc: Global, image: &mut Image) -> Result<(), Refusal> {
    let mut worker = new_worker(alloc)?;
    checkpoint(alloc, image)?;
    turns(alloc, image, &mut worker, 2)
}
