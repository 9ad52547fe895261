//! What threads of a test share, and the worker of a thread.
use crate::doors::Marks;
use crate::scenes::Scene;
use st_classes::refusals::Refusal;
use st_guard::caches::Caches;
use st_guard::switch_guard::SwitchGuard;
use st_mailbox::ring_box::RingBox;
use st_pool::naming::Naming;
use st_pool::settling::Shares;
use std::alloc::{AllocError, Global};
use std::sync::Mutex;

pub type Image = st_image::image::Image<RingBox>;

pub type Shared<K> = st_pool::shared::Shared<K, RingBox>;

pub type Caller<'a, K> = st_pool::callers::Caller<'a, K, RingBox>;

pub type Worker = st_turn::worker::Worker<SwitchGuard>;

/// A pool, the shares that its threads have handed back, and what they tell one another.
#[derive(Drop)]
pub struct Stage<K: Naming> {
    pub shared: Shared<K>,
    pub shares: Mutex<Shares<K>>,
    pub marks: Marks,
    pub scene: Scene,
}

fn boxed(alloc: Global, image: Image) -> Result<Box<Image>, AllocError> {
    Ok(Box::new(alloc, image)?)
}

/// An image for a scene. It is on the heap, as workers are: of one on the stack each proof pays for all its parts.
fn image_for(alloc: Global, scene: Scene) -> Result<Box<Image>, Refusal> {
    Ok(boxed(alloc, Image::new(alloc, scene.settings())?)?)
}

/// The same, made anew where memory was refused.
pub fn new_image(alloc: Global, scene: Scene) -> Result<Box<Image>, Refusal> {
    match image_for(alloc, scene) {
        Err(Refusal::NoMemory) => image_for(alloc, scene),
        answer => answer,
    }
}

/// A worker with empty caches.
pub fn new_worker(alloc: Global) -> Result<Box<Worker>, AllocError> {
    let worker = Worker::new(Caches::new(alloc, SwitchGuard::new(alloc))?);
    Ok(Box::new(alloc, worker)?)
}

/// No shares.
pub fn no_shares<K: Naming>(alloc: Global) -> Shares<K> {
    Shares {
        callers: Vec::new(alloc),
        workers: Vec::new(alloc),
    }
}
