//! The image that the program runs, and the worker that takes its actors' steps. The program's choice of mailbox and guard is made
//! here.
use st_guard::switch_guard::SwitchGuard;
use st_mailbox::ring_box::RingBox;

/// The guard of a worker's caches. An edit invalidates the cached targets of the selectors that it touches.
pub type Guard = SwitchGuard;

/// The mailbox of an actor.
pub type Mailbox = RingBox;

/// An image.
pub type Image = st_image::image::Image<Mailbox>;

/// A worker that takes the steps of actors.
pub type Worker = st_turn::worker::Worker<Guard>;
