//! What has happened to a served image, read in short holds of its lock.
ghost use Rattle.std.specs.Prelude.{◌≡◌, IfErr, IfOk};
ghost use Rattle.st_file.specs.ImageSnapshots.{snapshot_of};
ghost use Rattle.st_script.specs.Keepers.{IsFault};

use st_classes::names::Names;
use st_classes::refusals::Refusal;
use st_classes::token::Token;
use st_file::image_snapshots::ImageSnapshot;
use st_image::history::Item;
use st_journal::copying::copied_items;
use st_pool::holds::Reading;
use st_pool::naming::Naming;
use st_pool::pool_state::PoolState;
use st_script::images::Mailbox;
use st_script::keepers::copied;
use std::alloc::{AllocError, Global};

/// What was read in a hold: items, and the names and the class table by which they can be told.
#[derive(Drop)]
pub(crate) struct Read {
    pub(crate) names: Names,
    pub(crate) table: Token,
    pub(crate) items: Vec<Item>,
    /// Whether these are all items of a history that a checkpoint has emptied.
    pub(crate) is_past: bool,
    /// Whether more has happened.
    pub(crate) is_left: bool,
    /// How many steps the image had counted.
    pub(crate) steps: u64,
}

/// Reads what has happened behind so many items of the history, and so many items at most. If a checkpoint has emptied a history that was
/// not taken, that is taken, unless an earlier one is not told yet: then nothing is read.
#[derive(Drop)]
pub(crate) struct Behind {
    pub(crate) items: usize,
    pub(crate) most: usize,
    pub(crate) takes_past: bool,
}

impl Behind {
    /// The items of the history that are read.
    fn items_in<K: Naming>(
        &self,
        alloc: Global,
        pool: &PoolState<K, Mailbox>,
    ) -> Result<(Vec<Item>, bool), AllocError> {
        if !self.takes_past {
            return Ok((Vec::new(alloc), true));
        }
        let history = pool.image().history();
        let all = history.len();
        let from = self.items.min(all);
        let count = self.most.min(all - from);
        let items = copied_items(alloc, &history[from..from + count])?;
        Ok((items, from + count < all))
    }

    /// What has happened, in a hold of the lock.
    fn read_in<K: Naming>(
        &self,
        alloc: Global,
        pool: &mut PoolState<K, Mailbox>,
    ) -> Result<Read, AllocError>
        ensures { pool.new ≡ pool.old }
    {
        let names = pool.image().names().again()?;
        let table = pool.image().token().again()?;
        let steps = pool.image().counted().steps;
        if self.takes_past {
            if let Some(items) = pool.take_past() {
                return Ok(Read {
                    names,
                    table,
                    items,
                    is_past: true,
                    is_left: true,
                    steps,
                });
            }
        }
        let (items, is_left) = self.items_in(alloc, pool)?;
        Ok(Read {
            names,
            table,
            items,
            is_past: false,
            is_left,
            steps,
        })
    }
}

impl<K: Naming> Reading<K, Mailbox> for Behind {
    type Out = Result<Read, AllocError>;

    fn read(self, alloc: Global, pool: &mut PoolState<K, Mailbox>) -> Result<Read, AllocError> {
        self.read_in(alloc, pool)
    }
}

/// Copies an image to save it, and reads what has happened that its journal does not tell. If more has happened, nothing is copied.
#[derive(Drop)]
pub(crate) struct CopyingBehind {
    pub(crate) behind: Behind,
}

/// Whether all was read that had happened.
fn is_all(read: &Result<Read, AllocError>) -> bool {
    match read {
        Ok(read) => !read.is_left,
        Err(_) => false,
    }
}

/// What was copied, and what was read.
pub(crate) type Copied = (Result<ImageSnapshot, Refusal>, Result<Read, AllocError>);

impl CopyingBehind {
    /// Both, in a hold of the lock.
    pub(crate) fn copy_in<K: Naming>(
        &self,
        alloc: Global,
        pool: &mut PoolState<K, Mailbox>,
    ) -> Copied
        ensures same { pool.new ≡ pool.old }
        ensures snapshot { IfOk result.0 (λ m. m ≡ snapshot_of pool.old.image) }
        ensures fault { IfErr result.0 IsFault }
    {
        let read = self.behind.read_in(alloc, pool);
        if is_all(&read) {
            (copied(alloc, pool.image()), read)
        } else {
            (Err(Refusal::NoMemory), read)
        }
    }
}

impl<K: Naming> Reading<K, Mailbox> for CopyingBehind {
    type Out = Copied;

    fn read(self, alloc: Global, pool: &mut PoolState<K, Mailbox>) -> Copied {
        self.copy_in(alloc, pool)
    }
}
