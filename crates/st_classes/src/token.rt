//! Published versions.
use crate::version::Version;
use std::alloc::{AllocError, Global};
use std::marker::Model;
use std::sync::Arc;

/// A version, apart from the count of its pointers, which stands before it in memory. All workers write the count, twice for each
/// claim, and read the version, twice for each send. If the two were in one line of a processor's cache, each write would make the
/// others wait.
#[derive(Drop)]
struct Apart {
    _room: [u64; 16],
    version: Version,
}

/// A version that many can read at the same time, even while the image goes on to a later one. Contracts see its edits.
#[derive(Drop)]
pub struct Token {
    apart: Arc<Apart>,
}

impl Model for Token {
    ghost use Rattle.std.specs.Prelude.{List};
    ghost use Rattle.std.specs.Arc.{arc_value};
    ghost use Rattle.st_classes.specs.declared.edits.Edit.{Edit};

    ghost Value = { List Edit };

    ghost view = { λ t. (arc_value t.apart).version };
}

impl Token {
    ghost use Rattle.std.specs.Prelude.{◌≡◌, IfOk};

    /// Publishes a version, so that it can be shared. If memory runs out, the version is lost.
    pub fn publish(alloc: Global, version: Version) -> Result<Token, AllocError>
        ensures { IfOk result (λ t. t ≡ version) }
    {
        Ok(Token {
            apart: Arc::new(
                alloc,
                Apart {
                    _room: [0; 16],
                    version,
                },
            )?,
        })
    }

    /// A second pointer to the version.
    pub fn again(&self) -> Result<Token, AllocError>
        ensures { IfOk result (λ t. t ≡ self.now) }
    {
        Ok(Token {
            apart: Arc::try_clone(&self.apart)?,
        })
    }

    /// The published version. It takes no memory.
    #[inline]
    pub fn shown(&self) -> &Version
        ensures { result.now ≡ self.now }
    {
        &self.apart.version
    }
}
