//! What actors mean.
ghost use Rattle.st_file.specs.Meanings as spec;

use crate::resolving::{Resolve, class_of, resolve_all, word};
use crate::texts::ActorText;
use st_classes::names::Names;
use st_classes::refusals::Refusal;
use st_classes::version::Version;
use st_image::actor_part::ActorPart;
use std::alloc::Global;

impl Resolve<ActorPart> for ActorText {
    ghost meaning = { spec.actor_meant };

    fn resolve(
        &self,
        alloc: Global,
        names: &Names,
        version: &Version,
    ) -> Result<ActorPart, Refusal> {
        // The body comes last, so that it is not let go where another part is refused, which keeps the proof short.
        Ok(ActorPart {
            class: class_of(version, self.class.as_slice())?,
            capacity: word(self.capacity)?,
            is_open: self.is_open,
            last: self.last,
            pending: resolve_all(alloc, names, version, self.pending.as_slice())?,
            body: self.body.resolve(alloc, names, version)?,
        })
    }
}
