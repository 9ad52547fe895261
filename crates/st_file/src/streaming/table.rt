//! Makes actors of JSON values, by names and a class table.
ghost use Rattle.st_file.specs.Streaming.{actor_by};

use crate::fields::Readable;
use crate::resolving::Resolve;
use crate::saving::values::Table;
use crate::streaming::lists::Makes;
use crate::texts::ActorText;
use serde_json::Value;
use st_classes::refusals::Refusal;
use st_image::actor_part::ActorPart;
use std::alloc::Global;

impl Makes<ActorPart> for Table<'_> {
    ghost form = { λ by. actor_by by.names.now by.version.now };

    fn make(&self, alloc: Global, value: &Value) -> Result<ActorPart, Refusal> {
        let text = ActorText::read(alloc, value)?;
        text.resolve(alloc, self.names, self.version)
    }
}
