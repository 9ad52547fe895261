//! What values and messages mean.
ghost use Rattle.st_classes.specs.declared.refusals.ImagePlace.TheVariants.{Actors};
ghost use Rattle.st_file.specs.Answers.{Finds};
ghost use Rattle.st_file.specs.Meanings as spec;

use crate::resolving::{Resolve, class_of, resolve_all, selector_of, word};
use crate::texts::{MessageText, ValueText};
use st_classes::names::Names;
use st_classes::refusals::Refusal;
use st_classes::seq::Seq;
use st_classes::values::{Value, Values};
use st_classes::version::Version;
use st_mailbox::messages::Message;
use std::alloc::Global;

impl Resolve<Value> for ValueText {
    ghost meaning = { spec.value_meant };

    fn resolve(&self, _alloc: Global, names: &Names, version: &Version) -> Result<Value, Refusal> {
        match self {
            ValueText::Int(number) => Ok(Value::Int(*number)),
            ValueText::Bool(truth) => Ok(Value::Bool(*truth)),
            ValueText::Nil => Ok(Value::Nil),
            ValueText::Symbol(text) => Ok(Value::Sym(selector_of(names, text.as_slice())?)),
            ValueText::Class(text) => Ok(Value::Class(class_of(version, text.as_slice())?)),
            ValueText::Actor(actor) => Ok(Value::Actor(*actor)),
            ValueText::Local(place) => Ok(Value::Local(word(*place)?)),
        }
    }
}

/// The values that some texts mean.
pub(super) fn values_of(
    alloc: Global,
    names: &Names,
    version: &Version,
    texts: &Seq<ValueText>,
) -> Result<Values, Refusal>
    ensures { Finds Actors (spec.all_of (spec.value_meant names.now version.now) texts.now) result }
{
    resolve_all(alloc, names, version, texts.as_slice())
}

impl Resolve<Message> for MessageText {
    ghost meaning = { spec.message_meant };

    fn resolve(&self, alloc: Global, names: &Names, version: &Version) -> Result<Message, Refusal> {
        Ok(Message {
            sender: self.sender,
            seq: self.seq,
            selector: selector_of(names, self.selector.as_slice())?,
            args: values_of(alloc, names, version, &self.args)?,
        })
    }
}
