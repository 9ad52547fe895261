//! Values in answers, and the names of methods.
ghost use Rattle.std.specs.Prelude.{◌≡◌, IfOk};
ghost use Rattle.serde_json.specs.View.{view};
ghost use Rattle.st_file.specs.ValueJson.{value_json, values_json};
ghost use Rattle.st_queries.specs.MethodNames.{method_named as named_method};

use crate::listing::{ToJson, each, only};
use crate::texts::{class_text, selector_text};
use st_classes::names::Names;
use st_classes::values::{ClassId, Selector, Value};
use st_classes::version::Version;
use st_wire::told::{Members, Told};
use std::alloc::{AllocError, Global};

/// A value, as answers and image files have it.
pub(crate) fn value(
    alloc: Global,
    names: &Names,
    version: &Version,
    value: Value,
) -> Result<Told, AllocError>
    ensures { IfOk result (λ told. view told ≡ value_json names.now version.now value) }
{
    match value {
        Value::Int(number) => Ok(Told::integer(number)),
        Value::Bool(truth) => Ok(Told::truth(truth)),
        Value::Nil => Ok(Told::nothing()),
        Value::Sym(selector) => only(alloc, "sym", selector_text(alloc, names, selector)?),
        Value::Class(class) => only(alloc, "class", class_text(alloc, version, class)?),
        Value::Actor(actor) => only(alloc, "ref", Told::whole(actor.0.into())),
        Value::Local(place) => only(alloc, "local", Told::whole(place.into())),
    }
}

/// The names and the class table by which parts are told.
#[derive(Clone, Copy)]
pub(crate) struct Table<'a> {
    pub(crate) names: &'a Names,
    pub(crate) version: &'a Version,
}

impl<'a> ToJson<Value> for Table<'a> {
    ghost json = { λ t v. value_json t.names.now t.version.now v };

    fn to_json(&self, alloc: Global, item: &Value) -> Result<Told, AllocError> {
        value(alloc, self.names, self.version, *item)
    }
}

/// Values, in their order.
pub(crate) fn values(alloc: Global, table: Table<'_>, list: &[Value]) -> Result<Told, AllocError>
    ensures { IfOk result (λ told. view told ≡ values_json table.entry.names.now table.entry.version.now list.now) }
{
    each(alloc, &table, list)
}

/// A method, by its class and its selector.
pub(crate) fn method_named(
    alloc: Global,
    names: &Names,
    version: &Version,
    class: ClassId,
    selector: Selector,
) -> Result<Told, AllocError>
    ensures { IfOk result (λ told. view told ≡ named_method names.now version.now class selector) }
{
    let mut members = Members::new(alloc);
    members.put(alloc, "class", class_text(alloc, version, class)?)?;
    members.put(alloc, "selector", selector_text(alloc, names, selector)?)?;
    Ok(members.told())
}
