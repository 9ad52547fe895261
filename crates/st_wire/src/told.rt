//! Values that replies hold, made part by part.
ghost use Rattle.std.specs.Prelude.{◌≡◌, [], ◌∷◌, ◌++◌, true, IfOk, OnOk};
ghost use Rattle.std.specs.Str.{is_utf8};
ghost use Rattle.serde_json.specs.Data.{null, boolean, number as number_of, string, array, object, put as put_at, no_members};
ghost use Rattle.serde_json.specs.Find.{of_integer};
ghost use Rattle.serde_json.specs.View.{view as data_of, items_view, members_view};
ghost use Rattle.serde_json.specs.Written.{compact_text};
ghost use Rattle.st_wire.specs.Json.{ok, whole as whole_number};
ghost use Rattle.st_wire.specs.Told.{IsTidy};

use serde_json::{Map, Value, put};
use std::alloc::{AllocError, Global};
use std::marker::Model;

/// A value of a reply. It has no float, and the keys of its objects are in byte order.
#[derive(Drop)]
pub struct Told {
    value: Value,
}

impl Model for Told {
    ghost use Rattle.serde_json.specs.declared.value.Value.{Value as Tree};
    ghost use Rattle.serde_json.specs.View.{view as seen};
    ghost use Rattle.st_wire.specs.Told.{IsTidy as Tidy};
    ghost use Rattle.serde_json.specs.contracts.value.Value as tree;
    ghost use Rattle.std.specs.Coded.{codes};

    ghost Value = { Tree };

    ghost coded = { Prim.hlevel (codes, tree.the_row.coded) };

    ghost view = { λ t. t.value };

    ghost invariant = { λ t. Tidy (seen t.value) };
}

/// The items of a list that is being made.
#[derive(Drop)]
pub struct Items {
    values: Vec<Value>,
}

impl Model for Items {
    ghost use Rattle.std.specs.Prelude.{List};
    ghost use Rattle.serde_json.specs.declared.value.Value.{Value as Tree};
    ghost use Rattle.serde_json.specs.View.{items_view as seen};
    ghost use Rattle.st_wire.specs.Told.{AreTidyItems};
    ghost use Rattle.serde_json.specs.contracts.value.Value as tree;
    ghost use Rattle.std.specs.Coded.{codes};

    ghost Value = { List Tree };

    ghost coded = { Prim.hlevel (codes, tree.the_row.coded) };

    ghost view = { λ i. i.values.items };

    ghost invariant = { λ i. AreTidyItems (seen i.values.items) };
}

/// The members of an object that is being made.
#[derive(Drop)]
pub struct Members {
    map: Map<String, Value>,
}

impl Model for Members {
    ghost use Rattle.std.specs.Prelude.{List, String};
    ghost use Rattle.std.specs.declared.alloc.Global.{Global as Heap};
    ghost use Rattle.serde_json.specs.declared.value.Value.{Value as Tree};
    ghost use Rattle.serde_json.specs.View.{members_view as seen};
    ghost use Rattle.st_wire.specs.Told.{AreTidyMembers};
    ghost use Rattle.serde_json.specs.contracts.value.Value as tree;
    ghost use Rattle.std.specs.Coded.{codes};

    ghost Value = { List (String Heap × Tree) };

    ghost coded = { Prim.hlevel (codes, tree.the_row.coded) };

    ghost view = { λ m. m.map.entries };

    ghost invariant = { λ m. AreTidyMembers (seen m.map.entries) };
}

impl Told {
    /// What every value of a reply keeps to.
    pub fn known(&self)
        ensures { IsTidy (data_of self.now) }
    {
        let _ = &self.value;
    }

    /// `null`.
    pub fn nothing() -> Told
        ensures { data_of result ≡ null }
    {
        Told { value: Value::Null }
    }

    /// `true` or `false`.
    pub fn truth(truth: bool) -> Told
        ensures { data_of result ≡ boolean truth }
    {
        Told {
            value: Value::Bool(truth),
        }
    }

    /// A whole number.
    pub fn whole(number: u64) -> Told
        ensures { data_of result ≡ whole_number number }
    {
        Told {
            value: Value::from(number),
        }
    }

    /// A whole number with a sign.
    pub fn integer(number: i64) -> Told
        ensures { data_of result ≡ number_of (of_integer number) }
    {
        Told {
            value: Value::from(number),
        }
    }

    /// A text.
    pub fn word(alloc: Global, word: &str) -> Result<Told, AllocError>
        ensures { IfOk result (λ t. data_of t ≡ string word.now) }
    {
        Ok(Told {
            value: Value::String(String::from_str(alloc, word)?),
        })
    }

    /// A text, which is UTF-8.
    pub fn text(alloc: Global, text: &[u8]) -> Result<Told, AllocError>
        requires { is_utf8 text.now ≡ true }
        ensures { IfOk result (λ t. data_of t ≡ string text.now) }
    {
        let bytes = Vec::from_slice(alloc, text)?;
        Ok(Told {
            value: Value::String(String::from_utf8(bytes).unwrap()),
        })
    }

    /// The value of a reply that is not a refusal: this value at the key `ok`.
    pub fn ok(self, alloc: Global) -> Result<Told, AllocError>
        ensures { IfOk result (λ t. data_of t ≡ ok (data_of self)) }
    {
        let mut members = Members::new(alloc);
        members.put(alloc, "ok", self)?;
        Ok(members.told())
    }

    /// Its compact text.
    pub fn to_vec(&self, alloc: Global) -> Result<Vec<u8>, AllocError>
        ensures { IfOk result (λ text. text.items ≡ compact_text (data_of self.now)) }
    {
        self.value.to_vec(alloc)
    }
}

impl Items {
    /// No items.
    pub fn new(alloc: Global) -> Items
        ensures { result ≡ [] }
    {
        Items {
            values: Vec::new(alloc),
        }
    }

    /// Appends an item.
    pub fn push(&mut self, told: Told) -> Result<(), AllocError>
        ensures { OnOk result (self.new ≡ self.old ++ told ∷ []) }
    {
        let Told { value } = told;
        self.values.push(value)?;
        Ok(())
    }

    /// The list of them.
    pub fn told(self) -> Told
        ensures { data_of result ≡ array (items_view self) }
    {
        let Items { values } = self;
        Told {
            value: Value::Array(values),
        }
    }
}

impl Members {
    /// No members.
    pub fn new(alloc: Global) -> Members
        ensures { members_view result ≡ no_members }
    {
        Members {
            map: Map::new(alloc),
        }
    }

    /// Puts a value at a key.
    pub fn put(&mut self, alloc: Global, key: &str, told: Told) -> Result<(), AllocError>
        ensures { OnOk result (members_view self.new ≡ put_at key.now (data_of told) (members_view self.old)) }
    {
        let Told { value } = told;
        put(&mut self.map, alloc, key, value)
    }

    /// The object of them.
    pub fn told(self) -> Told
        ensures { data_of result ≡ object (members_view self) }
    {
        let Members { map } = self;
        Told {
            value: Value::Object(map),
        }
    }
}
