//! An edit of an image file.
use st_classes::seq::Seq;

/// An edit as texts: classes and selectors are named, and a method is its source.
#[derive(Drop)]
pub enum EditText {
    Define {
        name: Seq<u8>,
        parent: Seq<u8>,
        slots: Seq<Seq<u8>>,
    },
    Install {
        class: Seq<u8>,
        source: Seq<u8>,
    },
    Remove {
        class: Seq<u8>,
        selector: Seq<u8>,
    },
    Reparent {
        class: Seq<u8>,
        parent: Seq<u8>,
    },
}
