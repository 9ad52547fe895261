//! What a send asks the class table for.
use crate::values::{ClassId, MethodId, Selector};

/// A call site: the send at a place in a method's code.
#[derive(Clone, Copy, PartialEq, Eq, Hash, Debug)]
pub struct SiteId {
    pub method: MethodId,
    pub place: u16,
}

/// The key of a lookup: the receiver's class and the selector. A super send also has the class that holds the running method; the
/// walk begins above that class.
#[derive(Clone, Copy, PartialEq, Eq, Hash, Debug)]
pub struct Key {
    pub holder: Option<ClassId>,
    pub class: ClassId,
    pub selector: Selector,
}
