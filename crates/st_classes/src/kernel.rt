//! The kernel's classes and methods.
ghost use Rattle.std.specs.Prelude.{◌≡◌};
ghost use Rattle.st_classes.specs.EditRules.{is_value_class as value_class};
ghost use Rattle.st_classes.specs.Kernel.{kernel_method, object_method, integer_method, boolean_method, actor_method, class_method};

use crate::values::{ClassId, MethodId, Selector};

/// The root of the classes.
pub const OBJECT: ClassId = ClassId(0);

/// The class of integers of 64 bits.
pub const SMALL_INTEGER: ClassId = ClassId(1);

/// The class of `true`.
pub const TRUE: ClassId = ClassId(2);

/// The class of `false`.
pub const FALSE: ClassId = ClassId(3);

/// The class of `nil`.
pub const UNDEFINED_OBJECT: ClassId = ClassId(4);

/// The class of symbols.
pub const SYMBOL: ClassId = ClassId(5);

/// The class of references to actors.
pub const ACTOR_REF: ClassId = ClassId(6);

/// The class of classes.
pub const CLASS: ClassId = ClassId(7);

/// The number of kernel classes, and so the number of the user's first class.
pub const KERNEL_CLASSES: u16 = 8;

// The kernel's selectors are the first names of every name table, in this order.

/// The selector `==`.
pub const IDENTICAL: Selector = Selector(0);

/// The selector `=`.
pub const EQUAL: Selector = Selector(1);

/// The selector `class`.
pub const CLASS_OF: Selector = Selector(2);

/// The selector `isNil`.
pub const IS_NIL: Selector = Selector(3);

/// The selector `doesNotUnderstand:`.
pub const DOES_NOT_UNDERSTAND: Selector = Selector(4);

/// The selector `+`.
pub const ADD: Selector = Selector(5);

/// The selector `-`.
pub const SUBTRACT: Selector = Selector(6);

/// The selector `*`.
pub const MULTIPLY: Selector = Selector(7);

/// The selector `//`.
pub const QUOTIENT: Selector = Selector(8);

/// The selector `\\`.
pub const REMAINDER: Selector = Selector(9);

/// The selector `<`.
pub const LESS: Selector = Selector(10);

/// The selector `>`.
pub const GREATER: Selector = Selector(11);

/// The selector `<=`.
pub const LESS_OR_EQUAL: Selector = Selector(12);

/// The selector `>=`.
pub const GREATER_OR_EQUAL: Selector = Selector(13);

/// The selector `not`.
pub const NOT: Selector = Selector(14);

/// The selector `&`.
pub const AND: Selector = Selector(15);

/// The selector `post:`.
pub const POST: Selector = Selector(16);

/// The selector `post:with:`.
pub const POST_WITH: Selector = Selector(17);

/// The selector `post:with:with:`.
pub const POST_WITH_WITH: Selector = Selector(18);

/// The selector `close`.
pub const CLOSE: Selector = Selector(19);

/// The selector `new`.
pub const NEW: Selector = Selector(20);

/// The selector `newActor`.
pub const NEW_ACTOR: Selector = Selector(21);

/// Whether a class is one of the kernel's, Object aside: its instances are values, which no message makes, and it has no subclasses.
#[inline(always)]
pub fn is_value_class(class: ClassId) -> bool
    ensures { result ≡ value_class class }
{
    1 <= class.0 && class.0 < KERNEL_CLASSES
}

/// A method of the kernel.
#[derive(Clone, Copy, PartialEq, Eq, Debug)]
pub enum Kernel {
    /// `==`
    Identical,
    /// `=`
    Equal,
    /// `class`
    ClassOf,
    /// `isNil`
    IsNil,
    /// `doesNotUnderstand:`
    DoesNotUnderstand,
    /// `+`
    Add,
    /// `-`
    Subtract,
    /// `*`
    Multiply,
    /// `//`
    Quotient,
    /// `\\`
    Remainder,
    /// `<`
    Less,
    /// `>`
    Greater,
    /// `<=`
    LessOrEqual,
    /// `>=`
    GreaterOrEqual,
    /// `not`
    Not,
    /// `&`
    And,
    /// `post:`
    Post,
    /// `post:with:`
    PostWith,
    /// `post:with:with:`
    PostWithWith,
    /// `close`
    Close,
    /// `new`
    New,
    /// `newActor`
    NewActor,
}

/// A class's own method.
#[derive(Clone, Copy, PartialEq, Eq, Debug)]
pub enum Found {
    User(MethodId),
    Kernel(Kernel),
}

/// What a send runs.
#[derive(Clone, Copy, PartialEq, Eq, Debug)]
pub enum Target {
    /// A method of the user's.
    Run(MethodId),
    /// A method of the kernel.
    Primitive(Kernel),
    /// No method was found. The user's method for `doesNotUnderstand:` runs; without one, Object's own does.
    Missing(Option<MethodId>),
}

#[inline(always)]
fn object_kernel(selector: Selector) -> Option<Kernel>
    ensures { result ≡ object_method selector.0 }
{
    match selector {
        IDENTICAL => Some(Kernel::Identical),
        EQUAL => Some(Kernel::Equal),
        CLASS_OF => Some(Kernel::ClassOf),
        IS_NIL => Some(Kernel::IsNil),
        DOES_NOT_UNDERSTAND => Some(Kernel::DoesNotUnderstand),
        _ => None,
    }
}

#[inline(always)]
fn integer_kernel(selector: Selector) -> Option<Kernel>
    ensures { result ≡ integer_method selector.0 }
{
    match selector {
        ADD => Some(Kernel::Add),
        SUBTRACT => Some(Kernel::Subtract),
        MULTIPLY => Some(Kernel::Multiply),
        QUOTIENT => Some(Kernel::Quotient),
        REMAINDER => Some(Kernel::Remainder),
        LESS => Some(Kernel::Less),
        GREATER => Some(Kernel::Greater),
        LESS_OR_EQUAL => Some(Kernel::LessOrEqual),
        GREATER_OR_EQUAL => Some(Kernel::GreaterOrEqual),
        _ => None,
    }
}

#[inline(always)]
fn boolean_kernel(selector: Selector) -> Option<Kernel>
    ensures { result ≡ boolean_method selector.0 }
{
    match selector {
        NOT => Some(Kernel::Not),
        AND => Some(Kernel::And),
        _ => None,
    }
}

#[inline(always)]
fn actor_kernel(selector: Selector) -> Option<Kernel>
    ensures { result ≡ actor_method selector.0 }
{
    match selector {
        POST => Some(Kernel::Post),
        POST_WITH => Some(Kernel::PostWith),
        POST_WITH_WITH => Some(Kernel::PostWithWith),
        CLOSE => Some(Kernel::Close),
        _ => None,
    }
}

#[inline(always)]
fn class_kernel(selector: Selector) -> Option<Kernel>
    ensures { result ≡ class_method selector.0 }
{
    match selector {
        NEW => Some(Kernel::New),
        NEW_ACTOR => Some(Kernel::NewActor),
        _ => None,
    }
}

/// The kernel's method of a class for a selector.
#[inline(always)]
pub fn kernel_at(class: ClassId, selector: Selector) -> Option<Kernel>
    ensures { result ≡ kernel_method class selector }
{
    match class {
        OBJECT => object_kernel(selector),
        SMALL_INTEGER => integer_kernel(selector),
        TRUE | FALSE => boolean_kernel(selector),
        ACTOR_REF => actor_kernel(selector),
        CLASS => class_kernel(selector),
        _ => None,
    }
}
