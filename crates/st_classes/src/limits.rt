//! The limits of an image.

/// Classes, including the kernel's eight.
pub const CLASSES: usize = 1024;

/// Classes on a superclass chain, including the class and Object.
pub const CHAIN: usize = 64;

/// Instance variables of a class, including inherited ones.
pub const SLOTS: usize = 64;

/// Edits in a class table.
pub const EDITS: usize = 4096;

/// Edits that one run accepts.
pub const RUN_EDITS: usize = 2048;

/// Names: selectors and symbols together.
pub const NAMES: usize = 8192;

/// Bytes of an identifier.
pub const IDENTIFIER: usize = 64;

/// Keywords of a selector, and so the arguments of a method.
pub const ARGUMENTS: usize = 8;

/// Arguments and temporaries of a method together.
pub const TEMPORARIES: usize = 64;

/// Operands of a frame.
pub const OPERANDS: usize = 64;

/// Frames of a body.
pub const FRAMES: usize = 128;

/// Instructions of a method.
pub const INSTRUCTIONS: usize = 1024;

/// Depth to which parentheses and blocks nest.
pub const NESTING: u8 = 64;

/// Bytes of a method's source.
pub const SOURCE: usize = 4096;

/// Actors of an image.
pub const ACTORS: usize = 65_536;
