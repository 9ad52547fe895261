//! Letting go of what is large. The proof of a function goes through all parts of a value on each path that drops it; with a call in
//! its place they are gone through once.
ghost use Rattle.std.specs.Prelude.{◌≡◌};

/// Lets a value go, and hands the answer on.
pub fn let_go<T: Drop, E>(_value: T, answer: E) -> E
    ensures { result ≡ answer }
{
    answer
}
