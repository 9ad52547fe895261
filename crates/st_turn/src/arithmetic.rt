//! Arithmetic on the integers of 64 bits.
ghost use Rattle.std.specs.Prelude.{◌≡◌, ◌≢◌, pos, ◌+ℤ◌, ◌-ℤ◌, ◌*ℤ◌, Some, None, if◌then◌else◌};
ghost use Rattle.st_turn.specs.Arithmetic.{floor_quotient, floor_remainder, has_64_bits, int_or_overflow, quotient_of, remainder_of, IsFloored};

use st_classes::faults::Fault;
use st_classes::values::Value;

/// The sum of two integers, or the fault `overflow`.
#[inline(always)]
pub(crate) fn sum(x: i64, y: i64) -> Result<Value, Fault>
    ensures { result ≡ int_or_overflow (x +ℤ y) }
{
    match x.checked_add(y) {
        Some(z) => Ok(Value::Int(z)),
        None => Err(Fault::Overflow),
    }
}

/// The difference of two integers, or the fault `overflow`.
#[inline(always)]
pub(crate) fn difference(x: i64, y: i64) -> Result<Value, Fault>
    ensures { result ≡ int_or_overflow (x -ℤ y) }
{
    match x.checked_sub(y) {
        Some(z) => Ok(Value::Int(z)),
        None => Err(Fault::Overflow),
    }
}

/// The product of two integers, or the fault `overflow`.
#[inline(always)]
pub(crate) fn product(x: i64, y: i64) -> Result<Value, Fault>
    ensures { result ≡ int_or_overflow (x *ℤ y) }
{
    match x.checked_mul(y) {
        Some(z) => Ok(Value::Int(z)),
        None => Err(Fault::Overflow),
    }
}

/// The quotient rounded towards negative infinity, if it fits in 64 bits.
#[inline(always)]
fn floored_quotient(x: i64, y: i64) -> Option<i64>
    requires { y ≢ pos 0 }
    ensures { result ≡ (if has_64_bits (floor_quotient x y) then Some (floor_quotient x y) else None) }
{
    if y > 0 {
        Some(if x < 0 { !(!x / y) } else { x / y })
    } else if x > 0 {
        Some(!(((x - 1) as u64 / y.unsigned_abs()) as i64))
    } else {
        i64::try_from(x.unsigned_abs() / y.unsigned_abs()).ok()
    }
}

/// The remainder of that quotient: x less y times the quotient.
#[inline(always)]
fn floored_remainder(x: i64, y: i64) -> i64
    requires { y ≢ pos 0 }
    ensures { result ≡ floor_remainder x y }
{
    if y > 0 {
        if x < 0 { y - 1 - !x % y } else { x % y }
    } else if x > 0 {
        ((x - 1) as u64 % y.unsigned_abs()) as i64 - !y
    } else {
        -((x.unsigned_abs() % y.unsigned_abs()) as i64)
    }
}

/// The quotient rounded towards negative infinity, or the fault of a divisor 0 or of a quotient over 64 bits.
#[inline(always)]
pub(crate) fn quotient(x: i64, y: i64) -> Result<Value, Fault>
    ensures { result ≡ quotient_of x y }
{
    if y == 0 {
        return Err(Fault::ZeroDivide);
    }
    match floored_quotient(x, y) {
        Some(z) => Ok(Value::Int(z)),
        None => Err(Fault::Overflow),
    }
}

/// The remainder of that quotient, which is 0 or has the sign of y, or the fault of a divisor 0.
#[inline(always)]
pub(crate) fn remainder(x: i64, y: i64) -> Result<Value, Fault>
    ensures { result ≡ remainder_of x y }
{
    if y == 0 {
        return Err(Fault::ZeroDivide);
    }
    Ok(Value::Int(floored_remainder(x, y)))
}

/// The law of quotient and remainder: x is y times the quotient plus the remainder, which is 0 or has the sign of y, and is smaller
/// than y in absolute value.
pub fn floored(x: i64, y: i64)
    requires { y ≢ pos 0 }
    ensures { IsFloored x y (floor_quotient x y) (floor_remainder x y) }
{}
