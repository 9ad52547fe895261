//! What the kernel's methods answer.
ghost use Rattle.std.specs.Prelude.{◌≡◌};
ghost use Rattle.st_turn.specs.KernelMethods.{and_answer, binary_answer, integer_answer, is_nil, is_same, kernel_answer, not_answer};
ghost use Rattle.st_turn.specs.Needs.{IsAmong};
ghost use Rattle.st_turn.specs.Steps.{is_new as makes_object};

use crate::arithmetic::{difference, product, quotient, remainder, sum};
use crate::body::Objects;
use st_classes::faults::Fault;
use st_classes::kernel::Kernel;
use st_classes::values::Value;

/// Whether a method of the kernel is `new`.
#[inline(always)]
pub(crate) fn is_new(kernel: Kernel) -> bool
    ensures { result ≡ makes_object kernel }
{
    matches!(kernel, Kernel::New)
}

#[inline(always)]
fn is_same(a: Value, b: Value) -> bool
    ensures { result ≡ is_same a b }
{
    match (a, b) {
        (Value::Int(x), Value::Int(y)) => x == y,
        (Value::Bool(x), Value::Bool(y)) => x == y,
        (Value::Nil, Value::Nil) => true,
        (Value::Sym(s), Value::Sym(t)) => s.0 == t.0,
        (Value::Class(c), Value::Class(d)) => c.0 == d.0,
        (Value::Actor(x), Value::Actor(y)) => x.0 == y.0,
        (Value::Local(m), Value::Local(n)) => m == n,
        _ => false,
    }
}

#[inline(always)]
fn is_nil(value: Value) -> bool
    ensures { result ≡ is_nil value }
{
    matches!(value, Value::Nil)
}

#[inline(always)]
fn negated(receiver: Value) -> Result<Value, Fault>
    ensures { result ≡ not_answer receiver }
{
    match receiver {
        Value::Bool(b) => Ok(Value::Bool(!b)),
        _ => Err(Fault::BadArgument),
    }
}

#[inline(always)]
fn conjunction(receiver: Value, argument: Value) -> Result<Value, Fault>
    ensures { result ≡ and_answer receiver argument }
{
    match receiver {
        Value::Bool(true) => Ok(argument),
        Value::Bool(false) => Ok(Value::Bool(false)),
        _ => Err(Fault::BadArgument),
    }
}

/// What a method of SmallInteger answers for two integers, or its fault.
#[inline(always)]
pub(crate) fn integer_answer(kernel: Kernel, x: i64, y: i64) -> Result<Value, Fault>
    ensures { result ≡ integer_answer kernel x y }
{
    match kernel {
        Kernel::Add => sum(x, y),
        Kernel::Subtract => difference(x, y),
        Kernel::Multiply => product(x, y),
        Kernel::Quotient => quotient(x, y),
        Kernel::Remainder => remainder(x, y),
        Kernel::Less => Ok(Value::Bool(x < y)),
        Kernel::Greater => Ok(Value::Bool(x > y)),
        Kernel::LessOrEqual => Ok(Value::Bool(x <= y)),
        Kernel::GreaterOrEqual => Ok(Value::Bool(x >= y)),
        _ => Err(Fault::BadArgument),
    }
}

/// What a kernel method with one argument answers, or its fault.
#[inline(always)]
fn binary_answer(kernel: Kernel, receiver: Value, argument: Value) -> Result<Value, Fault>
    ensures { result ≡ binary_answer kernel receiver argument }
{
    match kernel {
        Kernel::Identical | Kernel::Equal => Ok(Value::Bool(is_same(receiver, argument))),
        Kernel::And => conjunction(receiver, argument),
        _ => match (receiver, argument) {
            (Value::Int(x), Value::Int(y)) => integer_answer(kernel, x, y),
            _ => Err(Fault::BadArgument),
        },
    }
}

/// What a kernel method answers, or its fault. `new`, posts, `close` and `newActor` are not done here.
#[inline(always)]
pub fn kernel_answer(
    kernel: Kernel,
    objects: &Objects,
    receiver: Value,
    args: &[Value],
) -> Result<Value, Fault>
    requires { IsAmong objects.now receiver }
    ensures { result ≡ kernel_answer kernel objects.now receiver args.now }
{
    match kernel {
        Kernel::ClassOf => Ok(Value::Class(objects.class_of(receiver))),
        Kernel::IsNil => Ok(Value::Bool(is_nil(receiver))),
        Kernel::DoesNotUnderstand => Err(Fault::NotUnderstood),
        Kernel::Not => negated(receiver),
        _ => match args {
            [argument] => binary_answer(kernel, receiver, *argument),
            _ => Err(Fault::BadArgument),
        },
    }
}
