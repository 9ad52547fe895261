//! Faults by their names.
ghost use Rattle.std.specs.Prelude.{◌≡◌};
ghost use Rattle.st_file.specs.Shapes as shapes;

use st_classes::faults::Fault;
use st_wire::names::fault_name;

/// All faults.
const FAULTS: [Fault; 9] = [
    Fault::NotUnderstood,
    Fault::Overflow,
    Fault::ZeroDivide,
    Fault::BadArgument,
    Fault::MustBeBoolean,
    Fault::StackOverflow,
    Fault::HeapFull,
    Fault::LocalArgument,
    Fault::TooManyActors,
];

/// The fault with this name.
pub(crate) fn fault_of(name: &str) -> Option<Fault>
    ensures { result ≡ shapes.fault_of name.now }
{
    for fault in FAULTS {
        if name == fault_name(fault) {
            return Some(fault);
        }
    }
    None
}
