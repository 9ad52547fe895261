//! Refusals and faults by their names on the wire.
ghost use Rattle.std.specs.Prelude.{◌≡◌};
ghost use Rattle.st_wire.specs.Names as spec;

use st_classes::faults::Fault;
use st_classes::refusals::{ImagePlace, Limited, Refusal, SourceFault};

/// The name of a fault.
pub fn fault_name(fault: Fault) -> &'static str
    ensures { result.now ≡ spec.fault_name fault }
{
    match fault {
        Fault::NotUnderstood => "notUnderstood",
        Fault::Overflow => "overflow",
        Fault::ZeroDivide => "zeroDivide",
        Fault::BadArgument => "badArgument",
        Fault::MustBeBoolean => "mustBeBoolean",
        Fault::StackOverflow => "stackOverflow",
        Fault::HeapFull => "heapFull",
        Fault::LocalArgument => "localArgument",
        Fault::TooManyActors => "tooManyActors",
    }
}

pub(crate) fn kind_name(kind: SourceFault) -> &'static str
    ensures { result.now ≡ spec.kind_name kind }
{
    match kind {
        SourceFault::TooLarge => "TooLarge",
        SourceFault::BadCharacter => "BadCharacter",
        SourceFault::BadToken => "BadToken",
        SourceFault::BadPattern => "BadPattern",
        SourceFault::Nested => "Nested",
        SourceFault::DuplicateName => "DuplicateName",
        SourceFault::ReadOnly => "ReadOnly",
        SourceFault::BlockEscapes => "BlockEscapes",
        SourceFault::UnknownName => "UnknownName",
    }
}

pub(crate) fn limited_name(what: Limited) -> &'static str
    ensures { result.now ≡ spec.limited_name what }
{
    match what {
        Limited::Classes => "classes",
        Limited::Slots => "slots",
        Limited::Edits => "edits",
        Limited::Names => "names",
        Limited::Actors => "actors",
        Limited::Sessions => "sessions",
    }
}

pub(crate) fn place_name(place: ImagePlace) -> &'static str
    ensures { result.now ≡ spec.place_name place }
{
    match place {
        ImagePlace::Json => "json",
        ImagePlace::Shape => "shape",
        ImagePlace::Names => "names",
        ImagePlace::Edits => "edits",
        ImagePlace::Actors => "actors",
        ImagePlace::Senders => "senders",
    }
}

/// The name of a refusal on the wire.
pub fn refusal_name(refusal: Refusal) -> &'static str
    ensures { result.now ≡ spec.refusal_name refusal }
{
    match refusal {
        Refusal::UnknownClass => "UnknownClass",
        Refusal::ClassExists => "ClassExists",
        Refusal::KernelClass => "KernelClass",
        Refusal::KernelMethod => "KernelMethod",
        Refusal::BadName => "BadName",
        Refusal::SlotClash => "SlotClash",
        Refusal::TooDeep => "TooDeep",
        Refusal::BadSource { .. } => "BadSource",
        Refusal::NoSuchMethod => "NoSuchMethod",
        Refusal::UnknownActor => "UnknownActor",
        Refusal::Closed => "Closed",
        Refusal::Full => "Full",
        Refusal::Old { .. } => "Old",
        Refusal::BadArguments => "BadArguments",
        Refusal::NothingToDo => "NothingToDo",
        Refusal::Stale { .. } => "Stale",
        Refusal::Changed => "Changed",
        Refusal::TooMany { .. } => "TooMany",
        Refusal::Pending => "Pending",
        Refusal::Expired => "Expired",
        Refusal::BadCommand => "BadCommand",
        Refusal::TooLong => "TooLong",
        Refusal::BadImage { .. } => "BadImage",
        Refusal::HistoryFull => "HistoryFull",
        Refusal::NoMemory => "NoMemory",
        Refusal::ReadFault => "ReadFault",
        Refusal::WriteFault => "WriteFault",
        Refusal::Cycle => "Cycle",
        Refusal::SlotsDiffer => "SlotsDiffer",
    }
}
