//! Writes actors and their bodies.
ghost use Rattle.std.specs.Prelude.{codes};
ghost use Rattle.serde_json.specs.Data.{string};
ghost use Rattle.serde_json.specs.Written.{compact_text};
ghost use Rattle.st_wire.specs.Names.{fault_name as name_of};
ghost use Rattle.st_wire.specs.Replies.{only as only_key};
ghost use Rattle.st_file.specs.ActorJson.{actor_json};
ghost use Rattle.st_file.specs.BodyJson.{body_json, frame_json, frames_json, object_json, phase_json, start_json};
ghost use Rattle.st_file.specs.TextWriters.{Puts};
ghost use Rattle.st_file.specs.ValueJson.{value_json};

use crate::saving::lists::{Writes, each};
use crate::saving::text_writer::TextWriter;
use crate::saving::values::{Table, class_name, selector_name, value, values};
use st_classes::faults::Fault;
use st_classes::values::{Selector, Value};
use st_image::actor_part::ActorPart;
use st_turn::body::{Body, Object, Outcome, Phase};
use st_turn::frame::FrameRef;
use st_turn::stack::Stack;
use st_wire::names::fault_name;
use st_wire::streams::Output;

impl<'a> Writes<Object> for Table<'a> {
    ghost can_be_written = { λ t o. Unit {0} };

    ghost json = { λ t o. object_json t.names.now t.version.now o };

    fn write<O: Output>(&self, writer: &mut TextWriter, output: &mut O, item: &Object) {
        writer.put(output, "{");
        writer.key(output, false, "class");
        class_name(writer, output, self.version, item.class);
        writer.key(output, true, "slots");
        values(writer, output, *self, item.slots.as_slice());
        writer.put(output, "}");
    }
}

/// Writes a frame.
fn frame<O: Output>(writer: &mut TextWriter, output: &mut O, table: Table<'_>, frame: &FrameRef<'_>)
    ensures { Puts O.contents O.failures O.flushes output.old output.new writer.old writer.new (compact_text (frame_json table.entry.names.now table.entry.version.now frame.now)) }
{
    writer.put(output, "{");
    writer.key(output, false, "method");
    writer.whole(output, frame.method.0.into());
    writer.key(output, true, "operands");
    values(writer, output, table, frame.operands);
    writer.key(output, true, "pc");
    writer.whole(output, frame.pc.into());
    writer.key(output, true, "receiver");
    value(writer, output, table, frame.receiver);
    writer.key(output, true, "temps");
    values(writer, output, table, frame.temps);
    writer.put(output, "}");
}

/// Writes the frames of a turn, from the first to the running one.
fn frames<O: Output>(writer: &mut TextWriter, output: &mut O, table: Table<'_>, stack: &Stack)
    ensures { Puts O.contents O.failures O.flushes output.old output.new writer.old writer.new (compact_text (frames_json table.entry.names.now table.entry.version.now stack.now)) }
{
    writer.put(output, "[");
    let mut later = false;
    for place in 0..stack.waiting() {
        match stack.waiting_frame(place) {
            Some(waiting) => {
                writer.comma(output, later);
                frame(writer, output, table, &waiting);
            }
            None => unreachable!(),
        }
        later = true;
    }
    writer.comma(output, later);
    frame(writer, output, table, &stack.running_frame());
    writer.put(output, "]");
}

/// Writes a turn that has begun and taken no step.
fn start<O: Output>(
    writer: &mut TextWriter,
    output: &mut O,
    table: Table<'_>,
    selector: Selector,
    args: &[Value],
)
    ensures { Puts O.contents O.failures O.flushes output.old output.new writer.old writer.new (compact_text (start_json table.entry.names.now table.entry.version.now selector args.now)) }
{
    writer.put(output, "{");
    writer.key(output, false, "start");
    writer.put(output, "{");
    writer.key(output, false, "args");
    values(writer, output, table, args);
    writer.key(output, true, "selector");
    selector_name(writer, output, table.names, selector);
    writer.put(output, "}");
    writer.put(output, "}");
}

/// Writes a turn that is under way.
fn running<O: Output>(writer: &mut TextWriter, output: &mut O, table: Table<'_>, stack: &Stack)
    ensures { Puts O.contents O.failures O.flushes output.old output.new writer.old writer.new (compact_text (only_key (codes "frames") (frames_json table.entry.names.now table.entry.version.now stack.now))) }
{
    writer.put(output, "{");
    writer.key(output, false, "frames");
    frames(writer, output, table, stack);
    writer.put(output, "}");
}

/// Writes an answer.
fn answer<O: Output>(writer: &mut TextWriter, output: &mut O, table: Table<'_>, answer: Value)
    ensures { Puts O.contents O.failures O.flushes output.old output.new writer.old writer.new (compact_text (only_key (codes "answer") (value_json table.entry.names.now table.entry.version.now answer))) }
{
    writer.put(output, "{");
    writer.key(output, false, "answer");
    value(writer, output, table, answer);
    writer.put(output, "}");
}

/// Writes a fault.
fn fault<O: Output>(writer: &mut TextWriter, output: &mut O, fault: Fault)
    ensures { Puts O.contents O.failures O.flushes output.old output.new writer.old writer.new (compact_text (only_key (codes "fault") (string (name_of fault)))) }
{
    writer.put(output, "{");
    writer.key(output, false, "fault");
    writer.word(output, fault_name(fault));
    writer.put(output, "}");
}

/// Writes where a turn stands.
fn turn<O: Output>(writer: &mut TextWriter, output: &mut O, table: Table<'_>, phase: &Phase)
    ensures { Puts O.contents O.failures O.flushes output.old output.new writer.old writer.new (compact_text (phase_json table.entry.names.now table.entry.version.now phase.now)) }
{
    match phase {
        Phase::Fresh => writer.word(output, "fresh"),
        Phase::Start { selector, args } => {
            start(writer, output, table, *selector, args.as_slice());
        }
        Phase::Frames(stack) => running(writer, output, table, stack),
        Phase::Done(Outcome::Answer(value)) => answer(writer, output, table, *value),
        Phase::Done(Outcome::Fault(name)) => fault(writer, output, *name),
    }
}

/// Writes a body.
fn body<O: Output>(writer: &mut TextWriter, output: &mut O, table: Table<'_>, body: &Body)
    ensures { Puts O.contents O.failures O.flushes output.old output.new writer.old writer.new (compact_text (body_json table.entry.names.now table.entry.version.now body.now)) }
{
    writer.put(output, "{");
    writer.key(output, false, "objects");
    each(writer, output, &table, body.objects.as_slice());
    writer.key(output, true, "phase");
    turn(writer, output, table, &body.phase);
    writer.put(output, "}");
}

impl<'a> Writes<ActorPart> for Table<'a> {
    ghost can_be_written = { λ t a. Unit {0} };

    ghost json = { λ t a. actor_json t.names.now t.version.now a };

    fn write<O: Output>(&self, writer: &mut TextWriter, output: &mut O, item: &ActorPart) {
        writer.put(output, "{");
        writer.key(output, false, "body");
        body(writer, output, *self, &item.body);
        writer.key(output, true, "capacity");
        writer.whole(output, item.capacity.into());
        writer.key(output, true, "class");
        class_name(writer, output, self.version, item.class);
        writer.key(output, true, "last");
        writer.whole(output, item.last);
        writer.key(output, true, "open");
        writer.truth(output, item.is_open);
        writer.key(output, true, "pending");
        each(writer, output, self, item.pending.as_slice());
        writer.put(output, "}");
    }
}
