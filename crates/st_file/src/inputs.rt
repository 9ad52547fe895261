//! Reads an input to its end.
ghost use Rattle.std.specs.Prelude.{◌≡◌, ◌<◌, ◌⊎◌, ℕ, List, ◌++◌, length, IfErr, IfOk, MatchResult, OnOk};
ghost use Rattle.std.specs.Io.KnownBytes.{Consumes, IsAtEnd};
ghost use Rattle.st_classes.specs.declared.refusals.Refusal.TheVariants.{NoMemory, ReadFault};
ghost use Rattle.st_wire.specs.Streams.{input_view, one_more};
ghost use Rattle.st_file.specs.Inputs.{GivesAll, StopsShort};

use st_classes::refusals::Refusal;
use st_wire::streams::Input;
use std::alloc::Global;

/// The most bytes that one read takes.
const PIECE: usize = 8192;

/// The most reads from one input.
const READS: u64 = 1 << 32;

/// Reads the next piece of an input, appends it to a text, and returns its length, which is 0 only at the end.
fn read_piece<I: Input>(
    input: &mut I,
    text: &mut Vec<u8>,
    buffer: &mut [u8],
) -> Result<usize, Refusal>
    requires { 0 < length buffer.old }
    ensures piece { (piece : List ℕ) × Consumes (I.remaining input.old) (I.remaining input.new) piece
        × IfOk result (λ n. (length piece ≡ n) × (text.new.items ≡ text.old.items ++ piece)) }
    ensures end { IfOk result (λ n. n ≡ 0 → IsAtEnd (I.remaining input.new)) }
    ensures unfailed { OnOk result (I.failures input.new ≡ I.failures input.old) }
    ensures why { IfErr result (λ e. ((e ≡ ReadFault) × (I.failures input.new ≡ one_more (I.failures input.old)))
        ⊎ ((e ≡ NoMemory) × (I.failures input.new ≡ I.failures input.old))) }
    ensures read { I.reads input.new ≡ one_more (I.reads input.old) }
{
    let Ok(count) = input.read(buffer) else {
        return Err(Refusal::ReadFault);
    };
    text.extend_from_slice(&buffer[..count])?;
    Ok(count)
}

/// Reads an input to its end. Fails with `ReadFault` if a read failed, or if 2^32 reads found no end.
pub(crate) fn read_all<I: Input>(alloc: Global, input: &mut I) -> Result<Vec<u8>, Refusal>
    ensures { let before = input_view I.remaining I.failures I.reads input.old in
        let after = input_view I.remaining I.failures I.reads input.new in
        MatchResult result (λ text. GivesAll before after text.items) (StopsShort before after) }
{
    let mut text = Vec::new(alloc);
    let mut buffer = [0u8; PIECE];
    for reads in 0..READS {
        match read_piece(input, &mut text, &mut buffer) {
            Ok(0) => return Ok(text),
            Ok(_) => {}
            Err(refusal) => return Err(refusal),
        }
    }
    Err(Refusal::ReadFault)
}
