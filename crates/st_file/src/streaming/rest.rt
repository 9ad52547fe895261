//! Reads what follows the actors of a document.
ghost use Rattle.std.specs.Prelude.{◌≡◌, ◌<◌, ◌≤◌, length, Some, None, [], IfOk, OnOk, ℕ};
ghost use Rattle.json.specs.Json.{read_key};
ghost use Rattle.serde_json.specs.Data.{number, unsigned};
ghost use Rattle.st_image.specs.Counts.{CanBeCounted};
ghost use Rattle.st_wire.specs.Tokens.{BeginsWith};
ghost use Rattle.st_file.specs.Streaming.{TellsRest};

use crate::streaming::lists::{Texts, list};
use crate::texts::ImageText;
use json::Reader;
use st_classes::seq::Seq;
use st_image::counts::{Counts, MOST_COUNTED};
use st_wire::misses::Miss;
use st_wire::values::read_whole;
use std::alloc::Global;

/// Reads a key, which must be this one.
pub(crate) fn key(reader: &mut Reader<'_>, name: &str) -> Result<(), Miss>
    ensures key { OnOk result (read_key reader.old ≡ Some (Some name.now, reader.new)) }
    ensures shorter { OnOk result (length reader.new < length reader.old) }
{
    match reader.next_key()? {
        Some(key) if key == name => Ok(()),
        _ => Err(Miss::Undecided),
    }
}

/// Reads the number of posts or of steps that was counted.
fn count(reader: &mut Reader<'_>) -> Result<u64, Miss>
    ensures read { IfOk result (λ n. (depth : ℕ) → BeginsWith depth reader.old (number (unsigned n)) reader.new) }
    ensures few { IfOk result (λ n. n ≤ MOST_COUNTED) }
    ensures shorter { OnOk result (length reader.new < length reader.old) }
{
    let number = read_whole(reader)?;
    if number > MOST_COUNTED {
        return Err(Miss::Undecided);
    }
    Ok(number)
}

/// Passes the number of the second format.
fn format(reader: &mut Reader<'_>) -> Result<(), Miss>
    ensures read { OnOk result ((depth : ℕ) → BeginsWith depth reader.old (number (unsigned 2)) reader.new) }
    ensures shorter { OnOk result (length reader.new < length reader.old) }
{
    match read_whole(reader)? {
        2 => Ok(()),
        _ => Err(Miss::Undecided),
    }
}

/// Passes the brace at the end of a document, behind which nothing follows.
fn close(reader: &mut Reader<'_>) -> Result<(), Miss>
    ensures { OnOk result (read_key reader.old ≡ Some (None, [])) }
{
    if reader.next_key()?.is_some() || reader.next().is_some() {
        return Err(Miss::Undecided);
    }
    Ok(())
}

/// Reads all that follows the actors, to the end of the text. The texts have no actors.
pub(crate) fn rest(alloc: Global, reader: &mut Reader<'_>) -> Result<ImageText, Miss>
    ensures told { IfOk result (λ t. TellsRest reader.old t) }
    ensures counted { IfOk result (λ t. CanBeCounted t.counts) }
{
    key(reader, "edits")?;
    let edits = list(alloc, reader, &Texts)?;
    key(reader, "format")?;
    format(reader)?;
    key(reader, "names")?;
    let names = list(alloc, reader, &Texts)?;
    key(reader, "posts")?;
    let posts = count(reader)?;
    key(reader, "senders")?;
    let senders = list(alloc, reader, &Texts)?;
    key(reader, "steps")?;
    let steps = count(reader)?;
    close(reader)?;
    Ok(ImageText {
        actors: Seq::from_vec(Vec::new(alloc)),
        counts: Counts { posts, steps },
        edits,
        names,
        senders,
    })
}
