//! Sessions over bytes in memory.
ghost use Rattle.std.specs.Prelude.{◌≡◌, ◌⊎◌, [], Err, IfNone, IfSome};
ghost use Rattle.st_classes.specs.Refusals.{first_of};
ghost use Rattle.st_classes.specs.declared.refusals.Refusal.TheVariants.{NoMemory};
ghost use Rattle.st_guard.specs.Moves.{CachesView};
ghost use Rattle.st_session.specs.Sessions.{Replies};
ghost use Rattle.st_session.specs.DeviceSessions.{ByteSession};
ghost use Rattle.st_script.specs.CommandReplies.{Serves};
ghost use Rattle.st_script.specs.Runners.{AreNew, GuardView, RunnerView};
ghost use Rattle.st_script.specs.Scripts.{script_rules, with_settings};

use crate::devices::{end_of, says_in_pieces};
use st_classes::refusals::Refusal;
use st_image::settings::Settings;
use st_script::images::Image;
use st_script::scripts::script_on;
use st_script::settings::ScriptSettings;
use st_wire::streams::{MemoryInput, MemoryOutput};
use std::alloc::Global;
use std::test::*;

/// A script over bytes in memory. Its contract says what that of every script says there: settings out of their ranges
/// are refused; otherwise what is written depends on the bytes alone, line by line, unless there was no memory for the
/// caches, and then nothing is written.
fn in_memory(
    alloc: Global,
    bytes: Vec<u8>,
    settings: ScriptSettings,
    image: Image,
) -> (Image, MemoryOutput, Result<u64, Refusal>)
    requires { image.history ≡ [] }
    ensures refused { IfSome (first_of (script_rules settings))
        (λ e. (result.2 ≡ Err e) × (result.1.bytes.items ≡ []) × (result.0 ≡ image)) }
    ensures answered { IfNone (first_of (script_rules settings))
        (((v : CachesView GuardView) × (k : RunnerView) × AreNew v
        × ByteSession (Replies (Serves settings.quantum)) (record { image = with_settings image settings; caches = v }) bytes.items result.1.bytes.items k result.2
        × (result.0 ≡ k.image))
        ⊎ ((result.2 ≡ Err NoMemory) × (result.1.bytes.items ≡ []) × (result.0 ≡ with_settings image settings))) }
{
    let mut input = MemoryInput::new(bytes);
    let mut output = MemoryOutput::new(alloc);
    let (image, result) = script_on(alloc, &mut input, &mut output, settings, image);
    (image, output, result)
}

/// Whether a script of a new image is answered by these replies and ends so, in memory and however its bytes are cut.
pub(crate) fn says(
    alloc: Global,
    settings: ScriptSettings,
    script: &[u8],
    replies: &[u8],
    end: Result<u64, Refusal>,
) -> Result<bool, Fail> {
    let text = Vec::from_slice(alloc, script)?;
    let image = Image::new(alloc, Settings::DEFAULT)?;
    let (image, output, ended) = in_memory(alloc, text, settings, image);
    Ok(
        end_of((image, ended)) == end
            && output.as_slice() == replies
            && says_in_pieces(alloc, settings, script, replies, end)?,
    )
}

/// Texts, the replies to their lines, and how their sessions end.
const SESSIONS: &[(&[u8], &str, Result<u64, Refusal>)] = &[
    (
        b"{\"cmd\":\"run\"}\n\nno\n{\"cmd\":\"run\"}\r\n{\"cmd\":\"run\"}",
        r#"{"ok":{"quanta":0,"steps":0}}
{"error":"BadCommand"}
{"error":"BadCommand"}
{"ok":{"quanta":0,"steps":0}}
{"ok":{"quanta":0,"steps":0}}
"#,
        Ok(5),
    ),
    (
        b"{\"cmd\":\"run\"}\r\n",
        "{\"ok\":{\"quanta\":0,\"steps\":0}}\n",
        Ok(1),
    ),
    (
        b"{\"cmd\":\"run\"}\r\n\r",
        "{\"ok\":{\"quanta\":0,\"steps\":0}}\n",
        Ok(1),
    ),
    (
        b"{\"cmd\":\"run\"}\r\n{\"cmd\":\r\"run\"}\n{\"cmd\":\"r\run\"}\n",
        "{\"ok\":{\"quanta\":0,\"steps\":0}}\n{\"ok\":{\"quanta\":0,\"steps\":0}}\n{\"error\":\"BadCommand\"}\n",
        Ok(3),
    ),
    (b"{\"cmd\":\"run", "{\"error\":\"BadCommand\"}\n", Ok(1)),
    (
        b"{\"cmd\":\"\xc3\xa9\xe2\x82\xac\xf0\x9f\xa6\x80\"}\n{\"cmd\":\"run\"}\n",
        "{\"error\":\"BadCommand\"}\n{\"ok\":{\"quanta\":0,\"steps\":0}}\n",
        Ok(2),
    ),
    (
        b"{\"cmd\":\"run\"}\n{\"cmd\":\"run\xff\"}\n{\"cmd\":\"run\"}\n",
        "{\"ok\":{\"quanta\":0,\"steps\":0}}\n{\"error\":\"BadCommand\"}\n",
        Err(Refusal::BadCommand),
    ),
];

/// The table behind a function without a contract, so that the proof of a test carries none of it.
fn sessions() -> &'static [(&'static [u8], &'static str, Result<u64, Refusal>)] {
    SESSIONS
}

#[test]
fn answers_each_line(rt: HostRuntime) -> Result<(), Fail> {
    let settings = ScriptSettings::DEFAULT;
    for (script, replies, end) in sessions() {
        let said = says(rt.alloc(), settings, script, replies.as_bytes(), *end)?;
        assert!(rt; said, "{replies}");
    }
    Ok(())
}

#[test]
fn settings_out_of_range(rt: HostRuntime) -> Result<(), Fail> {
    for (quantum, capacity, history) in [(0, 1, 1), (1025, 1, 1), (1, 1025, 1), (1, 1, 0)] {
        let settings = ScriptSettings {
            quantum,
            capacity,
            history,
            start: 0,
        };
        let end = Err(Refusal::BadArguments);
        assert!(rt; says(rt.alloc(), settings, b"{\"cmd\":\"run\"}\n", b"", end)?);
    }
    Ok(())
}
