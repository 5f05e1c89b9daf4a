//! Appends parts of JSON to a text: names, flags and strings, each after a fixed text. All files of this crate that
//! write JSON or metrics use it. Nothing is escaped, because the names of a tree and all kept lines are plain text
//! without quotes.

ghost use Rattle.std.specs.Prelude.{◌≡◌, ◌++◌, OnOk, codes, option_map};
ghost use Rattle.smi_schedule.specs.TraceWords.{called};
ghost use Rattle.smi_web.specs.Json.{flag, quoted};

use smi_history::{put, put_called};
use std::alloc::AllocError;

/// Appends `before` and then a name in quotes, or the number in quotes if there is no name.
pub(crate) fn put_quoted(
    text: &mut Vec<u8>,
    before: &[u8],
    name: Option<&[u8]>,
    number: u16,
) -> Result<(), AllocError>
    ensures { OnOk result (text.new.items ≡
        text.old.items ++ before.now ++ quoted (called (option_map (λ n. n.now) name.entry) number)) }
{
    put(text, before)?;
    put(text, b"\"")?;
    put_called(text, name, number)?;
    put(text, b"\"")
}

/// Appends `before` and then `true` or `false`.
#[tactic(auto, unfolding(crate::specs::Json::flag))]
pub(crate) fn put_flag(text: &mut Vec<u8>, before: &[u8], is: bool) -> Result<(), AllocError>
    ensures { OnOk result (text.new.items ≡ text.old.items ++ before.now ++ flag is) }
{
    put(text, before)?;
    put(text, if is { b"true" } else { b"false" })
}

/// Appends `before` and then a text in quotes. The text must not need escapes.
pub(crate) fn put_text(text: &mut Vec<u8>, before: &[u8], piece: &[u8]) -> Result<(), AllocError>
    ensures { OnOk result (text.new.items ≡ text.old.items ++ before.now ++ quoted piece.now) }
{
    put(text, before)?;
    put(text, b"\"")?;
    put(text, piece)?;
    put(text, b"\"")
}
