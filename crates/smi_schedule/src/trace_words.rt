//! The words of a line, one after the other.

ghost use Rattle.std.specs.Prelude.{◌≡◌, ◌++◌, ◌∷◌, [], OnOk, option_map};
ghost use Rattle.std.specs.Fmt.{decimal};
ghost use Rattle.smi_schedule.specs.TraceWords.{called, version_word};

use smi_grant::Version;
use std::alloc::AllocError;
use std::io::Write;

/// Puts the first word of a line, in place of what was there.
pub(crate) fn begin(text: &mut Vec<u8>, word: &[u8]) -> Result<(), AllocError>
    ensures { OnOk result (text.new.items ≡ word.now) }
{
    text.clear();
    text.extend_from_slice(word)
}

/// Adds a word, after a blank.
pub(crate) fn push_word(text: &mut Vec<u8>, word: &[u8]) -> Result<(), AllocError>
    ensures { OnOk result (text.new.items ≡ text.old.items ++ 32 ∷ word.now) }
{
    text.push(b' ')?;
    text.extend_from_slice(word)
}

/// Adds a number, after a blank.
pub(crate) fn push_number(text: &mut Vec<u8>, number: u64) -> Result<(), AllocError>
    ensures { OnOk result (text.new.items ≡ text.old.items ++ 32 ∷ decimal number) }
{
    write!(text, " {number}").map_err(|_| AllocError)
}

/// Adds a name, or the number if the tree has no such thing, after a blank.
pub(crate) fn push_called(
    text: &mut Vec<u8>,
    name: Option<&[u8]>,
    number: u16,
) -> Result<(), AllocError>
    ensures { OnOk result (text.new.items ≡ text.old.items ++ 32 ∷ called (option_map (λ n. n.now) name.entry) number) }
{
    match name {
        Some(name) => push_word(text, name),
        None => push_number(text, u64::from(number)),
    }
}

/// Ends the line.
pub(crate) fn end(text: &mut Vec<u8>) -> Result<(), AllocError>
    ensures { OnOk result (text.new.items ≡ text.old.items ++ 10 ∷ []) }
{
    text.push(b'\n')?;
    Ok(())
}

/// Adds a boot and a sequence, after a blank.
pub(crate) fn push_version(text: &mut Vec<u8>, version: Version) -> Result<(), AllocError>
    ensures { OnOk result (text.new.items ≡ text.old.items ++ 32 ∷ version_word version) }
{
    write!(text, " {}.{}", version.boot, version.sequence).map_err(|_| AllocError)
}
