//! What a line of a journal begins with.

ghost use Rattle.std.specs.Prelude.{◌≡◌, ◌++◌, ◌∷◌, [], OnOk, option_map};
ghost use Rattle.std.specs.Fmt.{decimal};
ghost use Rattle.smi_schedule.specs.TraceWords.{called, station_word};
ghost use Rattle.smi_replay.specs.JournalText.{head_text};

use smi_schedule::names;
use smi_tree::Tree;
use std::alloc::AllocError;
use std::io::Write;

fn push_number(text: &mut Vec<u8>, number: u32) -> Result<(), AllocError>
    ensures { OnOk result (text.new.items ≡ text.old.items ++ 32 ∷ decimal number) }
{
    write!(text, " {number}").map_err(|_| AllocError)
}

fn push_word(text: &mut Vec<u8>, word: &[u8]) -> Result<(), AllocError>
    ensures { OnOk result (text.new.items ≡ text.old.items ++ 32 ∷ word.now) }
{
    text.push(b' ')?;
    text.extend_from_slice(word)
}

/// Puts a station's name after a blank, or its number if the tree has no such station.
fn push_station(text: &mut Vec<u8>, tree: &Tree, station: u16) -> Result<(), AllocError>
    ensures { OnOk result (text.new.items ≡ text.old.items ++ 32 ∷ station_word tree.now station) }
{
    match names::station(tree, station) {
        Some(name) => push_word(text, name),
        None => push_number(text, u32::from(station)),
    }
}

/// Puts the time, the station and the boot of a line into a buffer, each with a blank after it, in place of what was
/// there.
pub(crate) fn write_head(
    text: &mut Vec<u8>,
    tree: &Tree,
    time: &[u8],
    station: u16,
    boot: u32,
) -> Result<(), AllocError>
    ensures { OnOk result (text.new.items ≡ head_text tree.now time.now station boot) }
{
    text.clear();
    text.extend_from_slice(time)?;
    push_station(text, tree, station)?;
    push_number(text, boot)?;
    text.push(b' ')?;
    Ok(())
}
