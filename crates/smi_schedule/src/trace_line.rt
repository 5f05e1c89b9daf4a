//! The text of a line.

ghost use Rattle.std.specs.Prelude.{◌≡◌, [], OnOk, MatchResult};
ghost use Rattle.smi_schedule.specs.Text.{line_text};

use crate::entries::spell_entry;
use crate::sent::spell_sent;
use smi_protocol::Line;
use smi_tree::Tree;
use std::alloc::AllocError;

fn spell_line(text: &mut Vec<u8>, tree: &Tree, line: &Line) -> Result<(), AllocError>
    ensures { OnOk result (text.new.items ≡ line_text tree.now line.now) }
{
    match line {
        Line::Entry(entry) => spell_entry(text, tree, entry),
        Line::Sent(number, datagram) => spell_sent(text, tree, *number, datagram),
    }
}

/// Puts the text of a line into a buffer, with its line feed, in place of what was there.
///
/// Whatever the tree has is written by its name, and else by its number. Out of memory is answered only where the
/// buffer was refused more, which tests alone see, and then the buffer is empty.
pub fn spell(text: &mut Vec<u8>, tree: &Tree, line: &Line) -> Result<(), AllocError>
    ensures { MatchResult result (λ _. text.new.items ≡ line_text tree.now line.now) (λ _. text.new.items ≡ []) }
{
    let spelled = spell_line(text, tree, line);
    if spelled.is_err() {
        text.clear();
    }
    spelled
}
