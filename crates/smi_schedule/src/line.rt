//! One line of a schedule.

ghost use Rattle.std.specs.Prelude.{◌≡◌};
ghost use Rattle.smi_schedule.specs.Line.{item_in};

use crate::known::known;
use crate::said::said_of;
use crate::words::LineWord;
use smi_base::MOST_BYTES_OF_A_LINE;
use smi_protocol::Item;
use smi_tree::{Fault, Tree, first_word, is_comment};

/// Returns what a line of a schedule lets happen; nothing if it has no words or is a comment.
///
/// The line is without its line feed and the carriage return before it. It takes no memory. A line that is too long is
/// refused first, then one with a word that no line says there, then a wrong count of words, then a name or a number
/// that is not well formed, then a name that the tree does not have as what the line wants.
#[tactic(auto, unfolding(crate::specs::Line::item_in))]
pub fn read_item(tree: &Tree, line: &[u8]) -> Result<Option<Item>, Fault>
    ensures { result ≡ item_in tree.now line.now }
{
    if line.len() > MOST_BYTES_OF_A_LINE {
        return Err(Fault::LineTooLong);
    }
    let Some((first, rest)) = first_word(line) else {
        return Ok(None);
    };
    if is_comment(first.text()) {
        return Ok(None);
    }
    let word = LineWord::read(first.text()).ok_or(Fault::UnknownWord)?;
    let said = said_of(word, rest)?;
    let item = known(tree, &said)?;
    Ok(Some(item))
}
