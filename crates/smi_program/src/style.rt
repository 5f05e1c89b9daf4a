//! Reads the style file of a screen, and makes of it the script by which the page learns how to show states.
//!
//! `screen` puts the script after the page, which calls `setStyle` of page/model.mjs. docs/FORMATS.md, "The style of a
//! screen", has the lines of the file, the order of its faults and what each kind means.

use smi_base::MOST_BYTES_OF_A_FILE;
use smi_commands::status::{Status, no_memory};
use smi_tree::Tree;
use std::alloc::{AllocError, Global};
use std::io::Write;

/// What a state says of an object. The page has a colour for each kind.
#[derive(Clone, Copy)]
enum StateKind {
    /// It does what it is there for.
    Ok,
    /// It is on its way.
    Busy,
    /// It is not in use.
    Off,
    /// Somebody has to look after it.
    Alarm,
    /// Nothing is known of it.
    Unknown,
}

impl StateKind {
    /// Returns the kind that a word names.
    fn of(word: &str) -> Option<StateKind> {
        match word {
            "ok" => Some(StateKind::Ok),
            "busy" => Some(StateKind::Busy),
            "off" => Some(StateKind::Off),
            "alarm" => Some(StateKind::Alarm),
            "unknown" => Some(StateKind::Unknown),
            _ => None,
        }
    }

    /// Returns the word of the kind, as the file and the page write it.
    fn name(self) -> &'static str {
        match self {
            StateKind::Ok => "ok",
            StateKind::Busy => "busy",
            StateKind::Off => "off",
            StateKind::Alarm => "alarm",
            StateKind::Unknown => "unknown",
        }
    }
}

/// What a line of the file says of a state.
#[derive(Clone, Copy)]
struct StateStyle<'a> {
    /// The number of the state in the tree.
    state: u16,
    /// The name of the state.
    name: &'a str,
    /// What the state says of an object.
    kind: StateKind,
    /// The colour, as `#0ba860`, or an empty text if it is that of the kind.
    colour: &'a str,
}

/// Why a style file is refused. The codes are those of a tree file's faults (docs/FORMATS.md, "The style of a screen").
enum StyleFault {
    /// A line, from 1, or the file itself (0), has the fault of this code.
    Line(usize, u16),
    /// Out of memory.
    Memory,
}

impl From<AllocError> for StyleFault {
    fn from(_refused: AllocError) -> StyleFault {
        StyleFault::Memory
    }
}

/// Returns true if a word is a colour: `#` and six hexadecimal digits in lower case. The page takes no other form.
fn is_colour(word: &str) -> bool {
    let digits = word.strip_prefix('#').unwrap_or("");
    let is_digit = |byte: &u8| byte.is_ascii_digit() || (b'a'..=b'f').contains(byte);
    digits.len() == 6 && digits.as_bytes().iter().all(is_digit)
}

/// Returns what a line says of a state, or None if it says nothing. Fails with the code of its first fault: 1, 2, 3 or
/// 5.
fn style_in<'a>(tree: &Tree, line: &'a str) -> Result<Option<StateStyle<'a>>, u16> {
    let mut words = line.split_ascii_whitespace();
    match words.next() {
        None => return Ok(None),
        Some(word) if word.starts_with('#') => return Ok(None),
        Some("state") => {}
        Some(_) => return Err(1),
    }
    let (Some(name), Some(kind), colour, None) = (
        words.next(),
        words.next(),
        words.next(),
        words.next(),
    ) else {
        return Err(2);
    };
    let (kind, colour) = match (StateKind::of(kind), colour) {
        (Some(kind), None) => (kind, ""),
        (Some(kind), Some(colour)) if is_colour(colour) => (kind, colour),
        _ => return Err(3),
    };
    match tree.state_named(name.as_bytes()) {
        Some(state) => Ok(Some(StateStyle {
            state,
            name,
            kind,
            colour,
        })),
        None => Err(5),
    }
}

/// Adds what is said of a state to a script. It needs no escapes, because names of states have letters, digits and `_`
/// alone. Fails if memory was refused.
fn write_style(
    script: &mut Vec<u8>,
    style: StateStyle<'_>,
    is_first: bool,
) -> Result<(), AllocError> {
    let separator = if is_first { "" } else { "," };
    let StateStyle {
        name,
        kind,
        colour,
        ..
    } = style;
    let kind = kind.name();
    write!(script, "{separator}\"{name}\":[\"{kind}\",\"{colour}\"]").map_err(|_| AllocError)
}

/// Returns the script by which a page is told what these lines say of states: one whole `script` element. Fails with
/// the first fault of the lines.
fn script_of(alloc: Global, tree: &Tree, text: &str) -> Result<Vec<u8>, StyleFault> {
    let mut script = Vec::from_slice(alloc, b"<script>setStyle({")?;
    // The states of the lines so far.
    let mut states: Vec<u16> = Vec::new(alloc);
    for (before, line) in text.lines().enumerate() {
        let number = before.saturating_add(1);
        match style_in(tree, line) {
            Ok(None) => {}
            Ok(Some(style)) if states.contains(&style.state) => {
                // 4: an earlier line has this state.
                return Err(StyleFault::Line(number, 4));
            }
            Ok(Some(style)) => {
                write_style(&mut script, style, states.is_empty())?;
                if states.push(style.state).is_err() {
                    return Err(StyleFault::Memory);
                }
            }
            Err(code) => return Err(StyleFault::Line(number, code)),
        }
    }
    script.extend_from_slice(b"});</script>\n")?;
    Ok(script)
}

/// Returns the script by which a page is told what a style file of this tree says: one whole `script` element. If the
/// file has a fault, writes the first one and fails with the exit status.
pub(crate) fn style_script<F: Write>(
    alloc: Global,
    tree: &Tree,
    bytes: &[u8],
    faults: &mut F,
) -> Result<Vec<u8>, Status> {
    let made = if bytes.len() > MOST_BYTES_OF_A_FILE {
        // 11: the file is too long, as a tree file of this size is.
        Err(StyleFault::Line(0, 11))
    } else {
        match String::from_utf8_lossy(alloc, bytes) {
            Ok(text) => script_of(alloc, tree, text.as_str()),
            Err(_) => Err(StyleFault::Memory),
        }
    };
    match made {
        Ok(script) => Ok(script),
        Err(StyleFault::Line(line, code)) => {
            // If standard error can't be written, the status alone says so.
            let _ = writeln!(faults, "style line {line} fault {code}");
            Err(Status::Refused)
        }
        Err(StyleFault::Memory) => Err(no_memory(faults)),
    }
}
