//! The mode of each child of a node's domains, as the node's console told it. `order_relay.rt` keeps the list and
//! passes the lines of the console on to it; `orders_json.rt` shows it to pages, which ask before a command that a
//! silent station would hold up. docs/FORMATS.md, "Orders from the page", says what a page is told of modes.

ghost use Rattle.std.specs.Prelude.{◌≡◌, ◌≤◌, ◌<◌, length, OnErr, OnOk};
ghost use Rattle.smi_web.specs.ModeList as spec;

use bytes::Bytes;
use smi_history::{is_all_plain, rest_of, shared};
use std::alloc::{AllocError, Global};
use std::marker::Model;
use std::mem::replace;

/// The most children whose modes are kept. A tree has at most 128 domains, so no child of an honest console is left
/// out. docs/FORMATS.md, "Orders from the page", and `specs/ModeList` have the number too.
const MOST_MODES: usize = 256;

/// The most bytes of a child and its mode. A longer line is left out. A node's line of a mode is shorter than 30 bytes.
const MOST_BYTES: usize = 200;

/// The modes that a console told: a child and its mode each, as `TRK manual`.
///
/// Contracts see those of the last whole answer, and those that have come of the answer that is still coming.
#[derive(Drop)]
pub(crate) struct ModeList {
    /// The modes of the last whole answer.
    known: Vec<Bytes>,
    /// The modes that have come of an answer which has not ended.
    coming: Vec<Bytes>,
}

impl Model for ModeList {
    ghost use Rattle.std.specs.Prelude.{◌≤◌, length};
    ghost use Rattle.smi_web.specs.ModeList.{ModeListState, most_modes};

    ghost Value = { ModeListState };

    ghost view = { λ m. record { known = m.known.items; coming = m.coming.items } };

    ghost invariant = { λ m. (length m.known.items ≤ most_modes) × (length m.coming.items ≤ most_modes) };
}

impl ModeList {
    ghost use Rattle.std.specs.Prelude.{◌≡◌, ◌≤◌, length, OnErr, OnOk};
    ghost use Rattle.smi_web.specs.ModeList as spec;

    /// Makes an empty list.
    pub(crate) fn new(alloc: Global) -> ModeList
        ensures { result ≡ spec.nothing }
    {
        ModeList {
            known: Vec::new(alloc),
            coming: Vec::new(alloc),
        }
    }

    /// Returns the modes of the last whole answer, in its order.
    pub(crate) fn known(&self) -> &[Bytes]
        ensures items { result.now ≡ self.now.known }
        ensures most { length result.now ≤ spec.most_modes }
    {
        self.known.as_slice()
    }

    /// Forgets what has come of an answer, because another one begins.
    pub(crate) fn begin(&mut self)
        ensures { self.new ≡ spec.begun self.old }
    {
        self.coming.clear();
    }

    /// Forgets all modes, because the connection has ended.
    pub(crate) fn forget(&mut self)
        ensures { self.new ≡ spec.nothing }
    {
        self.known.clear();
        self.begin();
    }

    /// Returns true if this child and its mode can be kept: there is room, and the text is short and plain.
    fn can_keep(&self, mode: &[u8]) -> bool
        ensures { result ≡ spec.can_keep self.now mode.now }
    {
        self.coming.len() < MOST_MODES && mode.len() <= MOST_BYTES && is_all_plain(mode)
    }

    /// Adds a child and its mode to those that have come. Adds nothing if it can't be kept.
    fn add(&mut self, alloc: Global, mode: &[u8]) -> Result<(), AllocError>
        ensures ok { OnOk result (self.new ≡ spec.with_mode self.old mode.now) }
        ensures err { OnErr result (self.new ≡ self.old) }
    {
        if !self.can_keep(mode) {
            return Ok(());
        }
        let mode = shared(Vec::from_slice(alloc, mode)?)?;
        self.coming.push(mode)?;
        Ok(())
    }

    /// Ends an answer: from now on what has come of it is what is known.
    fn end(&mut self, alloc: Global)
        ensures { self.new ≡ spec.ended self.old }
    {
        self.known = replace(&mut self.coming, Vec::new(alloc));
    }

    /// Handles a line of the console's answer, without its tag: `mode TRK manual`, or the end, `modes 12`. Any other
    /// line changes nothing.
    ///
    /// Fails only if memory is refused (tested, not proved), and changes nothing then.
    pub(crate) fn receive(&mut self, alloc: Global, text: &[u8]) -> Result<(), AllocError>
        ensures ok { OnOk result (self.new ≡ spec.told self.old text.now) }
        ensures err { OnErr result (self.new ≡ self.old) }
    {
        if let Some(mode) = rest_of(b"mode ", text) {
            return self.add(alloc, mode);
        }
        if text.starts_with(b"modes ") {
            self.end(alloc);
        }
        Ok(())
    }
}
