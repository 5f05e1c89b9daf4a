use smi_protocol::Entry;
use std::marker::Model;

/// How much one event leaves at most: that a command ran, what became of its target, and that it has ended.
pub const MOST_ENTRIES: usize = 3;

/// What an event leaves in a trace, in its order.
///
/// The list lies in the value itself, so it takes no memory. Contracts see the list.
#[derive(Drop)]
pub struct Entries {
    places: [Entry; MOST_ENTRIES],
    count: usize,
}

impl Model for Entries {
    ghost use Rattle.std.specs.Prelude.{List, take};
    ghost use Rattle.smi_protocol.specs.declared.entry.Entry.{Entry};
    ghost use Rattle.smi_station_output.specs.Out.{IsStored, most_entries};

    ghost Value = { List Entry };

    ghost view = { λ e. take e.count e.places };

    ghost invariant = { λ e. IsStored most_entries e.places e.count };
}

impl Entries {
    ghost use Rattle.std.specs.Prelude.{◌≡◌, ◌<◌, ◌++◌, ◌∷◌, [], length};
    ghost use Rattle.smi_station_output.specs.Out.{most_entries};
    ghost use Rattle.smi_station_output.specs.Out.{kept_after};
    ghost use Rattle.smi_protocol.specs.Messages.{if_any};

    /// Returns no entries.
    pub fn new() -> Entries
        ensures { result ≡ [] }
    {
        let unset = Entry::Freed {
            domain: 0,
            epoch: 0,
        };
        Entries {
            places: [unset; MOST_ENTRIES],
            count: 0,
        }
    }

    /// Returns what is left, in its order.
    pub fn as_slice(&self) -> &[Entry]
        ensures { result.now ≡ self.now }
    {
        &self.places[..self.count]
    }

    /// Adds an entry, after the others.
    pub fn push(&mut self, entry: Entry)
        requires { length self.old < most_entries }
        ensures { self.new ≡ self.old ++ entry ∷ [] }
    {
        self.places[self.count] = entry;
        self.count += 1;
    }

    /// Takes all entries away.
    pub fn clear(&mut self)
        ensures { self.new ≡ [] }
    {
        self.count = 0;
    }

    /// Takes the place of what there was, where anything is left.
    pub(crate) fn renew(&mut self, entries: Entries)
        ensures { self.new ≡ kept_after entries self.old }
    {
        if !entries.as_slice().is_empty() {
            *self = entries;
        }
    }

    /// Returns one entry, if there is one.
    pub fn one(first: Option<Entry>) -> Entries
        ensures { result ≡ if_any first }
    {
        let mut entries = Entries::new();
        match first {
            Some(entry) => entries.push(entry),
            None => {}
        }
        entries
    }

    /// Returns two entries, as far as there are any.
    pub fn two(first: Option<Entry>, second: Option<Entry>) -> Entries
        ensures { result ≡ if_any first ++ if_any second }
    {
        let mut entries = Entries::one(first);
        match second {
            Some(entry) => entries.push(entry),
            None => {}
        }
        entries
    }

    /// Returns three entries, the second and the third as far as there are any.
    pub fn three(first: Entry, second: Option<Entry>, third: Option<Entry>) -> Entries
        ensures { result ≡ first ∷ if_any second ++ if_any third }
    {
        let mut entries = Entries::two(Some(first), second);
        match third {
            Some(entry) => entries.push(entry),
            None => {}
        }
        entries
    }
}
