use smi_base::{MOST_CHILDREN, MOST_DEVICES_OF_A_DOMAIN};
use std::marker::Model;

/// How many members a domain may have: its devices and its children.
pub const MOST_MEMBERS: usize = MOST_DEVICES_OF_A_DOMAIN + MOST_CHILDREN;

/// The members of a domain and their states. The lists lie in the value itself, so it takes no memory; contracts see
/// the lists.
#[derive(Drop)]
pub struct Members {
    objects: [u16; MOST_MEMBERS],
    states: [u16; MOST_MEMBERS],
    count: usize,
}

impl Model for Members {
    ghost use Rattle.std.specs.Prelude.{take};
    ghost use Rattle.smi_station_display.specs.Members as members;

    ghost Value = { members.Listed };

    ghost view = { λ m. record { objects = take m.count m.objects; states = take m.count m.states } };

    ghost invariant = { λ m. members.IsStored m.objects m.count × members.IsStored m.states m.count };
}

/// Returns true if two lists hold the same numbers.
fn same_numbers(a: &[u16], b: &[u16]) -> bool
    ensures { result ≡ same_numbers a.now b.now }
{
    a == b
}

ghost use Rattle.std.specs.Prelude.{◌≡◌};
ghost use Rattle.smi_station_display.specs.Members.{same_numbers};

impl Members {
    ghost use Rattle.std.specs.Prelude.{◌≡◌, ◌<◌, length};
    ghost use Rattle.smi_protocol.specs.Showing.{member};
    ghost use Rattle.smi_station_display.specs.Members.{are_same, most_members, nobody, one_more};

    /// Returns no members.
    pub fn new() -> Members
        ensures { result ≡ nobody }
    {
        Members {
            objects: [0; MOST_MEMBERS],
            states: [0; MOST_MEMBERS],
            count: 0,
        }
    }

    /// Adds a member, after the others.
    pub(crate) fn push(&mut self, object: u16, state: u16)
        requires { length self.old.objects < most_members }
        ensures { self.new ≡ one_more self.old (member object state) }
    {
        self.objects[self.count] = object;
        self.states[self.count] = state;
        self.count += 1;
    }

    /// Returns the objects.
    fn objects(&self) -> &[u16]
        ensures { result.now ≡ self.now.objects }
    {
        &self.objects[..self.count]
    }

    /// Returns the states.
    pub fn states(&self) -> &[u16]
        ensures { result.now ≡ self.now.states }
    {
        &self.states[..self.count]
    }

    /// Returns true if these are the same members in the same states.
    pub fn is_same(&self, other: &Members) -> bool
        ensures { result ≡ are_same self.now other.now }
    {
        same_numbers(self.objects(), other.objects()) && same_numbers(self.states(), other.states())
    }
}
