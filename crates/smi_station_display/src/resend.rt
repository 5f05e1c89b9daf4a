//! A sweep over what is due, from a place on.

ghost use Rattle.std.specs.Prelude.{◌≡◌};
ghost use Rattle.smi_protocol.specs.Ticking as ticking;

use smi_base::MOST_SENT;
use smi_message::Datagram;
use smi_protocol::ResendCursor;
use smi_station_output::Out;
use smi_tree::Tree;
use std::marker::Model;

/// Returns the number of a place's kind, by which places are ordered.
fn kind(place: ResendCursor) -> u8
    ensures { result ≡ kind_of place }
{
    match place {
        ResendCursor::Child(_) => 0,
        ResendCursor::Link { .. } => 1,
        ResendCursor::Ask(_) => 2,
        ResendCursor::Watch(_) => 3,
    }
}

ghost use Rattle.smi_station_display.specs.Sweeping.{kind_of};

/// Returns true if one place precedes another.
fn is_before(a: ResendCursor, b: ResendCursor) -> bool
    ensures { result ≡ ticking.is_before a b }
{
    match (a, b) {
        (ResendCursor::Child(x), ResendCursor::Child(y)) => x < y,
        (
            ResendCursor::Link {
                operator: o,
                domain: d,
                number: n,
            },
            ResendCursor::Link {
                operator: p,
                domain: e,
                number: m,
            },
        ) => { o < p || (o == p && (d < e || (d == e && n < m))) }
        (ResendCursor::Ask(o), ResendCursor::Ask(p)) => o < p,
        (ResendCursor::Watch(x), ResendCursor::Watch(y)) => x < y,
        _ => kind(a) < kind(b),
    }
}

/// Returns the place after a place: after the last object it is the first.
fn next_place(tree: &Tree, place: ResendCursor) -> ResendCursor
    requires { IsPlace place }
    ensures { result ≡ ticking.next_place tree.now place }
{
    match place {
        ResendCursor::Child(child) => ResendCursor::Child(child + 1),
        ResendCursor::Link {
            operator,
            domain,
            number,
        } => ResendCursor::Link {
            operator,
            domain,
            number: number + 1,
        },
        ResendCursor::Ask(operator) => ResendCursor::Ask(operator + 1),
        ResendCursor::Watch(object) => {
            if tree.object_count() <= object {
                ResendCursor::Child(1)
            } else {
                ResendCursor::Watch(object + 1)
            }
        }
    }
}

ghost use Rattle.smi_station_display.specs.Sweeping.{IsPlace};

/// A sweep: its beginning, what it sent last, and how many more datagrams it may send.
#[derive(Drop)]
pub(crate) struct Resend {
    from: ResendCursor,
    last: ResendCursor,
    room: usize,
}

impl Model for Resend {
    ghost use Rattle.smi_station_display.specs.Sweeping as sweeping;

    ghost Value = { sweeping.Resend };

    ghost view = { λ s. record { from = s.from; last = s.last; room = s.room } };

    ghost invariant = { λ s. sweeping.IsPlace s.last };
}

impl Resend {
    ghost use Rattle.std.specs.Prelude.{◌≡◌, ◌∷◌, []};
    ghost use Rattle.smi_protocol.specs.Ticking.{first_place, most_sent, owed};
    ghost use Rattle.smi_station_display.specs.Sweeping.{IsPlace, offered, place_after, sweeping};

    /// Returns a sweep from a place on.
    pub(crate) fn from(place: ResendCursor) -> Resend
        ensures { result ≡ record { from = place; last = first_place; room = most_sent } }
    {
        Resend {
            from: place,
            last: ResendCursor::Child(1),
            room: MOST_SENT,
        }
    }

    /// Sends one datagram that is due, if it may.
    pub(crate) fn send_if_due(&mut self, out: &mut Out, place: ResendCursor, datagram: Datagram)
        requires { IsPlace place }
        ensures { sweeping self.new out.new ≡ offered (sweeping self.old out.old) (owed place datagram ∷ []) }
    {
        if self.room > 0 && !is_before(place, self.from) {
            out.send(datagram);
            self.last = place;
            self.room -= 1;
        }
    }

    /// Returns the place where the next sweep begins: after what was sent last, or at the first place if all was
    /// sent.
    pub(crate) fn place_after(&self, tree: &Tree) -> ResendCursor
        ensures { result ≡ place_after tree.now self.now }
    {
        if self.room == 0 {
            next_place(tree, self.last)
        } else {
            ResendCursor::Child(1)
        }
    }
}
