ghost use Rattle.std.specs.Prelude.{◌≡◌};
ghost use Rattle.smi_view.specs.Accepting.{is_newer, is_newer_than_last, last_in};

use smi_grant::{Shown, Version};
use std::alloc::{AllocError, Global};
use std::marker::Model;

/// What a view makes of a told state (docs/PROTOCOL.md, "Shown states").
#[derive(Clone, Copy, PartialEq, Eq)]
pub enum Acceptance {
    /// The version is newer than the last one that was accepted of its object: the state is shown.
    Accepted,
    /// The state answers another boot of this station: nothing has changed.
    OtherBoot,
    /// The version is the last accepted one, or older: nothing has changed.
    NotNewer,
}

/// Returns true if one version is newer than another: its boot is greater, or its boot is the same and its sequence
/// is greater.
pub fn is_newer(version: Version, other: Version) -> bool
    ensures { result ≡ is_newer version other }
{
    version.boot > other.boot || (version.boot == other.boot && version.sequence > other.sequence)
}

/// Returns true if a version is newer than that of the last state, or there is none.
fn is_newer_than_last(last: Option<Shown>, version: Version) -> bool
    ensures { result ≡ is_newer_than_last last version }
{
    match last {
        Some(shown) => is_newer(version, shown.version),
        None => true,
    }
}

/// Returns what was accepted last of an object, in a table by number.
fn last_in(table: &[Option<Shown>], object: u16) -> Option<Shown>
    ensures { result ≡ last_in table.now object }
{
    let place = usize::from(object).checked_sub(1)?;
    match table.get(place) {
        Some(Some(shown)) => Some(*shown),
        _ => None,
    }
}

/// What a station was shown of the objects of other stations since its start.
///
/// Contracts see its boot and a table, and speak of the table only as the state that was accepted last
/// of each object.
#[derive(Drop)]
pub struct View {
    boot: u32,
    table: Vec<Option<Shown>>,
}

impl Model for View {
    ghost use Rattle.smi_view.specs.Accepting.{Views};

    ghost Value = { Views };

    ghost view = { λ v. record { boot = v.boot; table = v.table.items } };
}

impl View {
    ghost use Rattle.std.specs.Prelude.{◌≡◌, ◌≤◌, ℕ, None, length, IfOk};
    ghost use Rattle.smi_view.specs.Accepting.{acceptance, last_of, last_after};

    /// Returns a station's view in this boot, of objects 1 to `objects`, of which nothing was shown yet.
    ///
    /// It fails only if memory ran out, which tests alone see.
    pub fn new(alloc: Global, objects: u16, boot: u32) -> Result<View, AllocError>
        ensures boot { IfOk result (λ view. view.boot ≡ boot) }
        ensures objects { IfOk result (λ view. length view.table ≡ objects) }
        ensures last { IfOk result (λ view. (object : ℕ) → last_of view object ≡ None) }
    {
        let mut table = Vec::new(alloc);
        for _ in 0..objects {
            table.push(None)?;
        }
        Ok(View { boot, table })
    }

    /// Returns the state that was accepted last of an object, with its version.
    pub fn last(&self, object: u16) -> Option<Shown>
        ensures { result ≡ last_of self.now object }
    {
        last_in(&self.table, object)
    }

    /// Takes a told state, which echoes the boot of the station that it answers.
    pub fn accept(&mut self, echo: u32, shown: Shown) -> Acceptance
        requires least { 1 ≤ shown.object }
        requires most { shown.object ≤ length self.old.table }
        ensures answer { result ≡ acceptance self.old.boot (last_of self.old shown.object) echo shown.version }
        ensures last { last_of self.new ≡ last_after (last_of self.old) result shown }
        ensures boot { self.new.boot ≡ self.old.boot }
        ensures objects { length self.new.table ≡ length self.old.table }
    {
        if echo != self.boot {
            return Acceptance::OtherBoot;
        }
        let last = last_in(&self.table, shown.object);
        if !is_newer_than_last(last, shown.version) {
            return Acceptance::NotNewer;
        }
        self.table[usize::from(shown.object) - 1] = Some(shown);
        Acceptance::Accepted
    }
}
