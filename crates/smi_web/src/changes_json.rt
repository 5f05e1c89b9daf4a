//! Writes what has changed in the picture within the last two seconds, as JSON, for pages that have a recent picture.
//! `snapshot.rt` calls `write_changes`, and `routing.rt` decides by `changes_since` who gets it. docs/FORMATS.md, "What
//! has changed as JSON", fixes the text, which `crates/smi_program/page/contact.mjs` asks for.

ghost use Rattle.std.specs.Prelude.{◌≡◌, ◌++◌, IfOk, OnOk, option_map};
ghost use Rattle.smi_web.specs.ChangesJson as spec;

use crate::json_list::{Listing, put_list};
use crate::picture_json::{put_device, put_domain, sight_of_device};
use smi_history::{put, put_number};
use smi_tree::Tree;
use smi_view::{Hearing, Picture, Sight};
use std::alloc::{AllocError, Global};

/// The changes of a picture are those of this many milliseconds before it. docs/FORMATS.md, "The screen", promises two
/// seconds. A page that is longer without a picture gets the whole one.
pub const CHANGES_TOLD: u64 = 2_000;

/// Returns the time from which on changes are told with a picture of the time `now`; 0 in the first two seconds.
pub fn changes_since(now: u64) -> u64
    ensures { result ≡ spec.changes_since now }
{
    now.saturating_sub(CHANGES_TOLD)
}

/// Returns true if a state was shown at the time `since` or later. Returns false if there is no state.
fn is_shown_since(since: u64, sight: Option<Sight>) -> bool
    ensures { result ≡ spec.is_shown_since since sight }
{
    match sight {
        Some(seen) => since <= seen.at,
        None => false,
    }
}

/// Returns true if a record was told first at the time `since` or later. Returns false if there is no record.
fn is_told_since(since: u64, hearing: &Option<Hearing>) -> bool
    ensures { result ≡ spec.is_told_since since hearing.now }
{
    match hearing {
        Some(had) => since <= had.since,
        None => false,
    }
}

/// Appends when the keeper of a domain was last heard, if that was at the time `since` or later, and `0` otherwise.
fn put_heard(text: &mut Vec<u8>, since: u64, hearing: &Option<Hearing>) -> Result<(), AllocError>
    ensures { OnOk result (text.new.items ≡ text.old.items ++ spec.heard_text since hearing.now) }
{
    match hearing {
        Some(had) if since <= had.heard => put_number(text, b"", had.heard),
        _ => put(text, b"0"),
    }
}

/// Lists the domains of a picture: one that has changed since then in full, and any other as a number.
#[derive(Clone, Copy)]
struct ChangedDomains<'a> {
    tree: &'a Tree,
    picture: &'a Picture,
    /// From which time on changes are told, in milliseconds since the screen began.
    since: u64,
}

impl<'a> ChangedDomains<'a> {
    ghost use Rattle.std.specs.Prelude.{◌≡◌};
    ghost use Rattle.smi_web.specs.ChangesJson.{is_changed_domain};

    /// Returns true if a domain has a state or a record that is new.
    fn is_changed(&self, domain: u16) -> bool
        ensures { result ≡ is_changed_domain self.now.picture.now self.now.since domain }
    {
        is_shown_since(self.since, self.picture.object(usize::from(domain)))
            || is_told_since(self.since, &self.picture.domain(domain))
    }
}

impl<'a> Listing for ChangedDomains<'a> {
    ghost use Rattle.smi_web.specs.ChangesJson.{domain_change};

    ghost text = { λ s d. domain_change s.tree.now s.picture.now s.since d };

    fn put(&self, into: &mut Vec<u8>, number: u16) -> Result<(), AllocError> {
        if self.is_changed(number) {
            put_domain(into, self.tree, self.picture, number)
        } else {
            put_heard(into, self.since, &self.picture.domain(number))
        }
    }
}

/// Lists the devices of a picture: one that has changed since then in full, and any other as `0`.
#[derive(Clone, Copy)]
struct ChangedDevices<'a> {
    tree: &'a Tree,
    picture: &'a Picture,
    /// From which time on changes are told, in milliseconds since the screen began.
    since: u64,
}

impl<'a> Listing for ChangedDevices<'a> {
    ghost use Rattle.smi_web.specs.ChangesJson.{device_change};

    ghost text = { λ s d. device_change s.tree.now s.picture.now s.since d };

    fn put(&self, into: &mut Vec<u8>, number: u16) -> Result<(), AllocError> {
        let sight = sight_of_device(self.tree, self.picture, number);
        if is_shown_since(self.since, sight) {
            put_device(into, self.tree, self.picture, number)
        } else {
            put(into, b"0")
        }
    }
}

/// Writes what has changed in a picture within the last two seconds, in one line of JSON. `number` is the number of the
/// picture, and `now` its time in milliseconds since the screen began. A domain or a device of which nothing is new is
/// `0`. A domain of which no more is new than when its keeper was heard is that time:
///
/// `{"frame":311,"now":62244,"since":60244,"domains":[0,62190,{"name":"TPC","shown":SHOWN,"told":TOLD},..],"devices":[0,..]}`
///
/// Fails only if memory is refused (tested, not proved). No clause names `alloc`, from which memory comes.
pub fn write_changes(
    alloc: Global,
    tree: &Tree,
    picture: &Picture,
    number: u64,
    now: u64,
) -> Result<Vec<u8>, AllocError>
    ensures { IfOk result (λ text. text.items ≡ spec.changes_text tree.now picture.now number now) }
{
    let since = changes_since(now);
    let mut text = Vec::new(alloc);
    put_number(&mut text, b"{\"frame\":", number)?;
    put_number(&mut text, b",\"now\":", now)?;
    put_number(&mut text, b",\"since\":", since)?;
    let domains = ChangedDomains {
        tree,
        picture,
        since,
    };
    put_list(&mut text, b",\"domains\":[", &domains, tree.domain_count())?;
    let devices = ChangedDevices {
        tree,
        picture,
        since,
    };
    put_list(&mut text, b"],\"devices\":[", &devices, tree.device_count())?;
    put(&mut text, b"]}\n")?;
    Ok(text)
}
