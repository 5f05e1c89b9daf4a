//! Writes the picture, which is all that a screen was shown and told, as JSON: the answer to `GET /api/picture`.
//! `snapshot.rt` calls `write_picture`, and `changes_json.rt` writes single domains and devices by the same functions.
//! docs/FORMATS.md, "The picture as JSON", fixes the text, which `crates/smi_program/page/contact.mjs` asks for.
//!
//! A `Sight` is the newest state of an object and when it came. A `Hearing` is the newest record of a domain, when it
//! came first, and when the domain's keeper was last heard.

ghost use Rattle.std.specs.Prelude.{◌≡◌, ◌+◌, ◌++◌, IfOk, OnOk};
ghost use Rattle.smi_view.specs.Pictured.{object_of};
ghost use Rattle.smi_tree.specs.Lookups.{domain_count};
ghost use Rattle.smi_web.specs.PictureJson.{
  busy_text,
  device_text,
  domain_text,
  grant_text,
  hearing_text,
  holder_text,
  last_text,
  picture_text,
  sight_text,
};

use crate::json::put_quoted;
use crate::json_list::{Listing, put_list};
use smi_grant::{Holder, Phase, Record};
use smi_history::{put, put_number};
use smi_schedule::names;
use smi_tree::Tree;
use smi_view::{Hearing, Picture, Sight};
use std::alloc::{AllocError, Global};

/// Appends a state that was shown: `{"state":"READY","boot":1,"sequence":7,"at":5120}`.
fn put_seen(text: &mut Vec<u8>, tree: &Tree, seen: Sight) -> Result<(), AllocError>
    ensures { OnOk result (text.new.items ≡ text.old.items ++ sight_text tree.now (Some seen)) }
{
    let shown = seen.shown;
    put_quoted(
        text,
        b"{\"state\":",
        names::state(tree, shown.state),
        shown.state,
    )?;
    put_number(text, b",\"boot\":", u64::from(shown.version.boot))?;
    put_number(text, b",\"sequence\":", u64::from(shown.version.sequence))?;
    put_number(text, b",\"at\":", seen.at)?;
    put(text, b"}")
}

/// Appends the newest state of an object, or `null` if none was shown.
fn put_sight(text: &mut Vec<u8>, tree: &Tree, sight: Option<Sight>) -> Result<(), AllocError>
    ensures { OnOk result (text.new.items ≡ text.old.items ++ sight_text tree.now sight) }
{
    match sight {
        Some(seen) => put_seen(text, tree, seen),
        None => put(text, b"null"),
    }
}

/// Appends who holds a domain: `{"operator":"ANN"}`, `{"domain":"DCS"}`, or `null` if it is free.
fn put_holder(text: &mut Vec<u8>, tree: &Tree, holder: Holder) -> Result<(), AllocError>
    ensures { OnOk result (text.new.items ≡ text.old.items ++ holder_text tree.now holder) }
{
    match holder {
        Holder::Free => put(text, b"null"),
        Holder::Operator(number) => {
            let name = names::operator(tree, number);
            put_quoted(text, b"{\"operator\":", name, number)?;
            put(text, b"}")
        }
        Holder::Domain(number) => {
            put_quoted(text, b"{\"domain\":", names::domain(tree, number), number)?;
            put(text, b"}")
        }
    }
}

/// Appends `true` while a domain in this phase works on a command, `false` otherwise.
fn put_busy(text: &mut Vec<u8>, phase: Phase) -> Result<(), AllocError>
    ensures { OnOk result (text.new.items ≡ text.old.items ++ busy_text phase) }
{
    match phase {
        Phase::Settled => put(text, b"false"),
        Phase::Busy => put(text, b"true"),
    }
}

/// Appends who holds a domain, and its epoch. It opens the object of the record.
fn put_grant(text: &mut Vec<u8>, tree: &Tree, record: &Record) -> Result<(), AllocError>
    ensures { OnOk result (text.new.items ≡ text.old.items ++ grant_text tree.now record.now) }
{
    put(text, b"{\"holder\":")?;
    put_holder(text, tree, record.holder)?;
    put_number(text, b",\"epoch\":", record.epoch)
}

/// Appends the number of a domain's last command, whether it is at work, and its outcome.
fn put_last(text: &mut Vec<u8>, record: &Record) -> Result<(), AllocError>
    ensures { OnOk result (text.new.items ≡ text.old.items ++ last_text record.now) }
{
    put_number(text, b",\"last\":", u64::from(record.last))?;
    put(text, b",\"busy\":")?;
    put_busy(text, record.phase)?;
    put_number(text, b",\"outcome\":", u64::from(record.outcome))
}

/// Appends the newest record of a domain, or `null` if none was told.
fn put_hearing(text: &mut Vec<u8>, tree: &Tree, hearing: &Option<Hearing>) -> Result<(), AllocError>
    ensures { OnOk result (text.new.items ≡ text.old.items ++ hearing_text tree.now hearing.now) }
{
    match hearing {
        Some(had) => {
            put_grant(text, tree, &had.record)?;
            put_last(text, &had.record)?;
            put_number(text, b",\"since\":", had.since)?;
            put_number(text, b",\"heard\":", had.heard)?;
            put(text, b"}")
        }
        None => put(text, b"null"),
    }
}

/// Appends what is known of a domain: its name, the state of its unit, and its record.
pub(crate) fn put_domain(
    text: &mut Vec<u8>,
    tree: &Tree,
    picture: &Picture,
    domain: u16,
) -> Result<(), AllocError>
    ensures { OnOk result (text.new.items ≡ text.old.items ++ domain_text tree.now picture.now domain) }
{
    put_quoted(text, b"{\"name\":", names::domain(tree, domain), domain)?;
    put(text, b",\"shown\":")?;
    put_sight(text, tree, picture.object(usize::from(domain)))?;
    put(text, b",\"told\":")?;
    put_hearing(text, tree, &picture.domain(domain))?;
    put(text, b"}")
}

/// Lists the domains of a picture.
#[derive(Clone, Copy)]
struct Domains<'a> {
    tree: &'a Tree,
    picture: &'a Picture,
}

impl<'a> Listing for Domains<'a> {
    ghost use Rattle.smi_web.specs.PictureJson.{domain_text};

    ghost text = { λ s d. domain_text s.tree.now s.picture.now d };

    fn put(&self, into: &mut Vec<u8>, number: u16) -> Result<(), AllocError> {
        put_domain(into, self.tree, self.picture, number)
    }
}

/// Returns the newest state of a device, by its number from 1. In a picture devices are numbered after all domains.
pub(crate) fn sight_of_device(tree: &Tree, picture: &Picture, device: u16) -> Option<Sight>
    ensures { result ≡ object_of picture.now (domain_count tree.now + device) }
{
    picture.object(usize::from(tree.domain_count()) + usize::from(device))
}

/// Appends what is known of a device: its name and its state.
pub(crate) fn put_device(
    text: &mut Vec<u8>,
    tree: &Tree,
    picture: &Picture,
    device: u16,
) -> Result<(), AllocError>
    ensures { OnOk result (text.new.items ≡ text.old.items ++ device_text tree.now picture.now device) }
{
    put_quoted(text, b"{\"name\":", names::device(tree, device), device)?;
    put(text, b",\"shown\":")?;
    put_sight(text, tree, sight_of_device(tree, picture, device))?;
    put(text, b"}")
}

/// Lists the devices of a picture.
#[derive(Clone, Copy)]
struct SeenDevices<'a> {
    tree: &'a Tree,
    picture: &'a Picture,
}

impl<'a> Listing for SeenDevices<'a> {
    ghost use Rattle.smi_web.specs.PictureJson.{device_text};

    ghost text = { λ s d. device_text s.tree.now s.picture.now d };

    fn put(&self, into: &mut Vec<u8>, number: u16) -> Result<(), AllocError> {
        put_device(into, self.tree, self.picture, number)
    }
}

/// Writes the picture in one line of JSON. `number` counts the pictures of the screen, from 0 at each start, and `now`
/// is the time of the picture in milliseconds since then.
///
/// Fails only if memory is refused (tested, not proved). No clause names `alloc`, from which memory comes.
pub fn write_picture(
    alloc: Global,
    tree: &Tree,
    picture: &Picture,
    number: u64,
    now: u64,
) -> Result<Vec<u8>, AllocError>
    ensures { IfOk result (λ text. text.items ≡ picture_text tree.now picture.now number now) }
{
    let mut text = Vec::new(alloc);
    put_number(&mut text, b"{\"frame\":", number)?;
    put_number(&mut text, b",\"now\":", now)?;
    let domains = Domains { tree, picture };
    put_list(&mut text, b",\"domains\":[", &domains, tree.domain_count())?;
    let devices = SeenDevices { tree, picture };
    put_list(&mut text, b"],\"devices\":[", &devices, tree.device_count())?;
    put(&mut text, b"]}\n")?;
    Ok(text)
}
