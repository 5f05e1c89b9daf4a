//! Rows as bytes.

ghost use Rattle.std.specs.Prelude.{◌≡◌, ◌++◌, ◌<◌, ◌≤◌, ◌^◌, length, IfOk, OnOk};
ghost use Rattle.smi_rows.specs.Layout as spec;
ghost use Rattle.smi_rows.specs.Schema.{newest};
ghost use Rattle.smi_command.specs.declared.Link.{Link};

use crate::key::RowKind;
use crate::mode::Mode;
use crate::row::{DomainRow, OperatorRow, Row, StoredLink};
use smi_command::{Link, Pending};
use smi_grant::{Command, Record};
use std::alloc::{AllocError, Global};

/// Returns the bytes of the row of a boot.
///
/// Out of memory is answered exactly when an allocation was refused, which tests alone
/// see.
pub fn write_boot(alloc: Global, boot: u32) -> Result<Vec<u8>, AllocError>
    ensures { IfOk result (λ row. row.items ≡ spec.boot_bytes (newest RowKind.Boot) boot) }
{
    boot_in(alloc, RowKind::Boot.newest_schema(), boot)
}

impl DomainRow {
    ghost use Rattle.std.specs.Prelude.{◌≡◌, ◌<◌, ◌^◌, length, IfOk};
    ghost use Rattle.smi_rows.specs.Layout as spec;
    ghost use Rattle.smi_rows.specs.Schema.{newest};

    /// Returns the bytes of the row.
    ///
    /// Out of memory is answered exactly when an allocation was refused, which tests
    /// alone see.
    pub fn write(&self, alloc: Global) -> Result<Vec<u8>, AllocError>
        requires { length self.now.links < 2 ^ 16 }
        ensures { IfOk result (λ row. row.items ≡ spec.domain_bytes (newest RowKind.Domain) self.now) }
    {
        domain_in(alloc, RowKind::Domain.newest_schema(), self)
    }
}

impl OperatorRow {
    ghost use Rattle.std.specs.Prelude.{◌≡◌, ◌<◌, ◌^◌, length, IfOk};
    ghost use Rattle.smi_rows.specs.Layout as spec;
    ghost use Rattle.smi_rows.specs.Schema.{newest};

    /// Returns the bytes of the row.
    ///
    /// Out of memory is answered exactly when an allocation was refused, which tests
    /// alone see.
    pub fn write(&self, alloc: Global) -> Result<Vec<u8>, AllocError>
        requires { length self.now < 2 ^ 16 }
        ensures { IfOk result (λ row. row.items ≡ spec.operator_bytes (newest RowKind.Operator) self.now) }
    {
        operator_in(alloc, RowKind::Operator.newest_schema(), self)
    }
}

/// Returns the bytes of a row in a schema of this number.
pub(crate) fn row_in(alloc: Global, schema: u8, row: &Row) -> Result<Vec<u8>, AllocError>
    requires { spec.HasFewLinks row.now }
    ensures { IfOk result (λ bytes. bytes.items ≡ spec.row_bytes schema row.now) }
{
    match row {
        Row::Boot(boot) => boot_in(alloc, schema, *boot),
        Row::Domain(domain) => domain_in(alloc, schema, domain),
        Row::Operator(operator) => operator_in(alloc, schema, operator),
    }
}

fn boot_in(alloc: Global, schema: u8, boot: u32) -> Result<Vec<u8>, AllocError>
    ensures { IfOk result (λ row. row.items ≡ spec.boot_bytes schema boot) }
{
    let mut row = Vec::from_slice(alloc, &[schema, 0, 0, 0])?;
    row.extend_from_slice(&boot.to_be_bytes())?;
    Ok(row)
}

fn domain_in(alloc: Global, schema: u8, domain: &DomainRow) -> Result<Vec<u8>, AllocError>
    requires { length domain.now.links < 2 ^ 16 }
    ensures { IfOk result (λ row. row.items ≡ spec.domain_bytes schema domain.now) }
{
    let mut row = Vec::new(alloc);
    put_domain(
        &mut row,
        schema,
        &domain.standing,
        domain.gathered,
        &domain.links,
    )?;
    Ok(row)
}

fn operator_in(alloc: Global, schema: u8, operator: &OperatorRow) -> Result<Vec<u8>, AllocError>
    requires { length operator.now < 2 ^ 16 }
    ensures { IfOk result (λ row. row.items ≡ spec.operator_bytes schema operator.now) }
{
    let mut row = Vec::new(alloc);
    put_operator(&mut row, schema, &operator.links)?;
    Ok(row)
}

/// Puts the bytes of a domain's row at the end of others: of one with this standing, this gathered code and these
/// links to its children, by rising number.
///
/// Out of memory is answered exactly when an allocation was refused, which tests alone
/// see.
pub fn append_domain(
    row: &mut Vec<u8>,
    standing: &Record,
    gathered: u16,
    links: &[StoredLink],
) -> Result<(), AllocError>
    requires { length links.now < 2 ^ 16 }
    ensures { OnOk result (row.new.items ≡ row.old.items ++ spec.domain_bytes (newest RowKind.Domain)
        (record { standing = standing.now; gathered = gathered; links = links.now })) }
{
    put_domain(
        row,
        RowKind::Domain.newest_schema(),
        standing,
        gathered,
        links,
    )
}

/// Puts the bytes of an operator's row at the end of others: of one with these links, by rising number.
///
/// Out of memory is answered exactly when an allocation was refused, which tests alone
/// see.
pub fn append_operator(row: &mut Vec<u8>, links: &[StoredLink]) -> Result<(), AllocError>
    requires { length links.now < 2 ^ 16 }
    ensures { OnOk result (row.new.items ≡ row.old.items
        ++ spec.operator_bytes (newest RowKind.Operator) links.now) }
{
    put_operator(row, RowKind::Operator.newest_schema(), links)
}

fn put_domain(
    row: &mut Vec<u8>,
    schema: u8,
    standing: &Record,
    gathered: u16,
    links: &[StoredLink],
) -> Result<(), AllocError>
    requires { length links.now < 2 ^ 16 }
    ensures { OnOk result (row.new.items ≡ row.old.items ++ spec.domain_bytes schema
        (record { standing = standing.now; gathered = gathered; links = links.now })) }
{
    put_holder(row, schema, standing)?;
    put_work(row, standing, gathered)?;
    row.extend_from_slice(&(links.len() as u16).to_be_bytes())?;
    put_links(row, links)
}

fn put_operator(row: &mut Vec<u8>, schema: u8, links: &[StoredLink]) -> Result<(), AllocError>
    requires { length links.now < 2 ^ 16 }
    ensures { OnOk result (row.new.items ≡ row.old.items ++ spec.operator_bytes schema links.now) }
{
    row.extend_from_slice(&[schema, 0])?;
    row.extend_from_slice(&(links.len() as u16).to_be_bytes())?;
    put_links(row, links)
}

// Who holds a domain, and since when.
fn put_holder(row: &mut Vec<u8>, schema: u8, standing: &Record) -> Result<(), AllocError>
    ensures { OnOk result (row.new.items ≡ row.old.items ++ spec.holder_bytes schema standing.now) }
{
    row.extend_from_slice(&[schema, standing.holder.kind()])?;
    row.extend_from_slice(&standing.holder.number().to_be_bytes())?;
    row.extend_from_slice(&standing.epoch.to_be_bytes())
}

// How far its commands have come. In one piece, because each looks at the room that is left.
fn put_work(row: &mut Vec<u8>, standing: &Record, gathered: u16) -> Result<(), AllocError>
    ensures { OnOk result (row.new.items ≡ row.old.items ++ spec.work_bytes standing.now gathered) }
{
    let [first, second, third, fourth] = standing.last.to_be_bytes();
    let [high, low] = standing.outcome.to_be_bytes();
    let [upper, lower] = gathered.to_be_bytes();
    row.extend_from_slice(&[
        first,
        second,
        third,
        fourth,
        standing.phase.number(),
        0,
        high,
        low,
        upper,
        lower,
    ])
}

fn put_links(row: &mut Vec<u8>, links: &[StoredLink]) -> Result<(), AllocError>
    ensures { OnOk result (row.new.items ≡ row.old.items ++ spec.links_bytes links.now) }
{
    for stored in links {
        put_link(row, stored)?;
    }
    Ok(())
}

fn put_link(row: &mut Vec<u8>, stored: &StoredLink) -> Result<(), AllocError>
    ensures { OnOk result (row.new.items ≡ row.old.items ++ spec.link_bytes stored.now) }
{
    let (domain, mode) = (stored.domain, stored.mode);
    match &stored.link {
        Link::Out(known) => put_idle(row, domain, 0, mode, *known, 0),
        Link::Taking(seen) => put_idle(row, domain, 1, mode, *seen, 0),
        Link::Dropping(epoch) => put_idle(row, domain, 4, mode, *epoch, 0),
        Link::Held {
            epoch,
            number,
            pending,
        } => put_held(row, domain, mode, *epoch, *number, pending),
    }
}

// A link without a command.
fn put_idle(
    row: &mut Vec<u8>,
    domain: u16,
    form: u8,
    mode: Mode,
    epoch: u64,
    number: u32,
) -> Result<(), AllocError>
    ensures { OnOk result (row.new.items ≡ row.old.items
        ++ (spec.front_bytes domain form mode epoch number ++ spec.no_command)) }
{
    put_fixed(row, domain, form, mode, epoch, number)?;
    row.extend_from_slice(&[0, 0, 0, 0])
}

fn put_held(
    row: &mut Vec<u8>,
    domain: u16,
    mode: Mode,
    epoch: u64,
    number: u32,
    pending: &Pending,
) -> Result<(), AllocError>
    ensures { OnOk result (row.new.items ≡ row.old.items
        ++ spec.grant_bytes domain mode (Link.Held epoch number pending.now)) }
{
    let commands = pending.as_slice();
    match commands {
        [] => put_idle(row, domain, 2, mode, epoch, number),
        [only] => {
            put_fixed(row, domain, 3, mode, epoch, number)?;
            put_command(row, *only)
        }
        [oldest, _, ..] => {
            put_fixed(row, domain, 5, mode, epoch, number)?;
            put_command(row, *oldest)?;
            let count = pending.len() as u16 - 1;
            row.extend_from_slice(&count.to_be_bytes())?;
            put_commands(row, &commands[1..])
        }
    }
}

fn put_fixed(
    row: &mut Vec<u8>,
    domain: u16,
    form: u8,
    mode: Mode,
    epoch: u64,
    number: u32,
) -> Result<(), AllocError>
    ensures { OnOk result (row.new.items ≡ row.old.items ++ spec.front_bytes domain form mode epoch number) }
{
    let [high, low] = domain.to_be_bytes();
    row.extend_from_slice(&[high, low, form, mode.number()])?;
    row.extend_from_slice(&epoch.to_be_bytes())?;
    row.extend_from_slice(&number.to_be_bytes())
}

fn put_commands(row: &mut Vec<u8>, commands: &[Command]) -> Result<(), AllocError>
    ensures { OnOk result (row.new.items ≡ row.old.items ++ spec.commands_bytes commands.now) }
{
    for command in commands {
        put_command(row, *command)?;
    }
    Ok(())
}

fn put_command(row: &mut Vec<u8>, command: Command) -> Result<(), AllocError>
    ensures { OnOk result (row.new.items ≡ row.old.items ++ spec.command_bytes command) }
{
    row.extend_from_slice(&command.verb().to_be_bytes())?;
    row.extend_from_slice(&command.argument().to_be_bytes())
}
