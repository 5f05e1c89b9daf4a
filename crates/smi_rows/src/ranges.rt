//! Which values rows of a schema can have.

ghost use Rattle.std.specs.Prelude.{◌≡◌, true};
ghost use Rattle.smi_rows.specs.Ranges as spec;

use crate::key::RowKind;
use crate::mode::Mode;
use crate::row::{DomainRow, OperatorRow, Row, StoredLink};
use crate::schema::Schema;
use smi_base::{LAST_BOOT, MOST_DOMAINS, MOST_LINKS};
use smi_command::{Link, Pending};
use smi_grant::{Command, LAST_EPOCH, LAST_NUMBER, Phase, Record, is_outcome};

/// Returns true if rows of the schema can say this.
pub(crate) fn is_row_in(schema: Schema, row: &Row) -> bool
    ensures { result ≡ spec.is_row_in schema row.now }
{
    match (schema.kind, row) {
        (RowKind::Boot, Row::Boot(boot)) => 1 <= *boot && *boot <= LAST_BOOT,
        (RowKind::Domain, Row::Domain(domain)) => is_domain_in(schema, domain),
        (RowKind::Operator, Row::Operator(operator)) => is_operator_in(schema, operator),
        _ => false,
    }
}

fn is_operator_in(schema: Schema, operator: &OperatorRow) -> bool
    ensures { result ≡ spec.is_operator_in schema operator.now }
{
    are_links_in(schema, &operator.links) && count_not_out(&operator.links) <= MOST_LINKS
}

fn count_not_out(links: &[StoredLink]) -> usize
    ensures { result ≡ spec.count_not_out links.now }
{
    links.iter().filter(|stored| !stored.link.is_out()).count()
}

fn is_domain_in(schema: Schema, domain: &DomainRow) -> bool
    ensures { result ≡ spec.is_domain_in schema domain.now }
{
    is_standing(&domain.standing)
        && is_work_in(domain.standing.phase, domain.gathered, &domain.links)
        && are_links_in(schema, &domain.links)
}

fn is_standing(standing: &Record) -> bool
    ensures { result ≡ spec.is_standing standing.now }
{
    standing.holder.is_in_range() && is_outcome(standing.outcome)
}

fn is_work_in(phase: Phase, gathered: u16, links: &[StoredLink]) -> bool
    ensures { result ≡ spec.is_work_in phase gathered links.now }
{
    match phase {
        Phase::Settled => gathered == 0 && !some_unsettled(links),
        Phase::Busy => is_outcome(gathered) && some_unsettled(links),
    }
}

fn some_unsettled(links: &[StoredLink]) -> bool
    ensures { result ≡ spec.some_unsettled links.now }
{
    links.iter().any(|stored| stored.link.is_unsettled())
}

fn are_links_in(schema: Schema, links: &[StoredLink]) -> bool
    ensures { result ≡ spec.are_links_in schema links.now }
{
    is_rising(links) && each_link_in(schema, links)
}

fn each_link_in(schema: Schema, links: &[StoredLink]) -> bool
    ensures { result ≡ spec.each_link_in schema links.now }
{
    links.iter().all(|stored| is_link_in(schema, stored))
}

fn is_rising(links: &[StoredLink]) -> bool
    ensures { result ≡ spec.rises_above 0 links.now }
{
    let mut low = 0;
    for stored in links {
        if stored.domain <= low {
            return false;
        }
        low = stored.domain;
    }
    true
}

fn is_link_in(schema: Schema, stored: &StoredLink) -> bool
    ensures { result ≡ spec.is_link_in schema stored.now }
{
    1 <= stored.domain
        && stored.domain <= MOST_DOMAINS
        && is_grant_in(schema, &stored.link)
        && is_mode_in(schema, &stored.link, stored.mode)
}

fn is_mode_in(schema: Schema, link: &Link, mode: Mode) -> bool
    ensures { result ≡ spec.is_mode_in schema link.now mode }
{
    mode == Mode::Included || schema.has_modes() && link.is_held()
}

fn is_grant_in(schema: Schema, link: &Link) -> bool
    ensures { result ≡ spec.is_grant_in schema link.now }
{
    match link {
        Link::Out(known) => 1 <= *known && *known <= LAST_EPOCH,
        Link::Taking(seen) => *seen <= LAST_EPOCH,
        Link::Held {
            epoch,
            number,
            pending,
        } => {
            is_grant_epoch(*epoch)
                && *number <= LAST_NUMBER
                && are_pending_in(schema, *number, pending)
        }
        Link::Dropping(epoch) => is_grant_epoch(*epoch),
    }
}

fn is_grant_epoch(epoch: u64) -> bool
    ensures { result ≡ spec.is_grant_epoch epoch }
{
    epoch <= LAST_EPOCH && epoch % 2 == 1
}

fn are_pending_in(schema: Schema, number: u32, pending: &Pending) -> bool
    ensures { result ≡ spec.are_pending_in schema number pending.now }
{
    let count = pending.len();
    count <= number as usize
        && count <= schema.most_pending()
        && each_command_in(schema, pending.as_slice())
}

fn each_command_in(schema: Schema, commands: &[Command]) -> bool
    ensures { result ≡ spec.each_command_in schema commands.now }
{
    commands
        .iter()
        .all(|command| is_command_in(schema, *command))
}

fn is_command_in(schema: Schema, command: Command) -> bool
    ensures { result ≡ spec.is_command_in schema command }
{
    command.is_in_range() && command.verb() <= schema.last_verb()
}
