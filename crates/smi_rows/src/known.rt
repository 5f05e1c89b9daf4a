//! Which of the values that a row names a tree has.

ghost use Rattle.std.specs.Prelude.{◌≡◌};
ghost use Rattle.smi_rows.specs.Known as spec;

use crate::key::Key;
use crate::row::{Row, StoredLink};
use smi_command::Link;
use smi_grant::Holder;
use smi_tree::{Tree, is_at, is_command_of, is_holder_of, is_keeper, is_parent};

/// Returns true if the tree has what the row of this key names.
pub(crate) fn is_known(tree: &Tree, key: Key, row: &Row) -> bool
    ensures { result ≡ spec.is_known tree.now key row.now }
{
    match row {
        Row::Boot(_) => 1 <= key.station && key.station <= tree.station_count(),
        Row::Domain(domain) => {
            is_keeper(tree, key.station, key.domain)
                && is_holder_of(tree, key.domain, domain.standing.holder)
                && are_child_links(tree, key.domain, &domain.links)
        }
        Row::Operator(operator) => {
            is_at(tree, Holder::Operator(key.operator), key.station)
                && are_tree_links(tree, &operator.links)
        }
    }
}

fn are_child_links(tree: &Tree, domain: u16, links: &[StoredLink]) -> bool
    ensures { result ≡ spec.are_child_links tree.now domain links.now }
{
    links
        .iter()
        .all(|stored| is_child_link(tree, domain, stored))
}

fn is_child_link(tree: &Tree, domain: u16, stored: &StoredLink) -> bool
    ensures { result ≡ spec.is_child_link tree.now domain stored.now }
{
    is_parent(tree, stored.domain, domain) && are_commands_of(tree, &stored.link)
}

fn are_tree_links(tree: &Tree, links: &[StoredLink]) -> bool
    ensures { result ≡ spec.are_tree_links tree.now links.now }
{
    links.iter().all(|stored| is_tree_link(tree, stored))
}

fn is_tree_link(tree: &Tree, stored: &StoredLink) -> bool
    ensures { result ≡ spec.is_tree_link tree.now stored.now }
{
    stored.domain <= tree.domain_count() && are_commands_of(tree, &stored.link)
}

fn are_commands_of(tree: &Tree, link: &Link) -> bool
    ensures { result ≡ spec.are_commands_of tree.now link.now }
{
    match link {
        Link::Held { pending, .. } => pending
            .as_slice()
            .iter()
            .all(|command| is_command_of(tree, *command)),
        _ => true,
    }
}
