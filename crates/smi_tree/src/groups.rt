//! Rows by what they belong to.

use crate::row::{Device, Domain};
use std::alloc::{AllocError, Global};

/// A row that may belong to something that has a number.
pub(crate) trait Belongs {
    ghost belongs: { ℕ → Self → Bool };

    /// Returns the number of what the row belongs to.
    fn owner(&self) -> Option<u16>
        ensures { (owner : ℕ) → belongs owner self.now ≡ is_number_of result owner };
}

ghost use Rattle.std.specs.Prelude.{ℕ, ◌≡◌, ◌==◌, ◌<◌, ◌^◌, Bool, length, IfOk, OnOk};
ghost use Rattle.smi_tree.specs.Hierarchy.{is_child_of, is_device_of};
ghost use Rattle.smi_tree.specs.Grouped.{IsGrouped, IsEmpty, IsPut, is_number_of};

impl Belongs for Domain {
    ghost belongs = { is_child_of };

    fn owner(&self) -> Option<u16> {
        self.parent
    }
}

impl Belongs for Device {
    ghost belongs = { is_device_of };

    fn owner(&self) -> Option<u16> {
        Some(self.domain)
    }
}

/// The station of an operator.
impl Belongs for u16 {
    ghost belongs = { λ station home. home == station };

    fn owner(&self) -> Option<u16> {
        Some(*self)
    }
}

/// Returns a group for each of this many owners, with no numbers.
fn empty_groups(alloc: Global, owners: u16) -> Result<Vec<Vec<u16>>, AllocError>
    ensures { IfOk result (λ groups. IsEmpty owners groups.items) }
{
    let mut groups = Vec::new(alloc);
    for owner in 0..owners {
        groups.push(Vec::new(alloc))?;
    }
    Ok(groups)
}

/// Adds a number for an owner, if it has a group.
fn put(groups: &mut Vec<Vec<u16>>, owner: u16, number: u16) -> Result<(), AllocError>
    ensures { OnOk result (IsPut groups.old.items owner number groups.new.items) }
{
    let place = usize::from(owner);
    if 0 < place && place <= groups.len() {
        groups[place - 1].push(number)?;
    }
    Ok(())
}

/// Returns the numbers of the rows of each owner, of which there are this many.
pub(crate) fn grouped<T: Belongs>(
    alloc: Global,
    owners: u16,
    rows: &[T],
) -> Result<Vec<Vec<u16>>, AllocError>
    requires { length rows.now < 2 ^ 16 }
    ensures { IfOk result (λ groups. IsGrouped T.belongs owners rows.now groups.items) }
{
    let mut groups = empty_groups(alloc, owners)?;
    for (place, row) in rows.iter().enumerate() {
        if let Some(owner) = row.owner() {
            put(&mut groups, owner, place as u16 + 1)?;
        }
    }
    Ok(groups)
}
