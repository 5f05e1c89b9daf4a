//! Devices, by number, and how many lie in each domain.

use crate::row::Device;
use std::alloc::{AllocError, Global};
use std::marker::Model;

/// Devices, in the order in which they came, and how many lie in each domain.
#[derive(Drop)]
pub(crate) struct Devices {
    rows: Vec<Device>,
    /// At the place of each domain's number.
    counts: Vec<usize>,
}

impl Model for Devices {
    ghost use Rattle.std.specs.Prelude.{List};
    ghost use Rattle.smi_tree.specs.declared.row.Device.{Device};

    ghost Value = { List Device };

    ghost view = { λ d. d.rows.items };

    ghost use Rattle.smi_tree.specs.DeviceCounts.{AreCounts};

    ghost invariant = { λ d. AreCounts d.rows.items d.counts.items };
}

ghost use Rattle.std.specs.Prelude.{ℕ, ◌≡◌, ◌+◌, ◌<◌, ◌^◌, OnOk, OnErr};
ghost use Rattle.smi_tree.specs.DeviceCounts.{count_at, IsCountedUp};

/// Counts one more in a domain.
fn count_up(counts: &mut Vec<usize>, domain: u16) -> Result<(), AllocError>
    requires { count_at counts.old.items domain + 1 < 2 ^ 64 }
    ensures ok { OnOk result (IsCountedUp counts.old.items domain counts.new.items) }
    ensures err { OnErr result ((other : ℕ) → count_at counts.new.items other ≡ count_at counts.old.items other) }
{
    let place = usize::from(domain);
    while counts.len() <= place {
        counts.push(0)?;
    }
    counts[place] += 1;
    Ok(())
}

impl Devices {
    ghost use Rattle.std.specs.Prelude.{◌≡◌, [], ◌∷◌, ◌++◌, OnOk, count_by};
    ghost use Rattle.smi_tree.specs.Hierarchy.{is_device_of};

    pub(crate) fn new(alloc: Global) -> Devices
        ensures { result ≡ [] }
    {
        Devices {
            rows: Vec::new(alloc),
            counts: Vec::new(alloc),
        }
    }

    /// Returns the devices, by number.
    #[inline(always)]
    pub(crate) fn rows(&self) -> &[Device]
        ensures { result.now ≡ self.now }
    {
        self.rows.as_slice()
    }

    /// Returns how many lie in a domain.
    pub(crate) fn count_in(&self, domain: u16) -> usize
        ensures { result ≡ count_by (is_device_of domain) self.now }
    {
        match self.counts.get(usize::from(domain)) {
            Some(count) => *count,
            None => 0,
        }
    }

    /// Puts a device at the end.
    pub(crate) fn push(&mut self, row: Device) -> Result<(), AllocError>
        ensures { OnOk result (self.new ≡ self.old ++ row ∷ []) }
    {
        self.rows.push(row)?;
        if let Err(refused) = count_up(&mut self.counts, row.domain) {
            self.rows.pop();
            return Err(refused);
        }
        Ok(())
    }
}
