//! A will: the state of a device that the node reports when a session ends, however it ends. By it the crew sees that a
//! device program has died (docs/DEVICES.md, "A supply that vanishes"). `session.rt` keeps wills, and `seat_table.rt`
//! reports them. docs/FORMATS.md, "Connections", fixes the line.

ghost use Rattle.std.specs.Prelude.{◌≡◌, OnOk, option_map};
ghost use Rattle.smi_tree.specs.Hierarchy.{entry};
ghost use Rattle.smi_session.specs.Will.{will_text};

use crate::station_event::{push_called, state_name};
use smi_tree::Tree;
use std::alloc::AllocError;

/// A state of a device that the node reports when a session ends.
#[derive(Clone, Copy)]
pub struct DeviceWill {
    /// The number of the device, from 1 among devices.
    pub device: u16,
    /// The number of the state, from 1.
    pub state: u16,
}

/// Returns the name of a device by its number, from 1. None if the tree has no such device.
fn device_name(tree: &Tree, number: u16) -> Option<&[u8]>
    ensures { option_map (λ n. n.now) result ≡ entry tree.now.device_names number }
{
    if 1 <= number && number <= tree.device_count() {
        Some(tree.device_name(number))
    } else {
        None
    }
}

/// Writes the reply to a will in place of what the text had: `will DEVICE STATE`, with a line feed.
///
/// Fails if memory is refused.
pub(crate) fn write_will(
    text: &mut Vec<u8>,
    tree: &Tree,
    will: DeviceWill,
) -> Result<(), AllocError>
    ensures { OnOk result (text.new.items ≡ will_text tree.now will) }
{
    text.clear();
    text.extend_from_slice(b"will")?;
    push_called(text, device_name(tree, will.device), will.device)?;
    push_called(text, state_name(tree, will.state), will.state)?;
    text.push(b'\n')?;
    Ok(())
}
