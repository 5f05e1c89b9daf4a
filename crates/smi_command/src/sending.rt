ghost use Rattle.std.specs.Prelude.{◌≡◌};
ghost use Rattle.smi_command.specs.Link.{due_of};

use crate::{Due, Link};

/// Returns what is due at place `i`: of pending commands the oldest has place 0, and a take or a drop has place 0
/// alone.
pub fn due(link: &Link, i: usize) -> Option<Due>
    ensures { result ≡ due_of link.now i }
{
    match *link {
        Link::Taking(seen) if i == 0 => Some(Due::Take(seen)),
        Link::Dropping(epoch) if i == 0 => Some(Due::Drop(epoch)),
        Link::Held {
            epoch,
            number,
            pending,
        } => {
            let command = pending.get(i)?;
            let number = pending.base(number) + 1 + i as u32;
            Some(Due::Run {
                epoch,
                number,
                command,
            })
        }
        _ => None,
    }
}
