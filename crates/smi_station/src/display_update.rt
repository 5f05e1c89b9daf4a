//! What a datagram does to a station's display.

ghost use Rattle.std.specs.Prelude.{◌≡◌, ◌≤◌, false, length, None};
ghost use Rattle.smi_station_display.specs.Displayed.{display_of};
ghost use Rattle.smi_station_display.specs.Listening.{KeepsTheRest};
ghost use Rattle.smi_station_output.specs.Out.{with_notice};
ghost use Rattle.smi_protocol.specs.Refusals.{refusal_of_message};
ghost use Rattle.smi_protocol.specs.Step.{body_noticed};
ghost use Rattle.smi_station.specs.Stirring.{is_watch};

use smi_grant::Shown;
use smi_message::{Body, Datagram};
use smi_station_display::Displayed;
use smi_station_output::Out;

/// Makes what a datagram does to the display, and what is sent and answered for it; but for a watch, for which memory
/// may run out.
pub(crate) fn update_display(display: &mut Displayed<'_>, out: &mut Out, datagram: &Datagram)
    requires accepted { refusal_of_message display.old.tree display.old.number datagram.now ≡ None }
    requires other { is_watch datagram.now.body ≡ false }
    requires room { length out.old.answers ≤ 8 }
    ensures display { display_of display.new
        ≡ (body_noticed display.old.tree display.old.number display.old.published.boot (display_of display.old)
        datagram.now.from datagram.now.body).display }
    ensures sent { out.new ≡ with_notice out.old
        (body_noticed display.old.tree display.old.number display.old.published.boot (display_of display.old)
        datagram.now.from datagram.now.body) }
    ensures rest { KeepsTheRest display.old display.new }
{
    let _tree = display.tree();
    let from = datagram.from;
    match datagram.body {
        Body::Ask(_) => {}
        Body::Take { .. } => {}
        Body::Drop { .. } => {}
        Body::Run { .. } => {}
        Body::Tell { domain, told: news } => display.record_comes(out, domain, &news),
        Body::Watch { .. } => {}
        Body::State {
            object,
            boot: echo,
            version,
            state,
        } => {
            let told = Shown {
                object,
                version,
                state,
            };
            display.state_comes(out, from, echo, told);
        }
        Body::Unwatch { object, boot: echo } => display.unwatch_comes(from, object, echo),
    }
}
