//! What can always be done, as laws: each function does nothing. Nothing here says that it is done: not that a network
//! delivers, nor that anybody ticks, nor when.

ghost use Rattle.std.specs.Prelude.{◌≡◌, ◌≤◌, ◌<◌, ◌+◌, ℕ, List, true, false, length, map};
ghost use Rattle.smi_grant.specs.declared.Holder.TheVariants.{Operator};
ghost use Rattle.smi_publish.specs.Published.{last_sequence};
ghost use Rattle.smi_tree.specs.Hierarchy.{Hierarchy};
ghost use Rattle.smi_tree.specs.Lawful.{IsTree};
ghost use Rattle.smi_tree.specs.Lookups.{station_count};
ghost use Rattle.smi_protocol.specs.declared.Entry.{Entry};
ghost use Rattle.smi_protocol.specs.Schedule.{World, first_world};
ghost use Rattle.smi_protocol.specs.declared.item.Item.{Item};
ghost use Rattle.smi_law.specs.Known.{link_in};
ghost use Rattle.smi_law.specs.World.{Reaches};
ghost use Rattle.smi_law.specs.Answered.{Hears, entries_left, order_told, orders_waiting, told_about};
ghost use Rattle.smi_law.specs.Bound.{most_changes, most_items};
ghost use Rattle.smi_law.specs.Rest.{AllChange, AllRun, HaveBoots, Settling, led};
ghost use Rattle.smi_law.specs.UnderWay.{under_way};

/// States that from every world of a tree that can be reached, in which no station has used its last boot, a list of
/// items leads to rest: starts of stations that have stopped, ticks, and deliveries of datagrams that were sent. No
/// order and no report is needed. So it is after every schedule, whatever was lost, repeated, stopped or not saved in
/// it.
pub fn can_come_to_rest()
    ensures worlds { (h : Hierarchy) (past : List Entry) (w : World) → IsTree h → Reaches h past w → HaveBoots h w
        → Settling true h w }
    ensures schedules { (h : Hierarchy) (items : List Item) → IsTree h
        → HaveBoots h (led h (first_world h) items) → Settling true h (led h (first_world h) items) }
{}

/// States that if all stations are in service, and each object may change this many times more, no station has to be
/// started again. Whatever an operator is told about a domain in such a list is what the link to it has heard, with
/// the codes with which it settled; and that is the end of each order that was under way, in their order, and of no
/// other.
pub fn without_restarts()
    ensures rest { (h : Hierarchy) (past : List Entry) (w : World) → IsTree h → Reaches h past w → AllRun h w
        → AllChange h (most_changes h (under_way h w)) w → Settling false h w }
    ensures heard { (h : Hierarchy) (w : World) (s : Settling false h w) (o d : ℕ) →
        Hears o d (led h w s.items).sent (link_in h w (Operator o) d) (told_about o d (entries_left h w s.items))
        (link_in h (led h w s.items) (Operator o) d) }
    ensures answered { (h : Hierarchy) (w : World) (s : Settling false h w) (o d : ℕ) →
        map order_told (told_about o d (entries_left h w s.items))
        ≡ orders_waiting d (link_in h w (Operator o) d) }
{}

/// States that the list is no longer than a bound by what is under way and by the tree: this many lost datagrams are
/// made good by this many ticks and deliveries. What is under way never changes an object as often as it can change
/// from a start on.
pub fn a_bounded_number()
    ensures starting { (h : Hierarchy) (past : List Entry) (w : World) → IsTree h → Reaches h past w → HaveBoots h w
        → (s : Settling true h w) × (length s.items ≤ station_count h + most_items h (under_way h w)) }
    ensures without { (h : Hierarchy) (past : List Entry) (w : World) → IsTree h → Reaches h past w → AllRun h w
        → AllChange h (most_changes h (under_way h w)) w
        → (s : Settling false h w) × (length s.items ≤ most_items h (under_way h w)) }
    ensures room { (h : Hierarchy) (past : List Entry) (w : World) → IsTree h → Reaches h past w
        → most_changes h (under_way h w) < last_sequence }
{}
