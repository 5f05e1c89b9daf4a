//! States what a client at a node may rely on, as laws: functions with empty bodies whose contracts are the theorems.
//! The program calls none of them. The proof of each rests on the specs that it names, so a definition that loses its
//! meaning breaks a law.

ghost use Rattle.std.specs.Prelude.{ℕ, ◌≡◌, ◌+◌, ◌++◌, ◌∷◌, [], List, length, map, slice_get, true, Some};
ghost use Rattle.std.specs.Prelude.{None};
ghost use Rattle.std.specs.List.{concat, list_any};
ghost use Rattle.smi_grant.specs.declared.state.Shown.{Shown};
ghost use Rattle.smi_node.specs.Served.{operator_of_seat};
ghost use Rattle.smi_operator.specs.declared.ends.Seat.{Seat};
ghost use Rattle.smi_operator.specs.Sides.{submitted, told_to};
ghost use Rattle.smi_protocol.specs.declared.order.Told.{Told};
ghost use Rattle.smi_session.specs.LineSplitter.{lines_of, lines_of_blocks};
ghost use Rattle.smi_session.specs.SeatQueue.{IsInStep, SeatQueueState, TellsOldest};
ghost use Rattle.smi_session.specs.Lane.{takes_of};
ghost use Rattle.smi_session.specs.SeatTable.{AreQueuesOf, IsOpened, SeatTableState, lane_of};
ghost use Rattle.smi_session.specs.Service.{Records, ServiceState};
ghost use Rattle.smi_session.specs.StationEvent.{AreInOrder};
ghost use Rattle.smi_session.specs.declared.seat_queue.PendingOrder.{PendingOrder};
ghost use Rattle.smi_session.specs.declared.session.Deferred.{Deferred};
ghost use Rattle.smi_session.specs.declared.station_event.StationEvent.{StationEvent};

/// States that an order is submitted at a seat that the node serves as its operator's, and a report at the last seat,
/// which is nobody's. The queues of an opened table are over its seats, in their order.
pub fn orders_go_to_their_operators_seat()
    ensures operator { (t : SeatTableState) (x : Deferred) (operator place : ℕ)
        → AreQueuesOf t.operators t.queues → x.operator ≡ Some operator → lane_of t x ≡ Some place
        → list_any (takes_of x.operator x.pending.order) t.queues ≡ true
        → operator_of_seat t.operators (length t.operators + 1) place ≡ Some operator }
    ensures nobody { (t : SeatTableState) (x : Deferred) (place : ℕ)
        → AreQueuesOf t.operators t.queues → x.operator ≡ None → lane_of t x ≡ Some place
        → operator_of_seat t.operators (length t.operators + 1) place ≡ None }
    ensures seats { (operators : List ℕ) (seats : List Seat) (reports : Seat) (t : SeatTableState)
        → IsOpened operators seats reports t → length operators ≡ length seats
        → map (λ q. q.seat) t.queues ≡ seats ++ reports ∷ [] }
    ensures operators { (operators : List ℕ) (seats : List Seat) (reports : Seat) (t : SeatTableState)
        → IsOpened operators seats reports t → length operators ≡ length seats → t.operators ≡ operators }
{}

/// States that each answer of a seat is that of the order with the same index: the first answer is that of the first
/// order, and so on.
pub fn answers_are_of_their_orders()
    ensures { (a b : SeatQueueState) (p : PendingOrder) (told : Told) → IsInStep a → TellsOldest p told a b
        → slice_get (submitted a.seat) (length (told_to a.seat)) ≡ Some p.order }
{}

/// States that the lines of all blocks together are those of their bytes in one piece, however the bytes were cut.
pub fn blocks_do_not_matter()
    ensures { (line : List ℕ) (blocks : List (List ℕ)) → lines_of_blocks line blocks ≡ lines_of line (concat blocks) }
{}

/// States that the versions of one object's recorded states rise, and that none is newer than the state in the picture.
/// If that is so before an event is recorded, it is so afterwards.
pub fn recorded_states_rise()
    ensures { (e : StationEvent) (a b : ServiceState) → AreInOrder a.picture a.events → Records e a b
        → AreInOrder b.picture b.events }
{}
