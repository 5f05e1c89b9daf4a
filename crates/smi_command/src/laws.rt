//! What holds of every link, and of a link and the keeper's record, whatever becomes of the
//! datagrams between them.

ghost use Rattle.std.specs.Prelude.{ℕ, List, Ok, Some, IsErr, false, drop, length, slice_get, ◌≡◌, ◌<◌, ◌≤◌, ◌+◌};
ghost use Rattle.std.specs.Prelude.{◌⊎◌, ◌↔◌};
ghost use Rattle.smi_grant.specs.declared.command.Command.{Command};
ghost use Rattle.smi_grant.specs.declared.holder.Holder.{Holder};
ghost use Rattle.smi_grant.specs.Holder.{is_free};
ghost use Rattle.smi_grant.specs.Record.{Standing, IsRecord, last_epoch};
ghost use Rattle.smi_command.specs.declared.link.Link.{Link};
ghost use Rattle.smi_command.specs.declared.link.Due.{Due};
ghost use Rattle.smi_command.specs.Hearing.{told_link, settled_count, settlement_in, settlements};
ghost use Rattle.smi_command.specs.KnownGrant.{KnownGrant, InStep, IsSpent, ShowsEnd, Waits};
ghost use Rattle.smi_command.specs.Link.{known};
ghost use Rattle.smi_command.specs.OneLink.{Event, reached, Asks, Among, RunsInOrder, RanAsIssued};
ghost use Rattle.smi_command.specs.Order.{take_begun, command_issued, drop_begun};
ghost use Rattle.smi_command.specs.Pending.{base_of};

use crate::{Due, Link};

/// States that a link that asks for its domain takes no order, so it leaves `Taking` by what it is told alone.
pub fn taking_ends_by_hearing()
    ensures no_take { (s : ℕ) → IsErr (take_begun (Link.Taking s)) }
    ensures no_command { (s : ℕ) (c : Command) → IsErr (command_issued (Link.Taking s) c) }
    ensures no_drop { (s : ℕ) → IsErr (drop_begun (Link.Taking s)) }
{}

/// States what a told record settles, number by number: a pending command settles exactly when the record shows that
/// it has ended, the last one with the record's outcome and those below it unseen. The others stay, in their order.
pub fn commands_settle_by_number()
    ensures settles { (n i : ℕ) (p : List Command) (r : Standing) → i < length p →
        (i < settled_count n p r) ↔ ShowsEnd r (base_of n p + 1 + i) }
    ensures code { (n i : ℕ) (p : List Command) (r : Standing) → i < settled_count n p r →
        slice_get (settlements n p r) i
        ≡ Some (settlement_in r (base_of n p + 1 + i)) }
    ensures stays { (n i : ℕ) (p : List Command) (r : Standing) →
        slice_get (drop (settled_count n p r) p) i ≡ slice_get p (settled_count n p r + i) }
{}

/// States that the epoch that a link knows of never falls: an order leaves it, and what is told never lowers it. It
/// stays within the epochs that a domain can have.
pub fn known_epoch_never_falls()
    ensures taken { (l m : Link) → take_begun l ≡ Ok m → known m ≡ known l }
    ensures commanded { (l : Link) (c : Command) (m : Link) →
        command_issued l c ≡ Ok m → known m ≡ known l }
    ensures dropped { (l m : Link) → drop_begun l ≡ Ok m → known m ≡ known l }
    ensures told { (l : Link) (me : Holder) (r : Standing) →
        known l ≤ last_epoch → known l ≤ known (told_link l me r) }
    ensures within { (l : Link) (me : Holder) (r : Standing) →
        IsRecord r → known l ≤ last_epoch → known (told_link l me r) ≤ last_epoch }
{}

/// States the law of one link. Wherever a list of events leads that one holder, the keeper, the network and strangers
/// make, the link and the record know of one another, the numbers of pending commands are in step with the record,
/// every run is numbered in its turn and is the one command that was issued under its number, and every `RUN` that
/// was ever sent is spent or still pending.
pub fn one_link_and_its_keeper()
    ensures known { (me : Holder) (events : List Event) → is_free me ≡ false →
        KnownGrant (reached me events).kept me (reached me events).link }
    ensures in_step { (me : Holder) (events : List Event) (e n : ℕ) (p : List Command) →
        is_free me ≡ false → (reached me events).link ≡ Link.Held e n p →
        InStep (reached me events).kept n p }
    ensures in_order { (me : Holder) (events : List Event) → is_free me ≡ false →
        RunsInOrder (reached me events).ran }
    ensures as_issued { (me : Holder) (events : List Event) → is_free me ≡ false →
        RanAsIssued me (reached me events).issued (reached me events).ran }
    ensures sent { (me : Holder) (events : List Event) (e n : ℕ) (c : Command) →
        is_free me ≡ false → Among (Asks me (Due.Run e n c)) (reached me events).sent →
        IsSpent (reached me events).kept e n ⊎ Waits (reached me events).link e n c }
    ensures lawful { (me : Holder) (events : List Event) → is_free me ≡ false →
        IsRecord (reached me events).kept }
{}
