//! What holds in every world that can be reached, whatever is lost, repeated, reordered, stopped and
//! started again, as laws: each function does nothing. A world is reached by any list of steps
//! (specs/World.antt): any datagram that was ever sent may come at any time and any number of times,
//! any operator may order anything, any device may be reported in any state, any station may stop
//! before or after a save, and start again.

ghost use Rattle.std.specs.Prelude.{◌≡◌, ◌⊎◌, ℕ, List, [], ◌∷◌, Some, true, false};
ghost use Rattle.smi_grant.specs.declared.Command.{Command};
ghost use Rattle.smi_grant.specs.declared.Holder.{Holder};
ghost use Rattle.smi_grant.specs.declared.Holder.TheVariants.{Domain};
ghost use Rattle.smi_grant.specs.declared.Version.{Version};
ghost use Rattle.smi_grant.specs.Holder.{is_free};
ghost use Rattle.smi_grant.specs.Record.{IsRecord, is_settled};
ghost use Rattle.smi_message.specs.declared.Body.TheVariants.{Run, State};
ghost use Rattle.smi_message.specs.Message.{Message};
ghost use Rattle.smi_tree.specs.Hierarchy.{Hierarchy};
ghost use Rattle.smi_tree.specs.Lawful.{IsTree};
ghost use Rattle.smi_tree.specs.Lookups.{parent_of};
ghost use Rattle.smi_command.specs.declared.Link.TheVariants.{Held};
ghost use Rattle.smi_command.specs.KnownGrant.{KnownGrant, InStep, IsSpent, Waits};
ghost use Rattle.smi_protocol.specs.Children.{is_commanded};
ghost use Rattle.smi_protocol.specs.declared.Entry.{Entry};
ghost use Rattle.smi_protocol.specs.Happening.{Happening};
ghost use Rattle.smi_protocol.specs.Sending.{MaySend};
ghost use Rattle.smi_protocol.specs.Step.{after};
ghost use Rattle.smi_protocol.specs.Display.{Station};
ghost use Rattle.smi_protocol.specs.Opening.{first_display};
ghost use Rattle.smi_protocol.specs.Tidy.{IsTidy};
ghost use Rattle.smi_protocol.specs.declared.item.Item.{Item};
ghost use Rattle.smi_law.specs.Known.{record_in, link_in};
ghost use Rattle.smi_law.specs.Safe.{Forwards, NotOlderThanShown, RunsInOrder, Safe, SafeGrants, ShownWell};
ghost use Rattle.smi_law.specs.Safe.{SoundRuns};
ghost use Rattle.smi_protocol.specs.Schedule.{World, turn, trace_of};
ghost use Rattle.smi_law.specs.Trace.{InWork, before_start, mode_at};
ghost use Rattle.smi_law.specs.World.{Reaches, Among, MayCome, noted, past_of};

/// States that every record is lawful; a record's holder has a link that knows of the grant, and a link that is held
/// is that of the record's holder, at its epoch; the numbers of pending commands are in step with the record; and
/// every `RUN` that was ever sent is spent or still pending on its link.
pub fn links_know_their_records()
    ensures lawful { (h : Hierarchy) (past : List Entry) (w : World) (d : ℕ) → Reaches h past w
        → IsRecord (record_in h w d) }
    ensures known { (h : Hierarchy) (past : List Entry) (w : World) (d : ℕ) (me : Holder) → is_free me ≡ false
        → Reaches h past w →
        KnownGrant (record_in h w d) me (link_in h w me d) }
    ensures in_step { (h : Hierarchy) (past : List Entry) (w : World) (d : ℕ) (me : Holder) (e n : ℕ)
        (p : List Command) → Reaches h past w →
        link_in h w me d ≡ Held e n p → InStep (record_in h w d) n p }
    ensures sent { (h : Hierarchy) (past : List Entry) (w : World) (d : ℕ) (me : Holder) (m : Message) (e n : ℕ)
        (c : Command) → Reaches h past w →
        Among m w.sent → m.body ≡ Run d me e n c → IsSpent (record_in h w d) e n ⊎ Waits (link_in h w me d) e n c }
{}

/// States of every moment of every trace: each grant raises the epoch of its domain by one, is odd, and is to an
/// operator or to the domain's parent; each end of a grant raises it by one, is even, and its holder has let go
/// before; a holder learns of its grant once, after it was granted and while it is current, and lets go of what it
/// holds; and at most one operator commands each domain.
pub fn grants_are_safe()
    ensures { (h : Hierarchy) (past : List Entry) (w : World) → Reaches h past w → SafeGrants h past }
{}

/// States that while a domain is busy, its command is at work by the trace, and is pending on its holder's link under
/// the number of the record's last command. What is pending on a domain's link to a child is one command: that which
/// is at work in the domain, which is busy; and the domain hands it on to this child, whose mode allows it.
pub fn commands_are_handed_on()
    ensures at_work { (h : Hierarchy) (past : List Entry) (w : World) (d : ℕ) (me : Holder) → Reaches h past w
        → is_settled (record_in h w d).phase ≡ false → (record_in h w d).holder ≡ me →
        (c : Command) × InWork d (record_in h w d).epoch (record_in h w d).last c past
        × Waits (link_in h w me d) (record_in h w d).epoch (record_in h w d).last c }
    ensures handed_on { (h : Hierarchy) (past : List Entry) (w : World) (d p e n : ℕ) (c : Command)
        (more : List Command) → Reaches h past w → link_in h w (Domain p) d ≡ Held e n (c ∷ more) →
        (parent_of h d ≡ Some p) × (more ≡ []) × (is_settled (record_in h w p).phase ≡ false)
        × InWork p (record_in h w p).epoch (record_in h w p).last c past × Forwards h p c d
        × (is_commanded (mode_at (Domain p) d e past) ≡ true) }
{}

/// States that in every trace of a tree the runs of each domain rise by epoch and number, and those of one grant are
/// 1, 2 and so on: none runs twice, and none before its turn. And each run is backed at its moment: it is under the
/// current grant of its domain, which its holder holds; if that is an operator, the operator ordered this command
/// under its number, once and no other; if it is the domain's parent, the parent is in this very command, hands it on
/// to this child, commands the child, and is backed in it itself.
pub fn runs_are_safe()
    ensures order { (h : Hierarchy) (past : List Entry) (w : World) → Reaches h past w → RunsInOrder past }
    ensures backed { (h : Hierarchy) (past : List Entry) (w : World) → IsTree h → Reaches h past w → SoundRuns h past }
{}

/// States that in every trace of a tree the versions of each object rise; what a station is shown of an object was
/// passed through before; it is newer than all that the station was shown of it since its last start, and not older
/// than anything that it was ever shown of it. Whatever was told to a station with its present boot as the echo is
/// not older than what the station was shown of that object before this boot.
pub fn states_are_safe()
    ensures shown { (h : Hierarchy) (past : List Entry) (w : World) → IsTree h → Reaches h past w → ShownWell past }
    ensures echo { (h : Hierarchy) (past : List Entry) (w : World) (m : Message) (x : ℕ) (v : Version) (s : ℕ)
        → IsTree h → Reaches h past w →
        Among m w.sent → m.body ≡ State x (w.stations m.to).grants.boot v s
        → NotOlderThanShown m.to x v (before_start m.to past) }
{}

/// States that whatever reaches a station of a tree whose lists of watchers are tidy (`IsTidy` of `smi_protocol`),
/// each datagram that it sends in the step is one that it may send when the step is done. The lists are tidy at a
/// start, and stay so whatever comes.
pub fn what_is_sent_may_be_sent()
    ensures starts { (h : Hierarchy) (number : ℕ) → IsTidy h (first_display h number) }
    ensures stays { (h : Hierarchy) (number : ℕ) (s : Station) (what : Happening) → IsTidy h s.display
        → IsTidy h (after h number s what).station.display }
    ensures may_send { (h : Hierarchy) (number : ℕ) (s : Station) (what : Happening) (m : Message) → IsTree h
        → IsTidy h s.display →
        Among m (after h number s what).out.datagrams → MaySend h number (after h number s what).station m }
{}

/// States of every world of a tree that can be reached: each datagram that a station sends in a step is one that it
/// may send when the step is done; and whatever an item of a schedule makes of the world is reached too, with the
/// entries that it leaves: a step with its datagrams, a restart, a stop before or after the save, a save that fails.
pub fn turns_are_runs()
    ensures may_send { (h : Hierarchy) (past : List Entry) (w : World) (number : ℕ) (what : Happening) (m : Message)
        → IsTree h → Reaches h past w → MayCome w what →
        Among m (after h number (w.stations number) what).out.datagrams
        → MaySend h number (after h number (w.stations number) what).station m }
    ensures reached { (h : Hierarchy) (past : List Entry) (w : World) (x : Item) → IsTree h → Reaches h past w
        → Reaches h (noted (turn h w x).entries past) (turn h w x).world }
{}

/// States that every trace of a tree is safe at every moment, whatever may happen in its world: at most one operator
/// commands each domain; each command that runs was ordered, runs once and in the order of its numbers, while every
/// grant between it and its operator is current; and states that are shown were passed through and never go back.
pub fn every_run_is_safe()
    ensures { (h : Hierarchy) (past : List Entry) (w : World) → IsTree h → Reaches h past w → Safe h past }
{}

/// States that the trace that a schedule makes is safe at every moment, for every tree and every list of items:
/// deliveries, losses, repeats, orders, reports, restarts, stops and saves that fail, in any order.
pub fn every_schedule_is_safe()
    ensures { (h : Hierarchy) (items : List Item) → IsTree h → Safe h (past_of (trace_of h items)) }
{}
