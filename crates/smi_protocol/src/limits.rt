//! Stations at their limits, as laws: each function does nothing, and its clauses are examples.

ghost use Rattle.std.specs.Prelude.{◌≡◌, [], ◌∷◌, ◌^◌, map, None, Some};
ghost use Rattle.std.specs.List.{range_with_len};
ghost use Rattle.smi_grant.specs.declared.Holder.TheVariants.{Operator};
ghost use Rattle.smi_message.specs.declared.Body.TheVariants as body;
ghost use Rattle.smi_protocol.specs.Happening.{Comes, Orders};
ghost use Rattle.smi_protocol.specs.Messages.{says};
ghost use Rattle.smi_protocol.specs.Opening.{first_opened, opened};
ghost use Rattle.smi_protocol.specs.Played.{sends, STATE, UNWATCH, TELL};
ghost use Rattle.smi_protocol.specs.Step.{after};
ghost use Rattle.smi_protocol.specs.declared.entry.Entry.TheVariants.{Settled};
ghost use Rattle.smi_protocol.specs.declared.event.Heard.TheVariants.{Refused, Same};
ghost use Rattle.smi_protocol.specs.declared.order.Order.TheVariants.{Take};
ghost use Rattle.smi_protocol.specs.examples.WorkedTree.{worked_tree, A, B, ANN, BOB, DCS, TPC, HV};
ghost use Rattle.smi_protocol.specs.examples.WideTree.{wide_tree};
ghost use Rattle.smi_protocol.specs.examples.Orders.{told_at_once};
ghost use Rattle.smi_protocol.specs.examples.Limits.{comes, sendings, sixteen_taken, all_named, tick, subjects};
ghost use Rattle.smi_protocol.specs.examples.Limits.{crowded, last_epoch_taken, free_at_last_epoch};

/// Shows that an operator asks for sixteen domains, and is refused a seventeenth with 25.
pub fn seventeenth_domain()
    ensures refused { told_at_once wide_tree sixteen_taken (Take 17) ≡ 25 ∷ [] }
    ensures before_25 { told_at_once wide_tree sixteen_taken (Take 16) ≡ 23 ∷ [] }
{}

/// Shows 65 places that are due: the first tick sends 64, the second the last, and the third begins again.
pub fn sixty_five_places()
    ensures first { subjects (tick all_named) ≡ range_with_len 1 64 }
    ensures second { subjects (tick (tick all_named).station) ≡ 65 ∷ [] }
    ensures third { subjects (tick (tick (tick all_named).station).station) ≡ range_with_len 1 64 }
{}

/// Shows that an object is watched by 64 stations: a 65th is not answered and not in the list. Those that are in it
/// are answered again.
pub fn full_list()
    ensures unanswered { sendings (comes wide_tree crowded 1 (body.Watch 1 1)) ≡ [] }
    ensures unlisted { (comes wide_tree crowded 1 (body.Watch 1 1)).station.display.watchers
        ≡ crowded.display.watchers }
    ensures answered { sendings (comes wide_tree crowded 65 (body.Watch 1 1)) ≡ sends STATE A 65 1 ∷ [] }
{}

/// Shows that a watch with an older echo than one before is ignored; a newer one takes the station out of all lists
/// first.
pub fn older_echo()
    ensures ignored { sendings (comes worked_tree
        (comes worked_tree (first_opened worked_tree A) B (body.Watch DCS 2)).station B (body.Watch DCS 1)) ≡ [] }
    ensures repeated { sendings (comes worked_tree
        (comes worked_tree (first_opened worked_tree A) B (body.Watch DCS 2)).station B (body.Watch DCS 2))
        ≡ sends STATE A B DCS ∷ [] }
{}

/// Shows that a state of what is not watched is answered so, unless it answers an earlier boot.
pub fn unwatched_state()
    ensures answered { sendings (comes worked_tree (first_opened worked_tree A) B
        (body.State HV 1 (record { boot = 1; sequence = 0 }) 1)) ≡ sends UNWATCH A B HV ∷ [] }
    ensures earlier_boot { sendings (comes worked_tree (opened worked_tree A (first_opened worked_tree A).grants) B
        (body.State HV 1 (record { boot = 1; sequence = 0 }) 1)) ≡ [] }
{}

/// Shows that a domain whose epochs are used up can't be taken: the command ends with 9.
pub fn epochs_used_up()
    ensures settled { (comes worked_tree last_epoch_taken B free_at_last_epoch).kept ≡ Settled DCS 1 1 9 ∷ [] }
    ensures told { sendings (comes worked_tree last_epoch_taken B free_at_last_epoch) ≡ sends TELL A A DCS ∷ [] }
{}

/// Shows refused datagrams: 7 another tree, 8 another station, 9 what is not there or not from whom it may come.
pub fn refused_datagrams()
    ensures tree { (after worked_tree A (first_opened worked_tree A)
        (Comes (record { from = B; to = A; tree = 16; body = body.Ask DCS }))).heard ≡ Refused 7 }
    ensures station { (after worked_tree A (first_opened worked_tree A)
        (Comes (says worked_tree B B (body.Ask TPC)))).heard ≡ Refused 8 }
    ensures sender { (comes worked_tree (first_opened worked_tree A) 3 (body.Ask DCS)).heard ≡ Refused 9 }
    ensures domain { (comes worked_tree (first_opened worked_tree A) B (body.Ask TPC)).heard ≡ Refused 9 }
    ensures holder { (comes worked_tree (first_opened worked_tree A) B (body.Take DCS (Operator ANN) 0)).heard
        ≡ Refused 9 }
    ensures object { (comes worked_tree (first_opened worked_tree A) B (body.Watch HV 1)).heard ≡ Refused 9 }
    ensures understood { (comes worked_tree (first_opened worked_tree A) B (body.Ask DCS)).heard ≡ Same }
{}
