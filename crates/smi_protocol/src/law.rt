//! What holds of every event at every station, as laws: each function does nothing.

ghost use Rattle.std.specs.Prelude.{◌≡◌, ℕ, true, None};
ghost use Rattle.smi_message.specs.Message.{Message, is_boot, is_message};
ghost use Rattle.smi_message.specs.Spelling.{spelling, reading};
ghost use Rattle.smi_tree.specs.Hierarchy.{Hierarchy};
ghost use Rattle.smi_tree.specs.Lawful.{IsBetween, IsTree};
ghost use Rattle.smi_tree.specs.Lookups.{operator_station_of, station_count};
ghost use Rattle.smi_tree.specs.Roles.{is_number, is_keeper};
ghost use Rattle.smi_rows.specs.Written.{IsRow};
ghost use Rattle.smi_protocol.specs.Display.{Station};
ghost use Rattle.smi_protocol.specs.Grants.{Grants, no_grants};
ghost use Rattle.smi_protocol.specs.GrantsOf.{grant_step};
ghost use Rattle.smi_protocol.specs.GrantStep.{OfDomain, OfOperator};
ghost use Rattle.smi_protocol.specs.Happening.{Happening, Comes};
ghost use Rattle.smi_protocol.specs.Loading.{AreSaved, KeepsTheSame, grants_in};
ghost use Rattle.smi_protocol.specs.Refusals.{refusal_of};
ghost use Rattle.smi_rows.specs.Store.{Rows};
ghost use Rattle.smi_protocol.specs.SavedRows.{domain_row, operator_row, saved_row};
ghost use Rattle.smi_protocol.specs.Sound.{AllInRange, IsSayable, IsSound};
ghost use Rattle.smi_protocol.specs.Opening.{first_display};
ghost use Rattle.smi_protocol.specs.SoundDisplay.{IsDisplay, MayChange};
ghost use Rattle.smi_protocol.specs.Step.{after, after_reading};

/// States that the bytes of a datagram are heard as that datagram.
pub fn datagrams_are_heard()
    ensures { (h : Hierarchy) (number : ℕ) (s : Station) (m : Message) → is_message m ≡ true
        → after_reading h number s (reading (spelling m)) ≡ after h number s (Comes m) }
{}

/// States that what a station keeps of grants is sound when it was never started, and stays so whatever comes, forged
/// or not: any datagram in the ranges of its kind, any order, any report (specs/Sound.antt).
pub fn grants_stay_sound()
    ensures opens { (h : Hierarchy) → IsSound h no_grants }
    ensures stays { (h : Hierarchy) (number : ℕ) (g : Grants) (what : Happening) → IsTree h → IsSound h g
        → IsSayable what → refusal_of h number g what ≡ None → IsSound h (grant_step h number g what).grants }
{}

/// States that what a station keeps of states and of watching can be told when it starts, and stays so whatever
/// comes, forged or not, as long as each of its objects may change once more (specs/SoundDisplay.antt).
pub fn displays_stay_sound()
    ensures opens { (h : Hierarchy) (number : ℕ) → IsTree h → IsDisplay h number (first_display h number) }
    ensures stays { (h : Hierarchy) (number : ℕ) (s : Station) (what : Happening) → IsTree h
        → IsDisplay h number s.display → MayChange s.display → IsSayable what
        → IsDisplay h number (after h number s what).station.display }
{}

/// States that whatever reaches a sound station, forged or not, each datagram that it then sends is in the ranges of
/// its kind: those of its grants, if these are sound, and all of them, if what it keeps of states is sound too.
pub fn what_is_sent_is_in_range()
    ensures of_grants { (h : Hierarchy) (number : ℕ) (g : Grants) (what : Happening) → IsTree h
        → IsBetween 1 (station_count h) number → IsSound h g → IsSayable what → refusal_of h number g what ≡ None
        → AllInRange (grant_step h number g what).sends }
    ensures whole { (h : Hierarchy) (number : ℕ) (s : Station) (what : Happening) → IsTree h
        → IsBetween 1 (station_count h) number → IsSound h s.grants → IsDisplay h number s.display
        → MayChange s.display → is_boot s.grants.boot ≡ true → IsSayable what
        → AllInRange (after h number s what).out.datagrams }
{}

/// States that the rows of a station whose grants are sound read back: that of each domain that it keeps, and that of
/// each of its operators, each as what the row says.
pub fn sound_rows_read_back()
    ensures domains { (h : Hierarchy) (g : Grants) (number d : ℕ) → IsTree h → IsSound h g
        → is_keeper h number d ≡ true →
        IsRow h (saved_row h number g (OfDomain d)).key (saved_row h number g (OfDomain d)).bytes (domain_row h g d) }
    ensures operators { (h : Hierarchy) (g : Grants) (number o : ℕ) → IsTree h → IsSound h g
        → is_number (operator_station_of h o) number ≡ true →
        IsRow h (saved_row h number g (OfOperator o)).key (saved_row h number g (OfOperator o)).bytes
        (operator_row h g o) }
{}

/// States that what the rows of a station mean is what it kept when it saved them, if its grants were sound: of each
/// of its domains and operators it saved the row, or nothing had changed there.
pub fn saved_rows_mean_what_was_kept()
    ensures { (h : Hierarchy) (number : ℕ) (g : Grants) (rows : Rows) → IsSound h g → AreSaved h number g rows
        → KeepsTheSame h number g (grants_in h number rows) }
{}
