//! The world of all stations, what may happen in it, and that it is safe and never stuck.
//!
//! A schedule makes a trace (specs/Schedule.antt of `smi_protocol`). What a trace has to be like is `Safe`
//! (specs/Safe.antt), and [`law`] says that all are: what never happens.
//!
//! [`rest`] says what can always be done. From every world that can be reached a list of items leads to rest,
//! whatever was lost, repeated and reordered, and whichever station has stopped: ticks, deliveries of datagrams that
//! were sent, and starts of stations that have stopped lead to a world in which no holder waits for anything, no
//! domain is at work and every station is in service (specs/Rest.antt).
//!
//! # How it is proved
//!
//! Names in brackets are files under `proofs/`, unless a definition is told.
//!
//! ## That every run is safe
//!
//! One invariant for each part, kept by every step:
//!
//! - *Pairs.* Whatever reaches a station moves each record and each link by one of a few moves (`RecordMoves`,
//!   `LinkMoves`). Each move is an event of the pair of a keeper and one holder (`Views`). So each pair in the world
//!   is one that a list of such events has reached (`Viewed`), and has the facts of `smi_grant` (`KnownFacts`).
//! - *Grants.* What a trace says of epochs, holders and learned grants is what the records and links are (`Traces`).
//!   Whatever reaches a station changes its grants in one of five ways: not at all, a grant, the end of a grant, a
//!   take that is granted, a grant given up (`GrantKinds`). Each keeps the trace safe (`Changes`,
//!   `LinkChanges`), and nothing else happens (`ChildKinds`, `HearingKinds`, `StepKinds`). One commander follows:
//!   the holder of a domain by the trace has a held link, so is the record's holder, and a record has one.
//! - *Order.* As many commands have run under a domain's present grant as its record says, and none under a later one
//!   (`RunOrder`, `RunSteps`, `RunsOrdered`).
//! - *Backed runs.* What an operator has issued by the trace is what the operator's link says (`OrderSteps`,
//!   `OrdersLogged`). `Working.At` says of each domain which command is at work while it is busy, that it waits for
//!   no child once it is settled, and that modes are those of the trace. A child's link has at most one command
//!   pending: the one at work, for a child that it is handed on to. A busy child's command is its parent's. This is
//!   kept by a command that begins (`WorkRuns`, `Started`), by a record that is told (`WorkTold`) and by everything
//!   else (`WorkSteps`). A run comes of a `RUN` that was sent and is pending. From there `RunsSound` goes up the
//!   tree, where parents have lower numbers.
//! - *States.* The condition of each object was passed on, and is no older than anything that was passed (`Shows`).
//!   What was told was passed, and not before its watch. A watch came after the boot that it echoes, so what is told
//!   with a present echo is not older than what was shown before that boot. `Conditions` says which objects a step
//!   may change. That all this is kept is said by `ShownStep` and `ShownNotice` of a step, by `ShownStart` of a
//!   start, and by `StatesShown` of every run.
//! - *The bridge.* `SaysGrants` and `SaysStates` go through all that a step sends. `Tidy` keeps the lists of who
//!   watches in order. `Bridge` goes through the items.
//!
//! ## Wrong definitions, and what breaks
//!
//! Each was tried in place of the right one, with the worked examples left out. After it are lemmas that were seen
//! to break. There are more, as only the first messages were kept.
//!
//! - *A take is granted whatever epoch it has seen.* `RecordMoves.body_moves`: no such move of one record; then
//!   `LinkMoves`, `StepKinds`.
//! - *A command runs under any number, so again when it comes again.* `RecordMoves.run_moves`.
//! - *A command ends before the children have answered.* `RecordMoves.ended_moves`; by itself `WorkTold.at_ended`: a
//!   settled domain waits for no child.
//! - *A drop begins while a command is pending.* `RecordMoves.order_rests`, `LinkMoves.order_moves`,
//!   `StepKinds.order_kind`.
//! - *An operator's link is out on any told record.* `LinkMoves.tell_moves`.
//! - *A number is given twice.* `RecordMoves.order_rests`, `LinkMoves.order_moves`, `StepKinds.order_kind`.
//! - *Versions begin again at a start.* `ShownStart.boot_here`.
//! - *A state that answers another boot is taken.* `ShownNotice.state_noted`, `SaysStates.state_says`,
//!   `Tidy.state_tidy`.
//! - *An action goes on to a manual child.* `LinkMoves.handed`, `ChildKinds.handed`.
//! - *A parent is freed while its command is at work.* `RecordMoves.body_moves`.
//! - *A station may send any run.* `Viewed.spoken`.
//! - *A child keeps its mode over a new grant.* `WorkRuns.kid`.
//! - *Devices that moved are not passed on.* `ShownNotice.changes_`, `SaysStates.passed_shown`.
//!
//! Most of these break a lemma because the definition no longer has the form that the lemma goes through. That alone
//! does not show that the law is false of it, but that it does not hold by this proof. More are among the must-fail
//! edits of the crate, and among those of `smi_protocol`, which the worked examples refuse.
//!
//! ## The way to rest
//!
//! - *Facts of every world.* A link that is not as at the beginning is that of a holder of the tree, at the holder's
//!   station (`Placed`). What every station keeps of grants is sound, and what was sent of them in range (`Sounds`),
//!   so a busy domain waits for a child. A link that gives up the present grant is that of the record's holder
//!   (`Drops`).
//! - *Ticks.* What a station owes is ordered by place (`Places`, `Ascending`, `Owing`), and is never more than so much
//!   (`OwedCount`). So wherever ticks begin, what a link is due is sent within a bounded number of them (`TickPlaces`,
//!   `Ticks`).
//! - *A delivery.* A request is not refused, and its answer is the first datagram of the step (`Deliveries`,
//!   `Asking`, `Asked`). A station stops in it only if an object has reached its last sequence (`Room`), and is
//!   then started again.
//! - *An answer.* A record that is told again is news to fewer links at the station, until it is to none (`Hears`).
//!   What a link then still waits for (`Unheard`) is a free domain at this very epoch, its oldest command, or the end
//!   of its grant.
//! - *A pass* is a request with its answer (`Passes`). Two passes end a take and one a drop (`Changing`). One pass
//!   has the oldest command run, or finds that it has. When the domain waits for no child any more it is settled, and
//!   the next pass has the link hear it (`Running`).
//! - *The tree.* Children have greater numbers than their parents, so a domain's children settle by induction
//!   (`Settling`). Nothing that is above them changes but commands that end (`Eases`, in `Passes`). A command is
//!   asked for no more than twice for each domain (`Counting`).
//! - *All of it.* The sum of what all links wait for falls with each link (`Resting`). What is under way at a time is
//!   little beside the 4,000,000,000 versions of an object (`Numbers`). Stations that have stopped start first
//!   (`Starts`).
//! - *What is told.* One item leaves of an operator's orders what the link has not heard (`Answering`, `Telling`,
//!   `Answers`). This holds of every list of ticks and deliveries, wherever it begins.
//!
//! Five mutants of definitions of `smi_protocol` show what would get something stuck (docs/TESTING.md, "Mutants").
//! Each is refused by a lemma on the way. What a link is due is owed (`due_owed`). A tick leaves what it
//! does not settle (`tick_keeps`). A drop is decided and answered (`drop_decides`). A record which is told is heard
//! (`heard_one`). A sixth, of `smi_grant`, has a domain released while it is at work: its runs are not safe.
#![tactic(auto)]

pub mod examples;
pub mod law;
pub mod not_safe;
pub mod rest;
