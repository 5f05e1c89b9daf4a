use smi_grant::law::ranks_rise;
use smi_grant::{
    Command, Holder, LAST_EPOCH, LAST_NUMBER, Outcome, Phase, Record, Shown, Verdict, Version,
    admit, drop_grant, is_outcome, settle, start, take,
};

const BOB: Holder = Holder::Operator(2);

const HELD: Record = Record {
    epoch: 1,
    holder: BOB,
    last: 0,
    phase: Phase::Settled,
    outcome: 0,
};

#[test]
fn grant_from_take_to_drop(rt: HostRuntime) {
    let fresh = Record::fresh();
    let busy = Record {
        last: 1,
        phase: Phase::Busy,
        ..HELD
    };
    let done = Record {
        last: 1,
        outcome: 5,
        ..HELD
    };
    let free = Record { epoch: 2, ..fresh };
    let spent = Record {
        epoch: LAST_EPOCH,
        ..fresh
    };
    let last_free = Record {
        epoch: LAST_EPOCH - 2,
        ..fresh
    };
    let last_held = Record {
        epoch: LAST_EPOCH - 1,
        ..HELD
    };
    let made = [
        take(&fresh, BOB, 0) == Verdict::New(HELD),
        take(&HELD, Holder::Operator(1), 1) == Verdict::Same,
        start(&HELD, true, 0) == Verdict::New(busy),
        drop_grant(&busy, BOB, 1) == Verdict::Same,
        settle(&busy, 5) == Verdict::New(done),
        start(&HELD, false, 5) == Verdict::New(done),
        drop_grant(&done, BOB, 1) == Verdict::New(free),
        drop_grant(&done, BOB, 3) == Verdict::Same,
        take(&free, BOB, 0) == Verdict::Same,
        take(&spent, BOB, LAST_EPOCH) == Verdict::Same,
        take(&last_free, BOB, LAST_EPOCH - 2) == Verdict::New(last_held),
        drop_grant(&last_held, BOB, LAST_EPOCH - 1) == Verdict::New(spent),
    ];
    assert_eq!(rt; made, [true; 12]);
}

#[test]
fn commands_that_are_admitted(rt: HostRuntime) {
    let admitted = [
        admit(&HELD, BOB, 1, 1),
        admit(&HELD, BOB, 1, 2),
        admit(&HELD, BOB, 3, 1),
        admit(&HELD, Holder::Domain(2), 1, 1),
    ];
    assert_eq!(rt; admitted, [true, false, false, false]);
    // 2^62
    assert_eq!(rt; LAST_EPOCH.to_be_bytes(), [0x40, 0, 0, 0, 0, 0, 0, 0]);
    ranks_rise();
}

#[test]
fn which_records_there_are(rt: HostRuntime) {
    let (settled, busy, free) = (Phase::Settled, Phase::Busy, Holder::Free);
    let table = [
        (0, free, 0, settled, 0, true),
        (1, free, 0, settled, 0, false),
        (0, BOB, 0, settled, 0, false),
        (LAST_EPOCH, free, 0, settled, 0, true),
        (LAST_EPOCH + 1, BOB, 0, settled, 0, false),
        (2, free, 1, settled, 0, false),
        (1, BOB, LAST_NUMBER, settled, 9, true),
        (1, BOB, LAST_NUMBER + 1, settled, 9, false),
        (1, BOB, 0, settled, 1, false),
        (1, BOB, 0, busy, 0, false),
        (1, BOB, 1, busy, 0, true),
        (1, BOB, 1, busy, 1, false),
    ];
    for (epoch, holder, last, phase, outcome, is_one) in table {
        let record = Record::checked(epoch, holder, last, phase, outcome);
        assert_eq!(rt;
            record.is_some(),
            is_one,
            "{epoch} {holder:?} {last} {phase:?} {outcome}"
        );
    }
}

/// Returns true if a holder has this kind and number, and is in range.
fn is_holder(holder: Holder, kind: u8, number: u16) -> bool {
    (holder.kind(), holder.number(), holder.is_in_range()) == (kind, number, true)
        && Holder::from_kind(kind, number) == Some(holder)
}

#[test]
fn kinds_and_numbers_of_holders(rt: HostRuntime) {
    let found = [
        is_holder(Holder::Free, 0, 0),
        is_holder(Holder::Operator(32), 1, 32),
        is_holder(Holder::Domain(128), 2, 128),
        Holder::from_kind(0, 1) == None,
        Holder::from_kind(3, 1) == None,
    ];
    assert_eq!(rt; found, [true; 5]);
}

/// Returns true if a command has this verb and argument, and is in range.
fn is_command(command: Command, verb: u16, argument: u16) -> bool {
    (command.verb(), command.argument(), command.is_in_range()) == (verb, argument, true)
        && Command::from_verb(verb, argument) == Some(command)
}

#[test]
fn verbs_and_arguments_of_commands(rt: HostRuntime) {
    let found = [
        is_command(Command::Do(64), 1, 64),
        is_command(Command::Include(128), 2, 128),
        is_command(Command::Exclude(1), 3, 1),
        is_command(Command::Manual(2), 4, 2),
        is_command(Command::Ignore(3), 5, 3),
        Command::from_verb(0, 1) == None,
        Command::from_verb(6, 1) == None,
    ];
    assert_eq!(rt; found, [true; 7]);
}

#[test]
fn numbers_out_of_range(rt: HostRuntime) {
    let outside = [
        Holder::Operator(0).is_in_range(),
        Holder::Operator(33).is_in_range(),
        Holder::Domain(0).is_in_range(),
        Holder::Domain(129).is_in_range(),
        Command::Do(65).is_in_range(),
        Command::Do(0).is_in_range(),
        Command::Ignore(129).is_in_range(),
        is_outcome(8),
        is_outcome(10),
    ];
    assert_eq!(rt; outside, [false; 9]);
    assert_eq!(rt; [is_outcome(0), is_outcome(7), is_outcome(9)], [true; 3]);
}

#[test]
fn numbers_of_phases(rt: HostRuntime) {
    let found = [
        Phase::from_number(0),
        Phase::from_number(1),
        Phase::from_number(2),
    ];
    assert_eq!(rt; found, [Some(Phase::Settled), Some(Phase::Busy), None]);
    assert_eq!(rt; [Phase::Settled.number(), Phase::Busy.number()], [0, 1]);
}

#[test]
fn boot_comes_before_sequence(rt: HostRuntime) {
    let at = |boot, sequence| Version { boot, sequence };
    let shown = Shown {
        object: 1,
        version: at(2, 0),
        state: 2,
    };
    for (older, newer) in [(at(1, 9), shown.version), (at(1, 9), at(1, 10))] {
        assert!(rt; older < newer && !(newer < older), "{older:?} {newer:?}");
    }
}

#[test]
fn outcomes_have_their_numbers(rt: HostRuntime) {
    let outcomes = [
        Outcome::Done,
        Outcome::NotAccepted,
        Outcome::NotBelow,
        Outcome::InThatMode,
        Outcome::ChildNotHeld,
        Outcome::HeldByAnother,
        Outcome::NotHandedOn,
        Outcome::ChildNumbersUsed,
        Outcome::Unseen,
        Outcome::EpochsUsed,
    ];
    let mut all = true;
    for number in 0..10 {
        all = all && usize::from(outcomes[number].code()) == number;
    }
    assert!(rt; all);
}
