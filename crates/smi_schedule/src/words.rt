//! The words that a schedule line says by itself.

ghost use Rattle.std.specs.Prelude.{◌≡◌};
ghost use Rattle.smi_schedule.specs.Words.{moment_of, plan_of};

use smi_protocol::Moment;
use smi_rows::Plan;

/// The word that a deed begins with.
#[derive(Clone, Copy)]
pub(crate) enum DeedWord {
    Deliver,
    Recent,
    Order,
    Report,
    Tick,
}

/// The word that a line begins with.
#[derive(Clone, Copy)]
pub(crate) enum LineWord {
    Do(DeedWord),
    Restart,
    Stop,
    Fail,
}

/// The word that says what an operator orders.
#[derive(Clone, Copy)]
pub(crate) enum OrderWord {
    Take,
    Drop,
    Ask,
    Do,
    Include,
    Exclude,
    Manual,
    Ignore,
    Watch,
    Unwatch,
}

impl DeedWord {
    ghost use Rattle.std.specs.Prelude.{◌≡◌};
    ghost use Rattle.smi_schedule.specs.Words.{deed_word};

    pub(crate) fn read(word: &[u8]) -> Option<DeedWord>
        ensures { result ≡ deed_word word.now }
    {
        match word {
            b"deliver" => Some(DeedWord::Deliver),
            b"recent" => Some(DeedWord::Recent),
            b"order" => Some(DeedWord::Order),
            b"report" => Some(DeedWord::Report),
            b"tick" => Some(DeedWord::Tick),
            _ => None,
        }
    }
}

impl LineWord {
    ghost use Rattle.std.specs.Prelude.{◌≡◌};
    ghost use Rattle.smi_schedule.specs.Words.{line_word};

    pub(crate) fn read(word: &[u8]) -> Option<LineWord>
        ensures { result ≡ line_word word.now }
    {
        match word {
            b"restart" => Some(LineWord::Restart),
            b"stop" => Some(LineWord::Stop),
            b"fail" => Some(LineWord::Fail),
            _ => Some(LineWord::Do(DeedWord::read(word)?)),
        }
    }
}

impl OrderWord {
    ghost use Rattle.std.specs.Prelude.{◌≡◌};
    ghost use Rattle.smi_schedule.specs.Words.{order_word};

    pub(crate) fn read(word: &[u8]) -> Option<OrderWord>
        ensures { result ≡ order_word word.now }
    {
        match word {
            b"take" => Some(OrderWord::Take),
            b"drop" => Some(OrderWord::Drop),
            b"ask" => Some(OrderWord::Ask),
            b"do" => Some(OrderWord::Do),
            b"include" => Some(OrderWord::Include),
            b"exclude" => Some(OrderWord::Exclude),
            b"manual" => Some(OrderWord::Manual),
            b"ignore" => Some(OrderWord::Ignore),
            b"watch" => Some(OrderWord::Watch),
            b"unwatch" => Some(OrderWord::Unwatch),
            _ => None,
        }
    }
}

/// Returns the word that says where a station stops.
pub(crate) fn moment_of(word: &[u8]) -> Option<Moment>
    ensures { result ≡ moment_of word.now }
{
    match word {
        b"before" => Some(Moment::Before),
        b"after" => Some(Moment::After),
        _ => None,
    }
}

/// Returns the word that says how a save fails.
pub(crate) fn plan_of(word: &[u8]) -> Option<Plan>
    ensures { result ≡ plan_of word.now }
{
    match word {
        b"device" => Some(Plan::Device),
        b"before" => Some(Plan::Before),
        b"after" => Some(Plan::After),
        _ => None,
    }
}
