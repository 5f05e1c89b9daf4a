//! Parses the command line into what it asks for.
//!
//! `commands` runs what [`line_of`] returns. `cause_search`, `telling_more` and `tree_words` parse the same words
//! again, once the command has ended. README.md, "The commands", has the forms; a word that is no path or name is
//! checked here. Everything that is no form is [`CommandLine::Wrong`], without a reason.

use clap::error::ErrorKind;
use clap::{Arg, ArgAction, ArgMatches, Command, Error};
use smi_console::Sources;
use smi_tree::number_within;
use std::alloc::Global;
use std::net::{SocketAddr, SocketAddrV4};

/// The most turns of a node or a screen, and how many they make if the line gives none.
const MOST_TURNS: u32 = 1_000_000;

/// The most days for which the history of a screen is kept (`--history-days`): a year.
const MOST_DAYS: u64 = 366;

/// The most items of a schedule that is drawn (`--steps`).
const MOST_STEPS: u64 = 1_000_000;

/// What the command line asks for.
#[derive(Clone, Copy)]
pub enum CommandLine<'a> {
    /// Answer the datagrams of the standard input.
    Answer,
    /// Check a tree file.
    Check(CheckLine<'a>),
    /// List the rows of the store of this path.
    Rows(&'a str),
    /// Simulate a schedule.
    Sim(SimLine<'a>),
    /// Audit journals.
    Audit(AuditLine<'a>),
    /// Run a node.
    Node(NodeLine<'a>),
    /// Run a screen.
    Screen(ScreenLine<'a>),
    /// The words are none of the forms: so are `help` and `--help`.
    Wrong,
    /// Memory was refused while the words were parsed.
    NoMemory,
}

/// The words of `smi check`.
#[derive(Clone, Copy)]
pub struct CheckLine<'a> {
    /// The path of the tree file.
    pub tree: &'a str,
    /// True if it writes what is lawful in the file and surely not meant (`--lint`).
    pub lints: bool,
}

/// The words of `smi sim`.
#[derive(Clone, Copy)]
pub struct SimLine<'a> {
    /// The path of the tree file.
    pub tree: &'a str,
    /// Where the schedule comes from.
    pub schedule: Schedule<'a>,
    /// True if it goes on until nothing is under way (`--settle`).
    pub settles: bool,
}

/// The words of `smi audit`, but for the files of its journals: `audit` finds these among all words.
#[derive(Clone, Copy)]
pub struct AuditLine<'a> {
    /// The path of the tree file.
    pub tree: &'a str,
    /// True if the merged trace is written (`--trace`).
    pub traces: bool,
}

/// Where a schedule comes from.
#[derive(Clone, Copy)]
pub enum Schedule<'a> {
    /// The file of this path.
    File(&'a str),
    /// The generator of this seed, which draws this many items.
    Drawn { seed: u64, steps: u64 },
}

/// The address at which a node has a console.
#[derive(Clone, Copy)]
pub enum ConsolePlace<'a> {
    /// TCP at this address.
    Address(SocketAddr),
    /// A Unix socket of this path.
    Path(&'a str),
}

/// How a node writes its journal.
#[derive(Clone, Copy)]
pub struct JournalOptions<'a> {
    /// The path of its folder.
    pub folder: &'a str,
    /// True if each step that saved is synced there before anything of it is sent (`--journal-sync`).
    pub is_synced: bool,
}

/// The words of `smi node`.
#[derive(Clone, Copy)]
pub struct NodeLine<'a> {
    /// The path of the tree file.
    pub tree: &'a str,
    /// The name of its station.
    pub station: &'a str,
    /// The path of its store.
    pub store: &'a str,
    /// How many turns it serves. None if it serves without end (`--endless`).
    pub turns: Option<u32>,
    /// The first address at which it listens for consoles (`--console`), if any.
    pub console: Option<ConsolePlace<'a>>,
    /// The second address at which it listens for consoles. None if there is no first.
    pub second_console: Option<ConsolePlace<'a>>,
    /// True if it starts on a store that is older than its label, or damaged (`--accept-older`).
    pub accepts_older: bool,
    /// How it writes its journal, if it has one (`--journal`).
    pub journal: Option<JournalOptions<'a>>,
    /// From where its datagrams have to come (`--sources`).
    pub sources: Sources,
    /// True if it runs as a service (`--service`), whose standard error people read in the journal of systemd.
    pub is_service: bool,
}

/// The words of `smi screen`.
#[derive(Clone, Copy)]
pub struct ScreenLine<'a> {
    /// The path of the tree file.
    pub tree: &'a str,
    /// The name of its station.
    pub station: &'a str,
    /// The path of its store.
    pub store: &'a str,
    /// The address at which browsers reach it (`--http`).
    pub http: SocketAddr,
    /// The name by which browsers know it beside that address (`--host`). None if it is not open to other machines.
    pub name: Option<&'a str>,
    /// The origin under which a proxy serves the page (`--origin`), if one does.
    pub origin: Option<&'a str>,
    /// The path of the file that says how its page shows states (`--style`), if there is one.
    pub style: Option<&'a str>,
    /// From where its datagrams have to come (`--sources`).
    pub sources: Sources,
    /// The console of the node whose operators may order from its page (`--orders`). None if its page gives no orders.
    pub orders: Option<ConsolePlace<'a>>,
    /// The path of the file of the token that people have to know to order (`--token`). None if the page has a key
    /// itself.
    pub token: Option<&'a str>,
    /// The path of the file that keeps what it has seen (`--history`), if there is one.
    pub history: Option<&'a str>,
    /// For how many days what it has seen is kept (`--history-days`). None for the days that
    /// `smi_history` chooses.
    pub history_days: Option<u64>,
    /// How many turns it makes. None if it runs without end (`--endless`).
    pub turns: Option<u32>,
    /// True if it starts on a store that is older than its label, or damaged (`--accept-older`).
    pub accepts_older: bool,
    /// True if it runs as a service (`--service`), whose standard error people read in the journal of systemd.
    pub is_service: bool,
}

impl CommandLine<'_> {
    /// Returns true if the command runs as a service. Only a node and a screen do.
    pub(crate) fn is_service(self) -> bool {
        match self {
            CommandLine::Node(line) => line.is_service,
            CommandLine::Screen(line) => line.is_service,
            _ => false,
        }
    }
}

/// Returns what the words of a command line ask for, the program's own name first.
pub fn line_of(alloc: Global, words: &[String]) -> CommandLine<'_> {
    // No form has the word that ends the options, but `clap` takes it.
    if words.iter().skip(1).any(|word| word.as_str() == "--") {
        return CommandLine::Wrong;
    }
    match parsed(alloc, words) {
        Ok(line) => line,
        Err(e) if e.kind() == ErrorKind::OutOfMemory => CommandLine::NoMemory,
        Err(_) => CommandLine::Wrong,
    }
}

/// Returns what the words ask for. Fails if they are no form or memory was refused.
fn parsed<'a>(alloc: Global, words: &'a [String]) -> Result<CommandLine<'a>, Error> {
    let command = forms(alloc)?;
    let matches = command.try_get_matches_from(words)?;
    Ok(line_in(&matches))
}

/// Returns what the matched words ask for. A value that is none of its kind makes the line wrong.
fn line_in<'a>(matches: &ArgMatches<'a>) -> CommandLine<'a> {
    match matches.subcommand() {
        Some(("answer", _)) => CommandLine::Answer,
        Some(("check", given)) => check_line(given).map_or(CommandLine::Wrong, CommandLine::Check),
        Some(("rows", given)) => given
            .get_str("STORE")
            .map_or(CommandLine::Wrong, CommandLine::Rows),
        Some(("sim", given)) => sim_line(given).map_or(CommandLine::Wrong, CommandLine::Sim),
        Some(("audit", given)) => audit_line(given).map_or(CommandLine::Wrong, CommandLine::Audit),
        Some(("node", given)) => node_line(given).map_or(CommandLine::Wrong, CommandLine::Node),
        Some(("screen", given)) => screen_line(given).map_or(
            CommandLine::Wrong,
            CommandLine::Screen,
        ),
        _ => CommandLine::Wrong,
    }
}

/// Makes the forms of all commands. Fails if memory was refused.
fn forms<'a>(alloc: Global) -> Result<Command<'a>, Error> {
    let command = Command::new(alloc, "smi").subcommand(Command::new(alloc, "answer"))?;
    let command = with_form(command, check_command(alloc))?;
    let command = with_form(command, rows_command(alloc))?;
    let command = with_form(command, sim_command(alloc))?;
    let command = with_form(command, audit_command(alloc))?;
    let command = with_form(command, node_command(alloc))?;
    with_form(command, screen_command(alloc))
}

/// Adds the form of one command to those of the program.
fn with_form<'a>(
    command: Command<'a>,
    form: Result<Command<'a>, Error>,
) -> Result<Command<'a>, Error> {
    Ok(command.subcommand(form?)?)
}

/// Makes the form of `smi check`.
fn check_command<'a>(alloc: Global) -> Result<Command<'a>, Error> {
    let form = with_word(alloc, Command::new(alloc, "check"), "TREE")?;
    Ok(form.arg(flag(alloc, "lint"))?)
}

/// Returns the words of `smi check`.
fn check_line<'a>(given: &ArgMatches<'a>) -> Option<CheckLine<'a>> {
    Some(CheckLine {
        tree: given.get_str("TREE")?,
        lints: given.get_flag("lint"),
    })
}

/// Makes the form of `smi rows`.
fn rows_command<'a>(alloc: Global) -> Result<Command<'a>, Error> {
    with_word(alloc, Command::new(alloc, "rows"), "STORE")
}

/// Adds a word that has to be there to a form.
fn with_word<'a>(alloc: Global, form: Command<'a>, name: &'a str) -> Result<Command<'a>, Error> {
    Ok(form.arg(Arg::new(alloc, name).required(true))?)
}

/// Makes the form of `smi sim`. `schedule_of` checks what goes together.
fn sim_command<'a>(alloc: Global) -> Result<Command<'a>, Error> {
    let form = with_word(alloc, Command::new(alloc, "sim"), "TREE")?;
    let form = form.arg(Arg::new(alloc, "SCHEDULE"))?;
    let form = form.arg(Arg::new(alloc, "N").long("seed"))?;
    let form = form.arg(Arg::new(alloc, "M").long("steps"))?;
    Ok(form.arg(flag(alloc, "settle"))?)
}

/// Makes an option that has no value.
fn flag<'a>(alloc: Global, name: &'a str) -> Arg<'a> {
    Arg::new(alloc, name).long(name).action(ArgAction::SetTrue)
}

/// Returns the words of `smi sim`, or None if they name no schedule or two.
fn sim_line<'a>(given: &ArgMatches<'a>) -> Option<SimLine<'a>> {
    Some(SimLine {
        tree: given.get_str("TREE")?,
        schedule: schedule_of(given)?,
        settles: given.get_flag("settle"),
    })
}

/// Makes the form of `smi audit`.
fn audit_command<'a>(alloc: Global) -> Result<Command<'a>, Error> {
    let form = with_word(alloc, Command::new(alloc, "audit"), "TREE")?;
    let files = Arg::new(alloc, "FILE").required(true).num_args(1..);
    let form = form.arg(files)?;
    Ok(form.arg(flag(alloc, "trace"))?)
}

/// Returns the words of `smi audit`.
fn audit_line<'a>(given: &ArgMatches<'a>) -> Option<AuditLine<'a>> {
    Some(AuditLine {
        tree: given.get_str("TREE")?,
        traces: given.get_flag("trace"),
    })
}

/// Returns where the schedule of a simulation comes from: a file, or a seed and a number of items. None for anything
/// else.
fn schedule_of<'a>(given: &ArgMatches<'a>) -> Option<Schedule<'a>> {
    match (
        given.get_str("SCHEDULE"),
        given.get_str("N"),
        given.get_str("M"),
    ) {
        (Some(path), None, None) => Some(Schedule::File(path)),
        (None, Some(seed), Some(steps)) => Some(Schedule::Drawn {
            seed: seed_of(seed)?,
            steps: number_within(0, MOST_STEPS, steps.as_bytes())?,
        }),
        _ => None,
    }
}

/// Returns the seed that a word says, or None if it is not digits alone or more than 2^64 - 1.
fn seed_of(word: &str) -> Option<u64> {
    if word.as_bytes().iter().all(u8::is_ascii_digit) {
        word.parse().ok()
    } else {
        None
    }
}

/// Makes the form that `smi node` and `smi screen` have in common.
fn station_command<'a>(alloc: Global, name: &'a str) -> Result<Command<'a>, Error> {
    let form = with_word(alloc, Command::new(alloc, name), "TREE")?;
    let form = with_word(alloc, form, "STATION")?;
    let form = with_word(alloc, form, "STORE")?;
    let form = form.arg(Arg::new(alloc, "T").long("turns"))?;
    let form = form.arg(flag(alloc, "endless"))?;
    let form = form.arg(flag(alloc, "accept-older"))?;
    let form = form.arg(flag(alloc, "open"))?;
    let form = form.arg(flag(alloc, "service"))?;
    Ok(form.arg(Arg::new(alloc, "SOURCES").long("sources"))?)
}

/// Makes the form of `smi node`.
fn node_command<'a>(alloc: Global) -> Result<Command<'a>, Error> {
    let form = station_command(alloc, "node")?;
    let console = Arg::new(alloc, "C").long("console");
    let form = form.arg(console.action(ArgAction::Append))?;
    let form = form.arg(Arg::new(alloc, "FOLDER").long("journal"))?;
    Ok(form.arg(flag(alloc, "journal-sync"))?)
}

/// Makes the form of `smi screen`.
fn screen_command<'a>(alloc: Global) -> Result<Command<'a>, Error> {
    let form = station_command(alloc, "screen")?;
    let form = form.arg(Arg::new(alloc, "ADDRESS").long("http").required(true))?;
    let form = form.arg(Arg::new(alloc, "NAME").long("host"))?;
    let form = form.arg(Arg::new(alloc, "ORIGIN").long("origin"))?;
    let form = form.arg(Arg::new(alloc, "STYLE").long("style"))?;
    let form = form.arg(Arg::new(alloc, "TOKEN").long("token"))?;
    let form = form.arg(Arg::new(alloc, "HISTORY").long("history"))?;
    let form = form.arg(Arg::new(alloc, "DAYS").long("history-days"))?;
    Ok(form.arg(Arg::new(alloc, "PLACE").long("orders"))?)
}

/// Returns true if a word is digits alone, and at least one.
fn is_digits(word: &str) -> bool {
    !word.is_empty() && word.as_bytes().iter().all(u8::is_ascii_digit)
}

/// Returns true if a word reads as a host and a port, and as no path: it has no slash, and ends in a colon and digits.
fn is_like_an_address(word: &str) -> bool {
    match word.rsplit_once(':') {
        Some((host, port)) => !host.contains('/') && is_digits(port),
        None => false,
    }
}

/// Returns the address of a console that a word names: over TCP, or the path of a socket. None if it reads as a host
/// and a port and is no address, because nobody who types `localhost:7001` means a file of that name.
fn console_place(word: &str) -> Option<ConsolePlace<'_>> {
    match word.parse::<SocketAddrV4>() {
        Ok(address) => Some(ConsolePlace::Address(SocketAddr::V4(address))),
        Err(_) if is_like_an_address(word) => None,
        Err(_) => Some(ConsolePlace::Path(word)),
    }
}

/// Returns the address at which a node listens for consoles that a word names. None also if other machines reach it and
/// the node is not open to them (`--open`): who reaches a console may order, and nobody is asked who he is.
fn listening_place(word: &str, is_open: bool) -> Option<ConsolePlace<'_>> {
    match console_place(word)? {
        ConsolePlace::Address(address) if !is_open && !address.ip().is_loopback() => None,
        place => Some(place),
    }
}

/// Returns the address and the name of a screen. None if the address is none, if a screen that is open to other
/// machines (`--open`) has no name, or if one that is not has a name or an address that they reach.
fn place_of<'a>(
    address: &str,
    name: Option<&'a str>,
    is_open: bool,
) -> Option<(SocketAddr, Option<&'a str>)> {
    let http = SocketAddr::V4(address.parse::<SocketAddrV4>().ok()?);
    if name.is_some() == is_open && (is_open || http.ip().is_loopback()) {
        Some((http, name))
    } else {
        None
    }
}

/// Returns true if browsers write this byte in a host or in the port after it. They write no capital letters.
fn is_of_host(byte: u8) -> bool {
    byte.is_ascii_lowercase() || byte.is_ascii_digit() || matches!(byte, b'.' | b'-' | b':')
}

/// Returns the word if it is an origin as browsers write them: a scheme of the web and a host. None for any other word,
/// because no browser would ever send it.
fn origin_of(word: &str) -> Option<&str> {
    let (scheme, host) = word.split_once("://")?;
    let is_origin = matches!(scheme, "http" | "https")
        && !host.is_empty()
        && host.as_bytes().iter().all(|byte| is_of_host(*byte));
    if is_origin { Some(word) } else { None }
}

/// Returns for how many days a history is kept: `Some(None)` if no word says so, None if the word is no number of days.
fn days_of(word: Option<&str>) -> Option<Option<u64>> {
    match word {
        Some(word) => Some(Some(number_within(1, MOST_DAYS, word.as_bytes())?)),
        None => Some(None),
    }
}

/// Returns the file of a token: `Some(None)` if no word names one, None if one is named for a screen that takes no
/// orders.
fn token_of(word: Option<&str>, takes_orders: bool) -> Option<Option<&str>> {
    match word {
        Some(_) if !takes_orders => None,
        word => Some(word),
    }
}

/// Returns the words of `smi screen`, or None if a value is none of its kind.
fn screen_line<'a>(given: &ArgMatches<'a>) -> Option<ScreenLine<'a>> {
    let address = given.get_str("ADDRESS")?;
    let (http, name) = place_of(address, given.get_str("NAME"), given.get_flag("open"))?;
    let origin = match given.get_str("ORIGIN") {
        Some(word) => Some(origin_of(word)?),
        None => None,
    };
    let orders = match given.get_str("PLACE") {
        Some(word) => Some(console_place(word)?),
        None => None,
    };
    Some(ScreenLine {
        tree: given.get_str("TREE")?,
        station: given.get_str("STATION")?,
        store: given.get_str("STORE")?,
        http,
        name,
        origin,
        style: given.get_str("STYLE"),
        sources: sources_of(given.get_str("SOURCES"))?,
        token: token_of(given.get_str("TOKEN"), orders.is_some())?,
        orders,
        history: given.get_str("HISTORY"),
        history_days: days_of(given.get_str("DAYS"))?,
        turns: turns_of(given.get_str("T"), given.get_flag("endless"))?,
        accepts_older: given.get_flag("accept-older"),
        is_service: given.get_flag("service"),
    })
}

/// Returns the words of `smi node`, or None if a value is none of its kind.
fn node_line<'a>(given: &ArgMatches<'a>) -> Option<NodeLine<'a>> {
    let is_open = given.get_flag("open");
    let (console, second_console) = consoles_of(given.get_strs("C"), is_open)?;
    Some(NodeLine {
        tree: given.get_str("TREE")?,
        station: given.get_str("STATION")?,
        store: given.get_str("STORE")?,
        turns: turns_of(given.get_str("T"), given.get_flag("endless"))?,
        console,
        second_console,
        accepts_older: given.get_flag("accept-older"),
        journal: journal_line(given.get_str("FOLDER"), given.get_flag("journal-sync"))?,
        sources: sources_of(given.get_str("SOURCES"))?,
        is_service: given.get_flag("service"),
    })
}

/// Returns from where the datagrams of a station have to come: from the host of their sender if no word says so, None
/// if the word is none of the three.
fn sources_of(word: Option<&str>) -> Option<Sources> {
    match word {
        None | Some("host") => Some(Sources::Host),
        Some("exact") => Some(Sources::Exact),
        Some("any") => Some(Sources::Any),
        Some(_) => None,
    }
}

/// Returns how a journal is written: `Some(None)` if none is asked for, None if it is to be synced without a folder.
fn journal_line(folder: Option<&str>, is_synced: bool) -> Option<Option<JournalOptions<'_>>> {
    match folder {
        Some(folder) => Some(Some(JournalOptions { folder, is_synced })),
        None if is_synced => None,
        None => Some(None),
    }
}

/// The two addresses at which a node may listen for consoles.
type Places<'a> = (Option<ConsolePlace<'a>>, Option<ConsolePlace<'a>>);

/// Returns the addresses at which a node listens for consoles. None if there are more than two, or if one is none.
fn consoles_of<'a>(words: Option<&[&'a str]>, is_open: bool) -> Option<Places<'a>> {
    match words {
        None => Some((None, None)),
        Some([one]) => Some((Some(listening_place(one, is_open)?), None)),
        Some([one, other]) => Some((
            Some(listening_place(one, is_open)?),
            Some(listening_place(other, is_open)?),
        )),
        Some(_) => None,
    }
}

/// Returns how many turns a station is run: as many as a word says, `Some(None)` without end, and `MOST_TURNS` if the
/// line says neither. None if it says both, or if the word is no such number.
fn turns_of(word: Option<&str>, is_endless: bool) -> Option<Option<u32>> {
    match (word, is_endless) {
        (Some(word), false) => {
            let turns = number_within(1, u64::from(MOST_TURNS), word.as_bytes())?;
            Some(Some(u32::try_from(turns).ok()?))
        }
        (None, true) => Some(None),
        (None, false) => Some(Some(MOST_TURNS)),
        (Some(_), true) => None,
    }
}
