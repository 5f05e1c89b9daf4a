//! Runs `smi screen`: reads its tree file, builds its page, opens its store, and has `smi_screen` run it.
//!
//! `commands` calls [`run_screen`]. The page is the constant of `page`, then the script of a style file (`style`), and
//! then, if the screen has a console for orders, the key and the parts that give orders (`with_orders`).
//! docs/FORMATS.md, "The screen" and "Orders from the page", says what a browser and the console see of it.

ghost use Rattle.std.specs.Prelude.{◌≡◌, IfOk};

use crate::line::{ConsolePlace, ScreenLine};
use crate::node::{Opening, open_store};
use crate::style::style_script;
use crate::token::token_in;
use crate::tree::{read_bytes, read_marked, read_tree};
use crate::with_orders::{page_bytes, page_with_orders, page_with_style};
use crate::words::{Words, bytes_of};
use bytes::Bytes;
use smi_commands::status::{Status, no_memory, read_fault, wrong_line};
use smi_console::{addresses, link_fault, opening_fault, print_fault, stopped};
use smi_disks::{Stores, TreeMark};
use smi_screen::{ConsoleAddress, Ended, OrderSetup, ScreenSetup, hosts_of, run};
use smi_tree::Tree;
use std::alloc::{AllocError, Global};
use std::hash::RandomState;
use std::io::Write;
use std::net::{Net, TcpListener, TcpStream};
use std::random::RandomSource;
use std::rt::Files;
use std::sync::Wait;
use std::time::Clock;

/// Writes the fault with which a screen ended, if any. Returns the exit status.
fn report_end<F: Write>(ended: Ended, faults: &mut F) -> Status {
    match ended {
        Ended::Turns => Status::Done,
        Ended::Stopped => stopped(faults),
        Ended::Link => link_fault(faults),
        Ended::Listener => print_fault("screen fault", faults),
        Ended::History => print_fault("history fault", faults),
        Ended::Memory => no_memory(faults),
        Ended::NoOperator => wrong_line(faults),
        Ended::Opening(fault) => opening_fault(fault, faults),
    }
}

/// How many random bytes a key is made of: 128 bits, which nobody guesses.
const KEY_BYTES: usize = 16;

/// What a page has to send as its `Authorization`, after `Bearer`, to give orders.
#[derive(Drop)]
enum PageKey {
    /// These random bytes, in hexadecimal, which are in the page.
    Random([u8; KEY_BYTES]),
    /// A token, which is not in the page: it asks people for it.
    Token(Vec<u8>),
}

/// Returns the value of the `Authorization` of this key. Fails if memory was refused.
fn authorization_of(alloc: Global, key: &PageKey) -> Result<Vec<u8>, AllocError> {
    let mut text = Vec::from_slice(alloc, b"Bearer ")?;
    match key {
        PageKey::Random(bytes) => {
            for byte in bytes {
                write!(text, "{byte:02x}").map_err(|_| AllocError)?;
            }
        }
        PageKey::Token(token) => text.extend_from_slice(token.as_slice())?,
    }
    Ok(text)
}

/// Returns what the page has of the value: all of it if the key is random, and nothing if it is a token.
fn key_in_page<'a>(key: &PageKey, authorization: &'a [u8]) -> &'a [u8] {
    match key {
        PageKey::Random(_) => authorization,
        PageKey::Token(_) => &[],
    }
}

/// Returns the text as bytes that all connections share. Fails if memory was refused.
fn shared_bytes(text: Vec<u8>) -> Result<Bytes, AllocError> {
    match Bytes::from_vec(text) {
        Ok(bytes) => Ok(bytes),
        Err(_) => Err(AllocError),
    }
}

/// Returns the address of a console that a word of the line names. Fails if memory was refused.
fn console_address_of(
    alloc: Global,
    place: ConsolePlace<'_>,
) -> Result<ConsoleAddress, AllocError> {
    match place {
        ConsolePlace::Address(address) => Ok(ConsoleAddress::Address(address)),
        ConsolePlace::Path(path) => Ok(ConsoleAddress::Path(String::from_str(alloc, path)?)),
    }
}

/// A page that may give orders, and what the screen needs to relay them.
#[derive(Drop)]
struct KeyedPage {
    /// The whole page.
    page: Bytes,
    /// The `Authorization` that has to come with each order.
    key: Bytes,
    /// The origin of the page at a proxy, if there is one.
    origin: Option<Bytes>,
    /// The console to which orders go.
    console: ConsoleAddress,
}

/// Makes a page that may give orders to this console by this key, from this origin too if there is one. Fails if memory
/// was refused.
fn page_with_key(
    alloc: Global,
    page: &[u8],
    key: &PageKey,
    origin: Option<&str>,
    place: ConsolePlace<'_>,
) -> Result<KeyedPage, AllocError> {
    let authorization = authorization_of(alloc, key)?;
    let page = page_with_orders(alloc, page, key_in_page(key, authorization.as_slice()))?;
    Ok(KeyedPage {
        page: shared_bytes(page)?,
        key: shared_bytes(authorization)?,
        origin: match origin {
            Some(origin) => Some(shared_bytes(Vec::from_slice(alloc, origin.as_bytes())?)?),
            None => None,
        },
        console: console_address_of(alloc, place)?,
    })
}

/// Sets this page as that of a screen, which then relays orders of operators of this tree.
fn set_order_page(setup: &mut ScreenSetup, keyed: KeyedPage, tree: Tree) {
    let KeyedPage {
        page,
        key,
        origin,
        console,
    } = keyed;
    setup.page = page;
    setup.orders = Some(OrderSetup {
        console,
        key,
        origin,
        tree,
    });
}

/// Returns random bytes, which nobody can guess. If the system has none, writes the fault and fails with the exit
/// status.
fn random_bytes<H: RandomSource, F: Write>(
    host: &H,
    faults: &mut F,
) -> Result<[u8; KEY_BYTES], Status> {
    let mut bytes = [0u8; KEY_BYTES];
    match host.fill_bytes(&mut bytes) {
        Ok(()) => Ok(bytes),
        Err(_) => Err(read_fault(faults)),
    }
}

/// Returns the key that a page has to send: the token of the file that the line names, or random bytes. If there is
/// none, writes the fault and fails with the exit status.
fn key_of<H: Files + RandomSource + AllocGlobal, F: Write>(
    host: &H,
    words: &Words,
    line: ScreenLine<'_>,
    faults: &mut F,
) -> Result<PageKey, Status> {
    match line.token {
        Some(path) => {
            let bytes = read_bytes(host, bytes_of(words, path), faults)?;
            Ok(PageKey::Token(token_in(host.alloc(), bytes.as_slice(), faults)?))
        }
        None => Ok(PageKey::Random(random_bytes(host, faults)?)),
    }
}

/// Makes the page of a screen one that gives orders to this console. The tree is read a second time, because the screen
/// keeps one for the orders. If that fails, writes the fault and fails with the exit status.
fn set_up_orders<H: Files + RandomSource + AllocGlobal, F: Write>(
    host: &H,
    words: &Words,
    line: ScreenLine<'_>,
    place: ConsolePlace<'_>,
    setup: &mut ScreenSetup,
    faults: &mut F,
) -> Result<(), Status> {
    let key = key_of(host, words, line, faults)?;
    let tree = read_tree(host, bytes_of(words, line.tree), faults)?;
    let page = setup.page.as_slice();
    match page_with_key(host.alloc(), page, &key, line.origin, place) {
        Ok(keyed) => {
            set_order_page(setup, keyed, tree);
            Ok(())
        }
        Err(_) => Err(no_memory(faults)),
    }
}

/// Returns the page of a screen, and after it the script of its style file, if it has one. If the file is refused,
/// writes the fault and fails with the exit status.
fn page_of<H: Files + AllocGlobal, F: Write>(
    host: &H,
    words: &Words,
    tree: &Tree,
    line: ScreenLine<'_>,
    faults: &mut F,
) -> Result<Bytes, Status> {
    let Some(path) = line.style else {
        return Ok(Bytes::from_static(page_bytes()));
    };
    let bytes = read_bytes(host, bytes_of(words, path), faults)?;
    let style = style_script(host.alloc(), tree, bytes.as_slice(), faults)?;
    match page_with_style(host.alloc(), style.as_slice()) {
        Ok(page) => shared_bytes(page).map_err(|_| no_memory(faults)),
        Err(_) => Err(no_memory(faults)),
    }
}

/// Returns the path of the file of a screen's history, or None if its line has none. Fails if memory was refused.
fn history_path(alloc: Global, line: ScreenLine<'_>) -> Result<Option<String>, AllocError> {
    match line.history {
        Some(path) => Ok(Some(String::from_str(alloc, path)?)),
        None => Ok(None),
    }
}

/// Makes what the screen of a station is run with. Its page gives no orders yet. Fails if memory was refused.
fn setup_of(
    alloc: Global,
    tree: &Tree,
    station: u16,
    page: Bytes,
    line: ScreenLine<'_>,
) -> Result<ScreenSetup, AllocError>
    ensures { IfOk result (λ s. s.station ≡ station) }
{
    let peers = addresses(alloc, tree)?;
    Ok(ScreenSetup {
        station,
        peers,
        sources: line.sources,
        http: line.http,
        hosts: hosts_of(alloc, line.http, line.name, line.origin)?,
        page,
        orders: None,
        history: history_path(alloc, line)?,
        history_days: line.history_days,
        turns: line.turns,
    })
}

/// Sets up orders, if the line asks for them, opens the store, and runs the screen. Returns the exit status.
fn open_and_run<
    H: Files
        + Stores
        + Net<Listener = TcpListener, Stream = TcpStream>
        + RandomSource
        + Wait
        + Clock
        + AllocGlobal,
    F: Write,
>(
    host: &H,
    words: &Words,
    tree: &Tree,
    mark: &TreeMark,
    keys: RandomState,
    setup: &mut ScreenSetup,
    line: ScreenLine<'_>,
    faults: &mut F,
) -> Status {
    if let Some(place) = line.orders {
        if let Err(status) = set_up_orders(host, words, line, place, setup, faults) {
            return status;
        }
    }
    let opening = Opening {
        tree,
        mark,
        station: setup.station,
        accepts_older: line.accepts_older,
    };
    match open_store(host, bytes_of(words, line.store), opening, faults) {
        Ok(stable) => {
            let (how, stable) = run(host, tree, keys, setup, stable);
            host.close(stable);
            report_end(how, faults)
        }
        Err(status) => status,
    }
}

/// Makes the page and the setup of the screen of a station, and runs it. Returns the exit status.
fn set_up_and_run<
    H: Files
        + Stores
        + Net<Listener = TcpListener, Stream = TcpStream>
        + RandomSource
        + Wait
        + Clock
        + AllocGlobal,
    F: Write,
>(
    host: &H,
    words: &Words,
    tree: &Tree,
    mark: &TreeMark,
    station: u16,
    line: ScreenLine<'_>,
    faults: &mut F,
) -> Status {
    // Headers of requests are kept under these keys, so that nobody can choose names that are expensive to look up.
    let Ok(keys) = RandomState::new(host) else {
        return read_fault(faults);
    };
    let page = match page_of(host, words, tree, line, faults) {
        Ok(page) => page,
        Err(status) => return status,
    };
    match setup_of(host.alloc(), tree, station, page, line) {
        Ok(setup) => {
            let mut setup = setup;
            open_and_run(host, words, tree, mark, keys, &mut setup, line, faults)
        }
        Err(_) => no_memory(faults),
    }
}

/// Runs a screen as its line says. Returns the exit status.
pub fn run_screen<
    H: Files
        + Stores
        + Net<Listener = TcpListener, Stream = TcpStream>
        + RandomSource
        + Wait
        + Clock
        + AllocGlobal,
    F: Write,
>(host: &H, words: &Words, line: ScreenLine<'_>, faults: &mut F) -> Status {
    let (tree, mark) = match read_marked(host, bytes_of(words, line.tree), faults) {
        Ok(found) => found,
        Err(status) => return status,
    };
    match tree.station_named(line.station.as_bytes()) {
        Some(station) => set_up_and_run(host, words, &tree, &mark, station, line, faults),
        None => wrong_line(faults),
    }
}
