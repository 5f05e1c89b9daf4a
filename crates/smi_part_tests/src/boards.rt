//! Which states a view accepts, and what the glances of a board read.

ghost use Rattle.std.specs.Prelude.{◌≡◌, ◌≤◌, length};

use smi_grant::{Shown, Version};
use smi_view::{Acceptance, Board, BoardId, Glance, NewBoard, NoReading, View, open_board};
use std::alloc::{AllocError, Global};
use std::marker::Brand;
use std::sync::Wait;
use std::test::Fail;

mod told;

fn shown(object: u16, boot: u32, sequence: u32, state: u16) -> Shown
    ensures { result.object ≡ object }
{
    Shown {
        object,
        version: Version { boot, sequence },
        state,
    }
}

/// Returns whether states of object 2 are accepted as they have to be, and what was accepted last meanwhile.
fn accepted_in_turn(view: &mut View) -> [bool; 11]
    requires { 2 ≤ length view.old.table }
{
    [
        view.last(2) == None,
        view.accept(1, shown(2, 1, 1, 2)) == Acceptance::OtherBoot,
        view.last(2) == None,
        view.accept(2, shown(2, 1, 1, 2)) == Acceptance::Accepted,
        view.accept(2, shown(2, 1, 1, 2)) == Acceptance::NotNewer,
        view.accept(2, shown(2, 1, 0, 1)) == Acceptance::NotNewer,
        view.last(2) == Some(shown(2, 1, 1, 2)),
        view.accept(2, shown(2, 2, 0, 1)) == Acceptance::Accepted,
        view.last(2) == Some(shown(2, 2, 0, 1)),
        view.last(3) == None,
        view.last(0) == None,
    ]
}

#[test]
fn newer_versions_of_this_boot(rt: HostRuntime) -> Result<(), Fail> {
    let mut view = View::new(rt.alloc(), 3, 2)?;
    let found = accepted_in_turn(&mut view);
    assert_eq!(rt; found, [true; 11]);
    Ok(())
}

type Reading = Result<Option<Shown>, NoReading>;

fn put_and_publish<J: BoardId, R: Wait>(
    rt: &R,
    board: &mut Board<J>,
    rows: &[Shown],
) -> Result<(), AllocError> {
    for row in rows {
        board.put(*row)?;
    }
    board.publish(rt)
}

/// Returns what two glances read, before and after they are told, and what is only put; and whether the board, and
/// what it had told before the last publication, met them.
fn shown_and_read<J: BoardId, R: Wait>(
    rt: &R,
    board: &mut Board<J>,
    one: &mut Glance<J>,
    other: &mut Glance<J>,
) -> Result<([Reading; 9], [bool; 6]), AllocError> {
    let before = one.read(2);
    let met_before = board.meet(one);
    put_and_publish(rt, board, &[shown(2, 1, 1, 2), shown(3, 1, 1, 4)])?;
    one.learn(board.tell());
    let told = [one.read(2), one.read(3), one.read(1)];
    board.put(shown(2, 1, 2, 3))?;
    let pending = one.read(2);
    let news = board.tell();
    let met_then = [board.meet(one), news.meet(one)];
    board.publish(rt)?;
    one.learn(board.tell());
    let again = [one.read(2), one.read(3)];
    let untold = [other.read(2), other.read(65535)];
    let met = [
        met_before,
        met_then[0],
        met_then[1],
        board.meet(one),
        board.meet(other),
        news.meet(one),
    ];
    Ok((
        [
            before, told[0], told[1], told[2], pending, again[0], again[1], untold[0], untold[1],
        ],
        met,
    ))
}

/// Returns the readings of an open board with what met, and one reading of a board that is closed.
fn over_board<J: BoardId, R: Wait>(
    rt: &R,
    alloc: Global,
    blank: NewBoard,
) -> Result<(([Reading; 9], [bool; 6]), Reading), Fail>
    requires { blank.seen.book ≡ J.book }
{
    let (mut board, mut glances) = open_board::<J, R>(rt, alloc, blank, 2)?;
    let (other, one) = (glances.pop(), glances.pop());
    let (Some(mut one), Some(mut other)) = (one, other) else {
        let _ = board.close(rt);
        return Err("two glances were not made")?;
    };
    let found = shown_and_read(rt, &mut board, &mut one, &mut other);
    let _ = board.close(rt);
    Ok((found?, one.read(2)))
}

#[test]
fn what_was_put_is_read_once_it_is_published(rt: HostRuntime) -> Result<(), Fail> {
    let ((found, met), closed) = over_board::<Brand, _>(&rt, rt.alloc(), NewBoard::new())?;
    // What was told before a publication has less than what is seen after it.
    assert!(rt; met == [true, true, true, true, true, false]);
    let wanted = [
        Ok(None),
        Ok(Some(shown(2, 1, 1, 2))),
        Ok(Some(shown(3, 1, 1, 4))),
        Ok(None),
        Ok(Some(shown(2, 1, 1, 2))),
        Ok(Some(shown(2, 1, 2, 3))),
        Ok(Some(shown(3, 1, 1, 4))),
        Ok(Some(shown(2, 1, 2, 3))),
        Ok(None),
    ];
    assert!(rt; found == wanted);
    assert_eq!(rt; closed, Err(NoReading));
    Ok(())
}

/// As many objects as a tree may have, and as many glances as a station has operators.
const OBJECTS: u16 = 640;

const GLANCES: usize = 8;

/// Puts a row of each object and publishes them, and returns how many readings of all glances are of these rows.
fn readings_of_all<J: BoardId, R: Wait>(
    rt: &R,
    board: &mut Board<J>,
    glances: &mut [Glance<J>],
    sequence: u32,
) -> Result<usize, AllocError> {
    for object in 0..OBJECTS {
        board.put(shown(object + 1, 4_000_000_000, sequence, 64))?;
    }
    board.publish(rt)?;
    let mut count: usize = 0;
    for glance in glances.iter_mut() {
        for object in 0..OBJECTS {
            let row = shown(object + 1, 4_000_000_000, sequence, 64);
            count = count.wrapping_add(usize::from(glance.read(object + 1) == Ok(Some(row))));
        }
    }
    Ok(count)
}

/// Returns how many readings of all glances are of what was published last, up to the last sequence.
fn readings_in_turn<J: BoardId, R: Wait>(
    rt: &R,
    board: &mut Board<J>,
    glances: &mut [Glance<J>],
) -> Result<[usize; 3], AllocError> {
    Ok([
        readings_of_all(rt, board, glances, 1)?,
        readings_of_all(rt, board, glances, 65_536)?,
        readings_of_all(rt, board, glances, 4_000_000_000)?,
    ])
}

fn over_full_board<J: BoardId, R: Wait>(
    rt: &R,
    alloc: Global,
    blank: NewBoard,
) -> Result<[usize; 3], Fail>
    requires { blank.seen.book ≡ J.book }
{
    let (mut board, mut glances) = open_board::<J, R>(rt, alloc, blank, GLANCES)?;
    let counts = readings_in_turn(rt, &mut board, glances.as_mut_slice());
    let _ = board.close(rt);
    Ok(counts?)
}

#[test]
fn eight_glances_read_all_objects(rt: HostRuntime) -> Result<(), Fail> {
    let counts = over_full_board::<Brand, _>(&rt, rt.alloc(), NewBoard::new())?;
    assert_eq!(rt; counts, [8 * 640; 3]);
    Ok(())
}
