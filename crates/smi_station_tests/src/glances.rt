//! What was put, published and told is read in a thread that is started afterwards.

ghost use Rattle.std.specs.Prelude.{◌≡◌};

use smi_grant::{Shown, Version};
use smi_view::{Board, BoardId, Glance, NewBoard, News, NoReading, open_board};
use std::alloc::{AllocError, Global};
use std::marker::Brand;
use std::sync::Wait;
use std::test::Fail;
use std::thread::{Threads, join};

type GlanceReading = Result<Option<Shown>, NoReading>;

const ROW: Shown = Shown {
    object: 2,
    version: Version {
        boot: 1,
        sequence: 1,
    },
    state: 2,
};

fn learnt<J: BoardId>(glance: Glance<J>, news: News<J>) -> GlanceReading {
    let mut glance = glance;
    glance.learn(news);
    glance.read(2)
}

fn in_thread<J: BoardId + Send + Sync, R: Threads + Sync>(
    rt: &R,
    glance: Glance<J>,
    news: News<J>,
) -> GlanceReading {
    let (reading, _) = join(rt, move || -> GlanceReading { learnt(glance, news) }, || ());
    reading
}

fn published<J: BoardId, R: Wait>(rt: &R, board: &mut Board<J>) -> Result<News<J>, AllocError> {
    board.put(ROW)?;
    board.publish(rt)?;
    Ok(board.tell())
}

fn read<J: BoardId + Send + Sync, R: Threads + Wait + Sync>(
    rt: &R,
    board: &mut Board<J>,
    glances: Vec<Glance<J>>,
) -> Result<GlanceReading, Fail> {
    let mut glances = glances;
    let news = published(rt, board)?;
    match glances.pop() {
        Some(glance) => Ok(in_thread(rt, glance, news)),
        None => Err(Fail::from("no glance was made")),
    }
}

fn over_board<J: BoardId + Send + Sync, R: Threads + Wait + Sync>(
    rt: &R,
    alloc: Global,
    blank: NewBoard,
) -> Result<GlanceReading, Fail>
    requires { blank.seen.book ≡ J.book }
{
    let (mut board, glances) = open_board::<J, R>(rt, alloc, blank, 1)?;
    let reading = read(rt, &mut board, glances);
    let _ = board.close(rt);
    reading
}

#[test]
fn what_was_told_is_read_in_a_later_thread(rt: HostRuntime) -> Result<(), Fail> {
    let reading = over_board::<Brand, _>(&rt, rt.alloc(), NewBoard::new())?;
    assert_eq!(rt; reading, Ok(Some(ROW)));
    Ok(())
}
