// A paper roll composed with tasks: action a prints, which may use up the paper, and b loads.
use crate::compose::compose;
use crate::composed::ComposedBoard;
use board::board::Board;
use board::table::{Row, Table};
use ltlf::reader::read_task;
use ltlf::task::Task;
use service::file::{CommunityFile, read_services};
use std::alloc::Global;
use wire::refusal::{Cause, Refusal};

const ROLL: [u8; 9] = [1, 2, 2, 0, 1, 3, 0, 0, 1];

// Composes the task that the text holds with the paper roll.
fn with_roll(
    heap: Global,
    actions: u8,
    text: &[u8],
    board: &mut ComposedBoard,
    table: &mut Table,
) -> Result<(), Refusal> {
    let mut task = Task::zero(heap);
    read_task(actions, text, &mut task)?;
    let mut file = CommunityFile::zero();
    read_services(&ROLL, &mut file)?;
    compose(heap, &task, &file, board, table)
}

// Print; if the paper is used up, load.
#[test]
fn prints_once(rt: HostRuntime) {
    let mut board = ComposedBoard::zero(rt.alloc());
    let mut table = Table::empty(rt.alloc());
    assert_eq!(rt;
        with_roll(rt.alloc(), 2, b"F a", &mut board, &mut table),
        Ok(())
    );
    assert_eq!(rt; (board.positions(), board.choices()), (3, 2));
    assert!(rt; !board.is_done(0) && board.is_done(1) && !board.is_done(2));
    assert_eq!(rt; board.outcomes(0, 0), [1, 2].as_slice());
    assert_eq!(rt; board.outcomes(2, 1), [1].as_slice());
    assert!(rt; board.outcomes(0, 1).is_empty() && board.outcomes(1, 0).is_empty());
    let row = |position, rank, choice| Row {
        position,
        rank,
        choice,
    };
    let rows = [row(0, 2, 0), row(1, 0, 0), row(2, 1, 1)];
    assert_eq!(rt; table.rows(), rows.as_slice());
}

// Nobody can force that the paper is used up, so that it can be loaded.
#[test]
fn loading_is_not_forced(rt: HostRuntime) {
    let mut board = ComposedBoard::zero(rt.alloc());
    let mut table = Table::empty(rt.alloc());
    let r = with_roll(rt.alloc(), 2, b"F b", &mut board, &mut table);
    assert_eq!(rt; r, Err(Cause::NoOrchestrator.at(0)));
    assert_eq!(rt;
        (board.positions(), board.choices(), table.rows().len()),
        (1, 1, 0)
    );
}

#[test]
fn actions_differ(rt: HostRuntime) {
    let mut board = ComposedBoard::zero(rt.alloc());
    let mut table = Table::empty(rt.alloc());
    let r = with_roll(rt.alloc(), 3, b"F a", &mut board, &mut table);
    assert_eq!(rt; r, Err(Cause::ActionsDiffer.at(0)));
}
