// Charts that are read and solved.
use crate::chart::Chart;
use crate::chart::reader::read_chart;
use crate::solve::solve;
use crate::table::{Row, Table};
use std::test::Fail;
use wire::refusal::Cause;

#[test]
fn solves_the_paper_roll(rt: HostRuntime) -> Result<(), Fail> {
    let mut chart = Chart::zero(rt.alloc());
    read_chart(&[3, 2, 0, 2, 1, 2, 0, 1, 0, 0, 0, 0, 1, 1], &mut chart)?;
    let mut table = Table::empty(rt.alloc());
    solve(&chart, &mut table)?;
    assert_eq!(rt;
        table.rows(),
        [
            Row {
                position: 0,
                rank: 2,
                choice: 0,
            },
            Row {
                position: 1,
                rank: 0,
                choice: 0,
            },
            Row {
                position: 2,
                rank: 1,
                choice: 1,
            },
        ]
        .as_slice()
    );
    Ok(())
}

#[test]
fn refuses_a_hopeless_board(rt: HostRuntime) -> Result<(), Fail> {
    let mut chart = Chart::zero(rt.alloc());
    read_chart(&[2, 1, 0, 2, 0, 1, 1, 0], &mut chart)?;
    let mut table = Table::empty(rt.alloc());
    assert_eq!(rt; solve(&chart, &mut table), Err(Cause::NoOrchestrator.at(0)));
    assert!(rt; table.rows().is_empty());
    Ok(())
}

#[test]
fn refuses_outcomes_that_do_not_ascend(rt: HostRuntime) {
    let mut chart = Chart::zero(rt.alloc());
    assert_eq!(rt;
        read_chart(&[3, 1, 0, 2, 2, 1, 1, 0, 1, 0], &mut chart),
        Err(Cause::OutsideField.at(5))
    );
}
