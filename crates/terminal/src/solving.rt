// Solves the repair chart of the demonstration, prints the table and runs it.
use crate::refused;
use crate::running::run_table;
use board::board::Board;
use board::chart::Chart;
use board::chart::reader::read_chart;
use board::solve::solve;
use board::table::{Row, Table};
use std::{fs, io};

fn print_row(rt: &HostRuntime, row: Row) -> io::Result<()> {
    if row.rank == 0 {
        println!(rt; "position {}: done", row.position)
    } else {
        println!(rt;
            "position {}: choice {}, done within {}",
            row.position, row.choice, row.rank
        )
    }
}

// Reads the chart, solves it, prints each row of its table and runs the table.
pub(crate) fn solve_chart(rt: &HostRuntime) -> anyhow::Result<()> {
    let bytes = fs::read(rt, "chart.bin")?;
    let mut chart = Chart::zero(rt.alloc());
    if let Err(refusal) = read_chart(bytes.as_slice(), &mut chart) {
        return refused(rt, "chart", refusal);
    }
    println!(rt;
        "a chart of {} positions and {} choices",
        chart.positions(),
        chart.choices()
    )?;
    let mut table = Table::empty(rt.alloc());
    if let Err(refusal) = solve(&chart, &mut table) {
        return refused(rt, "solve", refusal);
    }
    for row in table.rows() {
        print_row(rt, *row)?;
    }
    run_table(rt, &chart, &table)
}
