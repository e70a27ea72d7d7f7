// Audits a supplier's table (table.bin) on a repair chart (chart.bin).
#![tactic(auto)]

use board::chart::Chart;
use board::chart::reader::read_chart;
use std::fs;
use table::audited::audit;

fn run(rt: &HostRuntime) -> anyhow::Result<()> {
    let board = fs::read(rt, "chart.bin")?;
    let bytes = fs::read(rt, "table.bin")?;
    let mut chart = Chart::zero(rt.alloc());
    if let Err(refusal) = read_chart(board.as_slice(), &mut chart) {
        println!(rt; "chart {refusal}")?;
        return Ok(());
    }
    match audit(rt.alloc(), bytes.as_slice(), &chart) {
        Ok(table) => {
            // an accepted table has a row of the start
            let rank = table.row(0).map_or(0, |row| row.rank);
            println!(rt; "accepted rows {} rank {rank}", table.rows().len())?;
        }
        Err(refusal) => println!(rt; "{refusal}")?,
    }
    Ok(())
}

fn main(rt: HostRuntime) -> anyhow::Result<()> {
    run(&rt)
}
