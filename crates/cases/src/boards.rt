// Charts, solving, auditing.
use crate::failure::Failure;
use crate::words;
use board::board::Board;
use board::chart::Chart;
use board::chart::reader::read_chart;
use board::solve::solve;
use board::table::Table;
use table::audited::{AuditedTable, audit};
use table::write::write;

// Longer than the table of any chart.
const BUFFER: usize = 2048;

// The chart that a word spells.
pub(crate) fn chart_of(rt: &HostRuntime, word: &str) -> Result<Chart, Failure> {
    let bytes = words::bytes(rt.alloc(), word)?;
    let mut chart = Chart::zero(rt.alloc());
    read_chart(bytes.as_slice(), &mut chart)?;
    Ok(chart)
}

// The table that a word spells, audited on the chart.
pub(crate) fn table_of(
    rt: &HostRuntime,
    word: &str,
    chart: &Chart,
) -> Result<AuditedTable, Failure> {
    let bytes = words::bytes(rt.alloc(), word)?;
    Ok(audit(rt.alloc(), bytes.as_slice(), chart)?)
}

// chart BYTES
pub(crate) fn chart(rt: &HostRuntime, word: &str) -> Result<(), Failure> {
    let chart = chart_of(rt, word)?;
    println!(rt;
        "positions {} choices {}",
        chart.positions(),
        chart.choices()
    )?;
    Ok(())
}

// solve CHART
pub(crate) fn solution(rt: &HostRuntime, word: &str) -> Result<(), Failure> {
    let chart = chart_of(rt, word)?;
    let mut table = Table::empty(rt.alloc());
    solve(&chart, &mut table)?;
    let mut bytes = [0; BUFFER];
    let length = write(&table, &mut bytes)?;
    for byte in bytes.iter().take(length) {
        print!(rt; "{byte:02x}")?;
    }
    println!(rt; "")?;
    Ok(())
}

// audit CHART TABLE
pub(crate) fn verdict(rt: &HostRuntime, word: &str, table: &str) -> Result<(), Failure> {
    let chart = chart_of(rt, word)?;
    let accepted = table_of(rt, table, &chart)?;
    println!(rt; "accepted rows {}", accepted.rows().len())?;
    Ok(())
}
