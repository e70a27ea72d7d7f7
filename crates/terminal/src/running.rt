// Runs the chart's table against replies that the demonstration holds.
ghost use Rattle.std.specs.Prelude.{◌≡◌, List, IfOk, Ok};
ghost use Rattle.board.specs.Charts.{chart_arena};
ghost use Rattle.run.specs.Run.{spent, step};
ghost use Rattle.table.specs.Audit.{audit_of};

use crate::refused;
use board::board::Board;
use board::chart::Chart;
use board::table::{Row, Table};
use run::event::{Answer, Event};
use run::look::Look;
use run::replay::replay;
use run::run::Run;
use run::slip::Slip;
use std::alloc::Global;
use std::io;
use table::audited::{AuditedTable, audit};
use table::write::write;
use wire::refusal::Refusal;

// The number of the demonstration's run, and the position that each performance is said to reach.
const NUMBER: u16 = 7;

const REPLIES: [u16; 2] = [2, 1];

// Longer than the table of the demonstration.
const BUFFER: usize = 64;

// The table to run: what audit accepted of just these bytes on just this board. A call of its own, so that this can be told and tried.
fn accepted<B: Board>(heap: Global, bytes: &[u8], board: &B) -> Result<AuditedTable, Refusal>
    ensures { IfOk result (λ t. audit_of (B.arena board.now) bytes.now ≡ Ok t.rows.items) }
{
    audit(heap, bytes, board)
}

fn show(rt: &HostRuntime, what: &str, look: Look) -> io::Result<()> {
    println!(rt;
        "{what}: run {} at position {}, {} reports, {}",
        look.number, look.position, look.count, look.phase
    )
}

// Supposes the replies, and shows that the run stands as before.
fn rehearse(
    rt: &HostRuntime,
    run: &mut Run,
    table: &AuditedTable,
    chart: &Chart,
) -> io::Result<()> {
    match run.rehearse(table, chart, &REPLIES) {
        Ok((look, _)) => show(rt, "rehearsed", look)?,
        Err((refusal, entries)) => println!(rt; "rehearsed {entries}: {refusal}")?,
    }
    show(rt, "now", run.look())
}

// Reports the reply with the slip, which comes back where the report is refused. A call of its own, so that its promise can be told and tried.
fn report(run: &mut Run, slip: Slip, chart: &Chart, reply: u16) -> Result<(), (Refusal, Slip)>
    ensures { (rows : List Row) → (result, run.new.rec) ≡ spent slip (step (chart_arena chart.now) rows run.old.rec (Event.Report slip.run reply)) }
{
    run.report(slip, chart, reply)
}

// Delegates, and reports the reply; a refused report gives the slip up.
fn turn(
    rt: &HostRuntime,
    run: &mut Run,
    table: &AuditedTable,
    chart: &Chart,
    reply: u16,
) -> anyhow::Result<()> {
    let (choice, slip) = match run.delegate(table, chart) {
        Ok(given) => given,
        Err(refusal) => return refused(rt, "delegate", refusal),
    };
    if let Err((refusal, slip)) = report(run, slip, chart, reply) {
        if let Err((_, _back)) = run.waive(slip) {
            return Ok(());
        }
        println!(rt; "choice {choice}, report {refusal}")?;
        return Ok(());
    }
    println!(rt; "choice {choice} led to position {reply}")?;
    Ok(())
}

// The same life as a list of events, with a foreign slip and a late look.
fn play_again(rt: &HostRuntime, table: &AuditedTable, chart: &Chart) -> anyhow::Result<()> {
    let events = [
        Event::Delegate,
        Event::Report {
            slip: 8,
            position: 2,
        },
        Event::Report {
            slip: NUMBER,
            position: 2,
        },
        Event::Delegate,
        Event::Report {
            slip: NUMBER,
            position: 1,
        },
        Event::Abandon,
    ];
    match replay(rt.alloc(), table, chart, NUMBER, &events) {
        Ok(played) => {
            for answer in &played.answers {
                if let Answer::Refused { refusal } = answer {
                    println!(rt; "replayed: {refusal}")?;
                }
            }
            show(rt, "replayed", played.look)?;
            Ok(())
        }
        Err(refusal) => refused(rt, "replay", refusal),
    }
}

// Writes the table, audits it and runs it.
pub(crate) fn run_table(rt: &HostRuntime, chart: &Chart, table: &Table) -> anyhow::Result<()> {
    let mut bytes = [0; BUFFER];
    let length = match write(table, &mut bytes) {
        Ok(length) => length,
        Err(refusal) => return refused(rt, "write", refusal),
    };
    let written = bytes.get(..length).unwrap_or(&bytes);
    match accepted(rt.alloc(), written, chart) {
        Ok(audited) => {
            let mut run = Run::start(&audited, chart, NUMBER);
            rehearse(rt, &mut run, &audited, chart)?;
            for reply in REPLIES {
                turn(rt, &mut run, &audited, chart, reply)?;
            }
            show(rt, "then", run.look())?;
            play_again(rt, &audited, chart)
        }
        Err(refusal) => refused(rt, "audit", refusal),
    }
}
