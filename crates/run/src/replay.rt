// A list of events on a fresh run.
ghost use Rattle.std.specs.Prelude.{◌≡◌, MatchResult};
ghost use Rattle.wire.specs.Refusals.{no_memory};
ghost use Rattle.run.specs.Law.{Replayed};
ghost use Rattle.run.specs.Run.{done_so, step, told};

use crate::event::{Answer, Event, Replay};
use crate::record::Ground;
use crate::run::Run;
use board::board::Board;
use std::alloc::Global;
use table::audited::AuditedTable;
use wire::refusal::Refusal;

fn accept(reply: Result<(), Refusal>) -> Answer
    ensures { result ≡ told done_so reply }
{
    reply.map_or_else(|refusal| Answer::Refused { refusal }, |()| Answer::Accepted)
}

// One event. No slip is made for it: its number is enough for the record.
fn play<B: Board>(run: &mut Run, ground: &Ground<B>, event: Event) -> Answer
    ensures { (result, run.new.rec) ≡ step (B.arena ground.now.board.now) ground.now.table.now.rows.items run.old.rec event.entry }
{
    let number = run.rec.number;
    match event {
        Event::Delegate => run.rec.delegate(ground).map_or_else(
            |refusal| Answer::Refused { refusal },
            |choice| Answer::Given {
                choice,
                slip: number,
            },
        ),
        Event::Report { slip, position } => accept(run.rec.report(ground.board, slip, position)),
        Event::Waive { slip } => accept(run.rec.waive(slip)),
        Event::Abandon => accept(run.abandon()),
        Event::Look => Answer::Seen { look: run.look() },
        Event::Rehearse { supposed } => run
            .rehearse(ground.table, ground.board, supposed)
            .map_or_else(
                |(refusal, accepted)| Answer::Stopped { refusal, accepted },
                |(look, accepted)| Answer::Rehearsed { look, accepted },
            ),
    }
}

// Plays the events on a fresh run. The law of runs holds of every list of events on an accepted table.
pub fn replay<B: Board>(
    heap: Global,
    table: &AuditedTable,
    board: &B,
    number: u16,
    events: &[Event],
) -> Result<Replay, Refusal>
    ensures { MatchResult result (Replayed (B.arena board.now) table.now.rows.items number events.now) (λ e. e ≡ no_memory) }
{
    let ground = Ground { table, board };
    let mut run = Run::start(table, board, number);
    let mut answers = Vec::new(heap);
    // No chain: each event goes on from the run that the one before has left.
    for event in events {
        answers.push(play(&mut run, &ground, *event))?;
    }
    Ok(Replay {
        answers,
        look: run.look(),
    })
}
