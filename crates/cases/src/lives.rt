// Lives of runs: lists of events on a chart with an audited table.
use crate::boards::{chart_of, table_of};
use crate::failure::Failure;
use crate::words;
use run::event::{Answer, Event};
use run::look::Look;
use run::replay::replay;
use std::alloc::{AllocError, Global};
use std::io;

// The numbers between commas that follow an event's letter, as they are spelled.
fn numbers(event: &str) -> &str {
    event.split_once(':').map_or("", |(_, list)| list)
}

// The supposed positions of all rehearsals, one after another. Only these are kept: a rehearsal borrows them.
fn supposed(heap: Global, list: &str) -> Result<Vec<u16>, AllocError> {
    let mut positions = Vec::new(heap);
    for event in list.split(';').filter(|event| event.starts_with('h')) {
        let spelled = numbers(event);
        if !spelled.is_empty() {
            positions.extend(spelled.split(',').map(words::number))?;
        }
    }
    Ok(positions)
}

// The event that a word spells: d, r:SLIP,POSITION, w:SLIP, a, l, h:POSITION,..
// A rehearsal takes its positions off the front of `supposed`.
fn event<'a>(word: &str, supposed: &mut &'a [u16]) -> Option<Event<'a>> {
    let spelled = numbers(word);
    // a number that is missing counts as 0, as vectors are told
    let mut values = spelled.split(',').map(words::number);
    match word.chars().next()? {
        'd' => Some(Event::Delegate),
        'r' => Some(Event::Report {
            slip: values.next().unwrap_or(0),
            position: values.next().unwrap_or(0),
        }),
        'w' => Some(Event::Waive {
            slip: values.next().unwrap_or(0),
        }),
        'a' => Some(Event::Abandon),
        'l' => Some(Event::Look),
        'h' => {
            let count = if spelled.is_empty() {
                0
            } else {
                spelled.split(',').count()
            };
            let (own, others) = supposed.split_at_checked(count)?;
            *supposed = others;
            Some(Event::Rehearse { supposed: own })
        }
        _ => None,
    }
}

// The events that the words spell.
fn events<'a>(heap: Global, list: &str, supposed: &'a [u16]) -> Result<Vec<Event<'a>>, AllocError> {
    let mut rest = supposed;
    let mut events = Vec::new(heap);
    for word in list.split(';') {
        if let Some(event) = event(word, &mut rest) {
            events.push(event)?;
        }
    }
    Ok(events)
}

fn show(rt: &HostRuntime, look: Look) -> io::Result<()> {
    print!(rt;
        "; {} {} {} {}",
        look.number, look.position, look.count, look.phase
    )
}

fn tell(rt: &HostRuntime, answer: Answer) -> io::Result<()> {
    match answer {
        Answer::Given { choice, slip: _ } => print!(rt; "; choice {choice}"),
        Answer::Accepted => print!(rt; "; accepted"),
        Answer::Seen { look } => show(rt, look),
        Answer::Rehearsed { look, accepted } => {
            show(rt, look)?;
            print!(rt; " {accepted}")
        }
        Answer::Refused { refusal } => print!(rt; "; {refusal}"),
        Answer::Stopped { refusal, accepted } => print!(rt; "; {refusal} {accepted}"),
    }
}

// run CHART TABLE NUMBER EVENTS
pub(crate) fn life(
    rt: &HostRuntime,
    word: &str,
    table: &str,
    number: &str,
    list: &str,
) -> Result<(), Failure> {
    let chart = chart_of(rt, word)?;
    let audited = table_of(rt, table, &chart)?;
    let supposed = supposed(rt.alloc(), list)?;
    let events = events(rt.alloc(), list, supposed.as_slice())?;
    let number = words::number(number);
    let life = replay(rt.alloc(), &audited, &chart, number, events.as_slice())?;
    print!(rt; "run")?;
    for answer in &life.answers {
        tell(rt, *answer)?;
    }
    println!(rt; "")?;
    Ok(())
}
