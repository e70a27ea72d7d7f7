// Answers test vectors: one call to a line on standard input, one answer to a line on standard output.
#![tactic(auto)]

mod boards;
mod failure;
mod lives;
mod roll;
mod text;
mod words;

use crate::failure::Failure;
use std::io::{BufRead, BufReader};

// Answers one line, unless the call refuses it.
fn answer(rt: &HostRuntime, line: &str) -> Result<(), Failure> {
    let mut words = line.split(' ');
    let call = words.next().unwrap_or("");
    let first = words.next().unwrap_or("");
    let second = words.next().unwrap_or("");
    match call {
        "number" => text::number(rt, first),
        "task" => text::task(rt, first, second),
        "satisfies" => text::satisfaction(rt, first, second, words.next().unwrap_or("")),
        "services" => text::services(rt, first),
        "roll" => roll::performances(rt, first, second),
        "chart" => boards::chart(rt, first),
        "solve" => boards::solution(rt, first),
        "audit" => boards::verdict(rt, first, second),
        "run" => {
            let number = words.next().unwrap_or("");
            lives::life(rt, first, second, number, words.next().unwrap_or(""))
        }
        _ => Ok(println!(rt; "{line}")?),
    }
}

fn run(rt: &HostRuntime) -> anyhow::Result<()> {
    for line in BufReader::new(rt.alloc(), rt.stdin())?.lines(rt.alloc()) {
        match answer(rt, line?.as_str()) {
            Ok(()) => {}
            Err(Failure::Refused(refusal)) => println!(rt; "{refusal}")?,
            Err(Failure::Broken(error)) => return Err(error),
        }
    }
    Ok(())
}

fn main(rt: HostRuntime) -> anyhow::Result<()> {
    run(&rt)
}
