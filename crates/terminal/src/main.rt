// Runs one task to its end against a paper roll, and prints what was done; then solves a repair chart and runs its table.
#![tactic(auto)]

mod running;
mod solving;

use ltlf::reader::read_task;
use ltlf::task::Task;
use ltlf::truth::satisfies;
use service::community::Community;
use service::file::{CommunityFile, read_services};
use service::roll::{IS_OUT, LOADING, PRINTING, PaperRoll};
use service::sets::has_state;
use std::fs;
use wire::refusal::Refusal;

// The roll of the demonstration runs out on the way.
const ROLL_LENGTH: u16 = 2;

// The demonstration gives up after so many steps.
const MAX_STEPS: usize = 16;

// Print, and load when the roll is out.
fn planned(roll: &PaperRoll) -> u8 {
    if roll.state(0) == IS_OUT {
        LOADING
    } else {
        PRINTING
    }
}

// Whether the present state of the service is one of its final states.
fn is_final(file: &CommunityFile, roll: &PaperRoll) -> bool {
    has_state(file.finals(0), roll.state(0))
}

fn name(action: u8) -> &'static str {
    if action == LOADING { "loads" } else { "prints" }
}

// Performs one action after another until the actions satisfy the task and the service is final.
fn sell(
    rt: &HostRuntime,
    task: &Task,
    file: &CommunityFile,
    roll: &mut PaperRoll,
) -> anyhow::Result<()> {
    let mut actions = Vec::new(rt.alloc());
    // counted, since the step is printed
    for step in 0..MAX_STEPS {
        if satisfies(task, actions.as_slice()) && is_final(file, roll) {
            println!(rt; "done: the actions satisfy the task, and the roll has paper")?;
            return Ok(());
        }
        let action = planned(roll);
        let verb = name(action);
        match roll.perform(0, action) {
            Ok(state) => {
                actions.push(action)?;
                println!(rt;
                    "step {step}: the roll {verb} and is in state {state}, {} left",
                    roll.left()
                )?;
            }
            Err(refusal) => {
                println!(rt; "step {step}: the roll {verb}: {refusal}")?;
                return Ok(());
            }
        }
    }
    println!(rt; "not done")?;
    Ok(())
}

// Prints what was refused, where nothing else can be done.
fn refused(rt: &HostRuntime, what: &str, refusal: Refusal) -> anyhow::Result<()> {
    println!(rt; "{what} {refusal}")?;
    Ok(())
}

fn run(rt: &HostRuntime) -> anyhow::Result<()> {
    let services = fs::read(rt, "community.bin")?;
    let text = fs::read(rt, "task.txt")?;
    let mut file = CommunityFile::zero();
    if let Err(refusal) = read_services(services.as_slice(), &mut file) {
        return refused(rt, "services", refusal);
    }
    let mut task = Task::zero(rt.alloc());
    if let Err(refusal) = read_task(file.actions(), text.as_slice(), &mut task) {
        return refused(rt, "task", refusal);
    }
    match PaperRoll::new(ROLL_LENGTH) {
        Ok(mut roll) => sell(rt, &task, &file, &mut roll)?,
        Err(refusal) => refused(rt, "roll", refusal)?,
    }
    solving::solve_chart(rt)
}

fn main(rt: HostRuntime) -> anyhow::Result<()> {
    run(&rt)
}
