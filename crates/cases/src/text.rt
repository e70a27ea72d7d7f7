// Numbers, tasks, truth and services files.
use crate::failure::Failure;
use crate::words;
use ltlf::reader::read_task;
use ltlf::task::Task;
use ltlf::truth::satisfies;
use service::file::{CommunityFile, read_services};
use wire::number::number_at;

// The task that a word spells, over so many actions.
fn task_of(rt: &HostRuntime, actions: &str, word: &str) -> Result<Task, Failure> {
    let text = words::bytes(rt.alloc(), word)?;
    let actions = (words::number(actions) & 255) as u8;
    let mut task = Task::zero(rt.alloc());
    read_task(actions, text.as_slice(), &mut task)?;
    Ok(task)
}

// number BYTES
pub(crate) fn number(rt: &HostRuntime, word: &str) -> Result<(), Failure> {
    let bytes = words::bytes(rt.alloc(), word)?;
    let (value, _) = number_at(bytes.as_slice(), 0)?;
    println!(rt; "{value}")?;
    Ok(())
}

// task ACTIONS TEXT
pub(crate) fn task(rt: &HostRuntime, actions: &str, word: &str) -> Result<(), Failure> {
    task_of(rt, actions, word)?;
    println!(rt; "read")?;
    Ok(())
}

// satisfies ACTIONS TEXT TRACE
pub(crate) fn satisfaction(
    rt: &HostRuntime,
    actions: &str,
    word: &str,
    trace: &str,
) -> Result<(), Failure> {
    let trace = words::bytes(rt.alloc(), trace)?;
    let task = task_of(rt, actions, word)?;
    println!(rt; "{}", satisfies(&task, trace.as_slice()))?;
    Ok(())
}

// services BYTES
pub(crate) fn services(rt: &HostRuntime, word: &str) -> Result<(), Failure> {
    let bytes = words::bytes(rt.alloc(), word)?;
    let mut file = CommunityFile::zero();
    read_services(bytes.as_slice(), &mut file)?;
    println!(rt; "services {} actions {}", file.services(), file.actions())?;
    Ok(())
}
