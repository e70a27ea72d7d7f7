// Performances of a paper roll.
use crate::failure::Failure;
use crate::words;
use service::community::Community;
use service::roll::PaperRoll;
use std::io;

// roll LENGTH BYTES, where the bytes are service and action in turn
pub(crate) fn performances(rt: &HostRuntime, length: &str, word: &str) -> Result<(), Failure> {
    let bytes = words::bytes(rt.alloc(), word)?;
    let mut roll = PaperRoll::new(words::number(length))?;
    print!(rt; "roll")?;
    let (pairs, _) = bytes.as_slice().as_chunks::<2>();
    for [service, action] in pairs {
        perform(rt, &mut roll, *service, *action)?;
    }
    println!(rt; "")?;
    Ok(())
}

// One performance, and the state after it.
fn perform(rt: &HostRuntime, roll: &mut PaperRoll, service: u8, action: u8) -> io::Result<()> {
    match roll.perform(service, action) {
        Ok(_) => print!(rt; "; state {}", roll.state(0)),
        Err(refusal) => print!(rt; "; {refusal}, state {}", roll.state(0)),
    }
}
