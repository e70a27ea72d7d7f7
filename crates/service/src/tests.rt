// The worked file and its refusals; a short life of a paper roll.
use crate::community::Community;
use crate::file::{CommunityFile, read_services};
use crate::roll::{HAS_PAPER, IS_OUT, LOADING, PRINTING, PaperRoll};
use std::test::Fail;
use wire::refusal::Cause;

#[test]
fn worked_file(rt: HostRuntime) -> Result<(), Fail> {
    let mut out = CommunityFile::zero();
    read_services(&[1, 2, 2, 0, 1, 3, 0, 0, 1], &mut out)?;
    assert_eq!(rt; out.services(), 1);
    assert_eq!(rt; out.actions(), 2);
    assert_eq!(rt; out.states(0), 2);
    assert_eq!(rt; out.initial(0), 0);
    assert_eq!(rt; out.finals(0), 1);
    assert_eq!(rt; out.entry(0, 0, 0), 3);
    assert_eq!(rt; out.entry(0, 1, 1), 1);
    assert_eq!(rt; out.entry(0, 1, 0), 0);
    Ok(())
}

#[test]
fn refused_files(rt: HostRuntime) {
    let mut out = CommunityFile::zero();
    let longer = read_services(&[1, 2, 2, 0, 1, 3, 0, 0, 1, 0], &mut out);
    assert_eq!(rt; longer, Err(Cause::BytesLeftOver.at(9)));
    assert_eq!(rt; out.finals(0), 0);
    let shorter = read_services(&[1, 2, 2, 0, 1, 3, 0, 0], &mut out);
    assert_eq!(rt; shorter, Err(Cause::BytesRunOut.at(8)));
    let nine = read_services(&[9, 2, 2, 0, 1, 3, 0, 0, 1], &mut out);
    assert_eq!(rt; nine, Err(Cause::OutsideField.at(0)));
    let padded = read_services(&[128, 0, 2, 2, 0, 1, 3, 0, 0, 1], &mut out);
    assert_eq!(rt; padded, Err(Cause::NotANumber.at(0)));
}

#[test]
fn roll_of_two(rt: HostRuntime) -> Result<(), Fail> {
    let mut roll = PaperRoll::new(2)?;
    assert_eq!(rt; roll.perform(0, PRINTING), Ok(HAS_PAPER));
    assert_eq!(rt; roll.perform(0, LOADING), Err(Cause::CannotPerform.at(0)));
    assert_eq!(rt; roll.perform(0, PRINTING), Ok(IS_OUT));
    assert_eq!(rt; roll.perform(0, PRINTING), Err(Cause::CannotPerform.at(0)));
    assert_eq!(rt; roll.perform(0, LOADING), Ok(HAS_PAPER));
    assert_eq!(rt; roll.left(), 2);
    assert_eq!(rt; PaperRoll::new(0).err(), Some(Cause::RollLength.at(0)));
    assert_eq!(rt; PaperRoll::new(1001).err(), Some(Cause::RollLength.at(0)));
    Ok(())
}
