use crate::automaton::{Automaton, find_classes};
use ltlf::reader::read_task;
use ltlf::task::Task;
use std::alloc::Global;
use std::test::Fail;
use wire::refusal::{Cause, Refusal};

// The table of the task that the text holds.
fn classes_of(heap: Global, actions: u8, text: &[u8], out: &mut Automaton) -> Result<(), Refusal> {
    let mut task = Task::zero(heap);
    read_task(actions, text, &mut task)?;
    find_classes(&task, out)
}

#[test]
fn eventually_has_two_classes(rt: HostRuntime) -> Result<(), Fail> {
    let mut a = Automaton::zero();
    classes_of(rt.alloc(), 2, b"F a", &mut a)?;
    assert_eq!(rt; (a.actions(), a.classes()), (2, 2));
    assert_eq!(rt; (a.next(0, 0), a.next(0, 1)), (1, 0));
    assert_eq!(rt; (a.next(1, 0), a.next(1, 1)), (1, 1));
    assert!(rt; !a.accepts(0) && a.accepts(1) && !a.accepts(2));
    Ok(())
}

#[test]
fn six_letters_have_64_classes(rt: HostRuntime) -> Result<(), Fail> {
    let mut a = Automaton::zero();
    classes_of(rt.alloc(), 6, b"& F a & F b & F c & F d & F e F f", &mut a)?;
    assert_eq!(rt; a.classes(), 64);
    assert!(rt; a.accepts(63) && !a.accepts(62));
    Ok(())
}

#[test]
fn seven_letters_are_too_many(rt: HostRuntime) {
    let mut a = Automaton::zero();
    let r = classes_of(
        rt.alloc(),
        7,
        b"& F a & F b & F c & F d & F e & F f F g",
        &mut a,
    );
    assert_eq!(rt; r, Err(Cause::TooManyClasses.at(0)));
    assert_eq!(rt; (a.actions(), a.classes()), (0, 0));
}
