// Programs that share the core: what is printed and told of both, the status, and what is handed back.
use crate::calls::{call_pair, check_both};
use crate::sides::Side::{self, Caught, Exits, Prints, Stores, Traps};
use chip_cases::{Call, EXIT_7, RUN, call_program, call_without_files};
use chip_device::RunBus;
use chip_main::Done;
use chip_run::SideStop;
use sec_base::{Cause, Ending, MemStop, NoMemory, Place};
use std::process::Abort;
use std::test::Fail;

// Options, and the order `o`: of an order without a byte, and where none is named, the two take turns.
const ORDERS: [(&[&str], &[u8]); 8] = [
    (&[], b""),
    (&["--order", "o"], b"\0\x01"),
    (&["--order", "o"], b"\x01"),
    (&["--order", "o"], b"\0\0\x01"),
    (&["--order", "o"], b""),
    (&["--order", "o"], b"\0"),
    (&["--order", "o"], b"\x01\0"),
    (&["--order", "o"], b"\x01\x01\x01\x01\x01\0"),
];

#[test]
fn programs_come_to_the_same_in_each_order(rt: HostRuntime) -> Result<(), Fail> {
    for (options, order) in ORDERS {
        let call = call_pair(rt.alloc(), options, Stores, Prints, order);
        let row = (options, order);
        check_both(&rt, rt.alloc(), call, (Stores, Prints), 0, &row)?;
    }
    Ok(())
}

// The same, where the second one's memory is attacked.
const ATTACKED_ORDERS: [(&[&str], &[u8]); 5] = [
    (&["--script2", "t"], b""),
    (&["--script2", "t", "--order", "o"], b"\0\x01"),
    (&["--script2", "t", "--order", "o"], b"\x01"),
    (&["--script2", "t", "--order", "o"], b"\0\0\x01"),
    (&["--script2", "t", "--order", "o"], b""),
];

#[test]
fn an_attack_ends_its_program_in_each_order(rt: HostRuntime) -> Result<(), Fail> {
    for (options, order) in ATTACKED_ORDERS {
        let call = call_pair(rt.alloc(), options, Stores, Caught, order);
        let row = (options, order);
        check_both(&rt, rt.alloc(), call, (Stores, Caught), 5, &row)?;
    }
    Ok(())
}

// The scripts of one program twice, what each comes to, and the status. Both scripts name the same line, but each is of the
// memory of its own side.
const SCRIPTS: [(&[&str], Side, Side, u8); 5] = [
    (&[], Stores, Stores, 0),
    (&["--script", "s"], Caught, Stores, 5),
    (&["--script2", "s"], Stores, Caught, 5),
    (&["--script", "s", "--script2", "t"], Caught, Caught, 5),
    (&["--script2", "s", "--script", "s"], Caught, Caught, 5),
];

#[test]
fn an_attack_does_nothing_to_the_other_program(rt: HostRuntime) -> Result<(), Fail> {
    for (options, first, second, status) in SCRIPTS {
        let call = call_pair(rt.alloc(), options, Caught, Caught, b"");
        check_both(&rt, rt.alloc(), call, (first, second), status, &options)?;
    }
    Ok(())
}

// The first program and the second one, and the status: the first one's, and where that is 0, the second one's.
const STATUSES: [(Side, Side, u8); 11] = [
    (Exits, Exits, 0),
    (Exits, Traps, 1),
    (Exits, Caught, 5),
    (Traps, Exits, 1),
    (Traps, Traps, 1),
    (Traps, Caught, 1),
    (Caught, Exits, 5),
    (Caught, Traps, 5),
    (Caught, Caught, 5),
    (Prints, Stores, 0),
    (Prints, Caught, 5),
];

// Sides that are not attacked have a script without a line.
const BY_SCRIPTS: &[&str] = &["--script", "s", "--script2", "t"];

#[test]
fn the_status_is_the_first_one_that_is_not_0(rt: HostRuntime) -> Result<(), Fail> {
    for (first, second, status) in STATUSES {
        let call = call_pair(rt.alloc(), BY_SCRIPTS, first, second, b"");
        let row = (first, second);
        check_both(&rt, rt.alloc(), call, (first, second), status, &row)?;
    }
    Ok(())
}

// How many of the first one's answers were false, how it ended, and whether its bus follows a script.
type First = (u64, Option<Ending>, bool);

// How the second one ended, how many instructions it retired, how many of its answers were false, and the stops of both.
type Beside = (Ending, u64, u64, Option<SideStop>, Option<SideStop>);

fn first_of(call: &Call) -> First {
    let follows = matches!(call.done.bus, Some(RunBus::Script(_)));
    (call.done.lies, call.ending(), follows)
}

fn second_of(done: &Done) -> Option<Beside> {
    match &done.second {
        Some(second) => Some((
            second.run.ending,
            second.run.retired,
            second.bus.lies(),
            second.first_stop,
            second.second_stop,
        )),
        None => None,
    }
}

const HALTED_65: Ending = Ending::Halted(65);

const TAMPERED: Ending = Ending::Tampered(Place::Line(5));

// After 17 instructions, one of which printed a byte.
const STOP: Option<SideStop> = Some(SideStop {
    turn: 17,
    printed: 1,
    stop: MemStop::Tampered(Place::Line(5)),
});

const TRAPPED: Ending = Ending::Trapped {
    cause: Cause::Breakpoint,
    pc: 0,
};

// Two programs, their scripts, and what is handed back of both. Only what memory does is a stop.
#[derive(Clone, Copy)]
struct Back {
    sides: (Side, Side),
    options: &'static [&'static str],
    first: First,
    second: Beside,
}

const BACK: [Back; 5] = [
    Back {
        sides: (Stores, Caught),
        options: &["--script2", "t"],
        first: (0, Some(HALTED_65), false),
        second: (TAMPERED, 17, 1, None, STOP),
    },
    Back {
        sides: (Caught, Stores),
        options: &["--script", "s"],
        first: (1, Some(TAMPERED), true),
        second: (HALTED_65, 20, 0, STOP, None),
    },
    Back {
        sides: (Caught, Caught),
        options: BY_SCRIPTS,
        first: (1, Some(TAMPERED), true),
        second: (TAMPERED, 17, 1, STOP, STOP),
    },
    Back {
        sides: (Stores, Prints),
        options: &[],
        first: (0, Some(HALTED_65), false),
        second: (Ending::Halted(1), 11, 0, None, None),
    },
    Back {
        sides: (Traps, Traps),
        options: BY_SCRIPTS,
        first: (0, Some(TRAPPED), true),
        second: (TRAPPED, 0, 0, None, None),
    },
];

fn check_back(
    rt: &impl Abort,
    call: Result<Call, NoMemory>,
    first: First,
    second: Option<Beside>,
) -> Result<(), NoMemory> {
    let call = call?;
    assert_eq!(rt; first_of(&call), first);
    assert_eq!(rt; second_of(&call.done), second);
    Ok(())
}

#[test]
fn both_runs_are_handed_back(rt: HostRuntime) -> Result<(), Fail> {
    for back in BACK {
        let (first, second) = back.sides;
        let call = call_pair(rt.alloc(), back.options, first, second, b"");
        check_back(&rt, call, back.first, Some(back.second))?;
    }
    Ok(())
}

// A run alone, and two programs that are not there.
#[test]
fn one_run_or_none_has_no_second(rt: HostRuntime) -> Result<(), Fail> {
    let call = call_program(rt.alloc(), &RUN, &EXIT_7, &[], &[]);
    check_back(&rt, call, (0, Some(Ending::Halted(7)), false), None)?;
    let call = call_without_files(rt.alloc(), &["chip", "pair", "a", "b"]);
    check_back(&rt, call, (0, None, false), None)?;
    Ok(())
}
