// Six actions on five places, each before the place's first write, its first read and its second write, in the runs of three
// programs: 261 runs, under tags that nobody can forge and under weak ones. A run comes to one of two outcomes. It is as
// without a script, with no false answer. Or it ends by the check of its first false answer, having printed a prefix of what it
// prints. Which runs come to what is that of an independent model in Python (bench/attacks.py: hashlib, hmac, cryptography).
use chip_cases::{ASM, STORE_200_TIMES, STORE_AND_PRINT, STORE_TWICE, call_file, make_call, shows};
use sec_base::{MemoryFiles, NoMemory};
use std::alloc::Global;
use std::process::Abort;
use std::test::Fail;

// A program, and what its run prints and tells without a script.
#[derive(Clone, Copy)]
struct Program<'a> {
    name: &'a str,
    text: &'a [u8],
    printed: &'a [u8],
    told: &'a [u8],
}

const PROGRAMS: [Program<'static>; 3] = [
    Program {
        name: "store_and_print",
        text: STORE_AND_PRINT,
        printed: b"A",
        told: b"halted 65\nretired 20\nlies 0\n",
    },
    Program {
        name: "store_twice",
        text: STORE_TWICE,
        printed: b"",
        told: b"halted 66\nretired 22\nlies 0\n",
    },
    Program {
        name: "store_200_times",
        text: STORE_200_TIMES,
        printed: b"",
        told: b"halted 0\nretired 605\nlies 0\n",
    },
];

// A place, what it is swapped with, and the digits that are put there.
#[derive(Clone, Copy)]
struct Place<'a> {
    name: &'a str,
    other: &'a str,
    digits: &'a str,
}

const LINE_DIGITS: &str = "\
    5a5a5a5a5a5a5a5a5a5a5a5a5a5a5a5a5a5a5a5a5a5a5a5a5a5a5a5a5a5a5a5a5a5a5a5a5a5a5a5a\
    5a5a5a5a5a5a5a5a5a5a5a5a5a5a5a5a5a5a5a5a5a5a5a5a5a5a5a5a5a5a5a5a5a5a5a5a5a5a5a5a";

const NODE_DIGITS: &str = "\
    5a5a5a5a5a5a5a5a5a5a5a5a5a5a5a5a5a5a5a5a5a5a5a5a5a5a5a5a5a5a5a5a\
    5a5a5a5a5a5a5a5a5a5a5a5a5a5a5a5a5a5a5a5a5a5a5a5a5a5a5a5a5a5a5a5a";

const PLACES: [Place<'static>; 5] = [
    Place {
        name: "data 0",
        other: "data 6",
        digits: LINE_DIGITS,
    },
    Place {
        name: "data 5",
        other: "data 6",
        digits: LINE_DIGITS,
    },
    Place {
        name: "node 0 0",
        other: "node 0 1",
        digits: NODE_DIGITS,
    },
    Place {
        name: "node 1 0",
        other: "node 1 1",
        digits: NODE_DIGITS,
    },
    // The top node has no other of its level.
    Place {
        name: "node 4 0",
        other: "",
        digits: NODE_DIGITS,
    },
];

// Where @ stands, the place is named.
const TRIGGERS: [&str; 3] = ["write @ 1: ", "read @ 1: ", "write @ 2: "];

// What is saved before, and the action: % is the other place, and # the digits. Saves are made before access 1, when all of
// the memory is zeros.
#[derive(Clone, Copy)]
struct Action<'a> {
    name: &'a str,
    saved: &'a str,
    done: &'a str,
}

const ACTIONS: [Action<'static>; 6] = [
    Action {
        name: "set",
        saved: "",
        done: "set @ 0 ff\n",
    },
    Action {
        name: "flip",
        saved: "",
        done: "flip @ 0 01\n",
    },
    Action {
        name: "swap",
        saved: "",
        done: "swap @ %\n",
    },
    Action {
        name: "put",
        saved: "",
        done: "put @ #\n",
    },
    Action {
        name: "restore",
        saved: "access 1: save 0 @\n",
        done: "restore 0 @\n",
    },
    Action {
        name: "restoreall",
        saved: "access 1: saveall 0\n",
        done: "restoreall 0\n",
    },
];

// Runs of a program in which an answer is false: before which access and by which actions, and what is printed and told then.
#[derive(Clone, Copy)]
struct Lied<'a> {
    program: &'a str,
    trigger: &'a str,
    actions: &'a [&'a str],
    printed: &'a [u8],
    told: &'a [u8],
}

// Line 5 goes out before it is read. The line of store_twice that is found false last was written since the save too. Line 0
// stays on the chip, and so do the counters of the three pages and the nodes above them: what stands at their places is never
// read.
const CAUGHT: [Lied<'static>; 3] = [
    Lied {
        program: "store_and_print",
        trigger: "read data 5 1: ",
        actions: &["set", "flip", "swap", "put", "restore", "restoreall"],
        printed: b"A",
        told: b"tampered data 5\nretired 17\nlies 1\n",
    },
    Lied {
        program: "store_twice",
        trigger: "read data 5 1: ",
        actions: &["set", "flip", "swap", "put", "restore", "restoreall"],
        printed: b"",
        told: b"tampered data 5\nretired 13\nlies 1\n",
    },
    Lied {
        program: "store_twice",
        trigger: "write data 5 2: ",
        actions: &["restoreall"],
        printed: b"",
        told: b"tampered data 133\nretired 15\nlies 1\n",
    },
];

// Puts a text behind another one, with the place for @, the other place for %, and digits for #.
fn push_filled(text: &mut String, template: &str, place: Place<'_>) -> Result<(), NoMemory> {
    for letter in template.chars() {
        match letter {
            '@' => text.push_str(place.name)?,
            '%' => text.push_str(place.other)?,
            '#' => text.push_str(place.digits)?,
            _ => text.push(letter)?,
        }
    }
    Ok(())
}

fn contains(words: &[&str], wanted: &str) -> bool {
    for word in words {
        if *word == wanted {
            return true;
        }
    }
    false
}

// What a run with one action before one access comes to, where an answer is false in it.
fn caught(
    rows: &[Lied<'static>],
    program: &str,
    trigger: &str,
    action: &str,
) -> Option<Lied<'static>> {
    for row in rows {
        if row.program == program && row.trigger == trigger && contains(row.actions, action) {
            return Some(*row);
        }
    }
    None
}

// How many runs came to which outcome.
#[derive(Clone, Copy, Debug, PartialEq, Eq)]
struct Counts {
    same: u64,
    caught: u64,
}

impl Counts {
    fn count(&mut self, is_caught: bool) {
        if is_caught {
            self.caught = self.caught.saturating_add(1);
        } else {
            self.same = self.same.saturating_add(1);
        }
    }
}

// A program and its files, and how memory is tagged.
#[derive(Drop)]
struct Attacked {
    program: Program<'static>,
    tags: &'static str,
    files: MemoryFiles,
    counts: Counts,
}

impl Attacked {
    // The program with no script yet.
    fn new(
        alloc: Global,
        program: Program<'static>,
        tags: &'static str,
        counts: Counts,
    ) -> Result<Attacked, NoMemory> {
        let assembled = call_file(alloc, &ASM, program.text)?;
        let mut files = MemoryFiles::new(alloc, &[])?;
        files.add("p", assembled.out.bytes())?;
        Ok(Attacked {
            program,
            tags,
            files,
            counts,
        })
    }

    // Runs the program with one action before one access.
    fn check_run(
        &mut self,
        rt: &impl Abort,
        alloc: Global,
        place: Place<'_>,
        trigger: &str,
        action: Action<'_>,
    ) -> Result<(), Fail> {
        let program = self.program;
        let mut when = String::new(alloc);
        push_filled(&mut when, trigger, place)?;
        let mut script = String::new(alloc);
        push_filled(&mut script, action.saved, place)?;
        script.push_str(when.as_str())?;
        push_filled(&mut script, action.done, place)?;
        self.files.add("s", script.as_str().as_bytes())?;
        let words = ["chip", "run", "p", "--script", "s", "--tags", self.tags];
        let call = make_call(alloc, &words, &mut self.files, &[], &[])?;
        let name = program.name;
        let lied = caught(&CAUGHT, name, when.as_str(), action.name);
        let (expected, lies) = match lied {
            Some(row) => (shows(row.printed, row.told, 5), 1),
            None => (shows(program.printed, program.told, 0), 0),
        };
        assert_eq!(rt; call.shown(), expected, "{name} by {script}");
        assert_eq!(rt; call.done.lies, lies, "{name} by {script}");
        assert!(rt; program.printed.starts_with(call.out.bytes()));
        self.counts.count(lied.is_some());
        Ok(())
    }

    // The runs with each action before one access.
    fn check_actions(
        &mut self,
        rt: &impl Abort,
        alloc: Global,
        place: Place<'_>,
        trigger: &str,
    ) -> Result<(), Fail> {
        for action in ACTIONS {
            if action.name != "swap" || !place.other.is_empty() {
                self.check_run(rt, alloc, place, trigger, action)?;
            }
        }
        Ok(())
    }
}

// The whole table under tags of a kind.
fn check_table(rt: &impl Abort, alloc: Global, tags: &'static str) -> Result<(), Fail> {
    let mut counts = Counts { same: 0, caught: 0 };
    for program in PROGRAMS {
        let mut attacked = Attacked::new(alloc, program, tags, counts)?;
        for place in PLACES {
            for trigger in TRIGGERS {
                attacked.check_actions(rt, alloc, place, trigger)?;
            }
        }
        counts = attacked.counts;
    }
    let expected = Counts {
        same: 248,
        caught: 13,
    };
    assert_eq!(rt; counts, expected);
    Ok(())
}

// 261 runs.
#[test]
fn each_attack_comes_to_nothing_or_is_caught(rt: HostRuntime) -> Result<(), Fail> {
    check_table(&rt, rt.alloc(), "hmac")
}

// The same 261. To pass, an attack has to mend a weak tag, and none of these does.
#[test]
fn weak_tags_catch_what_mends_none(rt: HostRuntime) -> Result<(), Fail> {
    check_table(&rt, rt.alloc(), "xor")
}
