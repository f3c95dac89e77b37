// Attacks by their scripts, and tables of scripts that are tried on one program.
use chip_cases::{Attack, Call, attack_files, make_call};
use sec_base::NoMemory;
use std::alloc::Global;
use std::process::Abort;
use std::test::Fail;

// The run of an attack on a memory with so many levels.
fn call_in(alloc: Global, levels: &str, attack: Attack<'_>) -> Result<Call, NoMemory> {
    let mut files = attack_files(alloc, attack.text, attack.script)?;
    let words = [
        "chip",
        "run",
        "p",
        "--script",
        "s",
        "--levels",
        levels,
        "--tags",
        attack.tags,
    ];
    make_call(alloc, &words, &mut files, &[], &[])
}

// What the attack comes to, and how many answers are false.
pub(crate) fn check_attack(
    rt: &impl Abort,
    alloc: Global,
    levels: &str,
    attack: Attack<'_>,
    lies: u64,
) -> Result<(), Fail> {
    let call = call_in(alloc, levels, attack)?;
    assert_eq!(rt; (call.shown(), call.done.lies), (attack.shown(), lies));
    Ok(())
}

// A program that prints nothing, the levels of its memory, and what is told where it sees no change.
#[derive(Clone, Copy)]
pub(crate) struct Target<'a> {
    pub(crate) text: &'a [u8],
    pub(crate) levels: &'a str,
    pub(crate) told: &'a [u8],
}

// A script that mends the tag `xor`, what is told with tags that nobody can forge, and what with weak ones, and how many
// answers were false with these.
#[derive(Clone, Copy)]
pub(crate) struct Mended<'a> {
    pub(crate) script: &'a [u8],
    pub(crate) caught: &'a [u8],
    pub(crate) passed: &'a [u8],
    pub(crate) lies: u64,
}

impl<'a> Target<'a> {
    // An attack by this script.
    fn attack(self, tags: &'a str, script: &'a [u8], told: &'a [u8], status: u8) -> Attack<'a> {
        Attack {
            text: self.text,
            tags,
            script,
            printed: b"",
            told,
            status,
        }
    }

    // A script that mends no tag is caught under tags of both kinds, at its first false answer.
    pub(crate) fn check_caught(
        self,
        rt: &impl Abort,
        alloc: Global,
        script: &'a [u8],
        told: &'a [u8],
    ) -> Result<(), Fail> {
        for tags in ["hmac", "xor"] {
            check_attack(
                rt,
                alloc,
                self.levels,
                self.attack(tags, script, told, 5),
                1,
            )?;
        }
        Ok(())
    }

    // The program sees nothing of a script.
    pub(crate) fn check_unseen(
        self,
        rt: &impl Abort,
        alloc: Global,
        script: &'a [u8],
    ) -> Result<(), Fail> {
        let attack = self.attack("hmac", script, self.told, 0);
        check_attack(rt, alloc, self.levels, attack, 0)
    }

    // What a mended tag comes to.
    pub(crate) fn check_mended(
        self,
        rt: &impl Abort,
        alloc: Global,
        mended: Mended<'a>,
    ) -> Result<(), Fail> {
        let caught = self.attack("hmac", mended.script, mended.caught, 5);
        check_attack(rt, alloc, self.levels, caught, 1)?;
        let passed = self.attack("xor", mended.script, mended.passed, 7);
        check_attack(rt, alloc, self.levels, passed, mended.lies)
    }
}
