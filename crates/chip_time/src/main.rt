//! The program that times single calls of the chip's parts. Its one argument says how many of each are made.
#![tactic(auto)]

ghost use Rattle.std.specs.Prelude.{◌≡◌, ◌/◌, ◌<◌, IfSome};
ghost use Rattle.std.specs.Duration.{as_nanos};

mod calls;
mod fault;
mod lines;
#[cfg(test)]
mod tests;

use calls::{Call, Parts};
use fault::Fault;
use std::rt::Env;
use std::time::{Clock, Duration, Instant};
use std::{env, io};

fn main(rt: HostRuntime) -> Result<(), Fault> {
    let words = words(&rt)?;
    let rounds = rounds_of(&words).ok_or(Fault::Usage)?;
    let mut parts = Parts::new(rt.alloc())?;
    for call in Call::ALL {
        let nanoseconds = time(&rt, &mut parts, call, rounds)?;
        eprintln!(rt; "{call}: {nanoseconds} ns")?;
    }
    // The calls can't be left out, since their results are told.
    let [tag, hmac, block, line] = parts.last_bytes();
    eprintln!(rt; "last bytes: {tag} {hmac} {block} {line}")?;
    println!(rt; "timed")?;
    Ok(())
}

// The words of the process, the program's name first, where they are text.
fn words<R: Env + AllocGlobal>(rt: &R) -> io::Result<Vec<String>> {
    let words = env::args(rt)?.collect(rt.alloc())?;
    Ok(words)
}

// How many rounds the words ask for: one, where they don't say.
fn rounds_of(words: &[String]) -> Option<u64>
    ensures { IfSome result (λ rounds. 0 < rounds) }
{
    match words {
        [_] => Some(1),
        [_, word] => match word.parse::<u64>() {
            Ok(rounds) if rounds > 0 => Some(rounds),
            _ => None,
        },
        _ => None,
    }
}

// Makes a call so many times, and tells the nanoseconds of one.
fn time<R: Clock>(rt: &R, parts: &mut Parts, call: Call, rounds: u64) -> Result<u128, Fault>
    requires { 0 < rounds }
{
    let begun = Instant::now(rt)?;
    for round in 0..rounds {
        parts.make(call, round)?;
    }
    Ok(one_of(begun.elapsed(rt)?, rounds))
}

// The nanoseconds of one of so many calls.
fn one_of(all: Duration, rounds: u64) -> u128
    requires { 0 < rounds }
    ensures { result ≡ as_nanos all / rounds }
{
    all.as_nanos() / u128::from(rounds)
}
