// The calls in their order, and the rounds that words ask for.
use crate::calls::{Call, Parts};
use crate::rounds_of;
use sec_base::NoMemory;
use std::test::Fail;

#[test]
fn each_call_is_made(rt: HostRuntime) -> Result<(), NoMemory> {
    let mut parts = Parts::new(rt.alloc())?;
    for call in Call::ALL {
        for round in 0..2 {
            assert_eq!(rt; parts.make(call, round), Ok(()), "{call}");
        }
    }
    Ok(())
}

#[test]
fn words_ask_for_rounds(rt: HostRuntime) -> Result<(), NoMemory> {
    let rows = [
        ("chip_time", Some(1)),
        ("chip_time 7", Some(7)),
        ("chip_time 0", None),
        ("chip_time many", None),
        ("chip_time 1 1", None),
    ];
    for (line, rounds) in rows {
        let mut words = Vec::new(rt.alloc());
        for word in line.split(' ') {
            words.push(String::from_str(rt.alloc(), word)?)?;
        }
        assert_eq!(rt; rounds_of(&words), rounds, "{line}");
    }
    Ok(())
}
