use crate::{WordsFault, limits_in};
use lisp_data::{NoMemory, Rows, Text};
use std::alloc::Global;
use std::test::Fail;

/// The steps and the entries that words allow, which stand here with a space between them.
fn numbers(alloc: Global, line: &str) -> Result<Option<(u64, u64)>, NoMemory> {
    let mut words = Rows::new(alloc);
    for word in line.split(' ') {
        words.push(Text::of(alloc, word)?)?;
    }
    match limits_in(alloc, words.as_slice()) {
        Ok(limits) => Ok(Some((limits.steps, limits.journal))),
        Err(WordsFault::Usage) => Ok(None),
        Err(WordsFault::NoMemory) => Err(NoMemory),
    }
}

#[test]
fn words_have_their_limits(rt: HostRuntime) -> Result<(), Fail> {
    let rows = [
        ("pipe", Some((100_000_000, 4_000_000))),
        ("pipe --steps 10", Some((10, 4_000_000))),
        ("pipe --journal 5", Some((100_000_000, 5))),
        ("pipe --steps 1 --journal 2", Some((1, 2))),
        (
            "pipe --journal 4000000 --steps 100000000",
            Some((100_000_000, 4_000_000)),
        ),
        ("pipe --steps 00000000000000000007", Some((7, 4_000_000))),
        ("pipe --steps 000000000000000000007", None),
        ("pipe --steps 99999999999999999999", None),
        ("pipe --steps 0", None),
        ("pipe --steps 100000001", None),
        ("pipe --journal 1", None),
        ("pipe --journal 4000001", None),
        ("pipe --steps x", None),
        ("pipe --steps +1", None),
        ("pipe --steps -1", None),
        ("pipe --steps", None),
        ("pipe --steps=5", None),
        ("pipe --step 5", None),
        ("pipe --steps 5 --steps 5", None),
        ("pipe --journal 5 --steps 5 --journal 5", None),
        ("pipe -- 5", None),
        ("pipe --help", None),
        ("pipe -h", None),
        ("pipe 5", None),
        ("Pipe", None),
        ("", None),
        ("serve", None),
        ("--steps 5", None),
    ];
    for (line, limits) in rows {
        assert_eq!(rt; numbers(rt.alloc(), line)?, limits, "{line}");
    }
    Ok(())
}
