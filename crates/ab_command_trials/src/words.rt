//! Words: those of a storm, whose summary is known from another implementation, and those that are refused.

use crate::calls::{NOTHING, call, expect};
use std::test::Fail;

const USAGE: &str = "usage: abstract_bft <keys|node|replay|storm> [options]\n";

const REFUSED: [&[&str]; 8] = [
    &[],
    &["replay", "x"],
    &["node"],
    &[
        "storms",
        "--plan=quorum",
        "--f=1",
        "--clients=1",
        "--seed=0",
        "--events=1",
    ],
    &[
        "storm",
        "--plan=quorum",
        "--f=1",
        "--clients=1",
        "--seed=0",
        "--events=100001",
    ],
    &[
        "storm",
        "--plan=quorum",
        "--f=1",
        "--clients=1",
        "--seed=00",
        "--events=1",
    ],
    &[
        "storm",
        "--plan=quorum",
        "--f=1",
        "--f=1",
        "--clients=1",
        "--seed=0",
        "--events=1",
    ],
    &["storm", "--plan=quorum", "--f=1", "--clients=1", "--seed=0"],
];

#[test]
fn other_words_are_refused(rt: HostRuntime) -> Result<(), Fail> {
    for words in &REFUSED {
        let told = call(rt.alloc(), words, b"", &NOTHING)?;
        expect(&rt, &told, 2, "", USAGE);
    }
    Ok(())
}

const STORM: &[&str] = &[
    "storm",
    "--plan=quorum",
    "--f=1",
    "--clients=1",
    "--seed=0",
    "--events",
    "1",
];

const SUMMARY: &str =
    "events 1\npackets 0\ncommits 0\ncerts 0\ninits 0\nspent 0\ntop 1\npremise held\n";

#[test]
fn one_event_of_a_storm(rt: HostRuntime) -> Result<(), Fail> {
    let told = call(rt.alloc(), STORM, b"", &NOTHING)?;
    expect(&rt, &told, 0, SUMMARY, "");
    Ok(())
}
