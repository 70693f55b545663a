//! Words that are a command, and words that are none.

use ab_num::{Height, Party, Plan, Scheme, ServiceName};
use ab_words::{Command, command_in};

const ZERO: &str = "0000000000000000000000000000000000000000000000000000000000000000";

/// Whether the words, with a space between each, are a command.
fn is_command(rt: &HostRuntime, text: &str) -> Option<bool> {
    let mut words = Vec::new(rt.alloc());
    for word in text.split(' ') {
        words.push(word).ok()?;
    }
    Some(command_in(rt.alloc(), &words).ok()?.is_some())
}

#[test]
fn commands(rt: HostRuntime) {
    let cases = [
        ("replay", true),
        ("replay x", false),
        ("play", false),
        (
            "storm --plan aliph --f 1 --clients 2 --seed 18446744073709551615 --events 100000",
            true,
        ),
        (
            "storm --events=0 --f=2 --seed 7 --plan backup --clients=16",
            true,
        ),
        (
            "storm --plan aliph --f 1 --clients 2 --seed 18446744073709551616 --events 1",
            false,
        ),
        (
            "storm --plan aliph --f 1 --clients 2 --seed 1 --events 100001",
            false,
        ),
        (
            "storm --plan zcert --f 1 --clients 2 --seed 1 --events 100000",
            true,
        ),
        (
            "storm --plan aliph --f 01 --clients 2 --seed 1 --events 1",
            false,
        ),
        (
            "storm --plan aliph --f 1 --clients 17 --seed 1 --events 1",
            false,
        ),
        ("node --base 1 --wait 60000 --turns 1000000000", true),
        ("node --trace --base 65000 --wait=1 --turns 1", true),
        ("node --base 1 --wait 1 --turns 1 --trace", true),
        ("node --base 1 --wait 1 --turns 1 --trace --trace", false),
        ("node --base 1 --wait 1 --turns 1 --trace=", false),
        ("node --base 1 --base 1 --wait 1 --turns 1", false),
        ("node --base 1 --wait 0 --turns 1", false),
        ("node --base 65001 --wait 1 --turns 1", false),
        ("node --base 1 --wait 60001 --turns 1", false),
        ("node --base 1 --wait 1 --turns 1000000001", false),
        ("node --base 1 --wait 1 --turns", false),
        ("node --base 1 --wait 1 --turns 1 --", false),
        ("node --base 1 --wait 1 --turns 1 --other 1", false),
        ("node base 1 --wait 1 --turns 1", false),
        ("audit", true),
        ("audit --why", true),
        ("audit --why --why", false),
        ("audit --why=", false),
        ("audit why", false),
        ("node --base 1 --wait 1 --turns 1 --journal r0", true),
        (
            "node --trace --journal=c0.2026-11_30 --base 1 --wait 1 --turns 1",
            true,
        ),
        (
            "node --base 1 --wait 1 --turns 1 --journal aaaaaaaaaaaaaaaaaaaaaaaaaaaaaaaaaaaaaaaaaaaaaaaaaaaaaaaaaaaaaaaa",
            true,
        ),
        (
            "node --base 1 --wait 1 --turns 1 --journal aaaaaaaaaaaaaaaaaaaaaaaaaaaaaaaaaaaaaaaaaaaaaaaaaaaaaaaaaaaaaaaaa",
            false,
        ),
        ("node --base 1 --wait 1 --turns 1 --journal .r0", false),
        ("node --base 1 --wait 1 --turns 1 --journal=-r0", false),
        ("node --base 1 --wait 1 --turns 1 --journal C0", false),
        ("node --base 1 --wait 1 --turns 1 --journal a/b", false),
        ("node --base 1 --wait 1 --turns 1 --journal=", false),
        ("node --base 1 --wait 1 --turns 1 --journal", false),
        (
            "node --base 1 --wait 1 --turns 1 --journal a --journal a",
            false,
        ),
        ("node --journal a --wait 1 --turns 1", false),
    ];
    for (text, taken) in cases {
        assert!(rt;
            is_command(&rt, text).expect(&rt, "memory") == taken,
            "{text}"
        );
    }
}

/// Commands that say in which cluster a checkpoint is due, but for words that all of them take.
const OF_CLUSTERS: [&str; 2] = [
    "keys --clients 1 --party r3",
    "cluster --base 1 --wait 1 --turns 1",
];

/// After how many requests a checkpoint is due in the cluster that such a command asks for, if with these words it is one.
fn every_in(rt: &HostRuntime, command: &str, plan: &str, more: &str) -> Option<Option<u16>> {
    let alloc = rt.alloc();
    let text = format!(in alloc;
        "{command} --plan {plan} --f 1 --service kv --lms 10 --seed {ZERO}{more}"
    ).ok()?;
    let mut words = Vec::new(alloc);
    for word in text.as_str().split(' ') {
        words.push(word).ok()?;
    }
    match command_in(alloc, &words).ok()? {
        Some(Command::Keys(asked)) => Some(Some(asked.cluster().every)),
        Some(Command::Cluster(asked)) => Some(Some(asked.cluster().every)),
        _ => Some(None),
    }
}

#[test]
fn clusters_with_a_checkpoint(rt: HostRuntime) {
    let cases = [
        ("quorum", "", Some(0)),
        ("quorum", " --checkpoint 0", Some(0)),
        ("quorum", " --checkpoint=0", Some(0)),
        ("quorum", " --checkpoint 1", Some(1)),
        ("quorum", " --checkpoint 64", Some(64)),
        ("quorum", " --checkpoint 128", Some(128)),
        ("quorum", " --checkpoint 129", None),
        ("quorum", " --checkpoint 00", None),
        ("quorum", " --checkpoint 064", None),
        ("quorum", " --checkpoint 65536", None),
        ("quorum", " --checkpoint 18446744073709551616", None),
        ("quorum", " --checkpoint -1", None),
        ("quorum", " --checkpoint=", None),
        ("quorum", " --checkpoint", None),
        ("quorum", " --checkpoint 0 --checkpoint 0", None),
        ("quorum", " --every 0", None),
        ("zlight", " --checkpoint 128", Some(128)),
        ("zlight", " --checkpoint 129", None),
        ("chain", " --checkpoint=128", Some(128)),
        ("chain", " --checkpoint 129", None),
    ];
    for command in OF_CLUSTERS {
        for (plan, more, every) in cases {
            assert!(rt;
                every_in(&rt, command, plan, more).expect(&rt, "memory") == every,
                "{command} {plan}{more}"
            );
        }
        for plan in ["azyzzyva", "aliph", "backup", "zcert"] {
            let left_out = every_in(&rt, command, plan, "").expect(&rt, "memory");
            assert!(rt; left_out == Some(0), "{command} {plan}");
            let never = every_in(&rt, command, plan, " --checkpoint 0").expect(&rt, "memory");
            assert!(rt; never == Some(0), "{command} {plan}");
            let often = every_in(&rt, command, plan, " --checkpoint 1").expect(&rt, "memory");
            assert!(rt; often == None, "{command} {plan}");
        }
    }
    let node = "node --base 1 --wait 1 --turns 1 --checkpoint 0";
    assert!(rt; !is_command(&rt, node).expect(&rt, "memory"));
    let storm = "storm --plan quorum --f 1 --clients 1 --seed 1 --events 1 --checkpoint 0";
    assert!(rt; !is_command(&rt, storm).expect(&rt, "memory"));
}

#[test]
fn keys(rt: HostRuntime) {
    let words = [
        "keys",
        "--plan",
        "quorum",
        "--f=1",
        "--clients",
        "1",
        "--service=kv",
        "--lms",
        "10",
        "--seed",
        ZERO,
        "--party",
        "r3",
    ];
    match command_in(rt.alloc(), &words).expect(&rt, "memory") {
        Some(Command::Keys(asked)) => {
            assert!(rt; asked.party() == Party::Replica(3));
            assert!(rt; asked.cluster().plan == Plan::Quorum);
            assert!(rt; asked.service() == ServiceName::Kv);
            assert!(rt; asked.scheme() == Scheme::Lms(Height::Ten));
            assert!(rt; *asked.seed() == [0; 32]);
        }
        _ => panic!(rt; "a command"),
    }
    for (place, word) in [
        (12, "r4"),
        (12, "c1"),
        (8, "5"),
        (8, "20"),
        (8, "15"),
        (10, "00"),
        (2, "plan quorum"),
    ] {
        let mut other = words;
        if place < 13 {
            other[place] = word;
        }
        let taken = command_in(rt.alloc(), &other)
            .expect(&rt, "memory")
            .is_some();
        assert!(rt; taken == (word == "5" || word == "20"));
    }
}

/// The scheme of the cluster that these words ask for.
fn cluster_scheme(rt: &HostRuntime, lms: &str) -> Option<Scheme> {
    let words = [
        "cluster",
        "--plan=aliph",
        "--f=1",
        "--service=kv",
        "--lms",
        lms,
        "--seed",
        ZERO,
        "--base=9000",
        "--wait=10",
        "--turns=100",
    ];
    match command_in(rt.alloc(), &words).ok()? {
        Some(Command::Cluster(asked)) => Some(asked.scheme()),
        _ => None,
    }
}

#[test]
fn clusters(rt: HostRuntime) {
    let five = Scheme::Lms(Height::Five);
    assert!(rt; cluster_scheme(&rt, "5") == Some(five));
    assert!(rt; cluster_scheme(&rt, "20") == Some(Scheme::Hss));
    assert!(rt; cluster_scheme(&rt, "2") == None);
}

/// Whether the words are a node with this journal.
fn has_journal(rt: &HostRuntime, words: &[&str], journal: Option<&str>) -> Option<bool> {
    match command_in(rt.alloc(), words).ok()? {
        Some(Command::Node(asked)) => Some(asked.journal() == journal),
        _ => None,
    }
}

#[test]
fn a_node_may_have_a_journal(rt: HostRuntime) {
    let with = [
        "node",
        "--base=1",
        "--wait=1",
        "--turns=1",
        "--journal",
        "r0",
    ];
    let without = ["node", "--base=1", "--wait=1", "--turns=1"];
    assert!(rt; has_journal(&rt, &with, Some("r0")) == Some(true));
    assert!(rt; has_journal(&rt, &without, None) == Some(true));
}
