//! Key texts that another implementation made, and the faults of altered ones.

use ab_key_text::{
    KeyFault, NodeFault, PartyKeys, fault_is_first, read_is_spelled, read_node,
    spelled_nodes_are_read,
};
use ab_keys::{KeyRing, is_party};
use ab_num::{Cluster, Height, Party, Plan, Scheme, ServiceName};
use std::alloc::Global;
use std::process::Abort;

/// The keys of c0 in a cluster of plan `quorum`, f 1 and 1 client, by the seed of 32 zero bytes.
const OF_C0: &str = "\
keys 1\n\
party c0\n\
f 1\n\
clients 1\n\
plan quorum\n\
service kv\n\
lms 10\n\
out r0 2980586ad27113560f0763643cf2ed98d340f05b7f55cc9053c5220a11ee33bf\n\
in r0 59f2d7261fc605186ba87d5538e038f24c0cd1aa777d36d25312e869f9e4d19c\n\
out r1 1abc0f80f2fb07d1dbd60144f70fe2d9f87fb4e0fb6ba870ac7b8f2197e3a731\n\
in r1 626d5ef23b825662c59cd2c48fe6540b3ce48d695905a52def2978e3907f19cb\n\
out r2 a7b2718f96a42e35ae0db4e51b025cfcc40f4f6ae59d20e9aa7a8fe434bb8518\n\
in r2 6e283252432f1d46ff25828b33b9eef83d890c2d143a4cca2cb9c35eabd0177f\n\
out r3 39bbd27fa7190aead0d1691b21ec2a73ccdc7a6f643ccb9c1a21666aa2579438\n\
in r3 bf9e3059ec53f2453ea75b7004046aef9ad6e6e197404cc8a18ca3e7a3655fcb\n\
public r0 00000006000000031116024b539f6519eac34eab4c733c9c6bb13ab507e8f00cc73d94643eaf8d60e72ddda7ccee96a14202c8bf5d91d03d\n\
public r1 000000060000000373522dddce36cae38467d2c01fc20a3592bdf9a46d9cdf798031ff598c640b80d441aeabe91e36fd0fb3ea29576850cf\n\
public r2 00000006000000038c46e144e4ce4d4706d8c23e6c9307601787c6b275d9dbaed649608222364821cf02ba548f000361e67bb82f5bccd9bb\n\
public r3 0000000600000003dcc443e6fb26a8ccf20f7ae7057724b3271ecb9a356347c9b4139c9beff54ec81902cf57d0fa5c01e33f1959913a70d0\n\
";

/// The keys of r6 in a cluster of plan `aliph`, f 2 and 3 clients.
const OF_R6: &str = "\
keys 1\n\
party r6\n\
f 2\n\
clients 3\n\
plan aliph\n\
service kv\n\
lms 5\n\
secret e6d30519f62111a299a633c052b69abd b031e235f75523472051b07a95fbc02d97f30b4d6452c788ccc42beeccd0c8c9\n\
out r0 811924887c31371ac4688c1b306e38aa43f6461db2c9c08b3552def71d671df2\n\
in r0 f9d5323e406f917a3a1e12a1904ad6181dbd9b4041eaaad2f2a325da5241420d\n\
out r1 0c9ae9f0cb95b82296382b72da2ad086cc9d9e0dee15330774844e4d19c66a6f\n\
in r1 685c528d6bfab54ad87e27962042d6b1f3763bda5cf5ec6ad679e6e02c71e1f2\n\
out r2 dc871a25883fc9021316eca340ce3c30787deb5a5fe9d34ef19276831dbdd7d7\n\
in r2 598efbdbcea5e83dba038f506bceeee6e87ff34c0a50d39afe55a733942a4292\n\
out r3 bb38fabfb0f95cd7986e7e26e73be3e8affc6a82e9db1dcf8413e212914f94eb\n\
in r3 d9c826416c81b0197cd06157949ed9e7abe0381a90b2fb228df038929ee05dbd\n\
out r4 41fc846f3194d3defc7be7868075cd2e3abebf939a9245c15704e25b2411fe08\n\
in r4 4f17b9b3e4de0a3228430c9cc60ba4db9241107bd0b86994633978edd1a75fb0\n\
out r5 4443d8929634f54dda5ecf6e2c084fc936e531739050ab403a2602787fb49049\n\
in r5 06544341749fa3c90fbc63aa7696c00b005e96e3657528e9bd6f0c4018408214\n\
out c0 72d9e465988e2f1d77cdba3f9fe0d47e1d8bfd44ce3aea76279629060c33b6d6\n\
in c0 b4d8930a62e52fec19ef1fd03460e29911d88686aef1f78766f562253b75bdff\n\
out c1 9f4a7b676dec16d77e1bbcb7192ff33ef7da51b7d80c63b1c291cdf3e99ed1a5\n\
in c1 5d759697b4dad521bf6967a010c9fcc6f101408e1adc3a608a39b5f1bcfcc3fc\n\
out c2 b4a1418641407a2788132782c5e5324abe9142a1bd3cb9c47593e0e9c41139c4\n\
in c2 d6e9b3877d275114aa3ba7354f81759d89fb2e85cd315c21c5fdf7ce09ccaa7b\n\
public r0 00000005000000031116024b539f6519eac34eab4c733c9c3caf4fe0215ef2e8dd1fa60bc6ed75c5a7bb6991a5d515f6dbdbdce1c158c0e0\n\
public r1 000000050000000373522dddce36cae38467d2c01fc20a350d969393f7f5ebbe9e83abcce0794ac029db0676b45f24ace47c6908f66159fb\n\
public r2 00000005000000038c46e144e4ce4d4706d8c23e6c930760d11e9c474aa4197d4232763aacb349956a75bfb680f0ef7e359d015e0f9a7aa4\n\
public r3 0000000500000003dcc443e6fb26a8ccf20f7ae7057724b312d78e66c8052cd201b7db2ebbe66902ee0faca3b1681cc196770beccab49730\n\
public r4 000000050000000369fc9a844adfc5275c7f2236acc5e247de8651590383d85057454282938c391ee7b960db15dafa682a73fa61e7590b7a\n\
public r5 00000005000000038cf0ba6fc21176339a8830ba22f848b8c1e071d4f642a84d18b21f63d9ce4725c4bd5f49c0ccea99f3c7ce29d5effe12\n\
public r6 0000000500000003e6d30519f62111a299a633c052b69abd1752fb3378923914e9e6d3c1e8b14530336f7d92e5b2d5795080a2af6e430a62\n\
";

const SEED: [u8; 32] = [0; 32];

/// The text in which one is replaced by another, at its first place.
fn altered(alloc: Global, text: &str, old: &str, new: &str) -> Option<String> {
    match text.find(old) {
        None => None,
        Some(at) => {
            let (front, back) = text.split_at(at);
            let mut out = String::from_str(alloc, front).ok()?;
            out.push_str(new).ok()?;
            out.push_str(back.strip_prefix(old)?).ok()?;
            Some(out)
        }
    }
}

fn fault_of(alloc: Global, text: &str) -> Option<KeyFault> {
    PartyKeys::read(alloc, text.as_bytes()).err()
}

/// Written, the keys are this text.
fn expect_text(rt: &impl Abort, alloc: Global, keys: &PartyKeys, text: &str) {
    let written = keys.text(alloc).expect(rt, "memory");
    assert!(rt; written.as_slice() == text.as_bytes());
}

/// The keys are those of r6.
fn expect_r6(rt: &impl Abort, alloc: Global, keys: &PartyKeys, c: &Cluster) {
    expect_text(rt, alloc, keys, OF_R6);
    assert!(rt; keys.me() == Party::Replica(6));
    assert!(rt; *keys.cluster() == *c);
    assert!(rt; keys.service() == ServiceName::Kv);
    assert!(rt; keys.scheme() == Scheme::Lms(Height::Five));
}

/// The tag of a text for c2 by the ring of these keys.
fn tag_by(rt: &impl Abort, alloc: Global, keys: &PartyKeys) -> Option<[u8; 32]> {
    let ring = keys.ring(alloc).expect(rt, "memory");
    ring.tag_for(Party::Client(2), b"put a 1")
}

#[test]
fn derived_text(rt: HostRuntime) {
    let alloc = rt.alloc();
    let c = Cluster::new(2, 3, Plan::Aliph, 0).expect(&rt, "in bounds");
    let me = Party::Replica(6);
    if !is_party(&c, me) {
        panic!(rt; "a party");
    }
    let five = Scheme::Lms(Height::Five);
    let keys = PartyKeys::derive(alloc, &c, ServiceName::Kv, five, &SEED, me).expect(&rt, "memory");
    expect_r6(&rt, alloc, &keys, &c);
    let tag = tag_by(&rt, alloc, &keys);
    drop(keys);
    let ring = KeyRing::derive(alloc, &c, &SEED, me).expect(&rt, "memory");
    assert!(rt; tag == ring.tag_for(Party::Client(2), b"put a 1"));
}

/// The text in which each first of a pair is replaced by the second, at its first place.
fn all_altered(alloc: Global, text: &str, pairs: &[(&str, &str)]) -> Option<String> {
    let mut out = String::from_str(alloc, text).ok()?;
    for (old, new) in pairs {
        out = altered(alloc, out.as_str(), old, new)?;
    }
    Some(out)
}

/// The keys of c0 where the replicas sign by two levels: the public key of the top stands behind the number of levels.
fn two_levels(alloc: Global) -> Option<String> {
    let pairs = [
        ("keys 1\n", "keys 2\n"),
        ("lms 10\n", "lms 20\n"),
        ("public r0 00000006", "public r0 0000000200000006"),
        ("public r1 00000006", "public r1 0000000200000006"),
        ("public r2 00000006", "public r2 0000000200000006"),
        ("public r3 00000006", "public r3 0000000200000006"),
    ];
    all_altered(alloc, OF_C0, &pairs)
}

#[test]
fn derived_in_two_levels(rt: HostRuntime) {
    let alloc = rt.alloc();
    let c = Cluster::new(1, 1, Plan::Quorum, 0).expect(&rt, "in bounds");
    let me = Party::Client(0);
    if !is_party(&c, me) {
        panic!(rt; "a party");
    }
    let keys = PartyKeys::derive(alloc, &c, ServiceName::Kv, Scheme::Hss, &SEED, me).expect(
        &rt, "memory",
    );
    assert!(rt; keys.scheme() == Scheme::Hss);
    let text = two_levels(alloc).expect(&rt, "memory");
    expect_text(&rt, alloc, &keys, text.as_str());
    expect_read(&rt, alloc, text.as_str());
}

#[test]
fn bad_lines_in_two_levels(rt: HostRuntime) {
    let alloc = rt.alloc();
    let text = two_levels(alloc).expect(&rt, "memory");
    let cases = [
        ("keys 2\n", "keys 4\n", 1),
        ("keys 2\n", "keys 3\n", 8),
        ("keys 2\n", "keys 1\n", 7),
        ("lms 20\n", "lms 10\n", 7),
        ("lms 20\n", "lms 5\n", 7),
        ("public r0 00000002", "public r0 ", 16),
    ];
    for (old, new, n) in cases {
        let other = altered(alloc, text.as_str(), old, new).expect(&rt, "memory");
        assert!(rt; fault_of(alloc, other.as_str()) == Some(KeyFault::BadLine(n)));
    }
    expect_fault(
        &rt,
        alloc,
        "public r3 00000006",
        "public r3 0000000200000006",
        Some(KeyFault::BadLine(19)),
    );
    expect_fault(
        &rt,
        alloc,
        "keys 1\n",
        "keys 2\n",
        Some(KeyFault::BadLine(7)),
    );
    expect_fault(
        &rt,
        alloc,
        "lms 10\n",
        "lms 20\n",
        Some(KeyFault::BadLine(7)),
    );
}

/// A text of version three, from one of an earlier version: line 8 says after how many requests a checkpoint is due.
fn with_checkpoints(
    alloc: Global,
    text: &str,
    first: &str,
    lms: &str,
    line: &str,
) -> Option<String> {
    let longer = format!(in alloc; "{lms}{line}").ok()?;
    all_altered(alloc, text, &[(first, "keys 3\n"), (lms, longer.as_str())])
}

/// The keys of r6 in a cluster of plan `chain`: of the plan only line 5 tells.
fn of_chain(alloc: Global) -> Option<String> {
    altered(alloc, OF_R6, "plan aliph\n", "plan chain\n")
}

#[test]
fn derived_with_checkpoints(rt: HostRuntime) {
    let alloc = rt.alloc();
    let c = Cluster::new(2, 3, Plan::Chain, 128).expect(&rt, "in bounds");
    let me = Party::Replica(6);
    if !is_party(&c, me) {
        panic!(rt; "a party");
    }
    let five = Scheme::Lms(Height::Five);
    let keys = PartyKeys::derive(alloc, &c, ServiceName::Kv, five, &SEED, me).expect(&rt, "memory");
    assert!(rt; *keys.cluster() == c);
    let front = of_chain(alloc).expect(&rt, "memory");
    let text = with_checkpoints(
        alloc,
        front.as_str(),
        "keys 1\n",
        "lms 5\n",
        "checkpoint 128\n",
    )
    .expect(&rt, "memory");
    expect_text(&rt, alloc, &keys, text.as_str());
}

#[test]
fn checkpoints(rt: HostRuntime) {
    let alloc = rt.alloc();
    let two = two_levels(alloc).expect(&rt, "memory");
    let chain = of_chain(alloc).expect(&rt, "memory");
    let cases = [
        (OF_C0, "keys 1\n", "lms 10\n", "checkpoint 1\n"),
        (OF_C0, "keys 1\n", "lms 10\n", "checkpoint 128\n"),
        (two.as_str(), "keys 2\n", "lms 20\n", "checkpoint 64\n"),
        (chain.as_str(), "keys 1\n", "lms 5\n", "checkpoint 7\n"),
    ];
    for (text, first, lms, line) in cases {
        let later = with_checkpoints(alloc, text, first, lms, line).expect(&rt, "memory");
        expect_read(&rt, alloc, later.as_str());
    }
}

#[test]
fn bad_checkpoints(rt: HostRuntime) {
    let alloc = rt.alloc();
    let lines = [
        "",
        "checkpoint 0\n",
        "checkpoint 01\n",
        "checkpoint 129\n",
        "checkpoint\n",
        "checkpoint 18446744073709551616\n",
    ];
    for line in lines {
        let text = with_checkpoints(alloc, OF_C0, "keys 1\n", "lms 10\n", line).expect(
            &rt, "memory",
        );
        assert!(rt; fault_of(alloc, text.as_str()) == Some(KeyFault::BadLine(8)));
    }
    let of_aliph = with_checkpoints(alloc, OF_R6, "keys 1\n", "lms 5\n", "checkpoint 1\n").expect(
        &rt, "memory",
    );
    assert!(rt; fault_of(alloc, of_aliph.as_str()) == Some(KeyFault::BadLine(8)));
    let two = two_levels(alloc).expect(&rt, "memory");
    let of_two = altered(alloc, two.as_str(), "lms 20\n", "lms 20\ncheckpoint 64\n").expect(
        &rt, "memory",
    );
    assert!(rt; fault_of(alloc, of_two.as_str()) == Some(KeyFault::BadLine(8)));
    expect_fault(
        &rt,
        alloc,
        "lms 10\n",
        "lms 10\ncheckpoint 64\n",
        Some(KeyFault::BadLine(8)),
    );
    let head = "keys 3\nparty c0\nf 1\nclients 1\nplan quorum\nservice kv\nlms 10\n";
    assert!(rt; fault_of(alloc, head) == Some(KeyFault::BadLine(8)));
    let later = with_checkpoints(alloc, OF_C0, "keys 1\n", "lms 10\n", "checkpoint 64\n").expect(
        &rt, "memory",
    );
    let other = altered(alloc, later.as_str(), "public r3 0", "public r4 0").expect(&rt, "memory");
    assert!(rt; fault_of(alloc, other.as_str()) == Some(KeyFault::BadLine(20)));
}

/// The text is read, and written as it was.
fn expect_read(rt: &impl Abort, alloc: Global, text: &str) {
    match PartyKeys::read(alloc, text.as_bytes()) {
        Ok(keys) => expect_text(rt, alloc, &keys, text),
        Err(_) => panic!(rt; "a key text"),
    }
}

#[test]
fn read_text(rt: HostRuntime) {
    read_is_spelled();
    spelled_nodes_are_read();
    fault_is_first();
    expect_read(&rt, rt.alloc(), OF_C0);
    expect_read(&rt, rt.alloc(), OF_R6);
    let open = OF_C0.strip_suffix("\n").expect(&rt, "it ends so");
    assert!(rt; fault_of(rt.alloc(), open) == None);
}

/// With one replaced by another, the text of c0 has this fault.
fn expect_fault(rt: &impl Abort, alloc: Global, old: &str, new: &str, fault: Option<KeyFault>) {
    let text = altered(alloc, OF_C0, old, new).expect(rt, "memory");
    assert!(rt; fault_of(alloc, text.as_str()) == fault);
}

#[test]
fn bad_lines(rt: HostRuntime) {
    let alloc = rt.alloc();
    let cases = [
        ("party c0\n", "", 2),
        ("party c0\n", "party c1\n", 2),
        ("party c0\n", "party c01\n", 2),
        ("f 1\n", "f 3\n", 3),
        ("clients 1\n", "clients 17\n", 4),
        ("plan quorum\n", "plan none\n", 5),
        ("lms 10\n", "lms 7\n", 7),
        ("out r0 2", "out r1 2", 8),
        ("in r0 5", "in r0 ", 9),
        ("in r0 59f2", "in r0 59F2", 9),
        ("public r3 0", "public r4 0", 19),
    ];
    for (old, new, n) in cases {
        expect_fault(&rt, alloc, old, new, Some(KeyFault::BadLine(n)));
    }
    expect_fault(&rt, alloc, "keys 1\n", "keys 1\n", None);
    assert!(rt; fault_of(alloc, "") == Some(KeyFault::BadLine(1)));
    assert!(rt;
        fault_of(alloc, "keys 1\nparty r9\nf 1\nclients x\n") == Some(KeyFault::BadLine(4))
    );
    assert!(rt;
        fault_of(alloc, "keys 1\nparty r9\nf 1\nclients 1\n") == Some(KeyFault::BadLine(2))
    );
    assert!(rt;
        fault_of(alloc, "keys 1\nparty r1\nf 1\nclients 1\n") == Some(KeyFault::BadLine(5))
    );
}

/// What is wrong with a node's text.
fn node_fault(alloc: Global, front: &str, back: &str) -> Option<Option<NodeFault>> {
    let text = format!(in alloc; "{front}{back}").ok()?;
    if text.len() > 100000 {
        return None;
    }
    Some(read_node(alloc, text.as_bytes()).err())
}

/// A node's text of these two parts has this fault.
fn expect_node(rt: &impl Abort, alloc: Global, front: &str, back: &str, fault: Option<NodeFault>) {
    let found = node_fault(alloc, front, back).expect(rt, "memory");
    assert!(rt; found == fault);
}

#[test]
fn nodes(rt: HostRuntime) {
    let cases = [
        (OF_C0, "end\n", None),
        (OF_C0, "do put a 1\ndo  x\nend", None),
        (OF_R6, "end", None),
        (OF_C0, "", Some(NodeFault::NoEnd(20))),
        (OF_C0, "do put a 1\n", Some(NodeFault::NoEnd(21))),
        (OF_C0, "end\nend\n", Some(NodeFault::BadLine(21))),
        (OF_C0, "do \nend\n", Some(NodeFault::BadLine(20))),
        (OF_C0, "do a\tb\nend\n", Some(NodeFault::BadLine(20))),
        (OF_R6, "do put a 1\nend\n", Some(NodeFault::BadLine(34))),
        ("keys 1\nparty c0\n", "", Some(NodeFault::NoEnd(3))),
    ];
    for (front, back, fault) in cases {
        expect_node(&rt, rt.alloc(), front, back, fault);
    }
}
