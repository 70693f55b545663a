//! What the faults say.

use ab_abs::StepFault;
use ab_client::InvokeFault;
use ab_extract::CertFault;
use ab_form::Bad;
use ab_hist::PushFault;
use ab_io::{Failed, Refused};
use ab_key_text::{KeyFault, NodeFault};
use ab_loop::ServeFault;
use ab_num::OutOfMemory;
use ab_open::OpenFault;
use ab_party::CommandFault;
use ab_piece::DropCause;
use ab_replay::{ReadFault, WriteFault};
use ab_storm::StormFault;
use ab_text::TextFault;
use ab_world::{SendFault, WorldFault};
use std::alloc::Global;
use std::fmt::Display;

fn says<F: Display>(alloc: Global, fault: &F, text: &str) -> bool {
    match format!(in alloc; "{fault}") {
        Ok(said) => said.as_str() == text,
        Err(_) => false,
    }
}

#[test]
fn faults_of_bytes_say_what_is_wrong(rt: HostRuntime) {
    let alloc = rt.alloc();
    assert!(rt; says(alloc, &Bad::Short, "the bytes end within a part"));
    assert!(rt; says(alloc, &Bad::BadCode, "a code is none that is allowed there"));
    assert!(rt;
        says(
            alloc,
            &Bad::BadLength,
            "a count or a length is out of its bounds"
        )
    );
    assert!(rt;
        says(
            alloc,
            &Bad::BadField,
            "a value is out of its bounds, or out of order"
        )
    );
    assert!(rt; says(alloc, &Bad::Trailing, "bytes follow the whole"));
    assert!(rt;
        says(
            alloc,
            &OpenFault::Bad(Bad::Short),
            "no message: the bytes end within a part"
        )
    );
    assert!(rt;
        says(
            alloc,
            &OpenFault::NotMine,
            "the message is not for this party"
        )
    );
    assert!(rt;
        says(
            alloc,
            &OpenFault::BadTag(7),
            "what stands for claim 7 is missing or isn't its maker's"
        )
    );
    assert!(rt; says(alloc, &DropCause::Header, "the datagram is no piece"));
    assert!(rt;
        says(
            alloc,
            &DropCause::Differs,
            "another piece named another number of pieces"
        )
    );
    assert!(rt; says(alloc, &DropCause::Again, "the piece is there"));
}

#[test]
fn faults_of_texts_name_the_line(rt: HostRuntime) {
    let alloc = rt.alloc();
    assert!(rt; says(alloc, &TextFault::BadLine(3), "line 3 is out of form"));
    assert!(rt; says(alloc, &TextFault::NoEnd(4), "the text ends before line 4"));
    assert!(rt;
        says(
            alloc,
            &TextFault::NotBuilt(7),
            "what line 7 asks for is not built"
        )
    );
    assert!(rt;
        says(
            alloc,
            &KeyFault::BadLine(5),
            "line 5 is out of form or missing"
        )
    );
    assert!(rt; says(alloc, &NodeFault::BadLine(6), "line 6 is out of form"));
    assert!(rt; says(alloc, &NodeFault::NoEnd(7), "the text ends before line 7"));
}

#[test]
fn faults_of_histories_and_certificates_say_what_is_wrong(rt: HostRuntime) {
    let alloc = rt.alloc();
    assert!(rt; says(alloc, &PushFault::Full, "the history is full"));
    assert!(rt;
        says(
            alloc,
            &PushFault::Repeat,
            "the request's stamp isn't above its client's last"
        )
    );
    assert!(rt;
        says(
            alloc,
            &CertFault::Count,
            "the certificate has another number of ABORTs"
        )
    );
    assert!(rt; says(alloc, &CertFault::SameSigner(2), "replica 2 signed twice"));
    assert!(rt;
        says(
            alloc,
            &CertFault::WrongInstance(9),
            "an ABORT is of instance 9"
        )
    );
    assert!(rt;
        says(
            alloc,
            &CertFault::BadCert(2),
            "the ABORT of replica 2 isn't one of the instance's kind"
        )
    );
    assert!(rt; says(alloc, &CertFault::Unequal, "the histories differ"));
}

#[test]
fn faults_of_parties_say_what_is_wrong(rt: HostRuntime) {
    let alloc = rt.alloc();
    assert!(rt; says(alloc, &StepFault::Spent, "no signature is left"));
    assert!(rt; says(alloc, &ab_msg::SignFault::Spent, "no signature is left"));
    assert!(rt; says(alloc, &ab_lms::SignFault::Spent, "no signature is left"));
    assert!(rt; says(alloc, &InvokeFault::Busy, "a request is open"));
    assert!(rt;
        says(
            alloc,
            &InvokeFault::TooLong,
            "the command has over 128 bytes"
        )
    );
    assert!(rt; says(alloc, &InvokeFault::Empty, "the command has no bytes"));
    assert!(rt; says(alloc, &CommandFault::NoClient, "the core is no client's"));
    assert!(rt; says(alloc, &CommandFault::Busy, "the client has a request open"));
}

#[test]
fn faults_of_worlds_and_storms_say_what_is_wrong(rt: HostRuntime) {
    let alloc = rt.alloc();
    assert!(rt;
        says(
            alloc,
            &WorldFault::EventLimit,
            "the world takes no more events"
        )
    );
    assert!(rt;
        says(
            alloc,
            &WorldFault::PacketLimit,
            "the packets would pass their limit"
        )
    );
    assert!(rt;
        says(
            alloc,
            &WorldFault::BadCommand,
            "a command has 1 to 128 bytes"
        )
    );
    assert!(rt; says(alloc, &WorldFault::NoPacket, "no packet has this number"));
    assert!(rt; says(alloc, &WorldFault::BadParty, "the cluster has no such core"));
    assert!(rt; says(alloc, &WorldFault::Busy, "the client has a request open"));
    assert!(rt;
        says(
            alloc,
            &SendFault::Limit,
            "the packets would pass their limit"
        )
    );
    assert!(rt;
        says(
            alloc,
            &StormFault::TooManyPackets,
            "the packets would pass their limit"
        )
    );
}

#[test]
fn faults_of_the_outside_say_what_failed(rt: HostRuntime) {
    let alloc = rt.alloc();
    assert!(rt; says(alloc, &Failed, "the outside failed"));
    assert!(rt; says(alloc, &Refused::Failed, "the outside failed"));
    assert!(rt; says(alloc, &ReadFault::Failed, "reading failed"));
    assert!(rt; says(alloc, &ReadFault::TooLong, "the input is too long"));
    assert!(rt; says(alloc, &WriteFault::Failed, "writing failed"));
    assert!(rt; says(alloc, &ServeFault::LinkFailed, "the link failed"));
    assert!(rt; says(alloc, &ServeFault::WriteFailed, "writing failed"));
    assert!(rt;
        says(
            alloc,
            &ServeFault::TurnsSpent(3),
            "the turns are used, and 3 commands are unanswered"
        )
    );
}

#[test]
fn a_want_of_memory_is_called_so_everywhere(rt: HostRuntime) {
    let alloc = rt.alloc();
    assert!(rt; says(alloc, &OutOfMemory, "out of memory"));
    assert!(rt; says(alloc, &Refused::OutOfMemory, "out of memory"));
    assert!(rt; says(alloc, &PushFault::OutOfMemory, "out of memory"));
    assert!(rt; says(alloc, &TextFault::OutOfMemory, "out of memory"));
    assert!(rt; says(alloc, &KeyFault::OutOfMemory, "out of memory"));
    assert!(rt; says(alloc, &NodeFault::OutOfMemory, "out of memory"));
    assert!(rt; says(alloc, &ab_lms::SignFault::OutOfMemory, "out of memory"));
    assert!(rt; says(alloc, &ab_msg::SignFault::OutOfMemory, "out of memory"));
    assert!(rt; says(alloc, &StepFault::OutOfMemory, "out of memory"));
    assert!(rt; says(alloc, &CertFault::OutOfMemory, "out of memory"));
    assert!(rt; says(alloc, &InvokeFault::OutOfMemory, "out of memory"));
    assert!(rt; says(alloc, &CommandFault::OutOfMemory, "out of memory"));
    assert!(rt; says(alloc, &SendFault::OutOfMemory, "out of memory"));
    assert!(rt; says(alloc, &WorldFault::OutOfMemory, "out of memory"));
    assert!(rt; says(alloc, &StormFault::OutOfMemory, "out of memory"));
    assert!(rt; says(alloc, &ServeFault::OutOfMemory, "out of memory"));
    assert!(rt; says(alloc, &ReadFault::OutOfMemory, "out of memory"));
    assert!(rt; says(alloc, &WriteFault::OutOfMemory, "out of memory"));
}
