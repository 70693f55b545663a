//! Copies of contents and messages. A call lets each go: in place each of its forms would be taken apart.

use ab_hist::History;
use ab_msg::{Content, Msg};
use ab_num::Party;
use std::mem::drop;

#[test]
fn contents_with_memory_are_copied(rt: HostRuntime) {
    let abort = Content::Abort {
        maker: Party::Replica(1),
        instance: 2,
        history: History::new(rt.alloc()),
    };
    let copy = abort.copy(rt.alloc()).expect(&rt, "memory");
    assert!(rt; copy.maker() == Party::Replica(1));
    assert!(rt; copy.instance() == 2);
    drop(copy);
    drop(abort);
}

#[test]
fn messages_are_copied(rt: HostRuntime) {
    let panic = Msg::Panic {
        content: Content::Panic {
            maker: Party::Client(3),
            instance: 7,
        },
        tag: [9; 32],
    };
    let copy = panic.copy(rt.alloc()).expect(&rt, "memory");
    let same = match &copy {
        Msg::Panic { content, tag } => content.instance() == 7 && *tag == [9; 32],
        _ => false,
    };
    assert!(rt; same);
    drop(copy);
    drop(panic);
}
