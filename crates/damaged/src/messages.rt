// What people are told of each fault.
use reader::fault::{Due, Fault, Question};
use std::alloc::Global;
use std::process::Abort;
use std::test::Fail;
use tell::notice::Notice;
use words::flaw::Flaw;

// A question that was answered No, the line that was due, and the line that tells of it.
struct Message {
    question: Question,
    due: Due,
    told: &'static str,
}

const FEED: &str =
    "pages:7: number 3 (line): expected a line feed at the end of the line (byte 120)";

const TOO_LONG: &str = "-:0: number 2 (bench): expected a text of at most 16384 bytes (byte 0)";

const MESSAGES: &[Message] = &[
    Message {
        question: Question::Feed,
        due: Due::Header,
        told: FEED,
    },
    Message {
        question: Question::Feed,
        due: Due::Count,
        told: FEED,
    },
    Message {
        question: Question::Feed,
        due: Due::MiddleNode,
        told: FEED,
    },
    Message {
        question: Question::Feed,
        due: Due::LastNode,
        told: FEED,
    },
    Message {
        question: Question::Words(Flaw::Form),
        due: Due::Header,
        told: "pages:7: number 4 (word): expected `blocks N` (byte 120)",
    },
    Message {
        question: Question::Words(Flaw::Form),
        due: Due::Count,
        told: "pages:7: number 4 (word): expected a contents line `bI C` with the block's own number I (byte 120)",
    },
    Message {
        question: Question::Words(Flaw::Form),
        due: Due::MiddleNode,
        told: "pages:7: number 4 (word): expected a middle node (byte 120)",
    },
    Message {
        question: Question::Words(Flaw::Form),
        due: Due::LastNode,
        told: "pages:7: number 4 (word): expected a last node: go, if or end (byte 120)",
    },
    Message {
        question: Question::Words(Flaw::Range),
        due: Due::Header,
        told: "pages:7: number 5 (word): expected N from 1 to 64 (byte 120)",
    },
    Message {
        question: Question::Words(Flaw::Range),
        due: Due::Count,
        told: "pages:7: number 5 (word): expected a count from 0 to 512 (byte 120)",
    },
    Message {
        question: Question::Words(Flaw::Range),
        due: Due::MiddleNode,
        told: "pages:7: number 5 (word): expected registers r0 to r15, slots 0 to 15 and signed 32-bit numbers (byte 120)",
    },
    Message {
        question: Question::Words(Flaw::Range),
        due: Due::LastNode,
        told: "pages:7: number 5 (word): expected registers r0 to r15 and blocks of this script (byte 120)",
    },
    Message {
        question: Question::Total,
        due: Due::Count,
        told: "pages:7: number 6 (contents): expected counts that come to at most 512 (byte 120)",
    },
    Message {
        question: Question::Finish,
        due: Due::Nothing,
        told: "pages:7: number 7 (contents): expected the text to end here (byte 120)",
    },
];

// That the line of a notice is this one.
fn is_told(rt: &impl Abort, heap: Global, notice: Notice<'_>, told: &str) -> Result<(), Fail> {
    let line = notice.to_string(heap)?;
    assert_eq!(rt; line.as_str(), told);
    Ok(())
}

fn notice_of(message: &Message) -> Notice<'static> {
    let fault = Fault {
        question: message.question,
        due: message.due,
        line: 7,
        place: 120,
    };
    Notice::of_fault("pages", fault)
}

#[test]
fn one_line_for_each_fault(rt: HostRuntime) -> Result<(), Fail> {
    for message in MESSAGES {
        is_told(&rt, rt.alloc(), notice_of(message), message.told)?;
    }
    is_told(&rt, rt.alloc(), Notice::too_long("-"), TOO_LONG)
}
