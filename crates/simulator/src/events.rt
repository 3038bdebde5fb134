// What happened, as the log tells it. House's Call and Answer are fixed as they are, and an event has no more derives than they have.
use house::{Answer, Call};

#[derive(Clone, Copy)]
pub enum Event {
    // a program makes a call, and is told its answer
    Asked {
        who: u32,
        call: Call,
    },
    Told {
        who: u32,
        call: Call,
        answer: Answer,
    },
    // it loads `x` from a word at a place, or stores it there; or nothing is mapped there
    Loaded {
        who: u32,
        v: u32,
        word: u32,
        x: u64,
    },
    Stored {
        who: u32,
        v: u32,
        word: u32,
        x: u64,
    },
    Faulted {
        who: u32,
        v: u32,
    },
    // it reaches the registers of a device there
    Poked {
        who: u32,
        v: u32,
        d: u32,
    },
    // an access in the name of a device, at its page `p`, reads a word of a frame, or writes it
    Took {
        d: u32,
        p: u32,
        frame: u32,
        word: u32,
        x: u64,
    },
    Put {
        d: u32,
        p: u32,
        frame: u32,
        word: u32,
        x: u64,
    },
    // an access finds no mapping there, or none that may be written
    Missed {
        d: u32,
        p: u32,
        writes: bool,
    },
    // the IOMMU was asked to forget a device, and said yes or no
    Drained {
        d: u32,
        said: bool,
    },
}
