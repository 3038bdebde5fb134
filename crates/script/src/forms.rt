// What a line of a script can be. A number of 32 bits is 2^32 - 1 where the script has a larger one.

// What a program asks of the keeper. v: a place in its own space; d: a device; p: a page of what a device sees.
// The keeper has a type with the same variants: a reader of scripts doesn't stand on the keeper, so each has its own.
#[derive(Clone, Copy, PartialEq, Eq, Debug)]
pub enum Request {
    Get {
        v: u32,
    },
    Free {
        v: u32,
    },
    Give {
        v: u32,
        to: u32,
        at: u32,
    },
    Open {
        d: u32,
    },
    Close {
        d: u32,
    },
    Regs {
        d: u32,
        v: u32,
    },
    Lend {
        v: u32,
        d: u32,
        p: u32,
        writes: bool,
    },
    Recall {
        v: u32,
    },
    End {
        who: u32,
    },
}

#[derive(Clone, Copy, PartialEq, Eq, Debug)]
pub enum Line {
    // The program `who` asks the keeper.
    Call { who: u32, request: Request },
    // The program `who` reaches a word of what it is shown at v.
    Store { who: u32, v: u32, word: u32, x: u64 },
    Load { who: u32, v: u32, word: u32 },
    // An access under the number of device d.
    Read { d: u32, p: u32, word: u32 },
    Write { d: u32, p: u32, word: u32, x: u64 },
    // The IOMMU reads a page's mapping and keeps it; a write by a mapping that it kept.
    Keep { d: u32, p: u32 },
    Kept { d: u32, p: u32, word: u32, x: u64 },
    // The next n drains say no.
    Refuse { n: u64 },
    // Tricks chosen by s from now on.
    Seed { s: u64 },
    // Another machine, as at the start.
    New,
}
