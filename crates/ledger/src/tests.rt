// Packed records as a table, and rooms of the fewest and of the most frames.
ghost use Rattle.ledger.specs.Words.{UseFits};
ghost use Rattle.ledger.specs.Rooms.{Same};
ghost use Rattle.std.specs.Prelude.{◌+◌, ◌*◌, ◌<◌, ◌≤◌, length};

use crate::frames::use_at;
use crate::record::{Record, read};
use crate::searches::{find_idle, is_at, loan_shown};
use crate::{Address, Device, Loan, Mapping, Place, Room, Slot, Use, Which};

// Whether a use is packed into these words, and read and unpacked from them.
fn packs(used: Use, low: u64, high: u64) -> bool
    requires { UseFits used }
{
    let record = Record::pack(used);
    let packed = record.low == low && record.high == high;
    packed && read(low, high) == used && record.unpack() == used
}

#[test]
fn records(rt: HostRuntime) {
    assert!(rt; packs(Use::House, 0, 0));
    assert!(rt; packs(Use::Idle, 2, 0));
    assert!(rt;
        packs(
            Use::TableOf {
                device: 0,
                which: Which::Upper,
            },
            1,
            0,
        )
    );
    assert!(rt;
        packs(
            Use::TableOf {
                device: 31,
                which: Which::Upper,
            },
            125,
            0,
        )
    );
    assert!(rt;
        packs(
            Use::TableOf {
                device: 31,
                which: Which::Lower(511),
            },
            125,
            512,
        )
    );
    assert!(rt;
        packs(
            Use::PageOf {
                who: 0,
                place: 0,
                loan: Loan::Home,
            },
            3,
            0,
        )
    );
    assert!(rt;
        packs(
            Use::PageOf {
                who: 31,
                place: 1023,
                loan: Loan::Home,
            },
            131071,
            0,
        )
    );
}

#[test]
fn loans(rt: HostRuntime) {
    assert!(rt;
        packs(
            Use::PageOf {
                who: 1,
                place: 2,
                loan: Loan::Lent(Mapping {
                    device: 0,
                    page: 0,
                    writes: false,
                }),
            },
            4107,
            1,
        )
    );
    assert!(rt;
        packs(
            Use::PageOf {
                who: 1,
                place: 2,
                loan: Loan::Lent(Mapping {
                    device: 3,
                    page: 5,
                    writes: true,
                }),
            },
            4107,
            3145750,
        )
    );
    assert!(rt;
        packs(
            Use::PageOf {
                who: 1,
                place: 2,
                loan: Loan::Leaving(Mapping {
                    device: 3,
                    page: 5,
                    writes: false,
                }),
            },
            4107,
            3145751,
        )
    );
    assert!(rt;
        packs(
            Use::PageOf {
                who: 1,
                place: 2,
                loan: Loan::Leaving(Mapping {
                    device: 31,
                    page: 262143,
                    writes: true,
                }),
            },
            4107,
            33554432,
        )
    );
}

// A page at a place that shows nothing.
fn get(room: &mut Room, at: Address) -> Option<u32>
    ensures { Same room.old room.new }
{
    if room.place(at) != Place::Nothing {
        return None;
    }
    let f = find_idle(room.words(), room.frames(), 0)?;
    room.new_page(at, f);
    Some(f)
}

// How many pages a program can get at its places.
fn fill(room: &mut Room, who: u32) -> u32
    requires { who < 32 }
    ensures { Same room.old room.new }
{
    let mut pages = 0;
    for v in 0..1024 {
        if get(room, Address { who, v }).is_some() {
            pages = v + 1;
        }
    }
    pages
}

// An empty room of so many frames, in which program 31 has all the pages that it can get.
fn filled(words: &mut [u64], frames: u32) -> u32
    requires long { 65536 + 2 * frames ≤ length words.old }
    requires some { 0 < frames }
    requires few { frames ≤ 65536 }
{
    fill(&mut Room::set_up(words, frames), 31)
}

#[test]
fn fewest_frames(rt: HostRuntime) {
    let mut room = [7; 65665];
    let pages = filled(&mut room, 64);
    assert!(rt; pages == 63);
    assert!(rt; room[65664] == 7);
    assert!(rt; find_idle(&room, 64, 17).is_none());
}

#[test]
fn most_frames(rt: HostRuntime) {
    let mut room = [u64::MAX; 196608];
    let pages = filled(&mut room, 65536);
    assert!(rt; pages == 1024);
    assert_eq!(rt; use_at(&room, 0), Use::House);
    assert_eq!(rt;
        use_at(&room, 1024),
        Use::PageOf {
            who: 31,
            place: 1023,
            loan: Loan::Home,
        }
    );
    assert_eq!(rt; use_at(&room, 65535), Use::Idle);
    assert_eq!(rt; find_idle(&room, 65536, 65535), Some(65535));
    assert_eq!(rt; find_idle(&room, 65536, 65536), Some(1025));
}

const SLOT: Slot = Slot {
    device: 2,
    index: 1,
};

const PAGE: Address = Address { who: 3, v: 9 };

// Program 3 opens device 2, whose slot 1 gets a lower table.
fn ready(room: &mut Room) -> Option<u32>
    ensures { Same room.old room.new }
{
    if room.device(2) != Device::Shut {
        return None;
    }
    let top = find_idle(room.words(), room.frames(), 0)?;
    room.open_device(3, 2, top);
    slotted(room)
}

fn slotted(room: &mut Room) -> Option<u32>
    ensures { Same room.old room.new }
{
    if room.device(2) != Device::Opened(3) || room.lower(SLOT).is_some() {
        return None;
    }
    let low = find_idle(room.words(), room.frames(), 0)?;
    room.add_lower(SLOT, low);
    Some(low)
}

// The page of program 3 at place 9 is lent to device 2 at page 519, where there is none yet.
fn lent(room: &mut Room) -> bool
    ensures { Same room.old room.new }
{
    let Place::Page(f) = room.place(PAGE) else {
        return false;
    };
    if room.device(2) != Device::Opened(3)
        || room.lower(SLOT).is_none()
        || room.page_taken(2, 519)
    {
        return false;
    }
    room.lend_page(
        PAGE,
        f,
        Mapping {
            device: 2,
            page: 519,
            writes: true,
        },
    );
    true
}

// Device 2 is swept for program 3, if that has it open.
fn swept(room: &mut Room, home: bool) -> bool
    ensures { Same room.old room.new }
{
    if room.device(2) != Device::Opened(3) {
        return false;
    }
    if home {
        room.home_all(3, 2);
    } else {
        room.leave_all(3, 2);
    }
    true
}

// Frame 1, the page of program 3 at place 9, has this loan.
fn has_loan(room: &Room, loan: Loan) -> bool {
    room.frames() > 1
        && room.used(1)
            == Use::PageOf {
                who: 3,
                place: 9,
                loan,
            }
}

// Whether a page of program 3 is lent to device d or leaving it at page p, by the frames' records.
fn recorded(room: &Room, d: u32, p: u32) -> bool {
    for v in 0..1024 {
        if is_at(
            loan_shown(room.words(), room.frames(), Address { who: 3, v }),
            d,
            p,
        ) {
            return true;
        }
    }
    false
}

// Tags and records agree on whether page 519 of device 2 is taken; page 518 is not.
fn taken(room: &Room, says: bool) -> bool {
    room.page_taken(2, 519) == says && recorded(room, 2, 519) == says && !room.page_taken(2, 518)
}

// A page is lent; it can't be lent there again until it has come home.
fn lent_once(words: &mut [u64]) -> bool
    requires { 65664 ≤ length words.old }
{
    let mut room = Room::set_up(words, 64);
    let given = get(&mut room, PAGE).is_some() && ready(&mut room).is_some() && lent(&mut room);
    if !given
        || !taken(&room, true)
        || lent(&mut room)
        || !has_loan(
            &room,
            Loan::Lent(Mapping {
                device: 2,
                page: 519,
                writes: true,
            }),
        )
    {
        return false;
    }
    let left = swept(&mut room, false)
        && has_loan(
            &room,
            Loan::Leaving(Mapping {
                device: 2,
                page: 519,
                writes: true,
            }),
        );
    if !left || !taken(&room, true) || lent(&mut room) {
        return false;
    }
    swept(&mut room, true) && has_loan(&room, Loan::Home) && taken(&room, false) && lent(&mut room)
}

#[test]
fn loans_come_and_go(rt: HostRuntime) {
    let mut room = [0; 65664];
    assert!(rt; lent_once(&mut room));
    // Program 3's place 9 shows frame 1, with the tag of page 519 of device 2.
    assert!(rt; room[3081] == 68787634178);
}
