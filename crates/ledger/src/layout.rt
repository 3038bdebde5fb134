// Where the tables lie in the room: places, lower tables, devices, and two words for each frame. They lie in words since the room is
// fixed from outside as a slice of words.
ghost use Rattle.std.specs.Prelude.{◌≡◌, ◌+◌, ◌*◌};

// Numbers, not an Address or a Slot: these say where any two numbers lead, and ask for nothing.

// 32 programs have 1,024 places each, from word 0 on.
pub fn place_word(who: u32, v: u32) -> usize
    ensures { result ≡ who * 1024 + v }
{
    who as usize * 1024 + v as usize
}

// 32 devices have 512 slots each, from here on.
pub const LOWER_TABLES: usize = 32768;

pub fn slot_word(d: u32, slot: u32) -> usize
    ensures { result ≡ 32768 + d * 512 + slot }
{
    LOWER_TABLES + d as usize * 512 + slot as usize
}

// 32 devices have two words each: the state, and the frame of the upper table.
pub const DEVICE_STATES: usize = 49152;

pub fn device_word(d: u32) -> usize
    ensures { result ≡ 49152 + 2 * d }
{
    DEVICE_STATES + 2 * d as usize
}

// From here to the frames' records nothing is kept.
pub const LEFT_OVER: usize = 49216;

// Each frame has two words.
pub const FRAME_RECORDS: usize = 65536;

pub fn frame_word(f: u32) -> usize
    ensures { result ≡ 65536 + 2 * f }
{
    FRAME_RECORDS + 2 * f as usize
}
