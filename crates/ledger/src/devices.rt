// The state of each device, and the frame of its upper table. These take bare words:
// a Room asks that they are consistent, and between two writes they need not be.
ghost use Rattle.std.specs.Prelude.{◌≡◌, ℕ, ◌<◌, ◌≤◌, length};
ghost use Rattle.ledger.specs.Words.{DeviceFits, device_from, device_word};
ghost use Rattle.ledger.specs.Room.{device_of, top_of, tag_of};
ghost use Rattle.ledger.specs.View.{view_of, with_device, with_top};

use crate::Device;
use crate::layout::device_word;
use crate::record::number;

pub fn device_at(words: &[u64], d: u32) -> Device
    requires long { 65536 ≤ length words.now }
    requires device { d < 32 }
    ensures { result ≡ device_of words.now d }
{
    Device::from(words[device_word(d)])
}

pub fn set_device(words: &mut [u64], d: u32, state: Device)
    requires long { 65536 ≤ length words.old }
    requires device { d < 32 }
    requires fits { DeviceFits state }
    ensures view { (n : ℕ) → view_of n words.new ≡ with_device d state (view_of n words.old) }
    ensures tags { tag_of words.new ≡ tag_of words.old }
{
    words[device_word(d)] = u64::from(state);
}

// The frame of the upper table of d, which a device has that is not shut; 0 where none is noted. It stays a number, since
// whoever asks knows that the device is not shut, and an Option would have to be taken apart there by a proof.
pub fn top_at(words: &[u64], d: u32) -> u32
    requires long { 65536 ≤ length words.now }
    requires device { d < 32 }
    ensures { result ≡ top_of words.now d }
{
    number(words[device_word(d) + 1])
}

// As `top_at`, a number: shutting writes 0 here, and opening the frame.
pub fn set_top(words: &mut [u64], d: u32, f: u32)
    requires long { 65536 ≤ length words.old }
    requires device { d < 32 }
    requires frame { f < 131072 }
    ensures view { (n : ℕ) → view_of n words.new ≡ with_top d f (view_of n words.old) }
    ensures tags { tag_of words.new ≡ tag_of words.old }
{
    words[device_word(d) + 1] = f as u64;
}

impl From<Device> for u64 {
    ghost from_gives = { λ state word. word ≡ device_word state };

    fn from(state: Device) -> u64 {
        match state {
            Device::Shut => 0,
            Device::Opened(who) => 1 + 2 * who as u64,
            Device::Closing(who) => 2 + 2 * who as u64,
        }
    }
}

impl From<u64> for Device {
    ghost from_gives = { λ word state. state ≡ device_from word };

    fn from(word: u64) -> Device {
        if word == 0 {
            return Device::Shut;
        }
        let who = ((word - 1) / 2 % 32) as u32;
        if (word - 1) % 2 == 1 {
            Device::Closing(who)
        } else {
            Device::Opened(who)
        }
    }
}
