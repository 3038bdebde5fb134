// A device: its group, and the program that may open it.
// It may be lent from C.
#[repr(C)]
#[derive(Clone, Copy, PartialEq, Eq, Debug)]
pub struct Device {
    pub group: u32,
    pub driver: u32,
}
