// What the IOMMU may have cached of a device, at each level of its walk. Room for it may be lent from C.
ghost use Rattle.std.specs.Prelude.{◌≡◌, ℕ, true};

pub trait Cached: Copy + Eq {
    ghost device_of: { Self → ℕ };

    fn device(&self) -> u32
        ensures { result ≡ device_of self.now };

    // what compares as equal is the same
    ghost same: { (x y : Self) → Self.eq x y ≡ true → x ≡ y };
}

// An upper table: the frame that it is in.
#[repr(C)]
#[derive(Clone, Copy, PartialEq, Eq, Debug, Default)]
pub struct UpperTable {
    pub device: u32,
    pub table: u64,
}

// A lower table, which covers the pages from 512 times `slot` on.
#[repr(C)]
#[derive(Clone, Copy, PartialEq, Eq, Debug, Default)]
pub struct LowerTable {
    pub device: u32,
    pub slot: u32,
    pub table: u64,
}

// A page's entry: 1 and twice the frame, and 1 more where it may be written.
#[repr(C)]
#[derive(Clone, Copy, PartialEq, Eq, Debug, Default)]
pub struct PageEntry {
    pub device: u32,
    pub page: u32,
    pub entry: u64,
}

// One impl a type, of one line: a macro of our own may write no impl.
impl Cached for UpperTable {
    ghost use Rattle.std.proofs.Common.{rules};

    ghost device_of = { λ u. u.device };

    ghost same = { Prim.search rules };

    fn device(&self) -> u32 {
        self.device
    }
}

impl Cached for LowerTable {
    ghost use Rattle.std.proofs.Common.{rules};

    ghost device_of = { λ l. l.device };

    ghost same = { Prim.search rules };

    fn device(&self) -> u32 {
        self.device
    }
}

impl Cached for PageEntry {
    ghost use Rattle.std.proofs.Common.{rules};

    ghost device_of = { λ e. e.device };

    ghost same = { Prim.search rules };

    fn device(&self) -> u32 {
        self.device
    }
}
