// A list in the front of lent memory, read newest first. No Vec: nothing in the machine may fail for want of memory.
ghost use Rattle.std.specs.Prelude.{◌≡◌, ◌+◌, ◌-◌, ◌<◌, ◌≤◌, [], ◌∷◌, length, reverse, take, slice_get};
ghost use Rattle.house.specs.Machine.{drop_one};
ghost use Rattle.simulator.specs.Kept.{without};

use crate::cached::Cached;

// There is no room for one more.
#[derive(Clone, Copy, PartialEq, Eq, Debug)]
pub struct NoRoom;

#[derive(Drop)]
pub struct Front<'a, T> {
    all: &'a mut [T],
    count: usize,
    ghost within: { count ≤ length all.now },
}

impl<'a, T: Copy> Front<'a, T> {
    ghost use Rattle.simulator.specs.Lists.{newest};

    // Nothing in it yet.
    pub fn new(all: &'a mut [T]) -> Self
        ensures list { newest result ≡ [] }
        ensures count { result.count ≡ 0 }
        ensures len { length result.all.now ≡ length all.old }
    {
        Front { all, count: 0 }
    }

    pub fn len(&self) -> usize
        ensures { result ≡ self.now.count }
    {
        self.items().len()
    }

    // How many more there is room for.
    pub fn room(&self) -> usize
        ensures { result + self.now.count ≡ length self.now.all.now }
    {
        self.all.len() - self.count
    }

    // The oldest first.
    pub fn items(&self) -> &[T]
        ensures items { result.now ≡ take self.now.count self.now.all.now }
        ensures len { length result.now ≡ self.now.count }
    {
        &self.all[..self.count]
    }

    // The newest, if there is one.
    pub fn latest(&self) -> Option<T>
        ensures { result ≡ slice_get (newest self.now) 0 }
    {
        self.items().last().copied()
    }

    pub fn push(&mut self, x: T)
        requires { self.old.count < length self.old.all.now }
        ensures list { newest self.new ≡ x ∷ newest self.old }
        ensures count { self.new.count ≡ self.old.count + 1 }
        ensures len { length self.new.all.now ≡ length self.old.all.now }
    {
        self.all[self.count] = x;
        self.count += 1;
    }

    // Takes the one at `i` out, the oldest being at 0; those behind it move up.
    #[tactic(auto, using(crate::proofs::Listed::taken_out))]
    pub fn remove(&mut self, i: usize)
        requires { i < self.old.count }
        ensures list { newest self.new ≡ drop_one (self.old.count - 1 - i) (newest self.old) }
        ensures count { self.new.count + 1 ≡ self.old.count }
        ensures len { length self.new.all.now ≡ length self.old.all.now }
    {
        self.all.copy_within(i + 1..self.count, i);
        self.count -= 1;
    }
}

// Moves what is not of device `d` among the first `n` to the front, and says how much that is.
// The loop stays: a slice has no `retain`, and the list is lent, with no heap.
fn sift<T: Cached>(all: &mut [T], n: usize, d: u64) -> usize
    requires { n ≤ length all.old }
    ensures list { reverse (take result all.new) ≡ without T.device_of d (reverse (take n all.old)) }
    ensures within { result ≤ n }
{
    let mut kept = 0;
    for i in 0..n {
        let x = all[i];
        if x.device() as u64 != d {
            all[kept] = x;
            kept += 1;
        }
    }
    kept
}

impl<'a, T: Cached> Front<'a, T> {
    ghost use Rattle.simulator.specs.Lists.{newest};

    // Takes all of a device out; any number may be asked for.
    pub fn forget(&mut self, d: u64)
        ensures list { newest self.new ≡ without T.device_of d (newest self.old) }
        ensures len { length self.new.all.now ≡ length self.old.all.now }
    {
        self.count = sift(self.all, self.count, d);
    }
}
