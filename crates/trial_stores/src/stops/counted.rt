//! A disk that counts its calls, since the kit's disks do not.

use sqlite_disk::{Crash, Disk, Tally};
use std::io;

/// A disk, and how many of its calls were lengths, reads, writes, changes of the length or syncs, the failed ones
/// included.
#[derive(Drop)]
pub struct CountedDisk<D: Disk> {
    inner: D,
    calls: u64,
}

impl<D: Disk> CountedDisk<D> {
    /// This disk, before any call.
    pub fn new(inner: D) -> CountedDisk<D> {
        CountedDisk { inner, calls: 0 }
    }

    /// How many calls were made.
    pub fn calls(&self) -> u64 {
        self.calls
    }

    /// The disk.
    pub fn inner(&self) -> &D {
        &self.inner
    }
}

impl<D: Disk> Disk for CountedDisk<D> {
    ghost seen = { λ c. D.Disk.seen c.inner };

    ghost may_leave = { λ c. D.Disk.may_leave c.inner };

    ghost is_usable = { λ c. D.Disk.is_usable c.inner };

    ghost faults = { λ c. D.Disk.faults c.inner };

    ghost tally_of = { λ c. D.Disk.tally_of c.inner };

    ghost is_clean = { λ c. D.Disk.is_clean c.inner };

    ghost key_of = { λ c. D.Disk.key_of c.inner };

    ghost is_fair = { λ c. D.Disk.is_fair c.inner };

    ghost fair_if_clean = { λ c. D.Disk.fair_if_clean c.inner };

    ghost seen_may_stay = { λ c. D.Disk.seen_may_stay c.inner };

    ghost is_mixing = { λ c. D.Disk.is_mixing c.inner };

    fn mixes(&self) -> bool {
        self.inner.mixes()
    }

    fn key(&self) -> u64 {
        self.inner.key()
    }

    fn tally(&self) -> Tally {
        self.inner.tally()
    }

    fn may_be_used(&self) -> bool {
        self.inner.may_be_used()
    }

    fn len(&mut self) -> io::Result<usize> {
        self.calls = self.calls.saturating_add(1);
        self.inner.len()
    }

    fn read_at(&mut self, at: usize, buf: &mut [u8]) -> io::Result<()> {
        self.calls = self.calls.saturating_add(1);
        self.inner.read_at(at, buf)
    }

    fn read_checked(&mut self, key: u64, want: u64, at: usize, buf: &mut [u8]) -> io::Result<()> {
        self.calls = self.calls.saturating_add(1);
        self.inner.read_checked(key, want, at, buf)
    }

    fn write_at(&mut self, at: usize, bytes: &[u8]) -> io::Result<()> {
        self.calls = self.calls.saturating_add(1);
        self.inner.write_at(at, bytes)
    }

    fn set_len(&mut self, len: usize) -> io::Result<()> {
        self.calls = self.calls.saturating_add(1);
        self.inner.set_len(len)
    }

    fn sync(&mut self) -> io::Result<()> {
        self.calls = self.calls.saturating_add(1);
        self.inner.sync()
    }
}

impl<D: Crash> Crash for CountedDisk<D> {
    fn crash(&mut self) {
        self.inner.crash();
    }
}
