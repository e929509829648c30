//! A bell on which one thread sleeps until another rings it.
use std::sync::Wait;
use std::sync::atomic::{AtomicU64, Ordering};

/// Counts its rings, so that a ring between a look and the sleep after it is not missed.
#[derive(Drop)]
pub struct Bell {
    rings: AtomicU64,
    sleepers: AtomicU64,
}

impl Bell {
    /// A bell that was never rung.
    pub fn new() -> Bell {
        Bell {
            rings: AtomicU64::new(0),
            sleepers: AtomicU64::new(0),
        }
    }

    /// Wakes the thread that sleeps here, if there is one.
    pub fn ring(&self) {
        self.rings.fetch_add(1, Ordering::SeqCst);
        if self.sleepers.load(Ordering::SeqCst) != 0 {
            self.rings.wake_one();
        }
    }

    /// The number of rings so far, up to 2^32, for `sleep`.
    pub fn heard(&self) -> u32 {
        (self.rings.load(Ordering::SeqCst) % (1 << 32)) as u32
    }

    /// Sleeps until a ring after those that were `heard`.
    pub fn sleep<R: Wait>(&self, rt: &R, heard: u32) {
        self.sleepers.fetch_add(1, Ordering::SeqCst);
        self.rings.park(rt, heard);
        self.sleepers.fetch_sub(1, Ordering::SeqCst);
    }
}
