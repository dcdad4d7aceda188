// Signals among sessions, outside the table.
use std::sync::atomic::{AtomicU64, Ordering};
use std::thread;

// The number of turns that a session waits at most.
const TURNS: u32 = 1_000_000;

// This many signals are enough for all sessions that wait.
const FOR_ALL: u64 = 1 << 32;

// The numbers of sessions that have started, of signals that were sent, and of answers that were asked for.
#[derive(Drop)]
pub struct Signals {
    there: AtomicU64,
    sent: AtomicU64,
    asked: AtomicU64,
}

// Returns the count so far.
fn count_of(counter: &AtomicU64) -> u64 {
    counter.load(Ordering::SeqCst)
}

// Waits until the count is at least this high. Returns whether it was.
fn reaches(counter: &AtomicU64, least: u64) -> bool {
    for _ in 0..TURNS {
        if count_of(counter) >= least {
            return true;
        }
        thread::yield_now();
    }
    false
}

impl Signals {
    pub fn new() -> Signals {
        Signals {
            there: AtomicU64::new(0),
            sent: AtomicU64::new(0),
            asked: AtomicU64::new(0),
        }
    }

    // Counts a session that has started, and waits until this many have. Returns whether they did: if a thread ran out of memory,
    // some do not, or start after others have ended. These send enough signals for all, so that a late session waits for none of them.
    pub fn gathers(&self, sessions: u64) -> bool {
        self.there.fetch_add(1, Ordering::SeqCst);
        let all = reaches(&self.there, sessions);
        if !all {
            self.sent.fetch_add(FOR_ALL, Ordering::SeqCst);
        }
        all
    }

    // Sends a signal to all sessions.
    pub fn send(&self) {
        self.sent.fetch_add(1, Ordering::SeqCst);
    }

    // Returns whether this many signals were sent.
    pub fn was_sent(&self, times: u64) -> bool {
        count_of(&self.sent) >= times
    }

    // Waits until this many signals were sent. Returns whether they were.
    pub fn awaits(&self, times: u64) -> bool {
        reaches(&self.sent, times)
    }

    // Counts an answer that is asked for.
    pub fn ask(&self) {
        self.asked.fetch_add(1, Ordering::SeqCst);
    }

    // Returns how many answers were asked for.
    pub fn asked(&self) -> u64 {
        count_of(&self.asked)
    }

    // Waits until more than this many answers were asked for. Returns whether they were.
    pub fn awaits_asking(&self, times: u64) -> bool {
        reaches(&self.asked, times.wrapping_add(1))
    }
}
