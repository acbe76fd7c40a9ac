//! A watch, which tells how long calls take.

use std::time::{Duration, Instant};

/// Runs during the calls that are timed: tables and stores are made before it starts.
#[derive(Drop)]
pub(crate) struct Watch<'a> {
    rt: &'a HostRuntime,
    started: Option<Instant>,
    taken: Option<Duration>,
}

impl<'a> Watch<'a> {
    pub(crate) fn new(rt: &'a HostRuntime) -> Watch<'a> {
        Watch {
            rt,
            started: None,
            taken: None,
        }
    }

    pub(crate) fn start(&mut self) {
        self.started = Instant::now(self.rt).ok();
    }

    pub(crate) fn stop(&mut self) {
        if let Some(started) = self.started {
            self.taken = started.elapsed(self.rt).ok();
        }
    }

    /// How long it ran, or `None` where it was not started and stopped, or the clock could not be read.
    pub(crate) fn nanoseconds(&self) -> Option<u128> {
        Some(self.taken?.as_nanos())
    }
}
