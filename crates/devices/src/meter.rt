//! What a person is told while a command reads its files. It is for a person alone: that a clock or
//! standard error fails changes nothing.
use crate::pace::Pace;
use std::cell::{Cell, RefCell};
use std::fs;
use std::io::{Stderr, Write};
use std::rc::Rc;
use std::time::Instant;

/// How many milliseconds are between two lines, at least.
const BETWEEN: u64 = 1000;

/// What takes a line from a terminal.
const CLEARED: &[u8] = b"\r\x1b[K";

/// What the files of a command tell how much of them is read, and who tells that to standard error.
/// All that share it count together.
#[derive(Drop)]
pub struct Meter {
    /// None of it where nothing is told.
    shown: Option<Rc<Shown>>,
}

/// What is counted, and where it is told.
#[derive(Drop)]
struct Shown {
    start: Instant,
    error: RefCell<Stderr>,
    /// Whether a line takes the place of the last, as at a terminal.
    is_rewritten: bool,
    /// Whether such a line stands there.
    stands: Cell<bool>,
    /// How many octets the files have together, where that is known of all.
    size: Cell<Option<u64>>,
    /// How many times they are still to be read.
    readings: Cell<u64>,
    /// How many octets had been read where the first of these readings began.
    begun: Cell<u64>,
    /// How many octets were read.
    done: Cell<u64>,
    /// When the last line came, in milliseconds behind the start.
    last: Cell<u64>,
}

impl Meter {
    /// One that tells nothing.
    pub fn silent() -> Meter {
        Meter { shown: None }
    }

    /// One that tells standard error once a second how much was read from now on, how fast, and how
    /// long the rest takes, where that can be said: a line each, or in one place of a terminal. It
    /// tells nothing where there is no clock, or no memory for it.
    pub fn start(rt: &HostRuntime, is_rewritten: bool) -> Meter {
        let Ok(start) = Instant::now(rt) else {
            return Meter::silent();
        };
        let shown = Shown {
            start,
            error: RefCell::new(rt.stderr()),
            is_rewritten,
            stands: Cell::new(false),
            size: Cell::new(Some(0)),
            readings: Cell::new(1),
            begun: Cell::new(0),
            done: Cell::new(0),
            last: Cell::new(0),
        };
        Meter {
            shown: Rc::new(rt.alloc(), shown).ok(),
        }
    }

    /// The same for one more that reads or writes.
    pub fn share(&self) -> Meter {
        Meter {
            shown: match &self.shown {
                Some(shown) => shown.clone().ok(),
                None => None,
            },
        }
    }

    /// Counts a file among those that are read. Of what is no plain file no size is known.
    pub(crate) fn expect(&self, rt: &HostRuntime, path: &str) {
        if let Some(shown) = &self.shown {
            shown.expect(size_of(rt, path));
        }
    }

    /// Counts each file as read once more.
    pub fn expect_again(&self) {
        if let Some(shown) = &self.shown {
            shown.readings.set(shown.readings.get().saturating_add(1));
        }
    }

    /// One reading of the files is over, also where not all of them was read, and the next begins.
    pub fn begin_again(&self) {
        if let Some(shown) = &self.shown {
            shown.readings.set(shown.readings.get().saturating_sub(1));
            shown.begun.set(shown.done.get());
        }
    }

    /// Counts octets as read, and tells how far that is where a second is past.
    pub(crate) fn count(&self, rt: &HostRuntime, octets: u64) {
        if let Some(shown) = &self.shown {
            shown.done.set(shown.done.get().saturating_add(octets));
            shown.tell(rt);
        }
    }

    /// Takes what stands in a terminal's line from there, before others write to it.
    pub(crate) fn clear(&self) {
        if let Some(shown) = &self.shown {
            shown.clear();
        }
    }
}

impl Shown {
    fn expect(&self, size: Option<u64>) {
        let sum = match (self.size.get(), size) {
            (Some(sum), Some(size)) => Some(sum.saturating_add(size)),
            _ => None,
        };
        self.size.set(sum);
    }

    /// Tells how far the reading is, where a second is past.
    fn tell(&self, rt: &HostRuntime) {
        let Ok(passed) = self.start.elapsed(rt) else {
            return;
        };
        let millis = u64::try_from(passed.as_millis()).unwrap_or(u64::MAX);
        if millis.saturating_sub(self.last.get()) < BETWEEN {
            return;
        }
        self.last.set(millis);
        self.print(rt, self.pace(millis));
    }

    fn pace(&self, millis: u64) -> Pace {
        let total = match self.size.get() {
            Some(size) => {
                let rest = size.saturating_mul(self.readings.get());
                Some(self.begun.get().saturating_add(rest))
            }
            None => None,
        };
        Pace {
            done: self.done.get(),
            total,
            millis,
        }
    }

    fn print(&self, rt: &HostRuntime, pace: Pace) {
        let line = if self.is_rewritten {
            format!(in rt.alloc(); "\r{pace}\x1b[K")
        } else {
            format!(in rt.alloc(); "{pace}\n")
        };
        if let Ok(line) = line {
            self.write(line.as_bytes());
            self.stands.set(self.is_rewritten);
        }
    }

    fn clear(&self) {
        if self.stands.get() {
            self.write(CLEARED);
            self.stands.set(false);
        }
    }

    /// That standard error may fail changes nothing.
    fn write(&self, octets: &[u8]) {
        if let Ok(mut error) = self.error.try_borrow_mut() {
            let _ = error.write_all(octets);
        }
    }
}

/// How many octets the plain file of a name has.
fn size_of(rt: &HostRuntime, path: &str) -> Option<u64> {
    let found = fs::metadata(rt, path).ok()?;
    if found.is_file() {
        Some(found.len())
    } else {
        None
    }
}
