//! How much was read, how fast, and how long the rest takes, as a line for a person.
use std::fmt;

/// How much was read, and in what time.
#[derive(Clone, Copy)]
pub struct Pace {
    /// How many octets were read.
    pub done: u64,
    /// How many there are to read, where that is known.
    pub total: Option<u64>,
    /// How many milliseconds that took so far.
    pub millis: u64,
}

impl Pace {
    /// How many octets were read in a second, rounded down.
    fn rate(&self) -> u64 {
        self.done.saturating_mul(1000) / self.millis.max(1)
    }

    /// How many seconds the rest takes at this rate, rounded up, where that can be said.
    fn seconds_left(&self) -> Option<u64> {
        let rest = self.total?.saturating_sub(self.done);
        let rate = self.rate();
        if rate == 0 {
            return None;
        }
        Some(rest.div_ceil(rate))
    }
}

/// As `1.2 GB of 4.8 GB, 410 MB/s, 9 s left`, or `1.2 GB, 410 MB/s` where the size isn't known. A
/// file that grew is as long as what was read of it.
impl fmt::Display for Pace {
    fn fmt<W: fmt::Write>(&self, f: &mut fmt::Formatter<W>) -> fmt::Result {
        let done = Amount(self.done);
        write!(f, "{done}")?;
        if let Some(total) = self.total {
            let total = Amount(total.max(self.done));
            write!(f, " of {total}")?;
        }
        let rate = Amount(self.rate());
        write!(f, ", {rate}/s")?;
        if let Some(seconds) = self.seconds_left() {
            let span = Span(seconds);
            write!(f, ", {span} left")?;
        }
        Ok(())
    }
}

/// So many octets, rounded down to two digits or to whole units.
#[derive(Clone, Copy)]
struct Amount(u64);

impl fmt::Display for Amount {
    fn fmt<W: fmt::Write>(&self, f: &mut fmt::Formatter<W>) -> fmt::Result {
        let (mut whole, mut thousandths, mut unit) = (self.0, 0, "B");
        for greater in ["kB", "MB", "GB", "TB"].iter() {
            if whole >= 1000 {
                thousandths = whole % 1000;
                whole /= 1000;
                unit = *greater;
            }
        }
        let tenth = thousandths / 100;
        if self.0 >= 1000 && whole < 10 {
            write!(f, "{whole}.{tenth} {unit}")
        } else {
            write!(f, "{whole} {unit}")
        }
    }
}

/// So many seconds.
#[derive(Clone, Copy)]
struct Span(u64);

impl fmt::Display for Span {
    fn fmt<W: fmt::Write>(&self, f: &mut fmt::Formatter<W>) -> fmt::Result {
        let (minutes, seconds) = (self.0 / 60, self.0 % 60);
        let (hours, minutes_of_hour) = (minutes / 60, minutes % 60);
        if hours > 0 {
            write!(f, "{hours} h {minutes_of_hour} min")
        } else if minutes > 0 {
            write!(f, "{minutes} min {seconds} s")
        } else {
            write!(f, "{seconds} s")
        }
    }
}
