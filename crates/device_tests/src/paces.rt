//! Tests: the line of how far a reading is.
use devices::Pace;
use std::io;

#[test]
fn lines(rt: HostRuntime) -> io::Result<()> {
    // octets, of how many, in milliseconds
    let rows: &[(u64, Option<u64>, u64, &str)] = &[
        (
            1_230_000_000,
            Some(4_800_000_000),
            3000,
            "1.2 GB of 4.8 GB, 410 MB/s, 9 s left",
        ),
        (1_230_000_000, None, 3000, "1.2 GB, 410 MB/s"),
        (0, Some(999), 1000, "0 B of 999 B, 0 B/s"),
        (0, None, 0, "0 B, 0 B/s"),
        (999, Some(1000), 1000, "999 B of 1.0 kB, 999 B/s, 1 s left"),
        (
            1000,
            Some(1000),
            1000,
            "1.0 kB of 1.0 kB, 1.0 kB/s, 0 s left",
        ),
        // rounded down, and a file that grew
        (
            9_999,
            Some(9_000),
            2000,
            "9.9 kB of 9.9 kB, 4.9 kB/s, 0 s left",
        ),
        (
            10_000,
            Some(99_999_999),
            1000,
            "10 kB of 99 MB, 10 kB/s, 2 h 46 min left",
        ),
        (1, Some(61), 1000, "1 B of 61 B, 1 B/s, 1 min 0 s left"),
        (1, Some(3601), 1000, "1 B of 3.6 kB, 1 B/s, 1 h 0 min left"),
        // less than an octet a second
        (1, Some(3601), 1001, "1 B of 3.6 kB, 0 B/s"),
        (
            999_999_999_999,
            Some(5_000_000_000_000_000),
            1_000_000,
            "999 GB of 5000 TB, 999 MB/s, 1388 h 36 min left",
        ),
    ];
    for (done, total, millis, line) in rows {
        let pace = Pace {
            done: *done,
            total: *total,
            millis: *millis,
        };
        let told = format!(in rt.alloc(); "{pace}")?;
        assert_eq!(rt; told.as_str(), *line);
    }
    Ok(())
}
