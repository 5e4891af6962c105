//! The number, the name and the words of each fault of files and reports.
use crate::checks::met;
use capture_file::FileFault;
use frame_report::ReportFault;
use test_kit::words::says;

const OF_FILES: [(FileFault, u8, &str, &str); 9] = [
    (FileFault::NoMemory, 1, "NoMemory", "the memory was refused"),
    (FileFault::Device, 2, "Device", "the device failed"),
    (
        FileFault::BadName,
        3,
        "BadName",
        "the first six octets aren't the name of such a file",
    ),
    (
        FileFault::BadVersion,
        4,
        "BadVersion",
        "the two octets behind the name are no version that is read",
    ),
    (
        FileFault::Truncated,
        5,
        "Truncated",
        "the octets end within the name, a field or what a field counts",
    ),
    (
        FileFault::BadField,
        6,
        "BadField",
        "a field says what no such file says",
    ),
    (
        FileFault::TrailingBytes,
        7,
        "TrailingBytes",
        "an octet stands behind the file's last field",
    ),
    (
        FileFault::MixedGroup,
        8,
        "MixedGroup",
        "a contested group of samples is not spelled as one",
    ),
    (
        FileFault::TooManyRecords,
        9,
        "TooManyRecords",
        "there are more than 16777216 records",
    ),
];

#[test]
fn of_files(rt: HostRuntime) {
    for (fault, number, name, words) in &OF_FILES {
        met(&rt, fault.number() == *number && fault.name() == *name);
        met(&rt, says(rt.alloc(), fault, words));
    }
}

#[test]
fn of_reports(rt: HostRuntime) {
    met(
        &rt,
        ReportFault::Device.number() == 1 && ReportFault::Device.name() == "Device",
    );
    met(
        &rt,
        says(rt.alloc(), &ReportFault::Device, "the sink failed"),
    );
}
