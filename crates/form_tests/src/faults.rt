//! The number, the name and the words of each fault of forms.
use crate::checks::met;
use picture_forms::FormFault;
use test_kit::words::says;

const OF_FORMS: [(FormFault, u8, &str, &str); 8] = [
    (FormFault::NoMemory, 1, "NoMemory", "the memory was refused"),
    (FormFault::Device, 2, "Device", "the device failed"),
    (
        FormFault::BadMagic,
        3,
        "BadMagic",
        "the first octets are those of another form",
    ),
    (
        FormFault::BadHeader,
        4,
        "BadHeader",
        "a header isn't in the form's grammar",
    ),
    (
        FormFault::UnsupportedForm,
        5,
        "UnsupportedForm",
        "the pictures are of a kind that is not read",
    ),
    (
        FormFault::BadFormat,
        6,
        "BadFormat",
        "width, height or rate is outside the limits",
    ),
    (
        FormFault::Truncated,
        7,
        "Truncated",
        "the octets end within a header or a picture",
    ),
    (
        FormFault::ValueTooLarge,
        8,
        "ValueTooLarge",
        "a value has more bits than a sample of the format",
    ),
];

#[test]
fn of_forms(rt: HostRuntime) {
    for (fault, number, name, words) in &OF_FORMS {
        met(&rt, fault.number() == *number && fault.name() == *name);
        met(&rt, says(rt.alloc(), fault, words));
    }
}
