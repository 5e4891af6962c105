//! Decimal numbers in texts.
ghost use Rattle.std.specs.Prelude.{◌≡◌};
ghost use Rattle.std.specs.Option.{SomeIff};
ghost use Rattle.std.specs.Str.Parse.{digits_value};
ghost use Rattle.st_format.specs.Words.{IsNumber, number};

/// The value of the digits, the first one the highest.
fn value_of(text: &[u8]) -> Option<u32>
    ensures { SomeIff result (IsNumber text.now) (digits_value 10 text.now) }
{
    if text.is_empty() || text.len() > 10 {
        return None;
    }
    let mut value = 0u64;
    for octet in text {
        if !octet.is_ascii_digit() {
            return None;
        }
        value = 10 * value + u64::from(*octet - b'0');
    }
    u32::try_from(value).ok()
}

/// The value of a number: one to ten decimal digits, leading zeros among them, whose value is at
/// most 4,294,967,295. Any other text is none.
pub fn read_number(text: &[u8]) -> Option<u32>
    ensures value { SomeIff result (IsNumber text.now) (digits_value 10 text.now) }
    // The same by the test, for the walks that go on from it.
    ensures exact { result ≡ number text.now }
{
    value_of(text)
}
