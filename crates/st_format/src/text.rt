//! Texts, parted at a separator, and lines.
ghost use Rattle.std.specs.Prelude.{◌≡◌, ◌<◌, ◌==◌, IfSome, length, position};
ghost use Rattle.std.specs.Option.{option_map};
ghost use Rattle.std.specs.Str.Lines.{strip_carriage_return};
ghost use Rattle.st_format.specs.Text.{parted};

/// The two parts of a text at its first `separator`, which is in neither; none where it has none.
pub fn split_once(text: &[u8], separator: u8) -> Option<(&[u8], &[u8])>
    ensures parts { option_map (λ p. (p.0.now, p.1.now)) result ≡ parted separator text.now }
    ensures shorter { IfSome result (λ p. length p.1.now < length text.now) }
{
    match place_of_octet(text, separator) {
        Some(place) => Some((&text[..place], &text[place + 1..])),
        None => None,
    }
}

fn place_of_octet(text: &[u8], octet: u8) -> Option<usize>
    ensures { result ≡ position (λ x. x == octet) text.now }
{
    text.iter().position(|x| *x == octet)
}

/// A line without the one CR at its end, where it has one: lines may end in CR and LF.
pub fn without_carriage_return(line: &[u8]) -> &[u8]
    ensures { result.now ≡ strip_carriage_return line.now }
{
    match line {
        [front @ .., b'\r'] => front,
        _ => line,
    }
}
