//! The form that a line at fault was to have: that of its first word, and else any that may stand
//! in its place.
use run_outcome::Form;
use st_format::split_once;

/// The form that was wanted of a line of `trace` behind the first two.
pub(crate) fn traced_form(text: &[u8]) -> Form {
    match first_word(text) {
        b"A" | b"B" => Form::Datagram,
        b"slide" => Form::Slide,
        b"cell" => Form::Cell,
        b"numbers" => Form::Numbers,
        _ => Form::Traced,
    }
}

/// The form that was wanted of a line of `rehearse` behind the first five, where events stand
/// before it or none does.
pub(crate) fn body_form(text: &[u8], has_events: bool) -> Form {
    match (first_word(text), has_events) {
        (b"picture", false) => Form::Picture,
        (b"arrive", _) => Form::Arrive,
        (b"slide", _) => Form::SlideAt,
        (b"merge", _) => Form::Merge,
        (_, true) => Form::Event,
        (_, false) => Form::PictureOrEvent,
    }
}

/// What stands before the first space: by it a line tells which form it was to have.
fn first_word(text: &[u8]) -> &[u8] {
    match split_once(text, b' ') {
        Some((word, _)) => word,
        None => text,
    }
}
