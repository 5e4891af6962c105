//! A number of a pixmap's head, octet by octet.
ghost use Rattle.std.specs.Prelude.{◌≡◌, ◌<◌};
ghost use Rattle.picture_forms.specs.Numbers.{digit_step, ends_comment, is_white, number_step};
ghost use Rattle.picture_forms.specs.Numbers.{part_at, plain_step, value_step, white_step};

/// Where the text of a number stands, its comments aside.
#[derive(Clone, Copy)]
pub(crate) enum Stage {
    /// White space has to come.
    Front,
    /// White space or a digit has to come.
    Gap,
    /// A digit was read: more come, or white space, which ends the number.
    Digits,
}

/// What was read of a number.
#[derive(Clone, Copy)]
pub(crate) struct NumberPart {
    /// Whether a comment goes on.
    pub(crate) is_comment: bool,
    pub(crate) stage: Stage,
    /// The value of the digits so far, and 0 before any.
    pub(crate) value: u32,
}

/// What an octet makes of a part.
#[derive(Clone, Copy)]
pub(crate) enum NumberStep {
    /// The number isn't ended: it goes on, or has yet to begin.
    More(NumberPart),
    /// The number ended.
    Done(u32),
    /// The octet has no place there.
    Wrong,
}

/// What an octet makes of a part: a comment says nothing, wherever it stands.
pub(crate) fn step_of(part: NumberPart, octet: u8) -> NumberStep
    ensures { result ≡ number_step part octet }
{
    if part.is_comment {
        return NumberStep::More(NumberPart {
            is_comment: !ends_comment(octet),
            stage: part.stage,
            value: part.value,
        });
    }
    if octet == b'#' {
        return NumberStep::More(NumberPart {
            is_comment: true,
            stage: part.stage,
            value: part.value,
        });
    }
    plain_step_of(part.stage, part.value, octet)
}

/// The same outside of comments.
fn plain_step_of(stage: Stage, value: u32, octet: u8) -> NumberStep
    ensures { result ≡ plain_step stage value octet }
{
    if is_white(octet) {
        white_step_of(stage, value)
    } else if octet.is_ascii_digit() {
        digit_step_of(stage, value, u32::from(octet - b'0'))
    } else {
        NumberStep::Wrong
    }
}

/// The same of white space: it stands before digits, and ends them.
fn white_step_of(stage: Stage, value: u32) -> NumberStep
    ensures { result ≡ white_step stage value }
{
    match stage {
        Stage::Front | Stage::Gap => NumberStep::More(outside(Stage::Gap, value)),
        Stage::Digits => NumberStep::Done(value),
    }
}

/// The same of a digit of this value, before which white space has to stand once.
fn digit_step_of(stage: Stage, value: u32, digit: u32) -> NumberStep
    requires { digit < 10 }
    ensures { result ≡ digit_step stage value digit }
{
    match stage {
        Stage::Front => NumberStep::Wrong,
        Stage::Gap | Stage::Digits => value_step_of(value, digit),
    }
}

/// The same of a digit behind others, which may be none: a number is below 100,000.
fn value_step_of(value: u32, digit: u32) -> NumberStep
    requires { digit < 10 }
    ensures { result ≡ value_step value digit }
{
    if value < 10000 {
        NumberStep::More(outside(Stage::Digits, value * 10 + digit))
    } else {
        NumberStep::Wrong
    }
}

/// A part outside of comments.
fn outside(stage: Stage, value: u32) -> NumberPart
    ensures { result ≡ part_at stage value }
{
    NumberPart {
        is_comment: false,
        stage,
        value,
    }
}

/// Whether an octet ends a comment: LF or CR.
fn ends_comment(octet: u8) -> bool
    ensures { result ≡ ends_comment octet }
{
    octet == b'\n' || octet == b'\r'
}

/// Whether an octet is white space: a space, tab, LF or CR (Netpbm, ppm).
fn is_white(octet: u8) -> bool
    ensures { result ≡ is_white octet }
{
    octet == b' ' || octet == b'\t' || octet == b'\n' || octet == b'\r'
}
