//! Calls of `run_convert` and `run_picture` over files in memory, and what each writes: octets that
//! are worked out by hand. All pictures are of 4 by 1 at 8 bits, 25 a second.
use crate::checks::{sink, source};
use form_files::Form;
use st_format::Rate;
use st_format::memory::{MemorySink, MemorySource};
use st2110_tool::{Conversion, InputForm, PictureAsked, View, run_convert, run_picture};
use std::alloc::{AllocError, Allocator, Global};
use std::test::Fail;

/// The form of what `convert` reads.
#[derive(Clone, Copy)]
pub enum Input {
    Picture,
    /// The picture of this place of a stream.
    Y4m(u64),
    /// At 25 pictures a second.
    Pixmap,
}

/// What is asked for.
#[derive(Clone, Copy)]
pub enum Asked {
    Convert(Input, Form),
    Show(PictureAsked<'static>),
}

/// A call: what is asked for, the file that is read, a picture that is held, what is written, and
/// how many growths it takes at least.
#[derive(Clone, Copy)]
pub struct Call {
    pub asked: Asked,
    pub file: &'static [u8],
    pub held: Option<&'static [u8]>,
    pub text: &'static [u8],
    pub growths: u64,
}

/// Which call of each device fails: of the sources of the file and of the held picture, and of the
/// sink; 0 means that none does.
#[derive(Clone, Copy)]
pub struct Failing {
    pub file: u64,
    pub held: u64,
    pub sink: u64,
}

pub const NONE: Failing = Failing {
    file: 0,
    held: 0,
    sink: 0,
};

/// Cb Y Cr Y, twice.
const PICTURE: &[u8] = b"S20PIC01\0\x08\0\x04\0\x01\0\0\0\x19\0\0\0\x01\
    \x01\x02\x03\x04\x05\x06\x07\x08";

/// R G B, four times.
const RGB: &[u8] = b"S20PIC01\x02\x08\0\x04\0\x01\0\0\0\x19\0\0\0\x01\
    \x01\x02\x03\x04\x05\x06\x07\x08\x09\x0A\x0B\x0C";

const STREAM: &[u8] = b"YUV4MPEG2 W4 H1 F25:1 Ip A1:1 C422\n\
    FRAME\n\x02\x04\x06\x08\x01\x05\x03\x07";

/// Another picture before that one.
const TWO: &[u8] = b"YUV4MPEG2 W4 H1 F25:1 Ip A1:1 C422\n\
    FRAME\n\x09\x09\x09\x09\x09\x09\x09\x09FRAME\n\x02\x04\x06\x08\x01\x05\x03\x07";

const PIXMAP: &[u8] = b"P6\n4 1\n255\n\x01\x02\x03\x04\x05\x06\x07\x08\x09\x0A\x0B\x0C";

/// A receiver of one frame, of timestamp 900: its first pgroup is missing, and of the second, which
/// is 5, 6, 7, 8, the first luma sample is contested.
const RECEIVER: &[u8] = b"S20RCV01\0\x08\0\x04\0\x01\0\0\0\x19\0\0\0\x01\
    \x60\0\0\0\0\0\x01\0\0\x03\x84\0\x02\0\x02\x05\0\x07\x08";

/// A conversion of a file, which takes so many growths.
fn converted(
    input: Input,
    form: Form,
    file: &'static [u8],
    text: &'static [u8],
    growths: u64,
) -> Call {
    Call {
        asked: Asked::Convert(input, form),
        file,
        held: None,
        text,
        growths,
    }
}

/// The receiver's frame of a timestamp.
fn shown(timestamp: u32, view: View<'static>, form: Form, text: &'static [u8]) -> Call {
    Call {
        asked: Asked::Show(PictureAsked {
            timestamp,
            view,
            form,
        }),
        file: RECEIVER,
        held: None,
        text,
        growths: 5,
    }
}

/// Conversions from each form into each.
pub fn conversions() -> [Call; 5] {
    let packed = &PICTURE[PICTURE.len().min(22)..];
    [
        converted(Input::Picture, Form::Y4m, PICTURE, STREAM, 1),
        converted(Input::Y4m(0), Form::Picture, STREAM, PICTURE, 1),
        converted(Input::Y4m(1), Form::Raw, TWO, packed, 2),
        converted(Input::Picture, Form::Pixmap, RGB, PIXMAP, 1),
        converted(Input::Pixmap, Form::Picture, PIXMAP, RGB, 1),
    ]
}

/// The receiver's frame filled by black, in a stream.
const BLACK: &[u8] = b"YUV4MPEG2 W4 H1 F25:1 Ip A1:1 C422\n\
    FRAME\n\x10\x10\x10\x08\x80\x05\x80\x07";

/// Filled by 1, 2, 3, its pgroups alone.
const FILLED: &[u8] = b"\x02\x01\x03\x01\x05\x01\x07\x08";

/// A picture that is held, and the frame filled by it.
const HELD: &[u8] = b"S20PIC01\0\x08\0\x04\0\x01\0\0\0\x19\0\0\0\x01\
    \x11\x12\x13\x14\x15\x16\x17\x18";

const OVER_HELD: &[u8] = b"S20PIC01\0\x08\0\x04\0\x01\0\0\0\x19\0\0\0\x01\
    \x11\x12\x13\x14\x05\x16\x07\x08";

/// With its marks: two pixels missing, one contested, and one of luma 8.
const MARKED: &[u8] = b"P6\n4 1\n255\n\xFF\0\xFF\xFF\0\xFF\xFF\0\0\x08\x08\x08";

/// Views of the receiver's frame.
pub fn views() -> [Call; 4] {
    let held = Call {
        held: Some(HELD),
        growths: 6,
        ..shown(900, View::Settled(None), Form::Picture, OVER_HELD)
    };
    [
        shown(900, View::Settled(None), Form::Y4m, BLACK),
        shown(900, View::Settled(Some(b"1,2,3")), Form::Raw, FILLED),
        shown(900, View::Marked, Form::Pixmap, MARKED),
        held,
    ]
}

/// How a call ended, what it told of it, and its devices then.
#[derive(Drop)]
pub struct Run {
    pub status: u8,
    pub told: MemorySink,
    pub file: MemorySource,
    pub held: Option<MemorySource>,
    pub sink: MemorySink,
}

/// The source of a picture that is held, where one is.
fn held_source(
    global: Global,
    held: Option<&[u8]>,
    fails_in: u64,
) -> Result<Option<MemorySource>, AllocError> {
    match held {
        Some(octets) => Ok(Some(source(global, octets, fails_in)?)),
        None => Ok(None),
    }
}

/// The form of what is read, as the engine is told it.
fn input_form(input: Input) -> Result<InputForm, Fail> {
    Ok(match input {
        Input::Picture => InputForm::Picture,
        Input::Y4m(place) => InputForm::Y4m(place),
        Input::Pixmap => InputForm::Pixmap(Rate::new(25, 1)?),
    })
}

/// Makes a call over sources and a sink of seven octets a call, one of which may fail.
pub fn make_call<A: Allocator + Copy>(
    global: Global,
    alloc: A,
    call: &Call,
    failing: Failing,
) -> Result<Run, Fail> {
    let mut file = source(global, call.file, failing.file)?;
    let mut held = held_source(global, call.held, failing.held)?;
    let mut written = MemorySink::new(Vec::with_capacity(global, 256)?, 7, failing.sink);
    let mut told = sink(global)?;
    let status = match call.asked {
        Asked::Convert(input, form) => {
            let asked = Conversion {
                input: input_form(input)?,
                form,
            };
            run_convert(alloc, asked, &mut file, &mut written, &mut told)
        }
        Asked::Show(asked) => run_picture(
            alloc,
            asked,
            &mut file,
            &mut held,
            &mut written,
            &mut told,
        ),
    };
    Ok(Run {
        status,
        told,
        file,
        held,
        sink: written,
    })
}
