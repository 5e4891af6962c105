//! What an SDP says of pictures that are sent, and is otherwise.
use command_line::SendWords;
use devices::FileSource;
use media_file::{read_format, read_kind};
use picture_forms::read_y4m_head;
use run_outcome::read_text;
use sdp_format::read_located;
use st_format::Format;
use std::fs;

/// What an SDP says of a stream, or what is sent.
#[derive(Clone, Copy, PartialEq, Eq)]
pub struct StreamFormat {
    pub format: Format,
    /// At most 127.
    pub payload_type: u8,
}

/// What the SDP says, and the first picture and the words, where these differ. That is looked at in
/// the files: of what is no plain file, or can't be read, nothing is told.
pub fn said_otherwise(
    rt: &HostRuntime,
    words: &SendWords<'_>,
) -> Option<(StreamFormat, StreamFormat)> {
    let said = said_stream(rt, words.sdp?)?;
    let sent = StreamFormat {
        format: first_format(rt, words)?,
        payload_type: if words.by_sdp {
            said.payload_type
        } else {
            words.stamp.payload_type
        },
    };
    if said == sent {
        None
    } else {
        Some((said, sent))
    }
}

/// What an SDP's file says.
fn said_stream(rt: &HostRuntime, name: &str) -> Option<StreamFormat> {
    let mut file = plain_file(rt, name)?;
    let text = read_text(rt.alloc(), &mut file, 65_535).ok()??;
    let sdp = read_located(rt.alloc(), &text).ok()?;
    Some(StreamFormat {
        format: sdp.format,
        payload_type: sdp.payload_type,
    })
}

/// The format of the first picture: that of a stream, or of a picture's own file.
fn first_format(rt: &HostRuntime, words: &SendWords<'_>) -> Option<Format> {
    let name = words.pictures.as_slice().first()?;
    let mut stream = plain_file(rt, name)?;
    if let Ok(format) = read_y4m_head(&mut stream) {
        return Some(format);
    }
    let mut file = plain_file(rt, name)?;
    read_kind(&mut file, b"S20PIC").ok()?;
    read_format(&mut file).ok()
}

/// The file of a name, if it is a plain one: it is read once more here, which a pipe can't be.
fn plain_file<'a>(rt: &'a HostRuntime, name: &'a str) -> Option<FileSource<'a>> {
    if fs::metadata(rt, name).ok()?.is_file() {
        Some(FileSource::new(rt, name))
    } else {
        None
    }
}
