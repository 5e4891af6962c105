//! Standard input and output.
ghost use Rattle.std.specs.Prelude.{◌≡◌, []};
ghost use Rattle.devices.specs.Passed.{input_gave, output_took};

use devices::{InputSource, OutputSink};
use std::io::{Stdin, Stdout};

/// Standard input and output.
#[derive(Drop)]
pub struct Streams {
    pub input: InputSource<Stdin>,
    pub output: OutputSink<Stdout>,
}

impl Streams {
    /// Those of this program. What is read of a script or an SDP text is kept where a fault's place
    /// is told.
    pub fn new(rt: &HostRuntime, is_verbose: bool) -> Streams
        ensures unread { input_gave result.input ≡ [] }
        ensures unwritten { output_took result.output ≡ [] }
    {
        Streams {
            input: InputSource::new(rt.stdin(), kept(rt, is_verbose)),
            output: OutputSink::new(rt.stdout()),
        }
    }
}

/// Memory for what is read of a script or an SDP text, where a fault's place is told.
pub(crate) fn kept(rt: &HostRuntime, is_verbose: bool) -> Option<Vec<u8>> {
    if is_verbose {
        Some(Vec::new(rt.alloc()))
    } else {
        None
    }
}
