//! The engines of recordings with each growth refused in turn: nothing is then written or printed;
//! and then the same run with memory.
use crate::checks::met;
use crate::export::is_exported;
use crate::import::is_imported;
use crate::inspect::are_told;
use crate::streams::are_told as streams_are_told;
use refusing::Refusing;
use std::alloc::Global;
use std::process::Abort;
use std::test::Fail;
use test_kit::wanting::{Wanting, grows, growths};

/// An engine, run once.
#[derive(Clone, Copy)]
enum Engine {
    Import,
    Inspect,
    Export,
    Streams,
}

impl Wanting for Engine {
    fn answer(&self, global: Global, refusing: &Refusing<Global>) -> Result<Option<bool>, Fail> {
        Ok(match self {
            Engine::Import => is_imported(global, refusing)?,
            Engine::Inspect => are_told(global, refusing)?,
            Engine::Export => is_exported(global, refusing)?,
            Engine::Streams => streams_are_told(global, refusing)?,
        })
    }
}

/// Of `import` for the SDP text, for the flows of each file, for a capture's text, for a packet of
/// each recording, and for a record of the capture; of `inspect` for a packet, and for the table of
/// flows and its index; of `export` for a record, and for a packet; of streams for the SDP text,
/// the rooms, the tables and their indexes, and the text.
#[test]
fn of_each_engine(rt: HostRuntime) -> Result<(), Fail> {
    met(&rt, grows(rt.alloc(), &Engine::Import, 6)?);
    met(&rt, grows(rt.alloc(), &Engine::Inspect, 6)?);
    met(&rt, growths(rt.alloc(), &Engine::Export)? == Some(2));
    met(&rt, grows(rt.alloc(), &Engine::Streams, 10)?);
    Ok(())
}
