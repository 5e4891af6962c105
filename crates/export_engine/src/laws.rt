//! Laws over the definitions alone. Each is the contract of a function that does nothing.
ghost use Rattle.export_engine.specs.Reread.{AreDatagrams, IsReread};

/// What is written of a capture's records is a recording, as the grammar of pcap has it, of a
/// packet for each record that isn't left out, at its moment, in their order; and each packet is
/// the record's datagram, to the flow of its path.
pub fn written_recording()
    ensures packets { IsReread }
    ensures datagrams { AreDatagrams }
{}
