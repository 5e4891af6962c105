//! What `sdp` tells behind its line.
use command_end::is_of_2022;
use flow::Flow;
use sdp_format::read_flows;

/// Tells where the video of a text goes. That standard error may fail changes nothing.
pub(crate) fn tell_legs(rt: &HostRuntime, text: &[u8]) {
    match read_flows(text) {
        Ok(flows) => {
            for (path, flow) in ["A", "B"].iter().zip(flows.iter()) {
                tell_leg(rt, path, flow);
            }
        }
        Err(fault) => {
            let (number, name) = (fault.number(), fault.name());
            let _ = eprintln!(rt; "  where the video goes isn't told: flows {number} {name}");
        }
    }
}

/// Tells where the datagrams of a path go.
fn tell_leg(rt: &HostRuntime, path: &str, flow: &Flow) {
    let _ = match (flow.source, flow.address) {
        (Some(source), _) => {
            let to = Flow {
                source: None,
                ..*flow
            };
            eprintln!(rt; "  path {path} goes to {to} from {source}")
        }
        (None, Some(_)) => eprintln!(rt; "  path {path} goes to {flow}"),
        (None, None) => eprintln!(rt; "  path {path} goes to port {}, no address", flow.port),
    };
}

/// Tells that a text is of the edition of 2022, of which the canonical line says nothing.
pub(crate) fn tell_edition(rt: &HostRuntime, text: &[u8]) {
    if is_of_2022(text) {
        let _ = eprintln!(rt; "  the text says SSN=ST2110-20:2022");
    }
}
