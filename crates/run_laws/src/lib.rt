//! Laws on whole runs: what `receive` and `merge` write, octet for octet; what is received of what
//! `send`, `process`, `migrate` and `loop` send; what `trace` and `rehearse` print; that no refusal
//! speaks against a run that ended well; and that what was read determines which one is told.
#![tactic(auto)]

mod exported;
mod laws;
mod scripts;
mod sent;
mod told_once;
mod unrefused;

pub use exported::{exported_again, exported_and_received, imported_and_received, imported_export};
pub use laws::{
    merged_file, merged_files, one_file, received_file, received_files, received_in_pieces,
    received_in_trees,
};
pub use scripts::{never_contested, traced_frames, traced_in_any_order};
pub use sent::{
    looped_picture, migrated_again, migrated_and_received, processed_again, processed_and_received,
    processed_once, sent_and_received, sent_file, sent_received_and_processed, written_again,
};
pub use told_once::{one_receive_refusal, one_receiving_refusal, one_send_refusal};
pub use unrefused::{
    convert_unrefused, export_paced_unrefused, export_unrefused, import_unrefused,
    inspect_streams_unrefused, inspect_unrefused, loop_unrefused, merge_two_unrefused,
    merge_unrefused, migrate_unrefused, picture_unrefused, process_unrefused,
    receive_files_unrefused, receive_unrefused, rehearse_unrefused, report_unrefused,
    sdp_unrefused, send_stream_unrefused, send_typed_unrefused, send_unrefused, trace_unrefused,
};
