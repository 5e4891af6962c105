//! Printing what was noted.
ghost use Rattle.std.specs.Prelude.{◌≡◌, ◌≤◌, ◌+◌, ◌++◌, ◌∷◌, [], IfErr, OnOk};
ghost use Rattle.arrayvec.specs.ArrayString.{array_string_len};
ghost use Rattle.run_outcome.specs.Fault.{Accounts, IfRefused, counts};
ghost use Rattle.inspect_engine.specs.Inspected.{count_lines, count_told, end_json, end_told};
ghost use Rattle.inspect_engine.specs.Inspected.{first_reasons_json, inspection_text};
ghost use Rattle.inspect_engine.specs.Inspected.{left_out_json};
ghost use Rattle.inspect_engine.specs.Inspected as inspected;

use crate::form::Form;
use crate::inspection::Inspection;
use arrayvec::ArrayString;
use recording_counts::{FlowCount, LeftOut, add_count_json, add_count_lines, add_left_out};
use run_outcome::Fault;
use st_format::{ByteSink, write_whole};
use std::alloc::Allocator;
use text_line::{add, add_number};

/// Room for what is told of a flow or at the end, with an end of line, in octets.
const TEXT: usize = 3329;

/// Prints the lines of each flow, how many flows there are, and a line for each reason for which
/// packets are left out.
///
/// # Errors
///
/// That the sink failed. No memory is wanted.
pub fn print_inspection<A: Allocator + Copy, O: ByteSink>(
    inspection: &Inspection<A>,
    form: Form,
    output: &mut O,
) -> Result<(), Fault>
    ensures printed { OnOk result (O.took output.new ≡ O.took output.old
        ++ inspection_text form inspection.now.flows inspection.now.left_out) }
    ensures device { IfErr result (λ f. f ≡ Fault.Device) }
    ensures unrefused { IfErr result (λ f. IfRefused f ⊥) }
    ensures failures { Accounts result (counts (O.failures output.old) (O.failures output.new)
        ∷ []) }
{
    let flows = inspection.flows.flows();
    for count in flows {
        print(&count_text(form, count), output)?;
    }
    print(&end_text(form, flows.len(), &inspection.left_out), output)
}

/// What is told of a flow, to its end of line.
fn count_text(form: Form, count: &FlowCount) -> ArrayString<TEXT>
    ensures { result.bytes ≡ count_lines form count.now }
{
    let mut text = ArrayString::<TEXT>::new();
    add_count(&mut text, form, count);
    add(&mut text, "\n");
    text
}

/// Adds the lines of a flow, or its object of JSON, without the last end of line.
fn add_count(text: &mut ArrayString<TEXT>, form: Form, count: &FlowCount)
    requires { array_string_len text.old ≡ 0 }
    ensures text { text.new.bytes ≡ text.old.bytes ++ count_told form count.now }
    ensures room { array_string_len text.new + 1 ≤ TEXT }
{
    match form {
        Form::Lines => add_count_lines(text, count),
        Form::Json => add_count_json(text, count),
    }
}

/// How many flows there are, and the packets left out, to the end of line.
fn end_text(form: Form, flows: usize, left_out: &LeftOut) -> ArrayString<TEXT>
    ensures { result.bytes ≡ end_told form flows left_out.now ++ 10 ∷ [] }
{
    let mut text = ArrayString::<TEXT>::new();
    add_end(&mut text, form, flows, left_out);
    add(&mut text, "\n");
    text
}

/// Adds how many flows there are, and the packets left out, as lines or as an object of JSON.
fn add_end(text: &mut ArrayString<TEXT>, form: Form, flows: usize, left_out: &LeftOut)
    requires { array_string_len text.old ≡ 0 }
    ensures text { text.new.bytes ≡ text.old.bytes ++ end_told form flows left_out.now }
    ensures room { array_string_len text.new + 1 ≤ TEXT }
{
    match form {
        Form::Lines => add_end_lines(text, flows, left_out),
        Form::Json => add_end_json(text, flows, left_out),
    }
}

/// Adds how many flows there are, and a line for each reason for which packets are left out.
fn add_end_lines(text: &mut ArrayString<TEXT>, flows: usize, left_out: &LeftOut)
    requires { array_string_len text.old ≡ 0 }
    ensures text { text.new.bytes ≡ text.old.bytes ++ inspected.end_text flows left_out.now }
    ensures room { array_string_len text.new + 1 ≤ TEXT }
{
    add_number(text, "flows ", flows as u64);
    add_left_out(text, left_out);
}

/// Adds how many flows there are, and the packets left out, as an object of JSON.
fn add_end_json(text: &mut ArrayString<TEXT>, flows: usize, left_out: &LeftOut)
    requires { array_string_len text.old ≡ 0 }
    ensures text { text.new.bytes ≡ text.old.bytes ++ end_json flows left_out.now }
    ensures room { array_string_len text.new + 1 ≤ TEXT }
{
    add_number(text, "{\"flows\":", flows as u64);
    add(text, ",\"left_out\":");
    add_reasons(text, left_out);
    add(text, "}");
}

/// Adds the packets left out, by the reason, as an object of JSON. The object is added in two
/// parts, each of a few counts.
fn add_reasons(text: &mut ArrayString<TEXT>, left_out: &LeftOut)
    requires { array_string_len text.old ≤ 100 }
    ensures text { text.new.bytes ≡ text.old.bytes ++ left_out_json left_out.now }
    ensures room { array_string_len text.new ≤ array_string_len text.old + 195 }
{
    add(text, "{");
    add_first_reasons(text, left_out);
    add_number(text, ",\"NotUdp\":", left_out.not_udp);
    add_number(text, ",\"Fragment\":", left_out.fragment);
    add_number(text, ",\"BadUdpLength\":", left_out.bad_udp_length);
    add(text, "}");
}

/// Adds the members of the first three reasons.
fn add_first_reasons(text: &mut ArrayString<TEXT>, left_out: &LeftOut)
    requires { array_string_len text.old ≤ 101 }
    ensures text { text.new.bytes ≡ text.old.bytes ++ first_reasons_json left_out.now }
    ensures room { array_string_len text.new ≤ array_string_len text.old + 95 }
{
    add_number(text, "\"CutShort\":", left_out.cut_short);
    add_number(text, ",\"NotIp\":", left_out.not_ip);
    add_number(text, ",\"BadIpHeader\":", left_out.bad_ip_header);
}

/// Prints a text by one call. Nothing else than the sink fails.
fn print<O: ByteSink>(text: &ArrayString<TEXT>, output: &mut O) -> Result<(), Fault>
    ensures printed { OnOk result (O.took output.new ≡ O.took output.old ++ text.now.bytes) }
    ensures device { IfErr result (λ f. f ≡ Fault.Device) }
    ensures failures { Accounts result (counts (O.failures output.old) (O.failures output.new)
        ∷ []) }
{
    match write_whole(output, text.as_bytes()) {
        Ok(()) => Ok(()),
        Err(_) => Err(Fault::Device),
    }
}
