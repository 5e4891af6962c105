//! Laws over the definitions alone. Each is the contract of a function that does nothing.
ghost use Rattle.std.specs.Prelude.{◌≡◌, ◌↔◌, ℕ, List};
ghost use Rattle.flow.specs.Flow.{IsFlow};
ghost use Rattle.flow.specs.FlowText.{IsFlowText, flow_text};
ghost use Rattle.flow.specs.declared.flows.Flow.{Flow};

/// A text spells one flow at most.
pub fn one_flow()
    ensures { (text : List ℕ) (f g : Flow) → IsFlowText text f → IsFlowText text g → f ≡ g }
{}

/// What `Display` writes of a flow spells that flow, and no other.
pub fn flow_read_again()
    ensures { (f g : Flow) → IsFlow f → (IsFlowText (flow_text f) g ↔ (g ≡ f)) }
{}
