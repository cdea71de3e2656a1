// No function: one digest, computed.
#![tactic(auto)]
