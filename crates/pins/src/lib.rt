// No function: what definitions of the other crates give for inputs with unlike digits, computed.
#![tactic(auto)]
