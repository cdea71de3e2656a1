// No function: definitions of lists of calls on a session's record, and their laws.
#![tactic(auto)]
