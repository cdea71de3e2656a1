// No function: laws about sealed notes, that opening undoes sealing and nothing else opens, that a note is a session, and which number comes where.
#![tactic(auto)]
