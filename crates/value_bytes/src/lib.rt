// Bytes one after the other: definitions and laws that everything written to a buffer shares. There is no code.
#![tactic(auto)]
