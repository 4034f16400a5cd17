// Definitions and laws of lists; no code of its own.
#![tactic(auto)]
