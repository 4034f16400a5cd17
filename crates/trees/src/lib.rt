// The index as a tree of pages: definitions and laws; no code of its own.
#![tactic(auto)]
