// A picture as a state of the rule book, and when it is whole: definitions and laws; no code of its own.
#![tactic(auto)]
