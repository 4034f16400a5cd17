// What is promised, in the words of the demands: definitions and theorems; no code of its own.
#![tactic(auto)]
