// Laws alone: for any bytes there is an outcome that keeps the promise of a call. There is no code.
#![tactic(auto)]
