// What one bad sample can do to what is reported; no code.
#![tactic(auto)]
