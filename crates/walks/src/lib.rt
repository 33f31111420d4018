// How a window reaches a cycle and what it shows from there, statement by statement: theorems only.
#![tactic(auto)]
