// What a body asks of the state in which it begins, so that no cycle of it fails: theorems only.
#![tactic(auto)]
