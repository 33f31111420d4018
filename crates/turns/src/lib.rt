// Which turns of Loops the check plays, and why no others: definitions and theorems only.
#![tactic(auto)]
