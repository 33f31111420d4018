// Events across the cycle's edge, and which turns of Loops decide it (request 8): definitions and theorems only.
#![tactic(auto)]
