// That a jump by an index finds the byte that extraction writes: laws over `index`, `seek` and `extract`. Request 8. No code.
#![tactic(auto)]
