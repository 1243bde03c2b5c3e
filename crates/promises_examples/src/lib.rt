// The checked examples, as one table of definitions' answers under one theorem. No code.
#![tactic(auto)]
