// What holds when a film's key is changed over and over: laws over the functions of `mask`. Request 11. No code.
#![tactic(auto)]
