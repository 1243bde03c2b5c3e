// What is promised of the functions for C by themselves, on what they reply and leave: laws over `usm`. No code.
#![tactic(auto)]
