// Which refusals a film can have, and what follows for those who ask about it: laws over `extract`, `list` and `statement`. No code.
#![tactic(auto)]
