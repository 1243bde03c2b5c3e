// That what is gathered over the chunks of a film that is read piece by piece is the answer on the whole film. No code.
#![tactic(auto)]
