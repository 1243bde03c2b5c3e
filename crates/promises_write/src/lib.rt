// That what is written is read back, over the contracts of writing and of extraction. No code.
#![tactic(auto)]
