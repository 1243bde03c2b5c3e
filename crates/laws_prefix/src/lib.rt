// No code: that what is read in a beginning of a container is what is read in the container itself. Request 12.
#![tactic(auto)]
