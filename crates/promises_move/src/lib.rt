// That a film moved from the old builder's container and back is the film, and the other way round: laws over `film_move`. Request 9. No code.
#![tactic(auto)]
