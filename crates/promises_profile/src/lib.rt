// That what is written passes the delivery profile: laws over `write` and `profile`. Request 14. No code.
#![tactic(auto)]
