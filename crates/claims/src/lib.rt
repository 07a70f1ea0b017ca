// No code: the claims about the whole reader, gathered. specs/ says what is claimed, in the words of the paper; proofs/ shows it.

#![tactic(auto)]
