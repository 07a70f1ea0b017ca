// No code: which records are accepted, plainly, by fields. No contract rests on it.

#![tactic(auto)]
