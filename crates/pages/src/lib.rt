// No code: which pages are accepted, plainly, what a lookup finds on one, and when two accepted pages agree. No contract rests on it.

#![tactic(auto)]
