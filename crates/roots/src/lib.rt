// No code: which labels and roots are accepted, plainly, which of two roots is chosen, and when two accepted roots agree. No contract rests on it.

#![tactic(auto)]
