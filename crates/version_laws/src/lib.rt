// What the two versions of a segment are to one another, in specs/: no code.
#![tactic(auto)]
