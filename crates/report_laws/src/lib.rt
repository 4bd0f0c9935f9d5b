// That a segment added to a report by pages and in one slice gives the same, in specs/: no code.
#![tactic(auto)]
