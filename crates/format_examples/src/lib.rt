// No code: the worked examples of the format, proved as one table (specs/Examples.antt).
#![tactic(auto)]
