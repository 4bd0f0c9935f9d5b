// What the call about a partition's size answers (FORMAT 20). What it means is in specs/; the code
// is in `segment_size`.
#![tactic(auto)]
