// What the calls about an index answer (FORMAT 19). What they mean is in specs/; the code is in
// `segment_index`.
#![tactic(auto)]
