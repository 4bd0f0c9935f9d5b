// The calls with C names that read a segment page by page (FORMAT 17). A state is sixteen numbers
// that the caller keeps; include/depot_wal.h says the same for C. tools/archive joins these calls
// with the others.
#![tactic(auto)]

mod calls;
mod state_numbers;
