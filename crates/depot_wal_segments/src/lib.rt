// The calls with C names that read and write a segment, and those of the checksum. Numbers and
// slices of numbers pass; a slice passes as a pointer and a length, a fixed array as a pointer.
// include/depot_wal.h says the same for C. Nothing in the crates calls these: they are the way in
// from outside. tools/archive joins them with those of `depot_wal_bodies`.
#![tactic(auto)]

mod checksum;
mod segments;
