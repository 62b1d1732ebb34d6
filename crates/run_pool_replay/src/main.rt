// A list of calls on pools, and for each its answer and a sum over all words of the table behind it: the input holds the calls, the output
// stored beside it what a second reading of module 8 answers and leaves (compare/src/pool.rs, which also makes both). Among them are the
// limits of document 01, each pair of neighbouring refusals that are true at once, a full table of 1,024 slots, each part of refusal 12
// broken by hand and tried on each call, and histories of random calls.

#![tactic(auto)]

fn main() {
    pool_replay::run();
}
