// A list of pools with the templates that are asked of them, and for each its answer, the slots selected, and sums over the room and the
// table behind it: the input holds the calls, the output stored beside it what a second reading of module 9 answers and leaves
// (compare/src/template.rs; compare/src/template_replay.rs makes both). Among them are the lines of document 01's values for templates,
// each refusal and pairs of them, a pool of 1,024 entries, and histories of random calls.

#![tactic(auto)]

fn main() {
    pool_replay::run();
}
