// The pool program, run on a long history: some thousand lines of all kinds, and what a second reading of document 01 answers to them.

#![tactic(auto)]

fn main(rt: HostRuntime) {
    pool_run::run(&rt);
}
