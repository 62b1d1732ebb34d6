// The pool program, run on the example of README.

#![tactic(auto)]

fn main(rt: HostRuntime) {
    pool_run::run(&rt);
}
