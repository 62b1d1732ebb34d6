// The cluster program of document 01, run on 64 members whose lines of parents are as long as they may be.

#![tactic(auto)]

fn main(rt: HostRuntime) {
    cluster_run::run(&rt);
}
