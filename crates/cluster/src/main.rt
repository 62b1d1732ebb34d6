// The cluster program of document 01, run on its example.

#![tactic(auto)]

fn main(rt: HostRuntime) {
    cluster_run::run(&rt);
}
