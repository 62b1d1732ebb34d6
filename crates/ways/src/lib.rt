// Ways along a relation of numbers, whatever it stands for: parents in a cluster, links in a pool. Definitions in specs/, laws in
// proofs/. It holds no code.

#![tactic(auto)]
