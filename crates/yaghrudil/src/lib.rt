// The cluster calls, the pool's calls and the template for programs in C or Rust: a slice is a pointer and a count, and an answer a number or
// a struct of words.

#![tactic(auto)]

mod block;
mod chunks;
mod order;
mod pool;
mod post;
