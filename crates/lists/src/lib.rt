// What the crates above say of lists and of the numbers below a bound, whatever these stand for: definitions in specs/, laws in
// proofs/. It knows of no bound. Its one function copies a list.

#![tactic(auto)]

ghost use Rattle.std.specs.Prelude.{◌≡◌, ◌++◌, length, take, drop};

// Copies to the start of `to` as much as there is room for. A loop, since std's copy_from_slice lets two lists lie in one, and so asks for
// C's `memmove` where a library is linked.
pub fn copy<T: Copy>(from: &[T], to: &mut [T])
    ensures { to.new ≡ take (length to.old) from.now ++ drop (length from.now) to.old }
{
    // The first i are copied.
    for i in 0..from.len().min(to.len()) {
        to[i] = from[i];
    }
}
