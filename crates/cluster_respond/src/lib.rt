// The cluster program of document 01 as a function from the bytes of its input to the bytes that it prints.

#![tactic(auto)]

ghost use Rattle.std.specs.Prelude.{◌≡◌, ◌≤◌, length};
ghost use Rattle.txset.specs.Sets.{positions};
ghost use Rattle.lists.specs.Lists.{overwrite};
ghost use Rattle.cluster_respond.specs.Program.{response, cluster_text};

use txset::{POSITIONS, SET_WORDS};

// Puts what is printed for an input at the start of `out`, and answers how many bytes that is.
pub fn respond(text: &[u8], out: &mut [u8; 8192]) -> usize
    ensures value { result ≡ length (response text.now) }
    ensures out_after { out.new ≡ overwrite (response text.now) out.old }
{
    let mut fees = [0i64; POSITIONS];
    let mut sizes = [0u64; POSITIONS];
    let mut parents = [0u64; SET_WORDS];
    match cluster_reader::read_cluster(text, &mut fees, &mut sizes, &mut parents) {
        Ok(n) => respond_cluster(&fees[..n], &sizes[..n], &parents[..n], out),
        Err(refusal) => cluster_writer::write_refusal(refusal.number(), out),
    }
}

// The same for a cluster that was read.
fn respond_cluster(fees: &[i64], sizes: &[u64], parents: &[u64], out: &mut [u8; 8192]) -> usize
    requires { (length fees.now ≤ positions) × (length sizes.now ≡ length fees.now) }
    ensures value { result ≡ length (cluster_text fees.now sizes.now parents.now) }
    ensures out_after { out.new ≡ overwrite (cluster_text fees.now sizes.now parents.now) out.old }
{
    let mut order = [0usize; POSITIONS];
    match linearize::linearize(fees, sizes, parents, &mut order) {
        Ok(n) => {
            let mut lens = [0usize; POSITIONS];
            let count = chunking::order_lengths(fees, sizes, &order[..n], &mut lens);
            cluster_writer::write_success(fees, sizes, &order[..n], &lens[..count], out)
        }
        Err(refused) => cluster_writer::write_refusal(refused.number(), out),
    }
}
