// post_linearize under its exported name.
ghost use Rattle.std.specs.Prelude.{◌≡◌};
ghost use Rattle.post_linearize.specs.PostLinearize.{reply, order_after};

use refusals::Reply;

#[unsafe(no_mangle)]
pub extern "C" fn yaghrudil_post_linearize(
    fees: &[i64],
    sizes: &[u64],
    parents: &[u64],
    order: &mut [usize],
) -> Reply
    ensures value { result ≡ reply fees.now sizes.now parents.now order.old }
    ensures order_after { order.new ≡ order_after fees.now sizes.now parents.now order.old }
{
    post_linearize::post_linearize(fees, sizes, parents, order).into()
}
