// linearize under its exported name.
ghost use Rattle.std.specs.Prelude.{◌≡◌};
ghost use Rattle.linearize.specs.Linearize.{reply, room_after};

use refusals::Reply;

#[unsafe(no_mangle)]
pub extern "C" fn yaghrudil_linearize(
    fees: &[i64],
    sizes: &[u64],
    parents: &[u64],
    room: &mut [usize],
) -> Reply
    ensures value { result ≡ reply fees.now sizes.now parents.now room.old }
    ensures room_after { room.new ≡ room_after fees.now sizes.now parents.now room.old }
{
    linearize::linearize(fees, sizes, parents, room).into()
}
