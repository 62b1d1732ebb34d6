// chunk_lengths under its exported name.
ghost use Rattle.std.specs.Prelude.{◌≡◌};
ghost use Rattle.chunking.specs.Chunks.{reply, room_after};

use refusals::Reply;

#[unsafe(no_mangle)]
pub extern "C" fn yaghrudil_chunk_lengths(fees: &[i64], sizes: &[u64], room: &mut [usize]) -> Reply
    ensures value { result ≡ reply fees.now sizes.now room.old }
    ensures room_after { room.new ≡ room_after fees.now sizes.now room.old }
{
    chunking::chunk_lengths(fees, sizes, room).into()
}
