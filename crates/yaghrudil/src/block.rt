// The template under its exported name. What the block has left is a struct with C's layout.
ghost use Rattle.std.specs.Prelude.{◌≡◌};
ghost use Rattle.template_rules.specs.Filling.{settings};
ghost use Rattle.template_rules.specs.Calls.{template_reply, template_room};
ghost use Rattle.yaghrudil.specs.Structs.{terms_of};

use refusals::Reply;
use weights::RawWeight;

#[repr(C)]
#[derive(Clone, Copy)]
pub struct Terms {
    pub budget: u64,
    pub reserve: u64,
    pub minimum: u64,
}

impl From<Terms> for template_rules::Terms {
    ghost from_gives = { λ terms r. r ≡ terms_of terms };

    fn from(terms: Terms) -> template_rules::Terms {
        template_rules::Terms {
            budget: RawWeight(terms.budget),
            reserve: terms.reserve,
            minimum: terms.minimum,
        }
    }
}

#[unsafe(no_mangle)]
pub extern "C" fn yaghrudil_pool_template(
    table: &[u64],
    deltas: &[i64],
    withheld: &[u8],
    terms: Terms,
    room: &mut [usize],
) -> Reply
    ensures value { result ≡ template_reply table.now (settings deltas.now withheld.now (terms_of terms)) room.old }
    ensures room_after { room.new ≡ template_room table.now (settings deltas.now withheld.now (terms_of terms)) room.old }
{
    template::template(table, deltas, withheld, terms.into(), room).into()
}
