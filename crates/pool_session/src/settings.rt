// The settings of the pool program: one value for each slot of the pool, a delta or a mark.
ghost use Rattle.std.specs.Prelude.{◌≡◌, length, set};
ghost use Rattle.refusals.specs.Refusals.{answer_from};
ghost use Rattle.pool_rules.specs.Calls.{placed_from};
ghost use Rattle.pool_session.specs.Session.{wiped, setting_answer};

use refusals::Refusal;

// After an add or a remove that succeeded, its slot has no setting.
pub fn wipe<T: Copy>(reply: Result<usize, Refusal>, none: T, settings: &mut [T])
    ensures { settings.new ≡ wiped (placed_from reply) none settings.old }
{
    let Ok(slot) = reply else {
        return;
    };
    if settings.len() <= slot {
        return;
    }
    settings[slot] = none;
}

// A slot's setting, if there is a pool and it has the slot.
pub fn put<T: Copy>(slot: u64, value: T, settings: &mut [T]) -> Result<(), Refusal>
    ensures settings_after { settings.new ≡ set settings.old slot value }
    ensures value { answer_from result ≡ setting_answer (length settings.old) slot }
{
    if settings.is_empty() {
        return Err(Refusal::TableIllFormed);
    }
    if settings.len() as u64 <= slot {
        return Err(Refusal::OutOfRange);
    }
    settings[slot as usize] = value;
    Ok(())
}
