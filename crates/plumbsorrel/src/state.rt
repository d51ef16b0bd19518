// The state's words.
ghost use Rattle.std.specs.Prelude.{◌≡◌, eqb, length};
ghost use Rattle.notation.specs.If.{if};
ghost use Rattle.word.specs.Word.{bit};
ghost use Rattle.layout.specs.Layout.{packed, state_words};
ghost use Rattle.run.specs.Said.{answer_of};
ghost use Rattle.plumbsorrel.specs.Number.{answer_number};
ghost use Rattle.plumbsorrel.specs.Offers.{unknown, words_sound};
ghost use Rattle.plumbsorrel.specs.Asked.{Says, not_sound};

use crate::number;
use image::Refusal;
use machine::Machine;
use run::Offered;

// 7: words that no machine packs to.
pub(crate) fn known(state: &[u16]) -> Result<Machine, Refusal>
    ensures { Says result (unknown state.now) state.now }
{
    // Not by `ok_or`, nor below by `?`: each function that the machine is handed through copies it once more.
    match layout::unpack(state) {
        Some(m) => Ok(m),
        None => Err(Refusal::Unsound),
    }
}

// 7: the words are no machine's, or its state is not sound.
pub(crate) fn known_sound(state: &[u16]) -> Result<Machine, Refusal>
    ensures { Says result (not_sound state.now) state.now }
{
    match layout::unpack(state) {
        Some(m) if sound::is_sound(m) => Ok(m),
        _ => Err(Refusal::Unsound),
    }
}

// The new machine's words are put back; the answer's number.
pub(crate) fn put_back(x: Offered, state: &mut [u16]) -> u64
    ensures { (result ≡ answer_number (answer_of x.reply) x.count) × (state.new ≡ if (eqb (length state.old) state_words) (packed x.machine) state.old) }
{
    layout::pack(x.machine, state);
    number::of_answer(x.reply, x.count)
}

// 1: the words are a machine's, and sound; else 0.
#[unsafe(no_mangle)]
pub extern "C" fn plumbsorrel_is_sound(state: &[u16]) -> u64
    ensures { result ≡ bit (words_sound state.now) }
{
    u64::from(known_sound(state).is_ok())
}
