ghost use Rattle.std.specs.Prelude.{◌≡◌, ◌+◌, ◌≤◌, true, length, is_err, None, OnOk, MatchResult};
ghost use Rattle.ternary.specs.Refusals.{number, values};
ghost use Rattle.automaton.specs.Limits.{handed};
ghost use Rattle.image.specs.Calls.{parts_of};
ghost use Rattle.image.specs.Format.{decode};
ghost use Rattle.scanner.specs.Book.{LoadRefuses};
ghost use Rattle.scanner.specs.Scanners.{at_start, standing, Entered};

use automaton::words::Automaton;
use card::rules::Card;
use image::reader::{Image, unpack};
use table::check::check;
use ternary::refusal::Refusal;
use ternary::words::StateCode;

// Checks an image against its automaton, and fills a card with its entries, in place of what that held: answers the
// start state's code.
pub fn load_card<C: Card>(
    card: &mut C,
    automaton: Automaton<'_>,
    image: &[u8],
) -> Result<StateCode, Refusal>
    ensures refused { is_err result ≡ true → card.new ≡ card.old }
    ensures answer { MatchResult result
        (λ start. Entered (handed automaton.entry) image.now
        (standing (C.entries card.old) (C.size card.old) None)
        (standing (C.entries card.new) (C.size card.new) (at_start start)))
        (λ why. LoadRefuses (C.size card.old) (handed automaton.entry) image.now
        (number why) (values why)) }
    ensures free { OnOk result (C.free card.new + length (decode image.now).entries ≡ C.size card.old) }
{
    check(automaton, image)?;
    let image = unpack(image)?;
    if image.header().entries > card.capacity() {
        return Err(Refusal::CardTooSmall);
    }
    let Some(start) = image.code(automaton.start) else {
        unreachable()
    };
    fill(card, image);
    Ok(start)
}

// Clears the card, and appends the entries of the image in order.
fn fill<C: Card>(card: &mut C, image: Image<'_>)
    requires few { length (parts_of image).entries ≤ 4096 }
    requires room { length (parts_of image).entries ≤ C.size card.old }
    ensures listed { C.entries card.new ≡ (parts_of image.entry).entries }
    ensures free { C.free card.new + length (parts_of image.entry).entries ≡ C.size card.old }
    ensures capacity { C.size card.new ≡ C.size card.old }
{
    card.clear();
    for e in image.entries() {
        // There is room for all, so none is declined.
        let _ = card.append(e);
    }
}
