// What a text reads as: the words of a sentence, or a refusal with its number and place.
ghost use Rattle.std.specs.Prelude.{◌≡◌, ◌^◌, ◌<◌, if◌then◌else◌};
ghost use Rattle.grammar.specs.Characters.{is_character, characters};
ghost use Rattle.grammar.specs.Reader.{refusal_at};

use grammar::fault::Fault;
use grammar::refusal::Refusal;

// How many characters a text has: a byte that goes on a character isn't one of its own.
fn characters(text: &[u8]) -> usize
    ensures { result ≡ characters text.now }
{
    text.iter()
        .filter(|&&byte| byte < 128 || 192 <= byte)
        .count()
}

// The refusal of a fault where so many characters stand before the one in front.
fn refusal_at(fault: Fault, at: usize) -> Refusal
    requires { at < 2 ^ 63 }
    ensures { result ≡ refusal_at fault at }
{
    match fault {
        Fault::Unfit => Refusal::Misfit(at + 1),
        Fault::Deep => Refusal::TooLarge,
        Fault::Wrong(letters) => Refusal::WrongName((at + 1).saturating_sub(letters)),
    }
}
