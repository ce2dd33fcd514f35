// "5 Bad name", "6 Long name", and the lower of two refusals.
ghost use Rattle.std.specs.Prelude.{◌≡◌, Ok};
ghost use Rattle.returned.specs.Refusal.{number_of};
ghost use Rattle.session.specs.Refusal.{lower};
ghost use Rattle.session.specs.Code.Table.{first_number};
ghost use Rattle.session_names.specs.Code.Rows.{text_rows};

use names::name_text;
use returned::Refusal;

// The refusal of a name's text.
pub fn text_refusal(name: &[u8]) -> Result<(), Refusal>
    ensures { number_of result ≡ first_number (text_rows name.now) }
{
    match name_text(name) {
        Ok(()) => Ok(()),
        Err(error) => Err(Refusal::from(error)),
    }
}

// What the first lets pass, or of two refusals the one of the lower rank: "The lowest number wins."
pub fn lower_of<A: Drop, B: Drop>(
    first: Result<A, Refusal>,
    second: Result<B, Refusal>,
) -> Result<A, Refusal>
    ensures number { number_of result ≡ lower (number_of first) (number_of second) }
    ensures value { (x : A) → result ≡ Ok x → first ≡ Ok x }
{
    let Err(other) = second else {
        return first;
    };
    let Err(one) = first else {
        return Err(other);
    };
    if one.rank() <= other.rank() {
        return Err(one);
    }
    Err(other)
}
