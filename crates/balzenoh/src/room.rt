// Whether there is room for an answer.
ghost use Rattle.std.specs.Prelude.{◌≡◌};
ghost use Rattle.balzenoh.specs.Exports.{with_room};

use mode::Refusal;

// What a call answers; 5 where that has no room, which comes after the refusals of the call.
pub fn with_room<T: Copy>(
    answer: Result<T, Refusal>,
    room: usize,
    needed: usize,
) -> Result<T, Refusal>
    ensures { result ≡ with_room answer room needed }
{
    let given = answer?;
    if room < needed {
        return Err(Refusal::OutputTooShort);
    }
    Ok(given)
}
