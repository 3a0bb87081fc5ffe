// The number that a program in C gets.
ghost use Rattle.std.specs.Prelude.{◌≡◌};
ghost use Rattle.std.specs.Result.{result_unwrap_or};
ghost use Rattle.mode.specs.Refusals.{number_in};

use mode::Refusal;

// That of the refusal, or 0.
pub fn number<T: Copy>(answer: Result<T, Refusal>) -> u8
    ensures { result ≡ number_in answer }
{
    match answer {
        Ok(_) => 0,
        Err(refusal) => refusal.number(),
    }
}

// The same, and the number of answer bytes, which is 0 beside a refusal.
pub fn report(answer: Result<usize, Refusal>, length: &mut usize) -> u8
    ensures number { result ≡ number_in answer }
    ensures reported { length.new ≡ result_unwrap_or answer 0 }
{
    *length = answer.unwrap_or(0);
    number(answer)
}
