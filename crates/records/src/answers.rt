// An answer as a program takes it: a value, or the refusal.
ghost use Rattle.std.specs.Prelude.{◌≡◌, ◌≢◌, IfErr, IfOk};

use sheet::answer::Answer;

// The value of answer 0; any other answer is the refusal.
pub fn value_of(answer: Answer) -> Result<u32, Answer>
    ensures done { IfOk result (λ value. (answer.number ≡ 0) × (value ≡ answer.value)) }
    ensures refused { IfErr result (λ refusal. (answer.number ≢ 0) × (refusal ≡ answer)) }
{
    if answer.number == 0 {
        Ok(answer.value)
    } else {
        Err(answer)
    }
}
