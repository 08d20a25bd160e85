// What a call answers to C: a number of 0 or more, and a refusal by its number, negative.
ghost use Rattle.std.specs.Prelude.{◌≡◌, ◌^◌, ◌<◌, IfOk};
ghost use Rattle.exports.specs.Answers.{answered};

pub(crate) fn number_of(outcome: Result<u64, u8>) -> i64
    requires { IfOk outcome (λ n. n < 2 ^ 63) }
    ensures { result ≡ answered outcome }
{
    match outcome {
        Ok(number) => number as i64,
        Err(refusal) => -i64::from(refusal),
    }
}
