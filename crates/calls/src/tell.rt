// The fields of most calls: up to seven numbers.
ghost use Rattle.std.specs.Prelude.{◌≡◌, [], ◌∷◌, ◌≤◌};
ghost use Rattle.error.specs.Answer.{flag, check_words, number_words};

use error::Error;
use std::marker::Model;

// A call's fields: the first `count` of the values; the others are 0.
// Kept: places and a count of them: fixed memory, nothing allocates.
#[derive(Clone, Copy)]
pub struct Fields {
    count: usize,
    values: [u64; 7],
}

impl Model for Fields {
    ghost use Rattle.std.specs.Prelude.{ℕ, List};

    ghost Value = { List ℕ };

    ghost use Rattle.calls.specs.Held.{told, fields_told, IsTold};

    ghost view = { fields_told };

    ghost invariant = { IsTold };

    ghost inverse = { told };

    ghost inverse_ok = { λ f is. is.1 };
}

impl Fields {
    // The fields, as many as there are.
    pub fn numbers(&self) -> &[u64]
        ensures { result.now ≡ self.now }
    {
        &self.values[..self.count]
    }
}

// So many numbers as fields.
pub(crate) fn told<const N: usize>(fields: [u64; N]) -> Fields
    requires { N ≤ 7 }
    ensures { result ≡ fields.entry }
{
    let mut values = [0; 7];
    values[..N].copy_from_slice(&fields);
    Fields { count: N, values }
}

// 1 where a test holds, 0 otherwise.
pub(crate) fn bit(is: bool) -> Fields
    ensures { result ≡ flag is ∷ [] }
{
    told([u64::from(is)])
}

// Class and reason.
pub(crate) fn check(answer: Result<(), Error>) -> Fields
    ensures { result ≡ check_words answer }
{
    told(carryfs::check_words(answer))
}

// Class, reason, and the number behind them.
pub(crate) fn number(answer: Result<u64, Error>) -> Fields
    ensures { result ≡ number_words answer }
{
    told(carryfs::number_words(answer))
}
