// The one rule by which C is answered: 256 plus the number for a refusal. The definitions are in specs/Answers.antt; include/starkvitne.h is the
// other side.
#![tactic(auto)]

ghost use Rattle.std.specs.Prelude.{ℕ, ◌≡◌, ◌%◌, ◌^◌};
ghost use Rattle.numbers.specs.Refusals.{number};
ghost use Rattle.answers.specs.Answers as answers;

use numbers::Refusal;

// What tells a refusal's number: one of the table, or the number itself.
pub trait Numbered {
    ghost number_told: { Self → ℕ };

    fn told_number(self) -> u32
        ensures { result ≡ number_told self };
}

impl Numbered for Refusal {
    ghost number_told = { number };

    fn told_number(self) -> u32 {
        Refusal::number(self)
    }
}

impl Numbered for u32 {
    ghost number_told = { λ k. k };

    fn told_number(self) -> u32 {
        self
    }
}

// What a call answers that has nothing else to say: 0, or the refusal by this number. It takes any number, as it promises of any; the table's
// all fit.
pub fn told(number: u32) -> u32
    ensures { result ≡ answers.told number % 2 ^ 32 }
{
    if number == 0 {
        return 0;
    }
    number.wrapping_add(256)
}
