// The answer of a call for a C host that is lent fewer than eight records in its cells.
#![tactic(auto)]

ghost use Rattle.std.specs.Prelude.{◌≡◌};
ghost use Rattle.call_judging.specs.Answers.{short_loan_answer};

use head::Head;
use refusals::Refusal;

// The number of the refusal where fewer than eight records are lent, with the settings of this head: 3, 11.
pub fn short_answer(settings: Head) -> u32
    ensures { result ≡ short_loan_answer settings }
{
    if settings.settings_hold() {
        return Refusal::ShortLoan.number();
    }
    Refusal::Settings.number()
}
