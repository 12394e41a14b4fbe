// The alert that goes with a number (document 01, 'Numbers answered').
ghost use Rattle.std.specs.Prelude.{◌≡◌};
ghost use Rattle.refusal.specs.Table.{refusal_of};

use refusal::Refusal;

#[unsafe(no_mangle)]
pub extern "C" fn axle_refusal(number: u8) -> Refusal
    ensures { result ≡ refusal_of number }
{
    refusal::refuse(number)
}
