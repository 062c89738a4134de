// The names of the answers.
ghost use Rattle.std.specs.Prelude.{◌≡◌};
ghost use Rattle.answers.specs.Answer.{name_of};

use answers::answer::name_of;

// Writes the eight bytes that `name_of` returns for `answer` into `out`.
pub fn belfry_name(answer: u32, out: &mut [u8; 8])
    ensures { out.new ≡ name_of answer }
{
    *out = name_of(answer);
}
