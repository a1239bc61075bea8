// The worked examples of the judge hold.
ghost use Rattle.worked.specs.Examples.{TwelveSafe, WithoutEight, WithStart};

pub fn verdicts_hold() -> u8
    ensures safe { TwelveSafe }
    ensures leak { WithoutEight }
    ensures start { WithStart }
{
    0
}
