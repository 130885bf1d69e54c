// Examples of the rules that are worked out by hand.
ghost use Rattle.std.specs.Prelude.{◌≡◌};
ghost use Rattle.effects.specs.Worked.{Worked};

// How many examples are worked out; the definitions that the calls' contracts cite give just what each says.
pub fn worked_examples() -> u8
    ensures count { result ≡ 8 }
    ensures hold { Worked }
{
    8
}
