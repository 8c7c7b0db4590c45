// The laws of planning and walking: a theorem, on the contract of a function.
ghost use Rattle.std.specs.Prelude.{◌≡◌};
ghost use Rattle.plans.specs.Code.{Signposts};

/// What the posts and cards of a plan say, in four laws. Says four.
pub fn code_stands() -> u8
    ensures count { result ≡ 4 }
    ensures code { Signposts }
{
    4
}
