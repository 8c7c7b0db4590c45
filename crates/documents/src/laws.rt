// The laws of map documents: theorems, on the contract of a function.
ghost use Rattle.std.specs.Prelude.{◌≡◌};
ghost use Rattle.documents.specs.Laws.{ComesBack, ComesBackWhole, GoesBack, GoesBackWhole, CutIsTold};

/// The laws of writing maps and reading them; how many there are.
pub fn map_laws() -> u8
    ensures count { result ≡ 5 }
    ensures comes { ComesBack }
    ensures alone { ComesBackWhole }
    ensures goes { GoesBack }
    ensures whole { GoesBackWhole }
    ensures cut { CutIsTold }
{
    5
}
