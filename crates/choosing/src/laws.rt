// The laws of choosing, on every map: theorems, each on the contract of a function.
ghost use Rattle.std.specs.Prelude.{◌≡◌};
ghost use Rattle.choosing.specs.Laws.{ByTheRule, FewPlaces, HasRoom, NoRoomFound, OthersMayFit, RuleAlone, TurnsSuffice};

/// The laws of choosing; how many there are.
pub fn choosing_laws() -> u8
    ensures count { result ≡ 7 }
    ensures rule { ByTheRule }
    ensures alone { RuleAlone }
    ensures room { HasRoom }
    ensures none { NoRoomFound }
    ensures turns { TurnsSuffice }
    ensures few { FewPlaces }
    ensures others { OthersMayFit }
{
    7
}
