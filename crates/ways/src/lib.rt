// The laws of distances and next places, on every map: theorems, each on the contract of a function.
#![tactic(auto)]

ghost use Rattle.std.specs.Prelude.{◌≡◌};
ghost use Rattle.ways.specs.Laws.{LeastWays, RoadsSuffice, DistancesFixed, Symmetric, Triangle, NextPlaces, JoinedByOne, HangingTogether};

/// The laws of distances; how many there are.
pub fn distance_laws() -> u8
    ensures count { result ≡ 5 }
    ensures least { LeastWays }
    ensures suffice { RoadsSuffice }
    ensures fixed { DistancesFixed }
    ensures symmetric { Symmetric }
    ensures triangle { Triangle }
{
    5
}

/// The laws of next places; how many there are.
pub fn next_place_laws() -> u8
    ensures count { result ≡ 1 }
    ensures next { NextPlaces }
{
    1
}

/// The laws of maps that hang together; how many there are.
pub fn hanging_laws() -> u8
    ensures count { result ≡ 2 }
    ensures one { JoinedByOne }
    ensures zero { HangingTogether }
{
    2
}
