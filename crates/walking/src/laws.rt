// The laws of walks and the promise of the whole: theorems, each on the contract of a function.
ghost use Rattle.std.specs.Prelude.{◌≡◌};
ghost use Rattle.walking.specs.General.{FollowedArrives, ArrivedFollowed, NoRing, GuidedArrives, GuidedThrice, WideStarts};
ghost use Rattle.walking.specs.Promise.{Promise, WalksWays};
ghost use Rattle.walking.specs.Trees.{GuidedTree, TreeCheapest};
ghost use Rattle.walking.specs.Cases.{CasesHold, LandmarksEverywhere, NinePlaces, TreesThere, Thrice};

/// The laws of walks by any rule, right or wrong; how many there are.
pub fn rule_laws() -> u8
    ensures count { result ≡ 4 }
    ensures arrives { FollowedArrives }
    ensures followed { ArrivedFollowed }
    ensures ring { NoRing }
    ensures ways { WalksWays }
{
    4
}

/// The laws of walks by any closed set of places and any landmark; how many there are.
pub fn guided_laws() -> u8
    ensures count { result ≡ 3 }
    ensures arrives { GuidedArrives }
    ensures thrice { GuidedThrice }
    ensures starts { WideStarts }
{
    3
}

/// By the posts and the card of a map everybody arrives, after fewer than n roads, and pays at most three times the distance.
/// Says three.
pub fn promise_stands() -> u8
    ensures most { result ≡ 3 }
    ensures promise { Promise }
{
    3
}

/// On a tree every walk is cheapest: by any wide set of places, and by posts and card. How many laws there are.
pub fn tree_laws() -> u8
    ensures count { result ≡ 2 }
    ensures guided { GuidedTree }
    ensures cheapest { TreeCheapest }
{
    2
}

/// The worked cases: the table, landmarks everywhere, nine places, two trees, and that three times the distance is reached; how many there are.
pub fn cases_stand() -> u8
    ensures count { result ≡ 5 }
    ensures table { CasesHold }
    ensures everywhere { LandmarksEverywhere }
    ensures nine { NinePlaces }
    ensures trees { TreesThere }
    ensures thrice { Thrice }
{
    5
}
