// The laws of landmarks and of what is near, on every map: theorems, each on the contract of a function.
ghost use Rattle.std.specs.Prelude.{◌≡◌};
ghost use Rattle.landmarks.specs.Laws.{LandmarkThere, LandmarkOnly, LandmarkOwn, NearMeansLess, NearNoLandmark, NearStays, NearFromLandmark, NearLess, LinesFew};

/// The laws of landmarks; how many there are.
pub fn landmark_laws() -> u8
    ensures count { result ≡ 3 }
    ensures there { LandmarkThere }
    ensures only { LandmarkOnly }
    ensures own { LandmarkOwn }
{
    3
}

/// The laws of what is near, and of how many lines a post has; how many there are.
pub fn near_laws() -> u8
    ensures count { result ≡ 6 }
    ensures means { NearMeansLess }
    ensures landmarks { NearNoLandmark }
    ensures stays { NearStays }
    ensures starts { NearFromLandmark }
    ensures less { NearLess }
    ensures few { LinesFew }
{
    6
}
