//! The laws of alike contracts, and how far applications unfold, each carried by a function that does nothing.
ghost use Rattle.poets_calculus.specs.StudiedLaws.{EnoughDepth};
ghost use Rattle.poets_calculus.specs.AlikeLaws.{AlikeItself, AlikeBothWays, AlikeJoined, AlikeByTest, AlikeMay, AlikePerformed, AlikeNullable, AlikeSize};

/// In a guarded book there are no more unfoldings in a row than templates.
pub fn enough_depth()
    ensures { EnoughDepth }
{}

/// Being alike is an equivalence.
pub fn alike_equivalence()
    ensures itself { AlikeItself }
    ensures both_ways { AlikeBothWays }
    ensures joined { AlikeJoined }
{}

/// The test for alike contracts is right.
pub fn alike_by_test()
    ensures { AlikeByTest }
{}

/// Alike contracts are performed by the same traces: the order of parallel parts does not matter.
pub fn alike_performed()
    ensures granted { AlikeMay }
    ensures performed { AlikePerformed }
{}

/// Alike contracts are nullable together, and have one size.
pub fn alike_measures()
    ensures nullable { AlikeNullable }
    ensures size { AlikeSize }
{}
