//! What every dispute keeps, each law the contract of a function that does nothing.
ghost use Rattle.bisect_game.specs.Held.{DisputesArePlayed};
ghost use Rattle.bisect_game.specs.KeptPart.{KeptPartIsFirstThatDiffers};
ghost use Rattle.bisect_game.specs.Parting.{RunsPartWhereTheyEnd, LieIsRefutedAtItsStep, EarlyEndIsRefuted};
ghost use Rattle.bisect_game.specs.Laws.{BisectionLaws, CutsDivide, FanStays, HalvesAreBisection, OneCutFewer, OrderOfSidesIsFree};

/// What every dispute keeps, whatever is settled:
///
/// - `narrow`, `proof`: a round closes it or narrows its interval, and the proof round closes it.
/// - `invariant`: a side whose answers so far are given and true has the run's roots and is not out.
/// - `fits`, `proofs`: a true answer is taken as given, and the proof of such a side proves.
/// - `few`: with k bisection rounds of F parts `F^k < F * N` for the bound N, so at most as many as N has binary digits, and no proof
///   round is followed by another round.
/// - `held`, `played`: what is settled stays held, and an answer that comes before its turn changes nothing of the end.
pub fn bisection_laws()
    ensures { BisectionLaws }
{}

/// The cuts of an interval divide it: cut 0 is its beginning, the last its end, and if it has no fewer steps than parts, no part
/// between two cuts is empty.
pub fn cuts_divide()
    ensures { CutsDivide }
{}

/// Between this many parts there is one cut fewer.
pub fn one_cut_fewer_than_parts()
    ensures { OneCutFewer }
{}

/// A dispute keeps its fan, whatever is settled.
pub fn the_fan_stays()
    ensures { FanStays }
{}

/// With the fan 2 a dispute is bisection as it is known: the root at the middle is asked, rounded down; if the two roots are
/// equal the interval above it is kept, and if they differ the one below.
pub fn halves_are_bisection()
    ensures { HalvesAreBisection }
{}

/// The part that a round keeps, for every fan: the two sides gave the same root at each cut up to its beginning, which is the agreed root
/// from then on, and at its end the roots that they gave differ.
pub fn the_kept_part_is_the_first_that_differs()
    ensures { KeptPartIsFirstThatDiffers }
{}

/// A dispute between two runs ends where they part, be they true or not: if each answer of a side is that of its run, the dispute closes
/// at a step before which the runs have one root and behind which they have two, by their proofs of that step (`ends`). So if one run is
/// true, and the other leaves it at step s behind a true proof of step s - 1 and follows true steps from there, the other side alone is
/// out in the proof of step s - 1, or the dispute closes by a collision (`lie`). A run that stops early at step s is refuted at step s,
/// or at a later one before which the true run has come back to the root of step s, or the dispute closes by a collision (`early`). Such
/// a collision is two different strings of one digest, one opened by each run's proof of the step where the dispute ends.
pub fn disputes_end_where_runs_part()
    ensures ends { RunsPartWhereTheyEnd }
    ensures lie { LieIsRefutedAtItsStep }
    ensures early { EarlyEndIsRefuted }
{}

/// The order in which the two sides of a round settle changes nothing.
pub fn sides_settle_in_any_order()
    ensures { OrderOfSidesIsFree }
{}

/// A dispute after any settles, in any order, is the one that is played over the answers that it holds.
pub fn disputes_are_played_over_their_answers()
    ensures { DisputesArePlayed }
{}
