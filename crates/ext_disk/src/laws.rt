//! Laws of disks, each the contract of a function that does nothing: what holds over any disk, whoever made it.
ghost use Rattle.ext_disk.specs.Laws.{FollowsItself, FollowsInTurn, EachCallFollows, PastStays, LaterAllowsNoMore, ClockIsNow, NowMayBeLeft, DurableIsFixed, FixedStays};

/// A disk follows itself, and what follows a disk that follows a first one follows the first one.
pub fn disks_follow()
    ensures itself { FollowsItself }
    ensures in_turn { FollowsInTurn }
{}

/// After each of the ten calls, done or failed, a disk follows itself before the call.
pub fn each_call_follows()
    ensures { EachCallFollows }
{}

/// What a stop may have left is told of the past once and for all, a later moment allows no more than an earlier one, and
/// at the clock itself a stop may have left exactly what it may leave now.
pub fn a_stop_since_a_moment()
    ensures past { PastStays }
    ensures later { LaterAllowsNoMore }
    ensures now { ClockIsNow }
{}

/// A stop may leave the tree as it stands.
pub fn now_may_be_left()
    ensures { NowMayBeLeft }
{}

/// A path that is durable is fixed since now: each tree that a stop may have left has there what stands there. Each of the
/// ten calls, done or failed, keeps a path fixed that is neither its own nor below its own, and what stands there. A call
/// that reads and a sync keep each path fixed.
pub fn fixed_paths_stay()
    ensures durable { DurableIsFixed }
    ensures calls { FixedStays }
{}
