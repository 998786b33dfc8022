//! Laws of stores, each the contract of a function that does nothing.
ghost use Rattle.ext_gen.specs.Broken.{BrokenPointsToNothing, OneBrokenLine, OneGeneration};
ghost use Rattle.ext_gen.specs.Laws.{EitherIsSound, EmptyStandsForNone, DurablyIsSound, FixedIsDurably, OneState, SyncedIsDurably, StopsLeaveStates, StopsLeaveTheState};

/// A store points to one generation, or to none.
pub fn a_store_points_to_one_generation()
    ensures { OneGeneration }
{}

/// A broken store points to nothing.
pub fn a_broken_store_points_to_nothing()
    ensures { BrokenPointsToNothing }
{}

/// A broken store is broken in one line.
pub fn a_broken_store_is_broken_in_one_line()
    ensures { OneBrokenLine }
{}

/// Two states for which a store stands have one generation.
pub fn a_store_stands_for_one_generation()
    ensures { OneState }
{}

/// An empty disk stands for no generation.
pub fn an_empty_disk_stands_for_none()
    ensures { EmptyStandsForNone }
{}

/// Stores that durably stand for a state, or for one of two, are sound.
pub fn durable_stores_are_sound()
    ensures durably { DurablyIsSound }
    ensures either { EitherIsSound }
{}

/// What a stop leaves of a sound store stands for a state, and of a durable one for its own.
pub fn a_stop_leaves_a_state()
    ensures sound { StopsLeaveStates }
    ensures durable { StopsLeaveTheState }
{}

/// A sound store is durable where its folder is synced.
pub fn a_synced_store_is_durable()
    ensures { SyncedIsDurably }
{}

/// A store is durable where what it rests on is fixed.
pub fn a_fixed_store_is_durable()
    ensures { FixedIsDurably }
{}
