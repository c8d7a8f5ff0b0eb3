//! The law about opening a database after a crash during the move to the second schema.
ghost use Rattle.agv_store_migrate.specs.Moved.{OpeningsFindEitherSchema};

/// Proves that opening the database after a crash of [`move_tables`](crate::table_moving::move_tables) finds it as it
/// was, with the first schema's rows of a world, or moved, with the second's rows of that world.
pub fn openings_find_either_schema()
    ensures { OpeningsFindEitherSchema }
{}
