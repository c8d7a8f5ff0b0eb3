//! Laws about creating the desk's tables: the result is a desk for the statements, and opening the database finds it
//! again.
ghost use Rattle.agv_store_create.specs.NewDesk.{MadeDesksStand, OpeningsFindEither, TreesTellNames, TreesTellSchemas, TreesTellTables};

/// Proves that, if the tables that were there allow it, [`make_desk_tables`](crate::desk_tables::make_desk_tables)
/// creates a desk with its first rows, both for the connection that created it and for each opening that finds those
/// trees.
pub fn made_desks_stand()
    ensures { MadeDesksStand }
{}

/// Proves that the trees of a database determine its whole schema. So, if a crash left nothing of the creation, opening
/// the database finds a name of the desk's taken exactly if one was taken before.
pub fn trees_tell_schemas()
    ensures schema { TreesTellSchemas }
    ensures names { TreesTellNames }
{}

/// Proves that, if the desk's names were free and the tables that were there allow it, opening the database after a
/// crash during the creation finds none of the names taken, or a desk with its first rows.
pub fn openings_find_either()
    ensures { OpeningsFindEither }
{}

/// Proves that trees determine the tables in them: an opening that finds the trees of a database finds its tables.
pub fn trees_tell_tables()
    ensures { TreesTellTables }
{}
