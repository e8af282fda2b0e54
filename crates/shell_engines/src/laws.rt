//! The law that the table of blocks follows from the texts alone, whatever the threads of a run did. It is the
//! contract of a function that does nothing.

ghost use Rattle.shell_engines.specs.BlockTables.{BlockTablesAreOne};

/// There is one table of the blocks of the same texts: its bytes follow from theirs, whatever the threads of a run did.
pub fn block_table_is_unique()
    ensures { BlockTablesAreOne }
{}
