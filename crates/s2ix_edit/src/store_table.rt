use s2ix_table_faced::FacedTable;

/// The range table that a [`Store`] keeps of its collection.
pub type StoreTable = FacedTable;

/// A collection with its history and its range table: the store of `s2ix_edit_store` over a [`StoreTable`].
pub type Store = s2ix_edit_store::Store<StoreTable>;
