//! The names that a user needs, each under the door that gives it out. It is here to be compiled: a name that moves away is missed.
#![allow(unused_imports)]

use s2id_core::{CellId, LEAF_END, OutOfMemory, PathText, Token, TokenError};
use s2id_cube::{BorderError, FaceIj, border, edge_neighbors, from_face_ij, to_face_ij};
use s2id_union::{CellUnion, RangeError};
use s2ix_bag::{
    ApplyError, Bag, Change, ChangeError, Entry, Held, HeldIter, Label, LabelIter, Limits, Pair,
    RevertError,
};
use s2ix_cli::{
    Command, RunEnd, RunFault, RunOptions, WordsFault, check_text, command_of, load_text,
    read_whole, replay_texts, rewind_texts, run,
};
use s2ix_edit::{
    Edit, EditError, HeldLabel, HistoryError, JoinError, RecordError, RedoError, RemoveError,
    Store, StoreTable, UndoError,
};
use s2ix_table::{
    BagReader, ChainIter, ChainTable, CopiedTable, Cost, FacedTable, Meter, PairReader, RangeIter,
    RangeRow, RangeTable, Reader, Visit, chain_at, contents, ranges, walk,
};
use s2ix_text::{
    DumpError, DumpFault, FromRead, JournalError, JournalFault, ReadFault, ReplayError, Sink,
    Source, ToWrite, WriteFault, export, read_dump, read_journal, replay, rewind, write_dump,
    write_journal,
};
