//! Fields, what they name, and lines carried out with no run.
use s2id_core::CellId;
use s2ix_bag::Limits;
use s2ix_cli::{
    Fields, LineOutcome, add_union_named, meaning, run_instruction, run_line, union_named,
};
use s2ix_edit::{Edit, Store};
use s2ix_text::{KeepingSink, Sink};
use std::alloc::Global;

// Whether the first field of a line is read as the cell with this token, and this field is next.
fn reads_cell(line: &[u8], token: &[u8], after: &[u8]) -> bool {
    let mut fields = Fields::new(line);
    let Some(cell) = fields.next_cell() else {
        return false;
    };
    cell.token().as_bytes() == token && fields.next() == Some(after)
}

#[test]
fn canonical_tokens_are_read_as_cells(rt: HostRuntime) {
    assert!(rt; reads_cell(b"1 89c25 89c259c4b", b"1", b"89c25"));
    assert!(rt; reads_cell(b" \t89c259c44  7 123456", b"89c259c44", b"7"));
    assert!(rt; reads_cell(b"0000000000000001 \xc2\x857", b"0000000000000001", b"7"));
}

// Whether the face 0 is the one cell of a union.
fn is_face(cells: &[CellId]) -> bool {
    cells.len() == 1 && cells[0].token().as_bytes() == b"1".as_slice()
}

// Whether fields name a union.
fn names_a_union(alloc: Global) -> bool {
    match &union_named(alloc, Fields::new(b"1c 04 14 0C")) {
        Ok(union) => is_face(union.cells()),
        Err(_) => false,
    }
}

// Whether fields name an edit of a union.
fn names_an_edit_of_a_union(alloc: Global) -> bool {
    match &add_union_named(alloc, Fields::new(b"9 1c 04 14 0C")) {
        Ok(Edit::AddUnion { union, label }) => is_face(union.cells()) && label.get() == 9,
        _ => false,
    }
}

#[test]
fn fields_name_a_union(rt: HostRuntime) {
    assert!(rt; names_a_union(rt.alloc()));
    assert!(rt; names_an_edit_of_a_union(rt.alloc()));
}

#[test]
fn the_clone_of_an_instruction_is_the_same(rt: HostRuntime) {
    let line = meaning(rt.alloc(), b"meet 04 14").expect(&rt, "a meaning");
    let instruction = line.expect(&rt, "an instruction");
    let copy = instruction.clone().expect(&rt, "memory");
    assert!(rt; copy == instruction);
}

#[test]
fn a_line_and_an_instruction_are_carried_out(rt: HostRuntime) {
    let mut store = Store::new(rt.alloc(), Limits::default()).expect(&rt, "a store");
    let mut sink = KeepingSink::new(rt.alloc(), 100, 0, false);
    let line = run_line(rt.alloc(), &mut store, &mut sink, b"add 1 7");
    assert!(rt; line == Ok(LineOutcome::Accepted) && sink.kept() == b"ok 1\n".as_slice());
    let labels = meaning(rt.alloc(), b"labels 0c").expect(&rt, "a meaning");
    let labels = labels.expect(&rt, "an instruction");
    let mut sink = KeepingSink::new(rt.alloc(), 100, 0, false);
    let step = run_instruction(rt.alloc(), &mut store, &mut sink, labels);
    assert!(rt; step == Ok(LineOutcome::Accepted) && sink.kept() == b"7\nend 1\n".as_slice());
}
