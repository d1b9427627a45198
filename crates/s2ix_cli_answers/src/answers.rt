ghost use Rattle.s2ix_text_parts.specs.DeviceFaults.{CanCount};
ghost use Rattle.s2ix_text_parts.specs.Puts.{Writes};
ghost use Rattle.s2ix_cli_answers.specs.Answers.{neighbors_line, no_line, ok_line, path_line, square_line};

use itoa::Buffer;
use s2id_core::CellId;
use s2id_cube::{FaceIj, edge_neighbors};
use s2ix_text_parts::{Sink, WriteFault, put_together};

/// Writes the line `no` with a name, which says why something was refused.
pub fn write_no<K: Sink>(name: &str, sink: &mut K) -> Result<(), WriteFault>
    requires { CanCount (K.fault_count sink.old) }
    ensures { Writes K.Sink sink.old sink.new result (no_line name.now) }
{
    put_together(sink, &[b"no ", name.as_bytes(), b"\n"])
}

/// Writes the line `ok` with a number.
pub fn write_ok<K: Sink>(pairs: usize, sink: &mut K) -> Result<(), WriteFault>
    requires { CanCount (K.fault_count sink.old) }
    ensures { Writes K.Sink sink.old sink.new result (ok_line pairs) }
{
    let mut buffer = Buffer::new();
    let number = buffer.format(pairs);
    put_together(sink, &[b"ok ", number.as_bytes(), b"\n"])
}

/// Writes a cell's path on a line of its own.
pub fn write_path<K: Sink>(cell: CellId, sink: &mut K) -> Result<(), WriteFault>
    requires { CanCount (K.fault_count sink.old) }
    ensures { Writes K.Sink sink.old sink.new result (path_line cell) }
{
    let path = cell.path();
    put_together(sink, &[path.as_bytes(), b"\n"])
}

/// Writes the tokens of the cells over a cell's sides on one line: down, right, up and left.
pub fn write_neighbors<K: Sink>(cell: CellId, sink: &mut K) -> Result<(), WriteFault>
    requires { CanCount (K.fault_count sink.old) }
    ensures { Writes K.Sink sink.old sink.new result (neighbors_line cell) }
{
    let neighbors = edge_neighbors(cell);
    let down = neighbors[0].token();
    let right = neighbors[1].token();
    let up = neighbors[2].token();
    let left = neighbors[3].token();
    put_together(
        sink,
        &[
            down.as_bytes(),
            b" ",
            right.as_bytes(),
            b" ",
            up.as_bytes(),
            b" ",
            left.as_bytes(),
            b"\n",
        ],
    )
}

/// Writes a square on one line: its face, its column and row, its level and its orientation.
pub fn write_square<K: Sink>(square: FaceIj, sink: &mut K) -> Result<(), WriteFault>
    requires { CanCount (K.fault_count sink.old) }
    ensures { Writes K.Sink sink.old sink.new result (square_line square) }
{
    let (mut face, mut i, mut j) = (Buffer::new(), Buffer::new(), Buffer::new());
    let (mut level, mut orientation) = (Buffer::new(), Buffer::new());
    put_together(
        sink,
        &[
            face.format(square.face).as_bytes(),
            b" ",
            i.format(square.i).as_bytes(),
            b" ",
            j.format(square.j).as_bytes(),
            b" ",
            level.format(square.level).as_bytes(),
            b" ",
            orientation.format(square.orientation).as_bytes(),
            b"\n",
        ],
    )
}
