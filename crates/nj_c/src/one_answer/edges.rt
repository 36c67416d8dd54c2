//! Edges, and the files and rules that they name.

ghost use Rattle.std.specs.Prelude.{◌≡◌};
ghost use Rattle.nj_c.specs.Cited.{IfStated, SameAnswer, SameBuffer};

use super::graphs::graph_is_sound;
use crate::bulk::{nx_inputs, nx_outputs};
use crate::edges::{
    nx_edge_file, nx_edge_place, nx_explicit_inputs, nx_explicit_outputs, nx_input, nx_is_phony,
    nx_output, nx_rule_name, nx_validation,
};
use crate::session::Session;
use std::alloc::Global;

/// `nx_edge_file`. Free: the length where the status is neither done nor short.
pub fn edge_file_twice(
    alloc: Global,
    one: &mut Session,
    other: &mut Session,
    edge: usize,
    buffer: &mut [u8],
    buffer_other: &mut [u8],
    needed: &mut usize,
    needed_other: &mut usize,
) -> (i32, i32)
    requires kept { one.old.kept ≡ other.old.kept }
    requires buffer { buffer.old ≡ buffer_other.old }
    ensures same { SameBuffer result.0 result.1 buffer.new buffer_other.new needed.new
        needed_other.new }
    ensures kept { one.new.kept ≡ other.new.kept }
{
    (
        nx_edge_file(alloc, one, edge, buffer, needed),
        nx_edge_file(alloc, other, edge, buffer_other, needed_other),
    )
}

/// `nx_edge_place`. Free: the numbers where the status is not done.
pub fn edge_place_twice(
    alloc: Global,
    one: &mut Session,
    other: &mut Session,
    edge: usize,
    line: &mut usize,
    line_other: &mut usize,
    column: &mut usize,
    column_other: &mut usize,
) -> (i32, i32)
    requires { one.old.kept ≡ other.old.kept }
    ensures same { SameAnswer result.0 result.1 ((line.new ≡ line_other.new) × (column.new ≡
        column_other.new)) }
    ensures kept { one.new.kept ≡ other.new.kept }
{
    (
        nx_edge_place(alloc, one, edge, line, column),
        nx_edge_place(alloc, other, edge, line_other, column_other),
    )
}

/// `nx_explicit_inputs`. Free: the number where the status is not done.
pub fn explicit_inputs_twice(
    alloc: Global,
    one: &mut Session,
    other: &mut Session,
    edge: usize,
    count: &mut usize,
    count_other: &mut usize,
) -> (i32, i32)
    requires { one.old.kept ≡ other.old.kept }
    ensures same { SameAnswer result.0 result.1 (count.new ≡ count_other.new) }
    ensures kept { one.new.kept ≡ other.new.kept }
{
    (
        nx_explicit_inputs(alloc, one, edge, count),
        nx_explicit_inputs(alloc, other, edge, count_other),
    )
}

/// `nx_explicit_outputs`. Free: the number where the status is not done.
pub fn explicit_outputs_twice(
    alloc: Global,
    one: &mut Session,
    other: &mut Session,
    edge: usize,
    count: &mut usize,
    count_other: &mut usize,
) -> (i32, i32)
    requires { one.old.kept ≡ other.old.kept }
    ensures same { SameAnswer result.0 result.1 (count.new ≡ count_other.new) }
    ensures kept { one.new.kept ≡ other.new.kept }
{
    (
        nx_explicit_outputs(alloc, one, edge, count),
        nx_explicit_outputs(alloc, other, edge, count_other),
    )
}

/// `nx_input`. Free: the numbers where the status is not done.
pub fn input_twice(
    alloc: Global,
    one: &mut Session,
    other: &mut Session,
    edge: usize,
    index: usize,
    file: &mut usize,
    file_other: &mut usize,
    kind: &mut i32,
    kind_other: &mut i32,
) -> (i32, i32)
    requires { one.old.kept ≡ other.old.kept }
    ensures same { SameAnswer result.0 result.1 ((file.new ≡ file_other.new) × (kind.new ≡
        kind_other.new)) }
    ensures kept { one.new.kept ≡ other.new.kept }
{
    graph_is_sound(alloc, one);
    (
        nx_input(alloc, one, edge, index, file, kind),
        nx_input(alloc, other, edge, index, file_other, kind_other),
    )
}

/// `nx_inputs`. Free: the number of inputs where the status is not done.
pub fn inputs_twice(
    alloc: Global,
    one: &mut Session,
    other: &mut Session,
    edge: usize,
    from: usize,
    files: &mut [usize],
    files_other: &mut [usize],
    kinds: &mut [i32],
    kinds_other: &mut [i32],
    count: &mut usize,
    count_other: &mut usize,
) -> (i32, i32)
    requires kept { one.old.kept ≡ other.old.kept }
    requires files { files.old ≡ files_other.old }
    requires kinds { kinds.old ≡ kinds_other.old }
    ensures same { (SameBuffer result.0 result.1 files.new files_other.new count.new
        count_other.new) × (kinds.new ≡ kinds_other.new) }
    ensures kept { one.new.kept ≡ other.new.kept }
{
    graph_is_sound(alloc, one);
    (
        nx_inputs(alloc, one, edge, from, files, kinds, count),
        nx_inputs(
            alloc,
            other,
            edge,
            from,
            files_other,
            kinds_other,
            count_other,
        ),
    )
}

/// `nx_is_phony`. Free: the number where the status is not done.
pub fn is_phony_twice(
    alloc: Global,
    one: &mut Session,
    other: &mut Session,
    edge: usize,
    phony: &mut i32,
    phony_other: &mut i32,
) -> (i32, i32)
    requires { one.old.kept ≡ other.old.kept }
    ensures same { SameAnswer result.0 result.1 (phony.new ≡ phony_other.new) }
    ensures kept { one.new.kept ≡ other.new.kept }
{
    (
        nx_is_phony(alloc, one, edge, phony),
        nx_is_phony(alloc, other, edge, phony_other),
    )
}

/// `nx_output`. Free: the number where the status is not done.
pub fn output_twice(
    alloc: Global,
    one: &mut Session,
    other: &mut Session,
    edge: usize,
    index: usize,
    file: &mut usize,
    file_other: &mut usize,
) -> (i32, i32)
    requires { one.old.kept ≡ other.old.kept }
    ensures same { SameAnswer result.0 result.1 (file.new ≡ file_other.new) }
    ensures kept { one.new.kept ≡ other.new.kept }
{
    graph_is_sound(alloc, one);
    (
        nx_output(alloc, one, edge, index, file),
        nx_output(alloc, other, edge, index, file_other),
    )
}

/// `nx_outputs`. Free: the number of outputs where the status is not done.
pub fn outputs_twice(
    alloc: Global,
    one: &mut Session,
    other: &mut Session,
    edge: usize,
    from: usize,
    files: &mut [usize],
    files_other: &mut [usize],
    count: &mut usize,
    count_other: &mut usize,
) -> (i32, i32)
    requires kept { one.old.kept ≡ other.old.kept }
    requires files { files.old ≡ files_other.old }
    ensures same { SameBuffer result.0 result.1 files.new files_other.new count.new
        count_other.new }
    ensures kept { one.new.kept ≡ other.new.kept }
{
    graph_is_sound(alloc, one);
    (
        nx_outputs(alloc, one, edge, from, files, count),
        nx_outputs(alloc, other, edge, from, files_other, count_other),
    )
}

/// `nx_rule_name`. For a graph of statements. Free: the length where the status is neither done nor
/// short.
pub fn rule_name_twice(
    alloc: Global,
    one: &mut Session,
    other: &mut Session,
    edge: usize,
    buffer: &mut [u8],
    buffer_other: &mut [u8],
    needed: &mut usize,
    needed_other: &mut usize,
) -> (i32, i32)
    requires kept { one.old.kept ≡ other.old.kept }
    requires buffer { buffer.old ≡ buffer_other.old }
    ensures same { IfStated one.old.kept (SameBuffer result.0 result.1 buffer.new buffer_other.new
        needed.new needed_other.new) }
    ensures kept { one.new.kept ≡ other.new.kept }
{
    (
        nx_rule_name(alloc, one, edge, buffer, needed),
        nx_rule_name(alloc, other, edge, buffer_other, needed_other),
    )
}

/// `nx_validation`. Free: the number where the status is not done.
pub fn validation_twice(
    alloc: Global,
    one: &mut Session,
    other: &mut Session,
    edge: usize,
    index: usize,
    file: &mut usize,
    file_other: &mut usize,
) -> (i32, i32)
    requires { one.old.kept ≡ other.old.kept }
    ensures same { SameAnswer result.0 result.1 (file.new ≡ file_other.new) }
    ensures kept { one.new.kept ≡ other.new.kept }
{
    graph_is_sound(alloc, one);
    (
        nx_validation(alloc, one, edge, index, file),
        nx_validation(alloc, other, edge, index, file_other),
    )
}
