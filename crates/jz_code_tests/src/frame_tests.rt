//! Frames, worked by hand.

use jz_data::{Failure, Seq};
use jz_operations::Stacked;
use jz_place::PlacedNode;
use jz_stack::{lay_out, saved, with_frame};
use jz_words::Size;
use std::alloc::{AllocError, Global};
use std::test::Fail;
use x64_insn::{Alu, Base, Insn, Mem, Operand, Reg};

/// Stack variables, their places, and where they end; none where they take too much.
struct Row {
    variables: &'static [(Size, u32)],
    offsets: &'static [u32],
    end: Option<u32>,
}

const ROWS: [Row; 12] = [
    Row {
        variables: &[],
        offsets: &[],
        end: Some(0),
    },
    Row {
        variables: &[(Size::S64, 1)],
        offsets: &[0],
        end: Some(8),
    },
    Row {
        variables: &[(Size::S8, 1), (Size::S64, 1)],
        offsets: &[0, 8],
        end: Some(16),
    },
    Row {
        variables: &[
            (Size::S8, 3),
            (Size::S16, 1),
            (Size::S32, 1),
            (Size::S64, 1),
        ],
        offsets: &[0, 4, 8, 16],
        end: Some(24),
    },
    Row {
        variables: &[(Size::S16, 5), (Size::S8, 1), (Size::S32, 2)],
        offsets: &[0, 10, 12],
        end: Some(20),
    },
    Row {
        variables: &[
            (Size::S64, 1),
            (Size::S8, 1),
            (Size::S16, 1),
            (Size::S8, 1),
            (Size::S32, 1),
        ],
        offsets: &[0, 8, 10, 12, 16],
        end: Some(20),
    },
    Row {
        variables: &[(Size::S32, 1), (Size::S64, 2), (Size::S8, 7)],
        offsets: &[0, 8, 24],
        end: Some(31),
    },
    Row {
        variables: &[(Size::S64, 8192)],
        offsets: &[0],
        end: Some(65536),
    },
    Row {
        variables: &[(Size::S8, 65535), (Size::S8, 1)],
        offsets: &[0, 65535],
        end: Some(65536),
    },
    Row {
        variables: &[(Size::S64, 8192), (Size::S8, 1)],
        offsets: &[],
        end: None,
    },
    Row {
        variables: &[(Size::S8, 65535), (Size::S16, 1)],
        offsets: &[],
        end: None,
    },
    Row {
        variables: &[(Size::S64, 65536)],
        offsets: &[],
        end: None,
    },
];

fn stacked(alloc: Global, row: &Row) -> Result<Vec<Stacked>, AllocError> {
    let mut variables = Vec::new(alloc);
    for (size, count) in row.variables {
        variables.push(Stacked {
            size: *size,
            count: *count,
        })?;
    }
    Ok(variables)
}

#[test]
fn lays_out_each_row(rt: HostRuntime) -> Result<(), Fail> {
    let alloc = rt.alloc();
    for (i, row) in ROWS.iter().enumerate() {
        let variables = stacked(alloc, row)?;
        match lay_out(alloc, variables.as_slice()) {
            Ok(layout) => {
                assert!(rt; layout.offsets.as_slice() == row.offsets, "row {i}");
                assert!(rt; Some(layout.end) == row.end, "row {i}");
            }
            Err(Failure::Refused(_)) => assert!(rt; row.end.is_none(), "row {i}"),
            Err(Failure::OutOfMemory) => panic!(rt; "no memory for row {i}"),
        }
    }
    Ok(())
}

/// R12 as an index, and RBX: both are saved, RBX first, above 9 bytes of variables.
#[test]
fn saves_what_a_body_names(rt: HostRuntime) -> Result<(), Fail> {
    let alloc = rt.alloc();
    let address = Mem {
        base: Base::Reg(Reg::Rdi),
        index: Some((Reg::R12, 8)),
        disp: 0,
    };
    let to = Operand::Reg(Reg::Rax);
    let mut nodes = Seq::new(alloc);
    nodes.push(PlacedNode::Do(Insn::Mov(Size::S64, to, Operand::Mem(address))))?;
    let from = Operand::Reg(Reg::Rbx);
    nodes.push(PlacedNode::Do(Insn::Alu(Alu::Add, Size::S64, to, from)))?;
    let found = saved(alloc, &nodes)?;
    assert!(rt; found.as_slice() == [Reg::Rbx, Reg::R12].as_slice());
    let made = with_frame(alloc, nodes, 9)?;
    assert_eq!(rt; made.size, 40);
    assert!(rt; made.saved.as_slice() == [Reg::Rbx, Reg::R12].as_slice());
    assert_eq!(rt; made.body.len(), 8);
    Ok(())
}

/// A body that needs no frame stays as it is.
#[test]
fn has_no_frame_where_nothing_stands_in_it(rt: HostRuntime) -> Result<(), Fail> {
    let alloc = rt.alloc();
    let mut nodes = Seq::new(alloc);
    nodes.push(PlacedNode::Do(Insn::Cqo))?;
    let made = with_frame(alloc, nodes, 0)?;
    assert_eq!(rt; made.size, 0);
    assert!(rt; made.saved.is_empty());
    assert_eq!(rt; made.body.len(), 1);
    Ok(())
}
