//! Whether displacements are signed numbers of 32 bits.

ghost use Rattle.std.specs.Prelude.{◌≡◌, ◌≤ℤ◌, ◌*ℤ◌, ◌^◌, pos, negsuc, true, IsTrue};
ghost use Rattle.jz_words.specs.Sizes.{bytes_of};
ghost use Rattle.jz_words.specs.Readings.{fits_bytes};
ghost use Rattle.jz_runs.specs.Trees.{done};
ghost use Rattle.jz_operations.specs.Rows.{accesses};
ghost use Rattle.jz_operations.specs.Insns.{displacement, slots_in, Fits, AllFit};
ghost use Rattle.jz_place.specs.Bodies.{asked_of, then_body, body_of};
ghost use Rattle.jz_place.specs.Codes.{TestFits, BodyFits};

use jz_data::Seq;
use jz_operations::{Action, Arg, Cell, Places};
use jz_place::{Node, Test};
use jz_words::{Size, fits_four_bytes};

/// As many bytes as so many cells have.
fn bytes_before(size: Size, cells: i32) -> i128
    ensures is { result ≡ pos (bytes_of size) *ℤ cells }
    ensures least { negsuc (2 ^ 40) ≤ℤ result }
    ensures most { result ≤ℤ pos (2 ^ 40) }
{
    let cells = i128::from(cells);
    match size {
        Size::S8 => cells,
        Size::S16 => 2 * cells,
        Size::S32 => 4 * cells,
        Size::S64 => 8 * cells,
    }
}

fn slot_of(places: &Places<'_>, variable: u32) -> u32
    ensures { result ≡ slots_in places.now variable }
{
    match places.slots.get(variable as usize) {
        Some(slot) => *slot,
        None => 0,
    }
}

fn cell_fits(places: &Places<'_>, cell: Cell, size: Size) -> bool
    ensures { result ≡ fits_bytes 4 (displacement (slots_in places.now) cell size) }
{
    let number = i128::from(slot_of(places, cell.of)) + bytes_before(size, cell.offset);
    fits_four_bytes(number)
}

fn arg_fits(places: &Places<'_>, arg: Arg, size: Size) -> bool
    ensures { result ≡ true → Fits (slots_in places.now) size arg }
{
    match arg {
        Arg::Var(_) => true,
        Arg::Imm(_) => true,
        Arg::Mem(_) => true,
        Arg::Cell(cell) => cell_fits(places, cell, size),
        Arg::At(_, _) => true,
    }
}

fn action_fits(places: &Places<'_>, action: Action) -> bool
    ensures { result ≡ true → AllFit (slots_in places.now) (accesses action) }
{
    match action {
        Action::Alu(_, size, to, from, _) => {
            arg_fits(places, to, size) && arg_fits(places, from, size)
        }
        Action::Mov(size, to, from) => arg_fits(places, to, size) && arg_fits(places, from, size),
        Action::Extend {
            signed: _,
            to: _,
            from,
            var: _,
            rm,
        } => arg_fits(places, rm, from),
        Action::Lea(_, _) => true,
        Action::One(_, size, rm) => arg_fits(places, rm, size),
        Action::Wide(_, size, _, _, rm) => arg_fits(places, rm, size),
        Action::Imul(size, _, rm) => arg_fits(places, rm, size),
        Action::ImulBy(size, _, rm, _) => arg_fits(places, rm, size),
        Action::Shift(_, size, rm, _) => arg_fits(places, rm, size),
        Action::ShiftBy(_, size, rm, _) => arg_fits(places, rm, size),
        Action::Bswap(_, _) => true,
        Action::Sign(_, _, _) => true,
        Action::Set(_, rm) => arg_fits(places, rm, Size::S8),
        Action::Cmov(_, size, _, rm) => arg_fits(places, rm, size),
    }
}

fn test_fits(places: &Places<'_>, test: Test) -> bool
    ensures { result ≡ true → TestFits (slots_in places.now) (asked_of test) }
{
    match test {
        Test::Always => true,
        Test::If(None, _) => true,
        Test::If(Some(operation), _) => action_fits(places, operation.action),
    }
}

/// Whether the displacement of each cell that is accessed is a signed number of 32 bits.
#[cycle(fit)]
pub fn block_fits(places: &Places<'_>, nodes: &Seq<Node>) -> bool
    ensures { result ≡ true → BodyFits (slots_in places.now) (body_of nodes.now) }
{
    for i in 0..nodes.len() {
        if !node_fits(places, &nodes.as_slice()[i]) {
            return false;
        }
    }
    true
}

#[cycle(fit)]
fn node_fits(places: &Places<'_>, node: &Node) -> bool
    ensures { result ≡ true → BodyFits (slots_in places.now) (then_body node.now done) }
{
    match node {
        Node::Do(operation) => action_fits(places, operation.action),
        Node::If(test, yes, no) => {
            test_fits(places, *test) && block_fits(places, yes) && block_fits(places, no)
        }
        Node::While(_, prologue, test, inner) => {
            block_fits(places, prologue) && test_fits(places, *test) && block_fits(places, inner)
        }
    }
}
