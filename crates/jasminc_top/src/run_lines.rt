//! The lines that tell why a function of a text is not called, without their line feeds.

ghost use Rattle.std.specs.Prelude.{◌≡◌, ◌++◌, OnOk};
ghost use Rattle.jasminc_top.specs.RunLines.{uncalled_text};

use crate::compile_lines::write_uncompiled;
use crate::interp_lines::{write_unknown, write_unmet};
use jasminc_selfrun::Refused;
use std::alloc::AllocError;

pub fn write_uncalled(line: &mut Vec<u8>, refused: &Refused) -> Result<(), AllocError>
    ensures { OnOk result (line.new.items ≡ line.old.items ++ uncalled_text refused.now) }
{
    match refused {
        Refused::Compile(uncompiled) => write_uncompiled(line, uncompiled),
        Refused::NoFunction(name) => write_unknown(line, name),
        Refused::Items => line.extend_from_slice(b"precondition items"),
        Refused::Unmet(pre) => write_unmet(line, pre),
    }
}
