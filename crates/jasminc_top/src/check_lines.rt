//! The lines that tell why the functions of a text are not all safe, without their line feeds.

ghost use Rattle.std.specs.Prelude.{◌≡◌, ◌++◌, OnOk};
ghost use Rattle.jasminc_top.specs.CheckLines.{unsafe_text};

use crate::interp_lines::{write_fun_limit, write_unread};
use jasminc_check::{Refused, write_alarm};
use std::alloc::AllocError;

pub fn write_unsafe(line: &mut Vec<u8>, refused: &Refused) -> Result<(), AllocError>
    ensures { OnOk result (line.new.items ≡ line.old.items ++ unsafe_text refused.now) }
{
    match refused {
        Refused::Unread(unread) => write_unread(line, *unread),
        Refused::Limit(passed) => write_fun_limit(line, passed),
        Refused::Alarm(alarm) => write_alarm(line, alarm),
    }
}
