//! The lines that tell why functions of a text are not constant time, without their line feeds.

ghost use Rattle.std.specs.Prelude.{◌≡◌, ◌++◌, OnOk};
ghost use Rattle.jasminc_top.specs.CtLines.{breached_text};

use crate::interp_lines::{write_fun_limit, write_unread};
use jasminc_ct::{Refused, write_breach};
use std::alloc::AllocError;

pub fn write_breached(line: &mut Vec<u8>, refused: &Refused) -> Result<(), AllocError>
    ensures { OnOk result (line.new.items ≡ line.old.items ++ breached_text refused.now) }
{
    match refused {
        Refused::Unread(unread) => write_unread(line, *unread),
        Refused::Limit(passed) => write_fun_limit(line, passed),
        Refused::Breach(found) => write_breach(line, found),
    }
}
