//! The lines of a body that are told as it is read.
ghost use Rattle.std.specs.Prelude.{◌≤◌, ⊤, length};

use super::fixtures::Bare;
use aml_code::{CodeFault, Path, Sink, Telling};
use aml_parse::tell_body;
use aml_text::told_text;
use std::alloc::Global;
use std::panic::Expect;

/// A body whose names take no arguments.
#[derive(Clone, Copy)]
struct Code<'c> {
    alloc: Global,
    code: &'c [u8],
}

impl Telling for Code<'_> {
    type Made = ();

    type Fault = CodeFault;

    ghost can_tell = { λ t. length t.code.now ≤ 16777216 };

    ghost tells = { λ _ _ _. ⊤ };

    ghost fails = { λ _ _. ⊤ };

    fn tell_all<S: Sink>(self, sink: &mut S) -> Result<(), CodeFault> {
        let scope = Path::root(self.alloc);
        tell_body(self.alloc, self.code, &Bare, &scope, 1, sink)?;
        Ok(())
    }
}

/// If (Arg1) { Store (One, Local0) }, and a call in a Return.
const BODY: &[u8] = b"\xA0\x05\x69\x70\x01\x60\xA4FOO_";

/// Its lines at the first level.
const LINES: &[u8] = b"  If (Arg1) {\n    Store (One, Local0)\n  }\n  Return (FOO_)\n";

/// Whether these lines were told.
fn has_lines(told: Result<Option<Vec<u8>>, CodeFault>, lines: &[u8]) -> bool {
    match told {
        Ok(Some(text)) => text.as_slice() == lines,
        _ => false,
    }
}

#[test]
fn a_body_is_told_in_lines(rt: HostRuntime) {
    let alloc = rt.alloc();
    let told = told_text(alloc, 99, Code { alloc, code: BODY });
    assert!(rt; has_lines(told, LINES));
}
