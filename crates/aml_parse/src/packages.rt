//! Packages, apart from the terms in them.
ghost use Rattle.std.specs.Prelude.{◌≡◌, ◌-◌, length, IfOk};
ghost use Rattle.aml_names.specs.NameReading.{Gives};
ghost use Rattle.aml_code.specs.Packages.{span_at};

use aml_code::{CodeFault, PkgWidth, offset_of, span_of};

/// A package: the width of its length, where its content ends, the content, and what is behind it.
pub fn package_of(end: u32, bytes: &[u8]) -> Result<(PkgWidth, u32, &[u8], &[u8]), CodeFault>
    ensures exact { Gives (λ x. (x.0, x.2.now, x.3.now)) result (span_at end bytes.now) }
    ensures ends { IfOk result (λ x. x.1 ≡ end - length x.3.now) }
{
    let (width, inside, behind) = span_of(end, bytes)?;
    let inner = offset_of(end, behind);
    Ok((width, inner, inside, behind))
}
