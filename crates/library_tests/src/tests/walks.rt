//! The terms of a load, each where it stands, with the constants, the field units and the regions in them.
use super::fixtures::{OfLoad, Want, holds_of_load, holds_of_loaded, is_whole_or_no_memory};
use aml_code::{Name, Node, Part, Path, Seg, listed_row};
use aml_load::{LoadFault, StandingTerm, StandingTerms, load_any_run, standing_terms};
use aml_set::Loaded;
use aml_walk::{FieldBase, FieldUnit, base_of, number_of, unit_at, units_of};
use std::alloc::{AllocError, Global};
use std::fmt::Write;

/// The first of two Scopes of one name stands before the device that is nearer, the second behind it. And a region with
/// fields of each kind, a guard, and a method.
const CODES: [&[u8]; 2] = [
    b"[\x82\x05DEV0\x10\x2B\\_SB_\x10\x0BDEV0\x08AAAA\x01[\x82\x0BDEV0\x08AAAA\x00\x10\x0BDEV0\x08BBBB\xFF",
    b"[\x80REG0\x01\x0B\x00\x01\x0A\x10[\x81\x17REG0\x01\x00\x10FLD0\x03\x01\x01\x00\x00\x05FLD1\x08\
        \xA0\x09\x00\x15CCCC\x08\x02\x14\x07MMMM\x00\x01[\x86\x0FFLD0FLD1\x01IDXA\x08\
        [\x87\x10REG0FLD0\x01\x01BNKA\x04",
];

/// The unit right below the root that has a segment: the place of its term, its first bit and its number of bits.
type Unit = (&'static [u8; 4], Option<(usize, u64, u32)>);

/// The terms of a load: the table, the scope, the mnemonic, the constants; what a field list lies over, and its units;
/// and whether it only may stand there. Units that are found by their paths, and a name that is none.
struct Terms {
    any_run: bool,
    text: &'static str,
    units: &'static [Unit],
}

const PLAIN: Terms = Terms {
    any_run: false,
    text: "0 \\ Device
0 \\ Scope
0 \\_SB_ Scope
0 \\DEV0 Name 1
0 \\_SB_ Device
0 \\_SB_.DEV0 Name 0
0 \\_SB_ Scope
0 \\_SB_.DEV0 Name 18446744073709551615
1 \\ OperationRegion 256 16
1 \\ Field over \\REG0 FLD0 16 3 FLD1 24 8
1 \\ If 0
1 \\ External
1 \\ Method
1 \\ IndexField over \\FLD0 \\FLD1 IDXA 0 8
1 \\ BankField 1 over \\REG0 \\FLD0 BNKA 0 4
",
    units: &[
        (b"FLD1", Some((9, 24, 8))),
        (b"BNKA", Some((14, 0, 4))),
        (b"CCCC", None),
    ],
};

/// Tables whose code outside methods may run: a device in a branch, which stands once more behind it; a scope that
/// nothing declares; and a region with its field in a branch.
const RUN_CODES: [&[u8]; 2] = [
    b"\x08CCCC\x01\xA0\x0CCCCC[\x82\x05DEV0\xA1\x07\x08AAAA\x00[\x82\x0BDEV0\x08BBBB\x01\
        \x10\x0BGONE\x08EEEE\x00\xA2\x0F\x01\x10\x0CDEV0\x08FFFF\x0A\x02",
    b"\xA0\x1B\x01[\x80REG0\x01\x0B\x00\x01\x0A\x10[\x81\x0BREG0\x01FLD0\x08",
];

const RUN: Terms = Terms {
    any_run: true,
    text: "0 \\ Name 1
0 \\ If
0 \\ Device Maybe
0 \\ Else
0 \\ Name 0 Maybe
0 \\ Device
0 \\DEV0 Name 1 Maybe
0 \\ Scope
0 \\GONE Name 0 Maybe
0 \\ While 1
0 \\ Scope Maybe
0 \\DEV0 Name 2 Maybe
1 \\ If 1
1 \\ OperationRegion 256 16 Maybe
1 \\ Field over \\REG0 FLD0 0 8 Maybe
",
    units: &[(b"FLD0", Some((14, 0, 8)))],
};

/// Adds the constants among the parts of a term.
fn push_numbers(out: &mut String, parts: &[Part]) -> Result<(), AllocError> {
    for part in parts {
        if let Part::Child(node) = part {
            if let Some(number) = number_of(node) {
                write!(out, " {number}")?;
            }
        }
    }
    Ok(())
}

/// Adds the path that a name means in a scope.
fn push_path(
    alloc: Global,
    out: &mut String,
    loaded: &Loaded<'_>,
    scope: &Path,
    name: &Name,
) -> Result<(), AllocError> {
    if let Some(path) = loaded.space.find(alloc, scope, name)? {
        write!(out, " {path}")?;
    }
    Ok(())
}

/// Adds what a field list lies over that stands in a scope.
fn push_base(
    alloc: Global,
    out: &mut String,
    loaded: &Loaded<'_>,
    scope: &Path,
    base: FieldBase<'_>,
) -> Result<(), AllocError> {
    out.push_str(" over")?;
    match base {
        FieldBase::Region(region) => push_path(alloc, out, loaded, scope, region),
        FieldBase::Index(first, second) | FieldBase::Bank(first, second) => {
            push_path(alloc, out, loaded, scope, first)?;
            push_path(alloc, out, loaded, scope, second)
        }
    }
}

fn push_units(out: &mut String, units: &[FieldUnit]) -> Result<(), AllocError> {
    for unit in units {
        write!(out, " {} {} {}", unit.segment, unit.bit, unit.bits)?;
    }
    Ok(())
}

/// Adds what the field list of a term lies over, and its units.
fn push_fields(
    alloc: Global,
    out: &mut String,
    loaded: &Loaded<'_>,
    scope: &Path,
    term: &Node,
) -> Result<(), AllocError> {
    let Some(base) = base_of(term) else {
        return Ok(());
    };
    push_base(alloc, out, loaded, scope, base)?;
    let units = units_of(alloc, term)?;
    push_units(out, &units)
}

fn push_term(
    alloc: Global,
    out: &mut String,
    loaded: &Loaded<'_>,
    scope: &Path,
    standing: &StandingTerm<'_>,
) -> Result<(), AllocError> {
    let Node::Op { opcode, parts, .. } = standing.term else {
        return Ok(());
    };
    let title = match listed_row(*opcode) {
        Some(row) => row.mnemonic,
        None => "",
    };
    write!(out, "{} {scope} {title}", standing.table)?;
    push_numbers(out, parts.as_slice())?;
    push_fields(alloc, out, loaded, scope, standing.term)?;
    out.push_str(if standing.sure { "\n" } else { " Maybe\n" })
}

fn push_terms(
    alloc: Global,
    out: &mut String,
    loaded: &Loaded<'_>,
    standing: &StandingTerms<'_>,
) -> Result<(), AllocError> {
    for term in &standing.terms {
        let scope = standing.space.path(term.scope()).to_path(alloc)?;
        push_term(alloc, out, loaded, &scope, term)?;
    }
    Ok(())
}

/// Whether the unit right below the root with this segment is found: at the place of its term, with its first bit and
/// its number of bits.
fn has_unit(
    alloc: Global,
    terms: &StandingTerms<'_>,
    segment: &[u8; 4],
    wanted: Option<(usize, u64, u32)>,
) -> Result<bool, AllocError> {
    let path = Path::below(alloc, &[], &[Seg(*segment)])?;
    Ok(match (unit_at(alloc, terms, &path)?, wanted) {
        (Some(place), Some((term, bit, bits))) => {
            place.term == term && place.unit.bit == bit && place.unit.bits == bits
        }
        (None, None) => true,
        _ => false,
    })
}

/// Whether units are found by their paths.
fn has_units(alloc: Global, terms: &StandingTerms<'_>, units: &[Unit]) -> Result<bool, AllocError> {
    for unit in units {
        if !has_unit(alloc, terms, unit.0, unit.1)? {
            return Ok(false);
        }
    }
    Ok(true)
}

/// Whether these are the wanted terms.
fn are_terms(
    alloc: Global,
    loaded: &Loaded<'_>,
    terms: &StandingTerms<'_>,
    wanted: &Terms,
) -> Result<bool, AllocError> {
    let mut text = String::new(alloc);
    push_terms(alloc, &mut text, loaded, terms)?;
    Ok(text.as_str() == wanted.text && has_units(alloc, terms, wanted.units)?)
}

/// Whether an answer is the wanted terms.
fn has_terms(
    alloc: Global,
    loaded: &Loaded<'_>,
    answer: &Result<StandingTerms<'_>, LoadFault>,
    wanted: &Terms,
) -> Result<bool, Want> {
    match answer {
        Ok(terms) => Ok(are_terms(alloc, loaded, terms, wanted)?),
        Err(LoadFault::NoMemory) => Err(Want::Memory),
        Err(_) => Ok(false),
    }
}

/// That a load has these terms.
impl OfLoad for Terms {
    fn holds(&self, alloc: Global, loaded: &Loaded<'_>) -> Result<bool, Want> {
        let answer = standing_terms(alloc, loaded.trees.as_slice(), &[], self.any_run);
        has_terms(alloc, loaded, &answer, self)
    }
}

/// Whether the load of the tables whose code may run has its terms.
fn has_run_terms(alloc: Global) -> Result<bool, Want> {
    let answer = load_any_run(alloc, &RUN_CODES, &[], false);
    holds_of_loaded(alloc, &answer, &RUN)
}

#[test]
fn terms_where_they_stand_or_no_memory(rt: HostRuntime) {
    let answer = holds_of_load(rt.alloc(), &CODES, &[], &PLAIN);
    assert!(rt; is_whole_or_no_memory(&rt, answer));
    assert!(rt; is_whole_or_no_memory(&rt, has_run_terms(rt.alloc())));
}
