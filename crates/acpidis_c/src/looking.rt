//! What is copied of the values of a set.
ghost use Rattle.std.specs.Prelude.{◌≡◌, List};
ghost use Rattle.acpidis_c.specs.Codes.{code_of, fault_number};
ghost use Rattle.acpidis_c.specs.Sets.{state_of};
ghost use Rattle.acpidis_c.specs.declared.contents.Contents.{Contents};
ghost use Rattle.acpidis_c.specs.Reads.{no_sizes, sizes_of, CopiesFrom, CopiesItems, CopiesListed};

use crate::code::{Ended, Fault, code_of};
use crate::contents::{BodyValue, Contents, MethodValue, RowValue};
use crate::handle::Set;
use crate::state::State;
use std::alloc::Global;

/// How many values a set has, and how many bytes their texts have.
#[repr(C)]
#[derive(Drop)]
pub struct Sizes {
    /// The code of the call. With another than 0 the other numbers are 0.
    pub code: u32,
    pub tables: usize,
    pub rows: usize,
    pub row_texts: usize,
    pub methods: usize,
    pub method_texts: usize,
    pub bodies: usize,
    pub body_texts: usize,
}

/// Only a code is told.
pub(crate) fn no_sizes(fault: Fault) -> Sizes
    ensures { result ≡ no_sizes (fault_number fault) }
{
    Sizes {
        code: fault.number(),
        tables: 0,
        rows: 0,
        row_texts: 0,
        methods: 0,
        method_texts: 0,
        bodies: 0,
        body_texts: 0,
    }
}

/// How many values an open set has.
pub(crate) fn sizes_of(state: &State) -> Sizes
    ensures { result ≡ sizes_of state.now.contents }
{
    match state.listed() {
        Ok(contents) => Sizes {
            code: 0,
            tables: contents.tables.len(),
            rows: contents.rows.items.len(),
            row_texts: contents.rows.texts.len(),
            methods: contents.methods.items.len(),
            method_texts: contents.methods.texts.len(),
            bodies: contents.bodies.items.len(),
            body_texts: contents.bodies.texts.len(),
        },
        Err(fault) => no_sizes(fault),
    }
}

/// A list of what a set has.
pub(crate) trait Look {
    type Item: Copy;

    ghost items: { Self → Contents → List Self.Item };

    fn items(self, contents: &Contents) -> &[Self::Item]
        ensures { result.now ≡ items self contents.now };
}

/// The indexes of the dumps of its tables.
#[derive(Clone, Copy)]
pub(crate) struct Tables;

impl Look for Tables {
    type Item = usize;

    ghost items = { λ _ x. x.tables.items };

    fn items(self, contents: &Contents) -> &[usize] {
        contents.tables.as_slice()
    }
}

/// The rows of its namespace.
#[derive(Clone, Copy)]
pub(crate) struct Rows;

impl Look for Rows {
    type Item = RowValue;

    ghost items = { λ _ x. x.rows.items.items };

    fn items(self, contents: &Contents) -> &[RowValue] {
        contents.rows.items.as_slice()
    }
}

/// Its methods.
#[derive(Clone, Copy)]
pub(crate) struct Methods;

impl Look for Methods {
    type Item = MethodValue;

    ghost items = { λ _ x. x.methods.items.items };

    fn items(self, contents: &Contents) -> &[MethodValue] {
        contents.methods.items.as_slice()
    }
}

/// The bodies of its methods.
#[derive(Clone, Copy)]
pub(crate) struct Bodies;

impl Look for Bodies {
    type Item = BodyValue;

    ghost items = { λ _ x. x.bodies.items.items };

    fn items(self, contents: &Contents) -> &[BodyValue] {
        contents.bodies.items.as_slice()
    }
}

/// The texts of its rows (0), of its methods (1) or of its bodies (any other number).
#[derive(Clone, Copy)]
pub(crate) struct Texts {
    pub(crate) of: u32,
}

impl Look for Texts {
    ghost use Rattle.acpidis_c.specs.Reads.{texts_of};

    type Item = u8;

    ghost items = { λ texts x. texts_of texts.of x };

    fn items(self, contents: &Contents) -> &[u8] {
        if self.of == 0 {
            contents.rows.texts.as_slice()
        } else if self.of == 1 {
            contents.methods.texts.as_slice()
        } else {
            contents.bodies.texts.as_slice()
        }
    }
}

/// Copies items from one on.
pub(crate) fn copy<T: Copy>(items: &[T], from: usize, out: &mut [T]) -> Ended
    ensures { CopiesFrom items.now from out.old out.new (code_of result) }
{
    if from > items.len() || out.len() > items.len() - from {
        return Err(Fault::OutOfRange);
    }
    out.copy_from_slice(&items[from..from + out.len()]);
    Ok(())
}

/// Copies items of what an open set has, from one on.
fn copy_listed<L: Look + Drop>(state: &State, list: L, from: usize, out: &mut [L::Item]) -> Ended
    ensures { CopiesListed (L.items list) state.now.contents from out.old out.new (code_of result) }
{
    let contents = match state.listed() {
        Ok(contents) => contents,
        Err(fault) => return Err(fault),
    };
    copy(list.items(contents), from, out)
}

/// Copies items of what a set has, from one on, and answers the code of the call.
pub(crate) fn copy_items<L: Look + Drop>(
    alloc: Global,
    set: &mut Set,
    list: L,
    from: usize,
    out: &mut [L::Item],
) -> u32
    ensures copied { CopiesItems (L.items list) (state_of set.old) from out.old out.new result }
    ensures same { state_of set.new ≡ state_of set.old }
{
    let Some(state) = set.take(alloc) else {
        return Fault::Closed.number();
    };
    let code = code_of(&copy_listed(&state, list, from, out));
    set.put(state);
    code
}
